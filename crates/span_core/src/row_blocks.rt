//! Rows from their blocks.
ghost use Rattle.std.specs.Prelude.{◌≡◌, ℕ, ◌*◌, ◌<◌, ◌≤◌, ◌↔◌, List, Option, IsTrue, All, IfSome, IfNone};
ghost use Rattle.std.specs.Int.{bit_at};
ghost use Rattle.span_core.specs.declared.span.Span.{Span};
ghost use Rattle.span_core.specs.Block.{block};
ghost use Rattle.span_core.specs.Blocks.{Ascends, listed, IsRowOfBlocks, HaveFault, BlocksTellRows, RowsTellBlocks, FaultsTellNoRow};

use crate::{MOST_VARIABLES, Marks, Row, Span};

impl Row {
    /// The row of `v` variables that has these blocks at these positions, and no markers elsewhere.
    ///
    /// A variable of which no marker stands anywhere is absent. None exactly where there is no such row: some variable
    /// has a marker and is not opened once and closed once at the same position or a later one, or a bit of no
    /// variable is set. The positions of `blocks` ascend strictly; an empty block among them says no more than its
    /// absence.
    pub fn of_blocks(v: usize, blocks: &[(u32, Marks)]) -> Option<Row>
        requires few { v ≤ MOST_VARIABLES }
        requires ascending { Ascends blocks.now }
        ensures some { IfSome result (λ row. IsRowOfBlocks v blocks.now row) }
        ensures none { IfNone result ((row : List (Option Span)) → ¬ IsRowOfBlocks v blocks.now row) }
        ensures fault { IfNone result (HaveFault v blocks.now) }
    {
        let mut row = Row::empty();
        for k in 0..v {
            let start = place_of(blocks, 2 * (v - k) - 1);
            let end = place_of(blocks, 2 * (v - k) - 2);
            match (start, end) {
                (Some(start), Some(end)) if start <= end => row.push(Some(Span::new(start, end))),
                (None, None) => row.push(None),
                _ => return None,
            }
        }
        if row.has_blocks(blocks) {
            Some(row)
        } else {
            None
        }
    }

    /// Whether each of these blocks is the row's own at its position.
    fn has_blocks(&self, blocks: &[(u32, Marks)]) -> bool
        ensures { IsTrue result ↔ All (λ b. block self.now b.0 ≡ b.1) blocks.now }
    {
        blocks.iter().all(|(at, marks)| self.marks_at(*at).number() == marks.number())
    }
}

/// The first position at which the marker of this bit stands.
fn place_of(blocks: &[(u32, Marks)], bit: usize) -> Option<u32>
    requires bit { bit < 2 * MOST_VARIABLES }
    requires ascending { Ascends blocks.now }
    ensures some { IfSome result (λ at. bit_at (listed blocks.now at) bit ≡ 1) }
    ensures none { IfNone result ((at : ℕ) → bit_at (listed blocks.now at) bit ≡ 0) }
{
    for (at, marks) in blocks {
        if (marks.number() >> bit) & 1 == 1 {
            return Some(*at);
        }
    }
    None
}

/// A law: rows and blocks determine each other.
///
/// Rows of one length with the same block at each position are one, and each row is that of one list of blocks, none of
/// them empty.
pub fn blocks_tell_rows()
    ensures rows { BlocksTellRows }
    ensures blocks { RowsTellBlocks }
{}

/// A law: blocks are those of no row exactly where some variable has a marker and is not opened once and closed once at
/// the same position or a later one, or a bit of no variable is set.
pub fn faults_tell_no_row()
    ensures { FaultsTellNoRow }
{}
