//! Link cells.
#![tactic(auto)]

ghost use Rattle.std.specs.Prelude.{◌≡◌};
ghost use Rattle.node_arena.specs.declared.TheConstants.{MOST_CELLS, MOST_HOLDS};

mod arena;
mod cell;
mod closing;
mod copying;
mod head;
mod node;
mod numbers;
mod row;
mod rows;

pub use arena::Arena;
pub use cell::{Cell, Link};
pub use closing::Closing;
pub use row::{Entry, RowCell, RowId};
pub use rows::Rows;

/// The number of no cell.
pub(crate) const NONE: u32 = 0xffff_ffff;

/// Cells and row cells have numbers below it, so that there are no more of them than that.
pub const MOST_CELLS: u32 = 0x7fff_ffff;

/// How often a cell can be held. With as many links that name it, its count still fits into 32 bits.
pub const MOST_HOLDS: u32 = 0x7fff_ffff;

/// The limits, as numbers: a law.
pub fn limits()
    ensures cells { MOST_CELLS ≡ 2147483647 }
    ensures holds { MOST_HOLDS ≡ 2147483647 }
{}

/// In the closing phase, the count that stands for the head Done. The counts of before are below it, as no cell is held more than once
/// then, and `DONE + 1 + k` stands for the row cell k.
pub(crate) const DONE: u32 = 0x8000_0000;
