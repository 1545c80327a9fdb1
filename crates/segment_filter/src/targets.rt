//! Where a set goes on a byte, asked of a table.
ghost use Rattle.std.specs.Prelude.{◌≡◌, ◌+◌, ◌<◌, ◌≤◌, true, length, IfErr, IfOk, OnErr};
ghost use Rattle.marked_automaton.specs.Automaton.{size};
ghost use Rattle.automaton_reading.specs.Reading.{byte_read};
ghost use Rattle.segment_filter.specs.Sets.{IsFullBy};
ghost use Rattle.segment_filter.specs.Next.{IsNext, first_target};
ghost use Rattle.set_table.specs.Tabled.{IsTabled, look_up, once_asked, was_asked};

use crate::FilterFault;
use set_table::{Table, TableFault};
use span_core::{Edge, Steps};
use std::sync::ledger::Ledger;

/// The set that the first edge of a set on a byte leads to, if there is any. It takes one step where
/// this was asked before, else at most one and the automaton's size. A refusal changes nothing.
pub(crate) fn asked_target<L: Ledger>(
    table: &mut Table<'_>,
    set: u32,
    byte: u8,
    steps: &mut Steps<L>,
) -> Result<Option<u32>, FilterFault>
    requires { set < length table.old.sets }
    ensures tabled { IsTabled table.new }
    ensures ok { IfOk result (λ to. (table.new ≡ once_asked table.old (look_up table.old set (byte_read byte))) ×
        IsNext table.old set byte table.new.sets to) }
    ensures err { OnErr result (table.new ≡ table.old) }
    ensures full { IfErr result (λ e. IsFullBy table.old (look_up table.old set (byte_read byte)) e) }
    ensures again { was_asked table.old (look_up table.old set (byte_read byte)) ≡ true → steps.new ≡ steps.old + 1 }
    ensures steps { steps.new ≤ steps.old + 1 + size table.old.graph }
{
    match table.row(set, byte, steps) {
        Ok(edges) => Ok(target_of(edges)),
        Err(TableFault::Full { weight }) => Err(FilterFault::Full { weight }),
        Err(TableFault::OutOfMemory) => Err(FilterFault::OutOfMemory),
    }
}

/// Where the first of some edges leads.
fn target_of(edges: &[Edge]) -> Option<u32>
    ensures { result ≡ first_target edges.now }
{
    if edges.is_empty() {
        return None;
    }
    Some(edges[0].to)
}
