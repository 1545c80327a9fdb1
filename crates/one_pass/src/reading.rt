//! Reading a whole document: the layer of the empty word, the intervals of positions, and the ends.
ghost use Rattle.std.specs.Prelude.{◌≡◌, ℕ, ◌+◌, ◌*◌, ◌^◌, ◌≤◌, length, IfErr, IfOk, OnErr, OnOk};
ghost use Rattle.span_core.specs.Intervals.{Covers};
ghost use Rattle.automaton_reading.specs.Reading.{edges_K};
ghost use Rattle.one_pass.specs.Builds.{IsNew, build};
ghost use Rattle.one_pass.specs.Faults.{IsReadFault};
ghost use Rattle.one_pass.specs.Passes.{HasKept};
ghost use Rattle.span_core.specs.Lists.{Has};
ghost use Rattle.output_graph.specs.Graph.{sets_of};
ghost use Rattle.one_pass.specs.Places.{AreReadWords, is_touched};
ghost use Rattle.one_pass.specs.Seen.{accepted_words};
ghost use Rattle.one_pass.specs.Weights.{WeighsWithin};

use crate::known::MOST_WORDS;
use crate::pass::{Pass, give_up_pass};
use output_graph::OutputGraph;
use set_table::{Table, TableFault};
use span_core::{OutOfMemory, Steps, Touched};
use std::alloc::Global;
use std::sync::ledger::Ledger;

/// Reads a document at some positions, in one pass: at each of them that has a byte it steps every set that is
/// reached, at the first position of each gap it goes to the sets' idle members, and at the end of the document
/// it ends every set. The table is new; on refusal it keeps what it holds, and the graph is given up.
///
/// The accepted words are those that are read; the sets that are reached and their look-ups, but those of bytes on
/// which a set stays and what may be passed over, then weigh no more than the table's limit. `TableFault::Full` comes only where the weight of
/// the reading passes it, and tells a weight that is no more. The steps, with two for each live cell of the graph
/// and two more, which are for turning it, are at most what `build` allows less one.
pub fn read<L: Ledger>(
    alloc: Global,
    table: &mut Table<'_>,
    doc: &[u8],
    positions: &Touched,
    steps: &mut Steps<L>,
) -> Result<OutputGraph, TableFault>
    requires new { IsNew table.old.graph table.old }
    requires few { length doc.now ≤ 2 ^ 28 }
    requires within { (q : ℕ) → Covers positions.now q → q ≤ length doc.now }
    ensures words { IfOk result (λ g. AreReadWords table.old.graph (is_touched positions.now) doc.now (accepted_words g)) }
    ensures ended { IfOk result (λ g. g.stepped ≡ length g.layer) }
    ensures only { IfOk result (λ g. (s : ℕ) → Has (sets_of g.next) s → s ≡ 0) }
    ensures weighs { OnOk result (WeighsWithin table.old.graph doc.now (is_touched positions.now) table.old.limit) }
    ensures steps { IfOk result (λ g. steps.new + (2 * length g.cells + 2) + 1 ≤ steps.old + build table.old.graph
        doc.now (is_touched positions.now)) }
    ensures cells { IfOk result (λ g. length g.cells ≤ edges_K table.old.graph doc.now (is_touched positions.now) + 1) }
    ensures stopped { OnErr result (steps.new + 1 ≤ steps.old + build table.old.graph doc.now (is_touched positions.now)) }
    ensures kept { OnErr result (HasKept table.old table.new) }
    ensures cause { IfErr result (λ e. IsReadFault table.old.graph (is_touched positions.now) doc.now table.old.limit e) }
{
    let mut pass = match Pass::begin(alloc, MOST_WORDS, table, steps) {
        Ok(pass) => pass,
        Err(OutOfMemory) => return Err(TableFault::OutOfMemory),
    };
    if let Err(fault) = pass.read_parts(table, doc, positions.parts(), steps) {
        give_up_pass(pass);
        return Err(fault);
    }
    pass.end(table, steps)
}
