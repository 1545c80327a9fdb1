//! Reading on where a document grows at its end.
//!
//! A table and a graph between two places are handed in and out, so that a caller keeps them between the pieces that come.
//! Who keeps a `Pass` in place of the graph keeps what is known of whole layers too.
ghost use Rattle.std.specs.Prelude.{◌≡◌, ℕ, ◌+◌, ◌^◌, ◌≤◌, [], ◌∷◌, length, IfErr, IfOk, OnErr, OnOk};
ghost use Rattle.span_core.specs.Lists.{Has};
ghost use Rattle.automaton_reading.specs.Reading.{ended, look_ups_asked};
ghost use Rattle.output_graph.specs.Graph.{sets_of as numbers_in};
ghost use Rattle.one_pass.specs.Faults.{IsFaultAt, IsFaultOf};
ghost use Rattle.one_pass.specs.Passes.{HasEnded, HasRead, HasStopped, HasStoppedAt, IsOpen, pass, sets_of, stop};
ghost use Rattle.one_pass.specs.Places.{bytes_at, end_at};

use crate::known::{Known, MOST_WORDS};
use crate::pass::{Pass, give_up_pass};
use crate::search::Search;
use output_graph::OutputGraph;
use set_table::{Table, TableFault};
use span_core::Steps;
use std::alloc::Global;
use std::sync::ledger::Ledger;

/// Reads a piece of the document, which stands at `at`, at each of its positions. No source of the layer has
/// been stepped or ended, its sets are sets of the table, and each position in its words stands before `at`; that
/// is so again behind the piece. After a refusal the graph is given up, and the table keeps what it holds.
///
/// With g live cells and l sets in the layer before, g' and l' after (0 where it is refused), e edges that are
/// read and r look-ups that the table makes first, or refuses, it takes at most g - g' + 3(l - l') + 6e + r * size
/// steps. `TableFault::Full` comes only where what the table holds and what reading the piece asks for weigh more
/// than its limit.
pub fn advance<L: Ledger>(
    alloc: Global,
    table: &mut Table<'_>,
    graph: OutputGraph,
    at: u32,
    piece: &[u8],
    steps: &mut Steps<L>,
) -> Result<OutputGraph, TableFault>
    requires open { IsOpen table.old graph at }
    requires few { at + length piece.now ≤ 2 ^ 28 }
    ensures read { IfOk result (λ g. HasRead table.old.graph (bytes_at at piece.now) (pass table.old graph steps.old)
        (pass table.new g steps.new)) }
    ensures open { IfOk result (λ g. IsOpen table.new g (at + length piece.now)) }
    ensures stopped { OnErr result (HasStopped table.old.graph (bytes_at at piece.now) (pass table.old graph steps.old)
        (stop table.new steps.new)) }
    ensures cause { IfErr result (λ e. IsFaultAt (bytes_at at piece.now) (pass table.old graph steps.old) e) }
{
    table.is_table();
    graph.is_graph();
    let mut pass = Pass {
        graph,
        known: Known::new(alloc, MOST_WORDS),
        search: Search::new(alloc),
        at,
    };
    if let Err(fault) = pass.read(table, piece, steps) {
        give_up_pass(pass);
        return Err(fault);
    }
    Ok(pass.graph)
}

/// Ends each source of the layer at `at`, the end of the document, under the conditions of `advance`. No set but
/// that of the ends is reached, so that the graph may be turned. It takes at most g - g' + 3l + 3e + r * size
/// steps; the refusals are those of `advance`.
pub fn finish<L: Ledger>(
    alloc: Global,
    table: &mut Table<'_>,
    graph: OutputGraph,
    at: u32,
    steps: &mut Steps<L>,
) -> Result<OutputGraph, TableFault>
    requires open { IsOpen table.old graph at }
    requires few { at ≤ 2 ^ 28 }
    ensures ended { IfOk result (λ g. HasEnded table.old.graph at (pass table.old graph steps.old) (pass table.new g steps.new)) }
    ensures every { IfOk result (λ g. g.stepped ≡ length g.layer) }
    ensures only { IfOk result (λ g. (s : ℕ) → Has (numbers_in g.next) s → s ≡ 0) }
    ensures stopped { OnErr result (HasStoppedAt table.old.graph (end_at at) (pass table.old graph steps.old) (stop table.new steps.new)) }
    ensures cause { IfErr result (λ e. IsFaultOf table.old []
        (look_ups_asked table.old.graph (sets_of (pass table.old graph steps.old)) (ended ∷ [])) e) }
{
    table.is_table();
    graph.is_graph();
    let pass = Pass {
        graph,
        known: Known::new(alloc, 0),
        search: Search::new(alloc),
        at,
    };
    pass.end(table, steps)
}
