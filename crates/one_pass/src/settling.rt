//! Settling a layer: the words of its settled sets are given, and their sources are given up; the others go on as they were.
//!
//! Nothing is looked up and no position is read: a source that goes on is stepped by an edge without marks to its own set, to
//! which its cell is handed on.
ghost use Rattle.std.specs.Prelude.{◌≡◌, ◌≤◌, ◌<◌, ◌+◌, ◌*◌, ◌↔◌, ℕ, [], true, false, length, IfOk, IsTrue, OnErr, OnOk};
ghost use Rattle.span_core.specs.Lists.{Has};
ghost use Rattle.node_arena.specs.Words.{Word};
ghost use Rattle.output_graph.specs.Graph.{IsCost, IsPast, IsPlace, IsStepped, sources};
ghost use Rattle.output_graph.specs.Order.{AreInOrder};
ghost use Rattle.output_graph.specs.Rows.{rows};
ghost use Rattle.output_graph.specs.Sound.{edges_of_ends};
ghost use Rattle.one_pass.specs.Flags.{AreKept, IsGivenBy, flag_at, given_ends, kept_edges, told_in};
ghost use Rattle.one_pass.specs.Going.{GoesOn};
ghost use Rattle.one_pass.specs.Readings.{so_far};
ghost use Rattle.one_pass.specs.Settling.{HasSettled, IsSettledBy};

use crate::pass::Pass;
use crate::settled::settled_sources;
use output_graph::{OutputGraph, RowLists};
use set_table::Table;
use span_core::{Edge, Marks, OutOfMemory, Steps};
use std::alloc::Global;
use std::sync::ledger::Ledger;

impl Pass {
    /// Gives the words of the settled sets of the layer, as rows, and gives these sources up. Where memory is wanting the pass is
    /// of no more use.
    pub(crate) fn settle<L: Ledger>(
        &mut self,
        alloc: Global,
        table: &Table<'_>,
        unspent: &[bool],
        lasting: &[bool],
        steps: &mut Steps<L>,
    ) -> Result<RowLists, OutOfMemory>
        requires goes_on { GoesOn table.now self.old }
        requires unspent { table.now.graph.states ≤ length unspent.now }
        requires lasting { table.now.graph.states ≤ length lasting.now }
        ensures settled { IfOk result (λ lists. HasSettled (IsSettledBy unspent.now lasting.now)
            (so_far table.now self.old) steps.old (so_far table.now self.new) lists steps.new) }
        ensures goes_on { OnOk result (GoesOn table.now self.new) }
        ensures stopped { OnErr result (steps.new ≤ steps.old + 6 * length self.old.graph.cells + 10 * length (sources self.old.graph) + 3) }
    {
        let settled = settled_sources(alloc, table, &self.graph, unspent, lasting)?;
        let at = self.at;
        let lists = settle_layer(alloc, &mut self.graph, at, &settled, steps)?;
        Ok(lists)
    }

    /// Stands at position 0 again, where one cell is live at most.
    pub(crate) fn rebase(&mut self) -> bool
        ensures value { IsTrue result ↔ length self.old.graph.cells ≤ 1 }
        ensures graph { self.new.graph ≡ self.old.graph }
        ensures known { self.new.known ≡ self.old.known }
        ensures waits { self.new.search.ahead.waiting ≡ self.old.search.ahead.waiting }
        ensures at { result ≡ true → self.new.at ≡ 0 }
        ensures same { result ≡ false → self.new ≡ self.old }
    {
        if self.graph.live() > 1 {
            return false;
        }
        self.search.begin_again();
        self.at = 0;
        true
    }
}

/// Settles a layer: the words of the sources that are told, as rows, from a copy of the graph; and these sources are given up. Where
/// none is told nothing is copied. Where memory is wanting the graph is of no more use.
fn settle_layer<L: Ledger>(
    alloc: Global,
    graph: &mut OutputGraph,
    at: u32,
    settled: &[bool],
    steps: &mut Steps<L>,
) -> Result<RowLists, OutOfMemory>
    requires fresh { (graph.old.stepped ≡ 0) × (graph.old.next ≡ []) }
    requires past { IsPast (sources graph.old) at }
    requires many { length settled.now ≡ length graph.old.layer }
    ensures listed { IfOk result (λ l. (w : Word) → Has (rows l.store l.first) w ↔ IsGivenBy graph.old settled.now w) }
    ensures order { IfOk result (λ l. AreInOrder (rows l.store l.first)) }
    ensures kept { OnOk result (AreKept graph.old settled.now graph.new) }
    ensures steps { steps.new ≤ steps.old + 5 * length graph.old.cells + 8 * length graph.old.layer + 3 }
{
    if are_all_kept(settled) {
        graph.is_graph();
        return no_rows(alloc, steps);
    }
    let copy = graph.copy(alloc, steps)?;
    copy.is_graph();
    let lists = list_sources(copy, at, settled, steps)?;
    keep_sources(graph, at, settled, steps)?;
    Ok(lists)
}

/// Whether there are sources and none of them is told.
fn are_all_kept(settled: &[bool]) -> bool
    ensures some { IsTrue result → 0 < length settled.now }
    ensures kept { IsTrue result → (k : ℕ) → k < length settled.now → flag_at settled.now k ≡ false }
{
    for flag in settled {
        if *flag {
            return false;
        }
    }
    !settled.is_empty()
}

/// Lists without a row: those of a graph of one set, which is given up. At most 7 steps.
fn no_rows<L: Ledger>(alloc: Global, steps: &mut Steps<L>) -> Result<RowLists, OutOfMemory>
    ensures none { IfOk result (λ l. (w : Word) → Has (rows l.store l.first) w → ⊥) }
    ensures order { IfOk result (λ l. AreInOrder (rows l.store l.first)) }
    ensures steps { steps.new ≤ steps.old + 7 }
{
    let graph = OutputGraph::start(alloc, 0, steps)?;
    list_sources(graph, 0, &[false], steps)
}

/// Gives up the sources of the layer that are told, and keeps the others, with their sets and words: no position is read.
fn keep_sources<L: Ledger>(
    graph: &mut OutputGraph,
    at: u32,
    settled: &[bool],
    steps: &mut Steps<L>,
) -> Result<(), OutOfMemory>
    requires fresh { (graph.old.stepped ≡ 0) × (graph.old.next ≡ []) }
    requires past { IsPast (sources graph.old) at }
    requires many { length settled.now ≡ length graph.old.layer }
    ensures kept { OnOk result (AreKept graph.old settled.now graph.new) }
    ensures steps { steps.new + 3 * told_in settled.now (length settled.now) ≤ steps.old + length graph.old.cells + 5 * length graph.old.layer }
{
    graph.is_graph();
    for k in 0..graph.layer_len() {
        let set = graph.set_at(k);
        keep_source(graph, (k, set), at, settled[k], steps)?;
    }
    graph.next_layer();
    graph.is_graph();
    Ok(())
}

/// Steps one source, by an edge without marks to its own set, or gives it up.
fn keep_source<L: Ledger>(
    graph: &mut OutputGraph,
    source: (usize, u32),
    at: u32,
    settled: bool,
    steps: &mut Steps<L>,
) -> Result<(), OutOfMemory>
    requires source { source.0 ≡ graph.old.stepped }
    requires left { source.0 < length graph.old.layer }
    requires place { IsPlace graph.old at }
    ensures stepped { OnOk result (IsStepped graph.old at (kept_edges source.1 settled) graph.new) }
    ensures cost { OnOk result (IsCost (length (kept_edges source.1 settled)) (length graph.old.cells) (length graph.new.cells) steps.old steps.new) }
    ensures uncounted { OnErr result (steps.new ≡ steps.old) }
{
    if settled {
        return graph.step_source(source.0, at, &[], steps);
    }
    let marks = Marks::none();
    let to = source.1;
    graph.step_source(source.0, at, &[Edge { marks, to }], steps)
}

/// The words of the sources that are told, as rows from their beginnings: each once, in block order.
fn list_sources<L: Ledger>(
    graph: OutputGraph,
    at: u32,
    settled: &[bool],
    steps: &mut Steps<L>,
) -> Result<RowLists, OutOfMemory>
    requires fresh { (graph.stepped ≡ 0) × (graph.next ≡ []) }
    requires past { IsPast (sources graph) at }
    requires many { length settled.now ≡ length graph.layer }
    ensures listed { IfOk result (λ l. (w : Word) → Has (rows l.store l.first) w ↔ IsGivenBy graph settled.now w) }
    ensures order { IfOk result (λ l. AreInOrder (rows l.store l.first)) }
    ensures steps { steps.new ≤ steps.old + 2 * length graph.cells + 2 * length graph.layer + 4 * told_in settled.now (length settled.now) + 2 }
{
    let mut graph = graph;
    graph.is_graph();
    for k in 0..graph.layer_len() {
        end_source(&mut graph, k, at, settled[k], steps)?;
    }
    Ok(graph.turn(steps))
}

/// Ends one source without marks, or gives it up.
fn end_source<L: Ledger>(
    graph: &mut OutputGraph,
    k: usize,
    at: u32,
    settled: bool,
    steps: &mut Steps<L>,
) -> Result<(), OutOfMemory>
    requires source { k ≡ graph.old.stepped }
    requires left { k < length graph.old.layer }
    requires place { IsPlace graph.old at }
    ensures stepped { OnOk result (IsStepped graph.old at (edges_of_ends (given_ends settled)) graph.new) }
    ensures cost { OnOk result (IsCost (length (given_ends settled)) (length graph.old.cells) (length graph.new.cells) steps.old steps.new) }
    ensures uncounted { OnErr result (steps.new ≡ steps.old) }
{
    if settled {
        return graph.end_source(k, at, &[Marks::none()], steps);
    }
    graph.end_source(k, at, &[], steps)
}
