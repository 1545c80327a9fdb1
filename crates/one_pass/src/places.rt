//! Reading at one place: each source of the layer is looked up in the table and stepped in the graph.
//!
//! A place is a byte, the first position of a gap, or the end; the three differ in what is looked up and in where the
//! edges lead.
ghost use Rattle.std.specs.Prelude.{◌≡◌, ℕ, ◌+◌, ◌*◌, ◌^◌, ◌<◌, ◌≤◌, [], ◌∷◌, length, IfErr, IfOk, IsTrue, OnErr, OnOk};
ghost use Rattle.std.specs.FinSet as bytes;
ghost use Rattle.span_core.specs.Lists.{Has};
ghost use Rattle.automaton_reading.specs.Reading.{byte_read, ended, rest_taken};
ghost use Rattle.output_graph.specs.Graph.{IsCost, IsPlace, IsStepped, sets_of};
ghost use Rattle.output_graph.specs.Sound.{edges_of};
ghost use Rattle.set_table.specs.Tabled.{IsRefusal, look_up, once_asked};
ghost use Rattle.one_pass.specs.Going.{PassEnds, GivesUp, GivesUpEnd, GoesOn, PassReads};
ghost use Rattle.one_pass.specs.Known.{Knows};
ghost use Rattle.one_pass.specs.Passes.{AllStayOn, AreGiven};
ghost use Rattle.one_pass.specs.Places.{byte_at, rest_at};
ghost use Rattle.one_pass.specs.Turned.{HasNotTurned, HasTurned, HasTurnedEnd, rest_edges};

use crate::known::Known;
use crate::pass::Pass;
use crate::search::Search;
use output_graph::OutputGraph;
use set_table::{Table, TableFault};
use span_core::{ByteSet, Edge, Marks, OutOfMemory, Steps};
use std::sync::ledger::Ledger;

impl Pass {
    /// Steps each source of the layer by its edges on a byte.
    pub(crate) fn step_byte<L: Ledger>(
        &mut self,
        table: &mut Table<'_>,
        byte: u8,
        steps: &mut Steps<L>,
    ) -> Result<(), TableFault>
        requires goes_on { GoesOn table.old self.old }
        requires few { self.old.at + 1 < 2 ^ 32 }
        ensures read { OnOk result (PassReads (byte_at self.old.at byte ∷ []) table.old self.old steps.old table.new self.new steps.new) }
        ensures at { OnOk result (self.new.at ≡ self.old.at + 1) }
        ensures given_up { IfErr result (GivesUp (byte_at self.old.at byte ∷ []) table.old self.old steps.old table.new steps.new) }
    {
        let at = self.at;
        for k in 0..self.graph.layer_len() {
            let set = self.graph.set_at(k);
            if let Err(fault) = turn_byte(table, &mut self.graph, (k, set), at, byte, steps) {
                return Err(fault);
            }
            self.graph.is_graph();
        }
        self.graph.next_layer();
        self.at = at + 1;
        Ok(())
    }

    /// Goes from each source of the layer to the set of its idle members, without marks, at the first position of a gap. It
    /// stands at `to` then.
    pub(crate) fn step_rest<L: Ledger>(
        &mut self,
        table: &mut Table<'_>,
        to: u32,
        steps: &mut Steps<L>,
    ) -> Result<(), TableFault>
        requires goes_on { GoesOn table.old self.old }
        requires later { self.old.at ≤ to }
        ensures read { OnOk result (PassReads (rest_at self.old.at ∷ []) table.old self.old steps.old table.new self.new steps.new) }
        ensures at { OnOk result (self.new.at ≡ to) }
        ensures given_up { IfErr result (GivesUp (rest_at self.old.at ∷ []) table.old self.old steps.old table.new steps.new) }
    {
        let at = self.at;
        for k in 0..self.graph.layer_len() {
            let set = self.graph.set_at(k);
            if let Err(fault) = turn_rest(table, &mut self.graph, (k, set), at, steps) {
                return Err(fault);
            }
            self.graph.is_graph();
        }
        self.graph.next_layer();
        self.at = to;
        Ok(())
    }

    /// Ends each source of the layer at the end of the document, which is where the pass stands. No set but that of the ends
    /// is reached, so that the graph may be turned. It takes at most g - g' + 3l + 3e + r * size steps, as told at `read`; so
    /// are the refusals.
    pub(crate) fn end<L: Ledger>(
        self,
        table: &mut Table<'_>,
        steps: &mut Steps<L>,
    ) -> Result<OutputGraph, TableFault>
        requires { GoesOn table.old self }
        ensures ended { IfOk result (λ g. PassEnds table.old self steps.old table.new g steps.new) }
        ensures every { IfOk result (λ g. g.stepped ≡ length g.layer) }
        ensures only { IfOk result (λ g. (s : ℕ) → Has (sets_of g.next) s → s ≡ 0) }
        ensures given_up { IfErr result (GivesUpEnd table.old self steps.old table.new steps.new) }
    {
        match self.end_with(table, steps) {
            Ok(ended) => Ok(ended.graph),
            Err(fault) => Err(fault),
        }
    }

    /// As `end`, and gives back what is known of the table's layers.
    pub(crate) fn end_with<L: Ledger>(
        self,
        table: &mut Table<'_>,
        steps: &mut Steps<L>,
    ) -> Result<EndedPass, TableFault>
        requires { GoesOn table.old self }
        ensures ended { IfOk result (λ e. PassEnds table.old self steps.old table.new e.graph steps.new) }
        ensures every { IfOk result (λ e. e.graph.stepped ≡ length e.graph.layer) }
        ensures only { IfOk result (λ e. (s : ℕ) → Has (sets_of e.graph.next) s → s ≡ 0) }
        ensures known { IfOk result (λ e. Knows table.new e.known) }
        ensures given_up { IfErr result (GivesUpEnd table.old self steps.old table.new steps.new) }
    {
        let Pass {
            mut graph,
            known,
            search,
            at,
        } = self;
        give_up_search(search);
        for k in 0..graph.layer_len() {
            let set = graph.set_at(k);
            if let Err(fault) = turn_end(table, &mut graph, (k, set), at, steps) {
                give_up_ended(EndedPass { graph, known });
                return Err(fault);
            }
        }
        Ok(EndedPass { graph, known })
    }
}

/// What a pass leaves at the end of a document.
#[derive(Drop)]
pub(crate) struct EndedPass {
    pub(crate) graph: OutputGraph,
    pub(crate) known: Known,
}

/// Drops what was searched for.
fn give_up_search(_search: Search) {}

/// Drops what a pass leaves.
fn give_up_ended(_ended: EndedPass) {}

/// Asks the set of a source, of which the place in the layer and the set are told, for its edges on a byte, and steps the
/// source by them.
fn turn_byte<L: Ledger>(
    table: &mut Table<'_>,
    graph: &mut OutputGraph,
    source: (usize, u32),
    at: u32,
    byte: u8,
    steps: &mut Steps<L>,
) -> Result<(), TableFault>
    requires given { source.1 < length table.old.sets }
    requires source { source.0 ≡ graph.old.stepped }
    requires left { source.0 < length graph.old.layer }
    requires place { IsPlace graph.old at }
    ensures turned { OnOk result (HasTurned table.old table.new source.1 (byte_read byte) at graph.old graph.new steps.old steps.new) }
    ensures refused { OnErr result (HasNotTurned table.old table.new source.1 (byte_read byte) steps.old steps.new) }
    ensures cause { IfErr result (IsRefusal (once_asked table.old (look_up table.old source.1 (byte_read byte)))) }
{
    let turned = match table.row(source.1, byte, steps) {
        Ok(edges) => graph.step_source(source.0, at, edges, steps),
        Err(fault) => return Err(fault),
    };
    match turned {
        Ok(()) => Ok(()),
        Err(OutOfMemory) => Err(TableFault::OutOfMemory),
    }
}

/// Asks the set of a source for its idle members, and steps the source to their set, if there is one.
fn turn_rest<L: Ledger>(
    table: &mut Table<'_>,
    graph: &mut OutputGraph,
    source: (usize, u32),
    at: u32,
    steps: &mut Steps<L>,
) -> Result<(), TableFault>
    requires given { source.1 < length table.old.sets }
    requires source { source.0 ≡ graph.old.stepped }
    requires left { source.0 < length graph.old.layer }
    requires place { IsPlace graph.old at }
    ensures turned { OnOk result (HasTurned table.old table.new source.1 rest_taken at graph.old graph.new steps.old steps.new) }
    ensures refused { OnErr result (HasNotTurned table.old table.new source.1 rest_taken steps.old steps.new) }
    ensures cause { IfErr result (IsRefusal (once_asked table.old (look_up table.old source.1 rest_taken))) }
{
    let turned = match table.rest(source.1, steps) {
        Ok(idle) => step_idle(graph, source.0, at, idle, steps),
        Err(fault) => return Err(fault),
    };
    match turned {
        Ok(()) => Ok(()),
        Err(OutOfMemory) => Err(TableFault::OutOfMemory),
    }
}

/// Steps a source of the layer by the edge to a set, if there is one.
fn step_idle<L: Ledger>(
    graph: &mut OutputGraph,
    k: usize,
    at: u32,
    idle: Option<u32>,
    steps: &mut Steps<L>,
) -> Result<(), OutOfMemory>
    requires source { k ≡ graph.old.stepped }
    requires left { k < length graph.old.layer }
    requires place { IsPlace graph.old at }
    ensures stepped { OnOk result (IsStepped graph.old at (edges_of (rest_edges idle)) graph.new) }
    ensures cost { OnOk result (IsCost (length (rest_edges idle)) (length graph.old.cells) (length graph.new.cells) steps.old steps.new) }
    ensures uncounted { OnErr result (steps.new ≡ steps.old) }
{
    match idle {
        Some(to) => {
            let marks = Marks::none();
            graph.step_source(k, at, &[Edge { marks, to }], steps)
        }
        None => graph.step_source(k, at, &[], steps),
    }
}

/// Asks the set of a source for its ends, and ends the source by them.
fn turn_end<L: Ledger>(
    table: &mut Table<'_>,
    graph: &mut OutputGraph,
    source: (usize, u32),
    at: u32,
    steps: &mut Steps<L>,
) -> Result<(), TableFault>
    requires given { source.1 < length table.old.sets }
    requires source { source.0 ≡ graph.old.stepped }
    requires left { source.0 < length graph.old.layer }
    requires place { IsPlace graph.old at }
    ensures turned { OnOk result (HasTurnedEnd table.old table.new source.1 at graph.old graph.new steps.old steps.new) }
    ensures refused { OnErr result (HasNotTurned table.old table.new source.1 ended steps.old steps.new) }
    ensures cause { IfErr result (IsRefusal (once_asked table.old (look_up table.old source.1 ended))) }
{
    let turned = match table.ends(source.1, steps) {
        Ok(ends) => graph.end_source(source.0, at, ends, steps),
        Err(fault) => return Err(fault),
    };
    match turned {
        Ok(()) => Ok(()),
        Err(OutOfMemory) => Err(TableFault::OutOfMemory),
    }
}

/// The bytes that change nothing: each set of the layer has one edge on them, without marks and to itself. So the
/// layer, its words and the table are the same after such a byte.
pub fn stays_of(table: &Table<'_>, graph: &OutputGraph) -> ByteSet
    requires given { AreGiven table.now graph.now }
    requires fresh { graph.now.stepped ≡ 0 }
    ensures { (b : ℕ) → b < 256 → IsTrue (bytes.contains result b) → AllStayOn table.now graph.now b }
{
    let mut stays = ByteSet::all();
    for k in 0..graph.layer_len() {
        let set = graph.set_at(k);
        stays = stays.meet(&table.stays(set));
    }
    stays
}
