//! The forward pass: pieces of bytes, and gaps between them.
//!
//! A piece is read byte by byte, by what is known of whole layers where it is known. Where nothing has changed for a
//! while, the next byte on which something may change is searched for (`byte_runs`); where the layer waits, the next place
//! from which something may come through (`waiting`). A gap takes one step, in which each
//! set goes to its idle members.
ghost use Rattle.std.specs.Prelude.{◌≡◌, ℕ, ◌+◌, ◌-◌, ◌*◌, ◌^◌, ◌<◌, ◌≤◌, drop, length, take, IfErr, IfOk, IfSome, OnErr, OnOk};
ghost use Rattle.set_table.specs.Tabled.{IsTabled};
ghost use Rattle.one_pass.specs.Builds.{IsStarted};
ghost use Rattle.one_pass.specs.Going.{GivesUp, GoesOn, PassReads, come};
ghost use Rattle.one_pass.specs.Ahead.{KnowsWaiting};
ghost use Rattle.one_pass.specs.Known.{Knows};
ghost use Rattle.one_pass.specs.Numbered.{IsNumbered, StandsIn, as_layer, in_layer};
ghost use Rattle.one_pass.specs.Passes.{AllLeadBack};
ghost use Rattle.one_pass.specs.Places.{bytes_at, gap_at};

use crate::known::Known;
use crate::search::{FAR, QUIET, Search, bytes_over};
use crate::waiting::{LONG, is_known};
use output_graph::OutputGraph;
use set_table::{Table, TableFault};
use span_core::{OutOfMemory, Steps};
use std::alloc::Global;
use std::sync::ledger::Ledger;

/// The forward pass: the graph with its layer, what is known of whole layers, what is searched for, and where it stands. It
/// goes with one table, and may be kept between the pieces of a document that come.
#[derive(Drop)]
pub(crate) struct Pass {
    pub(crate) graph: OutputGraph,
    pub(crate) known: Known,
    pub(crate) search: Search,
    pub(crate) at: u32,
}

/// Drops a table and a pass, here alone: what a caller has to prove grows with each of their many fields.
pub(crate) fn give_up(_table: Table<'_>, _pass: Pass) {}

/// Drops a table.
pub(crate) fn give_up_table(_table: Table<'_>) {}

/// Drops a pass.
pub(crate) fn give_up_pass(_pass: Pass) {}

impl Pass {
    /// Stands before the first byte, with a table's first set. Of whole layers about so many words of four bytes may be
    /// kept. It takes 1 step.
    pub(crate) fn begin<L: Ledger>(
        alloc: Global,
        words: usize,
        table: &Table<'_>,
        steps: &mut Steps<L>,
    ) -> Result<Pass, OutOfMemory>
        ensures tabled { IsTabled table.now }
        ensures begun { IfOk result (λ p. IsStarted steps.old (come table.now p steps.new)) }
        ensures goes_on { IfOk result (GoesOn table.now) }
        ensures at { IfOk result (λ p. p.at ≡ 0) }
        ensures refused { OnErr result (steps.new ≡ steps.old) }
    {
        Pass::begin_with(alloc, Known::new(alloc, words), table, steps)
    }

    /// As `begin`, with what is known of the table's layers.
    pub(crate) fn begin_with<L: Ledger>(
        alloc: Global,
        known: Known,
        table: &Table<'_>,
        steps: &mut Steps<L>,
    ) -> Result<Pass, OutOfMemory>
        requires known { Knows table.now known }
        ensures tabled { IsTabled table.now }
        ensures begun { IfOk result (λ p. IsStarted steps.old (come table.now p steps.new)) }
        ensures goes_on { IfOk result (GoesOn table.now) }
        ensures at { IfOk result (λ p. p.at ≡ 0) }
        ensures refused { OnErr result (steps.new ≡ steps.old) }
    {
        let graph = OutputGraph::start(alloc, table.start(), steps)?;
        graph.is_graph();
        Ok(Pass {
            graph,
            known,
            search: Search::new(alloc),
            at: 0,
        })
    }

    /// Reads a piece of the document, which stands where the pass does, at each of its positions. After a refusal the pass is
    /// of no more use, and the table keeps what it holds.
    ///
    /// With g live cells and l sets in the layer before, g' and l' after (0 where it is refused), e edges that are
    /// read and r look-ups that the table makes first, or refuses, it takes at most g - g' + 3(l - l') + 6e + r * size
    /// steps. `TableFault::Full` comes only where what the table holds and what reading the piece asks for weigh more
    /// than its limit.
    pub(crate) fn read<L: Ledger>(
        &mut self,
        table: &mut Table<'_>,
        piece: &[u8],
        steps: &mut Steps<L>,
    ) -> Result<(), TableFault>
        requires goes_on { GoesOn table.old self.old }
        requires few { self.old.at + length piece.now < 2 ^ 32 }
        ensures read { OnOk result (PassReads (bytes_at self.old.at piece.now) table.old self.old steps.old table.new self.new steps.new) }
        ensures at { OnOk result (self.new.at ≡ self.old.at + length piece.now) }
        ensures given_up { IfErr result (GivesUp (bytes_at self.old.at piece.now) table.old self.old steps.old table.new steps.new) }
    {
        let mut layer = self.known.stand(table, &self.graph);
        self.search.quiet = self.search.quiet_in(layer, self.at as usize);
        self.graph.is_graph();
        let mut i = 0;
        while i < piece.len() {
            let here = self.read_on(table, layer, piece, i);
            let (_, rest) = piece.split_at(here);
            let place = match self.read_some(table, layer, rest, steps) {
                Ok(place) => place,
                Err(fault) => return Err(fault),
            };
            layer = place.layer;
            i = here + place.bytes;
        }
        self.name(layer);
        Ok(())
    }

    /// Goes on to where a piece is read on from a place: behind the bytes that change nothing, if the layer, of which the
    /// number is told, has been the same for a while.
    #[inline(always)]
    fn read_on(&mut self, table: &Table<'_>, layer: Option<usize>, piece: &[u8], i: usize) -> usize
        requires goes_on { GoesOn table.now (as_layer layer self.old) }
        requires stands { StandsIn table.now self.old.graph self.old.known layer }
        requires few { self.old.at + length piece.now < 2 ^ 32 + i }
        requires place { i ≤ length piece.now }
        ensures graph { in_layer self.old.known.layers layer self.new.graph ≡ in_layer self.old.known.layers layer self.old.graph }
        ensures stands { StandsIn table.now self.new.graph self.new.known layer }
        ensures known { self.new.known ≡ self.old.known }
        ensures at { self.new.at + i ≡ self.old.at + result }
        ensures within { result ≤ length piece.now }
        ensures later { i ≤ result }
        ensures back { AllLeadBack table.now (in_layer self.old.known.layers layer self.old.graph) (take (result - i) (drop i piece.now)) }
        ensures waits { KnowsWaiting table.now.graph.ways self.new.search.ahead.waiting }
    {
        if self.search.quiet < QUIET {
            return i;
        }
        self.name(layer);
        self.pass_over(table, layer, piece, i)
    }

    /// Writes the names of the layer of a number, if it has one.
    pub(crate) fn name(&mut self, layer: Option<usize>)
        requires { IfSome layer (λ k. IsNumbered self.old.graph self.old.known.layers k) }
        ensures graph { self.new.graph ≡ in_layer self.old.known.layers layer self.old.graph }
        ensures known { self.new.known ≡ self.old.known }
        ensures search { self.new.search ≡ self.old.search }
        ensures at { self.new.at ≡ self.old.at }
    {
        match layer {
            Some(number) => self.graph.rename(self.known.layers.at(number)),
            None => {}
        }
    }

    /// As `read_on`, where the layer has been the same for long enough.
    #[inline(never)]
    fn pass_over(
        &mut self,
        table: &Table<'_>,
        layer: Option<usize>,
        piece: &[u8],
        i: usize,
    ) -> usize
        requires goes_on { GoesOn table.now self.old }
        requires few { self.old.at + length piece.now < 2 ^ 32 + i }
        requires place { i ≤ length piece.now }
        ensures graph { self.new.graph ≡ self.old.graph }
        ensures known { self.new.known ≡ self.old.known }
        ensures at { self.new.at + i ≡ self.old.at + result }
        ensures within { result ≤ length piece.now }
        ensures later { i ≤ result }
        ensures back { AllLeadBack table.now self.old.graph (take (result - i) (drop i piece.now)) }
        ensures waits { KnowsWaiting table.now.graph.ways self.new.search.ahead.waiting }
    {
        let (_, rest) = piece.split_at(i);
        let at = self.at as usize;
        let over = bytes_over(table, &self.graph, &mut self.search, at, rest);
        let known = is_known(&self.search.ahead.waiting, table, &self.graph);
        let again = self.search.later > 0 && self.search.far == layer;
        let later = !known && self.search.ahead.refused && (self.search.fresh || again);
        self.search.quiet = 0;
        self.search.fresh = false;
        if known || later || !self.search.waits || self.search.far == layer {
            self.search.waits = known || later;
            self.search.far = if known || later || over >= FAR {
                layer
            } else {
                None
            };
            self.search.later = if later { at.saturating_add(LONG) } else { 0 };
        }
        self.at += over as u32;
        i + over
    }

    /// Skips the positions before `to`, by one step to the idle members, if there are any. The refusals are those of `read`.
    pub(crate) fn skip<L: Ledger>(
        &mut self,
        table: &mut Table<'_>,
        to: u32,
        steps: &mut Steps<L>,
    ) -> Result<(), TableFault>
        requires goes_on { GoesOn table.old self.old }
        requires later { self.old.at ≤ to }
        ensures read { OnOk result (PassReads (gap_at self.old.at to) table.old self.old steps.old table.new self.new steps.new) }
        ensures at { OnOk result (self.new.at ≡ to) }
        ensures given_up { IfErr result (GivesUp (gap_at self.old.at to) table.old self.old steps.old table.new steps.new) }
    {
        if self.at >= to {
            return Ok(());
        }
        self.step_rest(table, to, steps)
    }
}
