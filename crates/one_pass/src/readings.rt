//! A reading of a document as one value: a table, and the pass that goes on with it.
//!
//! A caller keeps it between the pieces that come; laid down, it stands beside its automaton.
ghost use Rattle.std.specs.Prelude.{◌≡◌, ℕ, ◌+◌, ◌*◌, ◌^◌, ◌<◌, ◌≤◌, ◌↔◌, true, false, length, IfErr, IfOk, IsTrue, OnErr, OnOk};
ghost use Rattle.output_graph.specs.Graph.{sources};
ghost use Rattle.set_table.specs.Tabled.{IsRefusal, fresh};
ghost use Rattle.one_pass.specs.Known.{Knows};
ghost use Rattle.one_pass.specs.Passes.{IsReadyAt, pass};
ghost use Rattle.one_pass.specs.Places.{bytes_at, gap_at};
ghost use Rattle.one_pass.specs.Readings.{AreEnded, HasBegun, HasEndedCopy, HasListed, HasReadOn, IsEndFault, IsEndedThere, IsLaidOf, IsGivenUpAt, IsGivenUpAtEnd, come_to, resumed};
ghost use Rattle.one_pass.specs.Settling.{HasRebased, HasSettled, IsSettledBy};

use crate::known::Known;
use crate::pass::{Pass, give_up, give_up_table};
use crate::pieces::finish;
use marked_automaton::Automaton;
use output_graph::{OutputGraph, RowLists};
use set_table::{Table, TableFault, TableState};
use span_core::{OutOfMemory, Steps};
use std::alloc::Global;
use std::marker::Model;
use std::sync::ledger::Ledger;

/// A reading of a document: the table, the graph with its layer, what is known of whole layers, and where it stands, as an offset
/// in bytes.
///
/// It is seen as its table, its graph and its position. After a refusal it is of no more use, so what may be refused takes it and
/// gives it back.
#[derive(Drop)]
pub struct Reading<'a> {
    table: Table<'a>,
    pass: Pass,
}

impl<'a> Model for Reading<'a> {
    ghost use Rattle.one_pass.specs.SoFar.{SoFar, so_far_code};

    ghost Value = { SoFar };

    ghost coded = { so_far_code };

    ghost use Rattle.one_pass.specs.Going.{GoesOn};
    ghost use Rattle.one_pass.specs.Readings.{so_far};

    ghost view = { λ r. so_far r.table r.pass };

    ghost invariant = { λ r. GoesOn r.table r.pass };
}

/// A reading that is laid down, without its automaton: `Reading::lay_down` gives it, and `Laid::take_up` goes on with it.
#[derive(Drop)]
pub struct Laid {
    pub(crate) state: TableState,
    pub(crate) pass: Pass,
}

/// A reading whose layer was settled, and the lists of the words that were given.
#[derive(Drop)]
pub struct Settled<'a> {
    pub reading: Reading<'a>,
    pub lists: RowLists,
}

impl<'a> Reading<'a> {
    /// Stands before the first byte, with a new table. Of whole layers about so many words of four bytes may be kept. 2 steps.
    ///
    /// `TableFault::Full` comes exactly where the set of the start states weighs more than the limit, and tells its weight.
    pub fn begin<L: Ledger>(
        alloc: Global,
        automaton: &'a Automaton,
        limit: u64,
        words: usize,
        steps: &mut Steps<L>,
    ) -> Result<Reading<'a>, TableFault>
        requires limit { limit ≤ 100000000 }
        ensures begun { IfOk result (λ r. HasBegun automaton.now.graph limit (steps.old + 1) r steps.new) }
        ensures steps { OnOk result (steps.new ≡ steps.old + 2) }
        ensures refused { IfErr result (IsRefusal (fresh automaton.now.graph limit)) }
        ensures stopped { OnErr result (steps.new ≡ steps.old + 1) }
    {
        let table = match Table::new(alloc, automaton, limit, steps) {
            Ok(table) => table,
            Err(fault) => return Err(fault),
        };
        match Pass::begin(alloc, words, &table, steps) {
            Ok(pass) => Ok(Reading { table, pass }),
            Err(OutOfMemory) => {
                give_up_table(table);
                Err(TableFault::OutOfMemory)
            }
        }
    }

    /// Reads a piece of the document, which stands where the reading does, at each of its positions.
    ///
    /// With g live cells and l sets in the layer before, g' and l' after (0 where it is refused), e edges that are
    /// read and r look-ups that the table makes first, or refuses, it takes at most g - g' + 3(l - l') + 6e + r * size
    /// steps. `TableFault::Full` comes only where what the table holds and what reading the piece asks for weigh more
    /// than its limit.
    pub fn read<L: Ledger>(
        self,
        piece: &[u8],
        steps: &mut Steps<L>,
    ) -> Result<Reading<'a>, TableFault>
        requires few { self.at + length piece.now < 2 ^ 32 }
        ensures read { IfOk result (λ r. HasReadOn (bytes_at self.entry.at piece.now) self.entry steps.old r steps.new) }
        ensures at { IfOk result (λ r. r.at ≡ self.entry.at + length piece.now) }
        ensures refused { IfErr result (IsGivenUpAt (bytes_at self.entry.at piece.now) self.entry steps.old steps.new) }
    {
        let Reading {
            mut table,
            mut pass,
        } = self;
        if let Err(fault) = pass.read(&mut table, piece, steps) {
            give_up(table, pass);
            return Err(fault);
        }
        Ok(Reading { table, pass })
    }

    /// Skips the positions before `to`, by one step to the idle members of each set, if there are any. The refusals are those of
    /// `read`.
    pub fn skip<L: Ledger>(self, to: u32, steps: &mut Steps<L>) -> Result<Reading<'a>, TableFault>
        requires later { self.at ≤ to }
        ensures read { IfOk result (λ r. HasReadOn (gap_at self.entry.at to) self.entry steps.old r steps.new) }
        ensures at { IfOk result (λ r. r.at ≡ to) }
        ensures refused { IfErr result (IsGivenUpAt (gap_at self.entry.at to) self.entry steps.old steps.new) }
    {
        let Reading {
            mut table,
            mut pass,
        } = self;
        if let Err(fault) = pass.skip(&mut table, to, steps) {
            give_up(table, pass);
            return Err(fault);
        }
        Ok(Reading { table, pass })
    }

    /// The lists of the rows of the document as far as it was read, from a copy of the graph that is ended where the reading
    /// stands, and turned. It goes on as it was, but for the end look-ups that the table holds then.
    ///
    /// `TableFault::Full` comes only where what the table holds and the end look-ups of the layer weigh more than its limit.
    pub fn rows_so_far<L: Ledger>(
        &mut self,
        alloc: Global,
        steps: &mut Steps<L>,
    ) -> Result<RowLists, TableFault>
        requires few { self.old.at ≤ 2 ^ 28 }
        ensures listed { HasListed self.old steps.old self.new steps.new }
        ensures lists { IfOk result (AreEnded self.old.table.graph self.old.at (come_to self.old steps.old)) }
        ensures cause { IfErr result (IsEndFault (come_to self.old steps.old)) }
    {
        let at = self.pass.at;
        lists_of(alloc, &mut self.table, &self.pass.graph, at, steps)
    }

    /// The lists of the rows of the document, which ends where the reading stands: as `rows_so_far`, of the graph itself.
    ///
    /// With g cells and l sets in the layer, e edges of its ends, and r look-ups that the table makes first, it takes at most
    /// 3(g + l) + 5e + 2 + r * size steps. `TableFault::Full` comes only where what the table holds and the end look-ups of the
    /// layer weigh more than its limit.
    pub fn list<L: Ledger>(self, steps: &mut Steps<L>) -> Result<RowLists, TableFault>
        ensures ended { IfOk result (λ lists. IsEndedThere self.entry steps.old lists steps.new) }
        ensures refused { IfErr result (IsGivenUpAtEnd self.entry steps.old steps.new) }
    {
        let Reading { mut table, pass } = self;
        let ended = match pass.end(&mut table, steps) {
            Ok(ended) => ended,
            Err(fault) => return Err(fault),
        };
        Ok(ended.turn(steps))
    }

    /// Gives the words of the settled sets of the layer, as rows in block order, and gives these sets up; the others go on as they
    /// were. A set is settled where none of its states is in `unspent` and one is in `lasting`. The members of the sets are read,
    /// and nothing is looked up. Where no set is settled nothing is copied.
    ///
    /// With g live cells and l sets in the layer it takes at most 6g + 10l + 3 steps. The only refusal is want of memory.
    pub fn settle<L: Ledger>(
        self,
        alloc: Global,
        unspent: &[bool],
        lasting: &[bool],
        steps: &mut Steps<L>,
    ) -> Result<Settled<'a>, OutOfMemory>
        requires unspent { self.table.graph.states ≤ length unspent.now }
        requires lasting { self.table.graph.states ≤ length lasting.now }
        ensures settled { IfOk result (λ r. HasSettled (IsSettledBy unspent.now lasting.now)
            self.entry steps.old r.reading r.lists steps.new) }
        ensures stopped { OnErr result (steps.new ≤ steps.old + 6 * length self.entry.graph.cells + 10 * length (sources self.entry.graph) + 3) }
    {
        let Reading { table, mut pass } = self;
        match pass.settle(alloc, &table, unspent, lasting, steps) {
            Ok(lists) => Ok(Settled {
                reading: Reading { table, pass },
                lists,
            }),
            Err(OutOfMemory) => {
                give_up(table, pass);
                Err(OutOfMemory)
            }
        }
    }

    /// Stands at position 0 again, where one cell is live at most: nothing in the graph speaks of a position then. What is known of
    /// layers, and what is searched for, is kept. Else nothing changes.
    pub fn rebase(&mut self) -> bool
        ensures value { IsTrue result ↔ length self.old.graph.cells ≤ 1 }
        ensures rebased { result ≡ true → HasRebased self.old self.new }
        ensures same { result ≡ false → self.new ≡ self.old }
    {
        self.pass.rebase()
    }

    /// What is known of whole layers.
    pub fn known(&self) -> &Known
        ensures { Knows self.now.table result.now }
    {
        &self.pass.known
    }

    /// Lays the reading down, so that its automaton is free. It takes no memory.
    pub fn lay_down(self) -> Laid
        ensures laid { IsLaidOf self.entry.table.graph result }
        ensures same { resumed self.entry.table.graph result ≡ self.entry }
    {
        let Reading { table, pass } = self;
        Laid {
            state: table.lay_down(),
            pass,
        }
    }
}

impl Laid {
    /// The reading that was laid down, as it was; its automaton was equal to this one. It takes no memory.
    pub fn take_up<'a>(self, automaton: &'a Automaton) -> Reading<'a>
        requires { IsLaidOf automaton.now.graph self }
        ensures { result ≡ resumed automaton.now.graph self }
    {
        let Laid { state, pass } = self;
        Reading {
            table: Table::take_up(automaton, state),
            pass,
        }
    }

    /// How many cells are live.
    pub fn live(&self) -> u64
        ensures { result ≡ length self.now.pass.graph.cells }
    {
        self.pass.graph.live()
    }
}

/// The lists of a copy of the graph, ended at `at` and turned.
fn lists_of<L: Ledger>(
    alloc: Global,
    table: &mut Table<'_>,
    graph: &OutputGraph,
    at: u32,
    steps: &mut Steps<L>,
) -> Result<RowLists, TableFault>
    requires ready { IsReadyAt table.old graph.now at }
    requires few { at ≤ 2 ^ 28 }
    ensures ended { HasEndedCopy table.old.graph (pass table.old graph.now steps.old) (pass table.new graph.now steps.new) }
    ensures lists { IfOk result (AreEnded table.old.graph at (pass table.old graph.now steps.old)) }
    ensures cause { IfErr result (IsEndFault (pass table.old graph.now steps.old)) }
{
    let copy = match graph.copy(alloc, steps) {
        Ok(copy) => copy,
        Err(OutOfMemory) => return Err(TableFault::OutOfMemory),
    };
    let ended = match finish(alloc, table, copy, at, steps) {
        Ok(ended) => ended,
        Err(fault) => return Err(fault),
    };
    Ok(ended.turn(steps))
}
