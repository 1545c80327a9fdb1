//! Sets of a table, and where each goes on a byte, at one look-up.
//!
//! A reading without markers asks a table for one thing only: where the one edge of a set on a byte leads. That is asked of the
//! table the first time that it comes, and entered in a dense list of sets and bytes, where it is found from then on.
ghost use Rattle.std.specs.Prelude.{◌≡◌, ◌+◌, ◌<◌, ◌≤◌, true, length, IfErr, IfOk, OnErr, OnOk};
ghost use Rattle.marked_automaton.specs.Automaton.{size};
ghost use Rattle.automaton_reading.specs.Reading.{byte_read};
ghost use Rattle.segment_filter.specs.Sets.{IsFullBy};
ghost use Rattle.segment_filter.specs.Next.{IsNext};
ghost use Rattle.set_table.specs.Tabled.{IsRefusal, IsStateSet, IsTabled, fresh, look_up, once_asked, was_asked, weight};
ghost use Rattle.numbered_lists.specs.Numbered.{set_at};

use crate::FilterFault;
use crate::targets::asked_target;
use crate::told::{Told, UNKNOWN, target_of};
use marked_automaton::Automaton;
use set_table::{Table, TableFault};
use span_core::Steps;
use std::alloc::Global;
use std::marker::Model;
use std::sync::ledger::Ledger;

/// A table of sets, which are made as they are met, with a list of where they go on the bytes that were asked of them.
///
/// It is seen as the table. The list only tells what the table was asked: where it has no memory, or is large enough, the table is
/// asked again.
#[derive(Drop)]
pub(crate) struct DenseTable<'a> {
    table: Table<'a>,
    told: Told,
}

impl<'a> Model for DenseTable<'a> {
    ghost use Rattle.set_table.specs.Tabled.{IsTabled, Tabled};
    ghost use Rattle.set_table.specs.Codes.{tabled_code};
    ghost use Rattle.segment_filter.specs.Dense.{AreTold};

    ghost Value = { Tabled };

    ghost coded = { tabled_code };

    ghost view = { λ d. d.table };

    ghost invariant = { λ d. IsTabled d.table × AreTold d.table d.told.entries.items };
}

impl<'a> DenseTable<'a> {
    /// A table that has the set of the start states, of which nothing was asked. 1 step. `TableFault::Full` comes exactly
    /// where that set weighs more than the limit, and carries its weight.
    pub(crate) fn new<L: Ledger>(
        alloc: Global,
        automaton: &'a Automaton,
        limit: u64,
        steps: &mut Steps<L>,
    ) -> Result<DenseTable<'a>, TableFault>
        requires { limit ≤ 100000000 }
        ensures ok { IfOk result (λ t. t ≡ fresh automaton.now.graph limit) }
        ensures within { OnOk result (weight (fresh automaton.now.graph limit) ≤ limit) }
        ensures refused { IfErr result (IsRefusal (fresh automaton.now.graph limit)) }
        ensures steps { steps.new ≡ steps.old + 1 }
    {
        let table = match Table::new(alloc, automaton, limit, steps) {
            Ok(table) => table,
            Err(fault) => return Err(fault),
        };
        table.is_table();
        let told = Told::new(alloc);
        Ok(DenseTable { table, told })
    }

    /// The number of the set of the starts.
    #[inline(always)]
    pub(crate) fn start(&self) -> u32
        ensures value { result ≡ 0 }
        ensures tabled { IsTabled self.now }
    {
        self.table.start()
    }

    /// The states of a set, ascending.
    pub(crate) fn members(&self, set: u32) -> &[u32]
        requires { set < length self.now.sets }
        ensures members { result.now ≡ set_at self.now.sets set }
        ensures states { IsStateSet self.now.graph result.now }
    {
        self.table.members(set)
    }

    /// What the sets and the look-ups weigh.
    pub(crate) fn weight(&self) -> u64
        ensures value { result ≡ weight self.now }
        ensures within { result ≤ self.now.limit }
    {
        self.table.weight()
    }

    /// The set that the first edge of a set on a byte leads to, if there is any. It takes one step where
    /// this was asked before, else at most one and the automaton's size. A refusal changes nothing.
    #[inline(always)]
    pub(crate) fn next<L: Ledger>(
        &mut self,
        set: u32,
        byte: u8,
        steps: &mut Steps<L>,
    ) -> Result<Option<u32>, FilterFault>
        requires { set < length self.old.sets }
        ensures tabled { IsTabled self.new }
        ensures ok { IfOk result (λ to. (self.new ≡ once_asked self.old (look_up self.old set (byte_read byte))) ×
            IsNext self.old set byte self.new.sets to) }
        ensures err { OnErr result (self.new ≡ self.old) }
        ensures full { IfErr result (λ e. IsFullBy self.old (look_up self.old set (byte_read byte)) e) }
        ensures again { was_asked self.old (look_up self.old set (byte_read byte)) ≡ true → steps.new ≡ steps.old + 1 }
        ensures steps { steps.new ≤ steps.old + 1 + size self.old.graph }
    {
        let entry = self.told.entry(set, byte);
        if entry == UNKNOWN {
            return self.ask(set, byte, steps);
        }
        steps.tick();
        Ok(target_of(entry))
    }

    /// Asks the table where a set goes on a byte, and enters it where there is room.
    #[cold]
    #[inline(never)]
    fn ask<L: Ledger>(
        &mut self,
        set: u32,
        byte: u8,
        steps: &mut Steps<L>,
    ) -> Result<Option<u32>, FilterFault>
        requires { set < length self.old.sets }
        ensures tabled { IsTabled self.new }
        ensures ok { IfOk result (λ to. (self.new ≡ once_asked self.old (look_up self.old set (byte_read byte))) ×
            IsNext self.old set byte self.new.sets to) }
        ensures err { OnErr result (self.new ≡ self.old) }
        ensures full { IfErr result (λ e. IsFullBy self.old (look_up self.old set (byte_read byte)) e) }
        ensures again { was_asked self.old (look_up self.old set (byte_read byte)) ≡ true → steps.new ≡ steps.old + 1 }
        ensures steps { steps.new ≤ steps.old + 1 + size self.old.graph }
    {
        let to = match asked_target(&mut self.table, set, byte, steps) {
            Ok(to) => to,
            Err(fault) => return Err(fault),
        };
        let sets = self.table.sets();
        self.told.make_room(sets);
        self.told.enter(set, byte, to);
        Ok(to)
    }
}
