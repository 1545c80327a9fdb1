//! Tables: an automaton, what is held of its sets, and how much that weighs.
//!
//! Weight is counted as it is added, so that a look-up is refused exactly where it would pass the limit; what a
//! refused look-up had added is taken back.
ghost use Rattle.std.specs.Prelude.{◌≡◌, ℕ, ◌+◌, ◌<◌, ◌≤◌, List, [], ◌∷◌, length, IfOk, IfErr, IfNone, IfSome, OnOk, OnErr, Some, slice_get, ◌↔◌, IsTrue};
ghost use Rattle.automaton_reading.specs.Reading.{LookUp, byte_read, rest_taken, ended};
ghost use Rattle.std.specs.FinSet as bytes;
ghost use Rattle.std.specs.Borrow.{sem};
ghost use Rattle.set_table.specs.Lending.{Gives, Leaves};
ghost use Rattle.span_core.specs.Lists.{Has};
ghost use Rattle.set_table.specs.Tabled.{HasEdges, HasEnds, HasStayed, HasRest, IsRefusal, IsStateSet, IsTabled, Stays, asked_first, fresh, look_up, once_asked, weight};
ghost use Rattle.numbered_lists.specs.Numbered.{set_at};
ghost use Rattle.set_table.specs.Laid.{IsStateOf, taken_up};
ghost use Rattle.set_table.specs.Answered.{IsQuestion, question_of, part};

use crate::answer::TableQuestion;
use crate::reaching::start_set;
use crate::store::{Store, edges_part, place_of};
use crate::{TableFault, TableState};
use marked_automaton::{Automaton, Way};
use span_core::{ByteSet, Edge, Marks, OutOfMemory, Steps};
use std::alloc::Global;
use std::marker::Model;
use std::sync::ledger::Ledger;

/// A table determinises an automaton while a document is read: it numbers the sets of states that are
/// reached and keeps the answers to what was asked of them.
///
/// It is seen as the automaton's graph, its limit, the list of the sets in the order of their numbers,
/// and the list of what was asked in its order. Set 0 is that of the start states.
#[derive(Drop)]
pub struct Table<'a> {
    automaton: &'a Automaton,
    limit: u64,
    weight: u64,
    store: Store,
}

impl<'a> Model for Table<'a> {
    ghost use Rattle.set_table.specs.Tabled.{Tabled};
    ghost use Rattle.set_table.specs.Codes.{tabled_code};

    ghost Value = { Tabled };

    ghost coded = { tabled_code };

    ghost use Rattle.set_table.specs.Answered.{IsSound, tabled};

    ghost view = { λ t. tabled t.automaton.now.graph t.limit t.store };

    ghost invariant = { λ t. IsSound t.automaton.now t.limit t.weight t.store };
}

impl<'a> Table<'a> {
    /// A table that has the set of the start states. 1 step. `TableFault::Full` comes exactly where that
    /// set weighs more than the limit, and carries its weight.
    pub fn new<L: Ledger>(
        alloc: Global,
        automaton: &'a Automaton,
        limit: u64,
        steps: &mut Steps<L>,
    ) -> Result<Table<'a>, TableFault>
        requires { limit ≤ 100000000 }
        ensures ok { IfOk result (λ t. t ≡ fresh automaton.now.graph limit) }
        ensures within { OnOk result (weight (fresh automaton.now.graph limit) ≤ limit) }
        ensures refused { IfErr result (IsRefusal (fresh automaton.now.graph limit)) }
        ensures steps { steps.new ≡ steps.old + 1 }
    {
        steps.tick();
        automaton.is_marked();
        let _names = automaton.vars().len();
        let start = start_set(alloc, automaton.starts())?;
        let weight = 1 + start.len() as u64;
        if weight > limit {
            return Err(TableFault::Full { weight });
        }
        let store = Store::new(alloc, start)?;
        Ok(Table {
            automaton,
            limit,
            weight,
            store,
        })
    }

    /// Lays the table down, so that its automaton is free. It takes no memory.
    pub fn lay_down(self) -> TableState
        ensures state { IsStateOf self.entry.graph result }
        ensures table { taken_up self.entry.graph result ≡ self.entry }
    {
        let Table {
            automaton: _,
            limit,
            weight,
            store,
        } = self;
        TableState {
            limit,
            weight,
            store,
        }
    }

    /// The table that was laid down, as it was; its automaton was equal to this one. It takes no memory.
    pub fn take_up(automaton: &'a Automaton, state: TableState) -> Table<'a>
        requires { IsStateOf automaton.now.graph state }
        ensures { result ≡ taken_up automaton.now.graph state }
    {
        automaton.is_marked();
        let _names = automaton.vars().len();
        let TableState {
            limit,
            weight,
            store,
        } = state;
        Table {
            automaton,
            limit,
            weight,
            store,
        }
    }

    /// The number of the set of the start states.
    pub fn start(&self) -> u32
        ensures zero { result ≡ 0 }
        ensures tabled { IsTabled self.now }
    {
        self.is_table();
        0
    }

    /// How many sets there are: they are the numbers below it.
    pub fn sets(&self) -> usize
        ensures { result ≡ length self.now.sets }
    {
        self.store.lists.sets.len()
    }

    /// What is always true of a table. It does nothing.
    pub fn is_table(&self)
        ensures { IsTabled self.now }
    {
        let _weight = self.weight;
    }

    /// The states of a set, strictly ascending.
    pub fn members(&self, set: u32) -> &[u32]
        requires { set < length self.now.sets }
        ensures tabled { IsTabled self.now }
        ensures members { result.now ≡ set_at self.now.sets set }
        ensures states { IsStateSet self.now.graph result.now }
    {
        self.is_table();
        self.store.lists.sets.at(set as usize)
    }

    /// The ways of its automaton.
    pub fn ways(&self) -> &[Way]
        ensures { result.now ≡ self.now.graph.ways }
    {
        self.automaton.ways()
    }

    /// What the table weighs: 1 + members of each set, and 1 + edges of all that was asked.
    pub fn weight(&self) -> u64
        ensures value { result ≡ weight self.now }
        ensures within { result ≤ self.now.limit }
    {
        self.weight
    }

    /// The bytes on which a set stays, once it was asked for one of them; before that none. A reader may pass over them: their
    /// one edge takes no marks and leads to the set itself.
    pub fn stays(&self, set: u32) -> ByteSet
        requires { set < length self.now.sets }
        ensures { (b : ℕ) → IsTrue (bytes.contains result b) ↔ (HasStayed self.now set × Stays self.now set b) }
    {
        self.store.stays[set as usize]
    }

    /// The edges of a set on a byte: one for each block of marks that some way of a member takes on it,
    /// to the set of all states that are so reached, the greatest marks first. They are made where they
    /// were not asked before. 1 step.
    ///
    /// `TableFault::Full` comes exactly where the table would weigh more than its limit, and carries what
    /// it would weigh. After a refusal it is as before.
    pub fn row<L: Ledger>(
        &mut self,
        set: u32,
        byte: u8,
        steps: &mut Steps<L>,
    ) -> Result<&[Edge], TableFault>
        requires { set < length self.old.sets }
        ensures tabled { IsTabled self.old }
        ensures* table { sem 𝓛 (Leaves self.entry (Gives HasEdges self.old (look_up self.old set (byte_read byte)) result)) }
        ensures steps { steps.new ≡ steps.old + 1 }
    {
        steps.tick();
        self.is_table();
        let number = self.ask(set, TableQuestion::Byte(byte))?;
        self.is_table();
        Ok(self.edges_at(number))
    }

    /// The edges of a set on a byte, where there is that set and they were asked before. It takes no step: nothing is made.
    pub fn asked_row(&self, set: u32, byte: u8) -> Option<&[Edge]>
        ensures some { IfSome result (λ es. (set < length self.now.sets) ×
            HasEdges self.now (look_up self.now set (byte_read byte)) es.now) }
        ensures asked { IfSome result (λ _. Has self.now.look_ups (look_up self.now set (byte_read byte))) }
        ensures none { IfNone result (set < length self.now.sets → ¬ Has self.now.look_ups (look_up self.now set (byte_read byte))) }
    {
        if self.store.lists.sets.len() <= set as usize {
            return None;
        }
        let number = self
            .store
            .numbers
            .at(place_of(set, TableQuestion::Byte(byte)));
        if number == 0 {
            return None;
        }
        Some(self.edges_at(number as usize - 1))
    }

    /// The set of a set's idle members; none exactly where no member is idle. It is made where it was not
    /// asked before. 1 step. The refusals are those of `row`.
    pub fn rest<L: Ledger>(
        &mut self,
        set: u32,
        steps: &mut Steps<L>,
    ) -> Result<Option<u32>, TableFault>
        requires { set < length self.old.sets }
        ensures tabled { IsTabled self.old × IsTabled self.new }
        ensures asked { OnOk result (self.new ≡ once_asked self.old (look_up self.old set rest_taken)) }
        ensures rest { IfOk result (HasRest self.new set) }
        ensures err { OnErr result (self.new ≡ self.old) }
        ensures refused { IfErr result (IsRefusal (once_asked self.old (look_up self.old set rest_taken))) }
        ensures steps { steps.new ≡ steps.old + 1 }
    {
        steps.tick();
        self.is_table();
        let number = self.ask(set, TableQuestion::Rest)?;
        self.is_table();
        let edges = self.edges_at(number);
        if edges.is_empty() {
            Ok(None)
        } else {
            Ok(Some(edges[0].to))
        }
    }

    /// The distinct marks of the members' ends, the greatest first. They are made where they were not
    /// asked before. 1 step. The refusals are those of `row`.
    pub fn ends<L: Ledger>(
        &mut self,
        set: u32,
        steps: &mut Steps<L>,
    ) -> Result<&[Marks], TableFault>
        requires { set < length self.old.sets }
        ensures tabled { IsTabled self.old }
        ensures* table { sem 𝓛 (Leaves self.entry (Gives HasEnds self.old (look_up self.old set ended) result)) }
        ensures steps { steps.new ≡ steps.old + 1 }
    {
        steps.tick();
        self.is_table();
        let number = self.ask(set, TableQuestion::Ends)?;
        self.is_table();
        Ok(self.marks_at(number))
    }

    /// The number of the answer to a question, which is made now if it was not asked before.
    fn ask(&mut self, set: u32, question: TableQuestion) -> Result<usize, TableFault>
        requires set { set < length self.old.sets }
        requires question { IsQuestion question }
        ensures asked { OnOk result (self.new ≡ once_asked self.old (look_up self.old set (question_of question))) }
        ensures number { IfOk result (λ i. slice_get self.new.look_ups i ≡ Some (look_up self.old set (question_of question))) }
        ensures err { OnErr result (self.new ≡ self.old) }
        ensures refused { IfErr result (IsRefusal (once_asked self.old (look_up self.old set (question_of question)))) }
    {
        let number = self.store.numbers.at(place_of(set, question));
        if number != 0 {
            return Ok(number as usize - 1);
        }
        self.answer(set, question)
    }

    /// Makes the answer to a question that was not asked before, and tells its number. After a refusal the
    /// table is as before.
    #[cold]
    #[inline(never)]
    fn answer(&mut self, set: u32, question: TableQuestion) -> Result<usize, TableFault>
        requires set { set < length self.old.sets }
        requires question { IsQuestion question }
        requires absent { Has self.old.look_ups (look_up self.old set (question_of question)) → ⊥ }
        ensures asked { OnOk result (self.new ≡ asked_first self.old (look_up self.old set (question_of question))) }
        ensures number { IfOk result (λ i. slice_get self.new.look_ups i ≡ Some (look_up self.old set (question_of question))) }
        ensures err { OnErr result (self.new ≡ self.old) }
        ensures refused { IfErr result (IsRefusal (asked_first self.old (look_up self.old set (question_of question)))) }
    {
        let automaton = self.automaton;
        self.weight = self
            .store
            .answer(automaton, set, question, self.weight, self.limit)?;
        Ok(self.store.answers.len() - 1)
    }

    /// The edges of an answer.
    fn edges_at(&self, number: usize) -> &[Edge]
        requires within { number < length self.now.look_ups }
        requires edges { (r : LookUp) → slice_get self.now.look_ups number ≡ Some r → r.ask ≡ ended → ⊥ }
        ensures { (r : LookUp) → slice_get self.now.look_ups number ≡ Some r → HasEdges self.now r result.now }
    {
        let answer = self.store.answers[number];
        edges_part(
            self.store.lists.edges.as_slice(),
            answer.first as usize,
            answer.count as usize,
        )
    }

    /// The marks of an answer.
    fn marks_at(&self, number: usize) -> &[Marks]
        requires within { number < length self.now.look_ups }
        requires ends { (r : LookUp) → slice_get self.now.look_ups number ≡ Some r → r.ask ≡ ended }
        ensures { (r : LookUp) → slice_get self.now.look_ups number ≡ Some r → HasEnds self.now r result.now }
    {
        let answer = self.store.answers[number];
        marks_part(
            self.store.lists.ends.as_slice(),
            answer.first as usize,
            answer.count as usize,
        )
    }
}

/// So many marks, from the first on.
fn marks_part(marks: &[Marks], first: usize, count: usize) -> &[Marks]
    requires { first + count ≤ length marks.now }
    ensures { result.now ≡ part first count marks.now }
{
    let (_, rest) = marks.split_at(first);
    let (marks, _) = rest.split_at(count);
    marks
}
