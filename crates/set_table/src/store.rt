//! What a table holds: lists of sets, edges and ends, and answers that stand in them.
//!
//! An answer is a part of the list of edges, and a dense index, 272 places a set, tells its number: 256 bytes, the
//! rest and the ends. A refusal cuts the lists back to their old lengths. Beside them each set that has stayed on a byte
//! notes all bytes on which it stays.
ghost use Rattle.std.specs.Prelude.{◌≡◌, ℕ, ◌+◌, ◌*◌, ◌^◌, ◌<◌, ◌≤◌, ◌++◌, ◌∷◌, List, [], length, take, slice_set, slice_index_or, ◌↔◌, ◌⊎◌, IsTrue, OnOk, OnErr, IfOk, IfErr};
ghost use Rattle.std.specs.FinSet as bytes;
ghost use Rattle.set_table.specs.Answered.{AreLonger, IsNotAsked, IsNotedIn, IsQuestion, IsSound, question_of, part, place_in, tabled, with_places};
ghost use Rattle.marked_automaton.specs.declared.way.Way.{Way as WayOf};
ghost use Rattle.set_table.specs.Runs.{AreIndexed};
ghost use Rattle.numbered_lists.specs.Numbered.{IsLongerBy, set_at};
ghost use Rattle.span_core.specs.Lists.{IsInOrder};
ghost use Rattle.set_table.specs.Tabled.{IsRefusal, asked_first, look_up, one_edge};

use crate::TableFault;
use crate::answer::{Answer, TableQuestion};
use crate::index::Index;
use crate::lists::Lists;
use crate::staying::stays_of;
use marked_automaton::Automaton;
use span_core::{ByteSet, Edge, OutOfMemory};
use std::alloc::Global;

/// How many runs of places a set has: 16 for the bytes, and one for its rest and its ends.
const RUNS: usize = 17;

/// How many places a set has.
const PLACES: usize = 272;

/// Sets with numbers, and what was asked of them.
#[derive(Drop)]
pub(crate) struct Store {
    alloc: Global,
    pub(crate) lists: Lists,
    pub(crate) answers: Vec<Answer>,
    /// For each set and question the number of its answer and 1, or 0 where it has none.
    pub(crate) numbers: Index,
    /// For each set that was asked for a byte on which it stays, all such bytes; for others none.
    pub(crate) stays: Vec<ByteSet>,
}

impl Store {
    /// One set, of which nothing was asked.
    pub(crate) fn new(alloc: Global, start: Vec<u32>) -> Result<Store, OutOfMemory>
        ensures sets { IfOk result (λ s. s.lists.sets ≡ start.items ∷ []) }
        ensures edges { IfOk result (λ s. s.lists.edges.items ≡ []) }
        ensures ends { IfOk result (λ s. s.lists.ends.items ≡ []) }
        ensures answers { IfOk result (λ s. s.answers.items ≡ []) }
        ensures numbers { IfOk result (λ s. s.numbers ≡ with_places 272 []) }
        ensures stays { IfOk result (λ s. (k : ℕ) → slice_index_or s.stays.items k bytes.empty ≡ bytes.empty) }
        ensures stay_of_each { IfOk result (λ s. length s.stays.items ≡ 1) }
        ensures indexed { IfOk result (λ s. (ways : List WayOf) → AreIndexed ways s.lists.runs) }
    {
        let lists = Lists::new(alloc, start)?;
        let mut numbers = Index::new(alloc)?;
        numbers.grow(RUNS)?;
        let mut stays = Vec::new(alloc);
        put_empty(&mut stays, 1)?;
        Ok(Store {
            alloc,
            lists,
            answers: Vec::new(alloc),
            numbers,
            stays,
        })
    }

    /// Answers a question that was not asked of the set, where all that is then held weighs no more than
    /// the limit, and tells what it weighs. After a refusal all is as before.
    pub(crate) fn answer(
        &mut self,
        automaton: &Automaton,
        set: u32,
        question: TableQuestion,
        weight: u64,
        limit: u64,
    ) -> Result<u64, TableFault>
        requires sound { IsSound automaton.now limit weight self.old }
        requires set { set < length self.old.lists.sets }
        requires question { IsQuestion question }
        requires absent { IsNotAsked (tabled automaton.now.graph limit self.old) set question }
        ensures sound { IfOk result (λ w. IsSound automaton.now limit w self.new) }
        ensures answered { OnOk result
            (tabled automaton.now.graph limit self.new ≡ asked_first (tabled automaton.now.graph limit self.old)
            (look_up (tabled automaton.now.graph limit self.old) set (question_of question))) }
        ensures refused { IfErr result
            (IsRefusal (asked_first (tabled automaton.now.graph limit self.old)
            (look_up (tabled automaton.now.graph limit self.old) set (question_of question)))) }
        ensures kept { OnErr result (IsSound automaton.now limit weight self.new) }
        ensures same { OnErr result (tabled automaton.now.graph limit self.new ≡ tabled automaton.now.graph limit self.old) }
    {
        let sets = self.lists.sets.len();
        let edges = self.lists.edges.len();
        let ends = self.lists.ends.len();
        match self.make(automaton, set, question, weight, limit) {
            Ok(weight) => Ok(weight),
            Err(fault) => {
                self.undo(sets, edges, ends);
                Err(fault)
            }
        }
    }

    /// The same, but that after a refusal there may be more sets, edges, ends and places.
    fn make(
        &mut self,
        automaton: &Automaton,
        set: u32,
        question: TableQuestion,
        weight: u64,
        limit: u64,
    ) -> Result<u64, TableFault>
        requires sound { IsSound automaton.now limit weight self.old }
        requires set { set < length self.old.lists.sets }
        requires question { IsQuestion question }
        requires absent { IsNotAsked (tabled automaton.now.graph limit self.old) set question }
        ensures sound { IfOk result (λ w. IsSound automaton.now limit w self.new) }
        ensures answered { OnOk result
            (tabled automaton.now.graph limit self.new ≡ asked_first (tabled automaton.now.graph limit self.old)
            (look_up (tabled automaton.now.graph limit self.old) set (question_of question))) }
        ensures refused { IfErr result
            (IsRefusal (asked_first (tabled automaton.now.graph limit self.old)
            (look_up (tabled automaton.now.graph limit self.old) set (question_of question)))) }
        ensures longer { AreLonger self.old.lists self.new.lists }
        ensures answers { OnErr result (self.new.answers.items ≡ self.old.answers.items) }
        ensures numbers { OnErr result (IsLongerBy self.old.numbers self.new.numbers) }
        ensures stays { OnErr result (IsLongerBy self.old.stays.items self.new.stays.items) }
        ensures indexed { AreIndexed automaton.now.graph.ways self.new.lists.runs }
    {
        let added = self.lists.add(self.alloc, automaton, set, question)?;
        let weight = weight + added.weight;
        if weight > limit {
            return Err(TableFault::Full { weight });
        }
        let answer = Answer {
            set,
            question,
            first: added.first as u32,
            count: added.count as u32,
        };
        put_empty(&mut self.stays, self.lists.sets.len())?;
        let stays = self.noted(automaton, answer)?;
        self.keep(answer)?;
        self.stays[set as usize] = stays;
        Ok(weight)
    }

    /// What is noted of an answer's set: where it stays on the byte, all bytes on which it does.
    fn noted(&self, automaton: &Automaton, answer: Answer) -> Result<ByteSet, OutOfMemory>
        requires set { answer.set < length self.now.lists.sets }
        requires order { IsInOrder ◌<◌ (set_at self.now.lists.sets answer.set) }
        requires stays { length self.now.stays.items ≡ length self.now.lists.sets }
        requires question { IsQuestion answer.question }
        requires within { answer.question ≡ TableQuestion.Ends ⊎ (answer.first + answer.count ≤ length self.now.lists.edges.items) }
        requires indexed { AreIndexed automaton.now.graph.ways self.now.lists.runs }
        ensures { IfOk result (IsNotedIn automaton.now.graph self.now answer) }
    {
        let noted = self.stays[answer.set as usize];
        let TableQuestion::Byte(byte) = answer.question else {
            return Ok(noted);
        };
        let edges = edges_part(
            self.lists.edges.as_slice(),
            answer.first as usize,
            answer.count as usize,
        );
        if noted.contains(byte) || !leads_back(edges, answer.set) {
            return Ok(noted);
        }
        stays_of(
            self.alloc,
            automaton,
            self.lists.sets.at(answer.set as usize),
            &self.lists.runs,
        )
    }

    /// Keeps the first sets, edges and ends alone, so many as it says.
    fn undo(&mut self, sets: usize, edges: usize, ends: usize)
        requires { 272 * sets < 2 ^ 64 }
        ensures sets { self.new.lists.sets ≡ take sets self.old.lists.sets }
        ensures edges { self.new.lists.edges.items ≡ take edges self.old.lists.edges.items }
        ensures ends { self.new.lists.ends.items ≡ take ends self.old.lists.ends.items }
        ensures numbers { self.new.numbers ≡ take (272 * sets) self.old.numbers }
        ensures stays { self.new.stays.items ≡ take sets self.old.stays.items }
        ensures answers { self.new.answers.items ≡ self.old.answers.items }
        ensures runs { self.new.lists.runs ≡ self.old.lists.runs }
    {
        self.lists.sets.truncate(sets);
        self.lists.edges.truncate(edges);
        self.lists.ends.truncate(ends);
        self.numbers.truncate(RUNS * sets);
        self.stays.truncate(sets);
    }

    /// Keeps an answer that was added. On refusal there may be more places.
    fn keep(&mut self, answer: Answer) -> Result<(), OutOfMemory>
        requires set { answer.set < length self.old.lists.sets }
        requires question { IsQuestion answer.question }
        requires places { length self.old.numbers ≤ 272 * length self.old.lists.sets }
        requires few_sets { length self.old.lists.sets ≤ 200000000 }
        requires few_answers { length self.old.answers.items ≤ 100000000 }
        ensures lists { self.new.lists ≡ self.old.lists }
        ensures answers { OnOk result (self.new.answers.items ≡ self.old.answers.items ++ answer ∷ []) }
        ensures numbers { OnOk result (self.new.numbers ≡ slice_set
            (with_places (272 * length self.old.lists.sets) self.old.numbers) (place_in answer.set answer.question)
            (1 + length self.old.answers.items)) }
        ensures same { OnErr result (self.new.answers.items ≡ self.old.answers.items) }
        ensures places { OnErr result (IsLongerBy self.old.numbers self.new.numbers) }
        ensures stays { self.new.stays.items ≡ self.old.stays.items }
    {
        self.numbers.grow(RUNS * self.lists.sets.len())?;
        let number = self.answers.len() as u32 + 1;
        self.answers.push(answer)?;
        let place = place_of(answer.set, answer.question);
        if let Err(fault) = self.numbers.put(place, number) {
            self.answers.pop();
            return Err(fault);
        }
        Ok(())
    }
}

/// Appends empty sets until there are so many.
pub(crate) fn put_empty(stays: &mut Vec<ByteSet>, count: usize) -> Result<(), OutOfMemory>
    requires { length stays.old.items ≤ count }
    ensures longer { IsLongerBy stays.old.items stays.new.items }
    ensures same { (k : ℕ) → slice_index_or stays.new.items k bytes.empty ≡ slice_index_or stays.old.items k bytes.empty }
    ensures count { OnOk result (length stays.new.items ≡ count) }
{
    for _ in stays.len()..count {
        stays.push(ByteSet::empty())?;
    }
    Ok(())
}

/// So many edges, from the first on.
pub(crate) fn edges_part(edges: &[Edge], first: usize, count: usize) -> &[Edge]
    requires { first + count ≤ length edges.now }
    ensures { result.now ≡ part first count edges.now }
{
    let (_, rest) = edges.split_at(first);
    let (edges, _) = rest.split_at(count);
    edges
}

/// Whether there is one edge, which takes no marks and leads to this set.
fn leads_back(edges: &[Edge], set: u32) -> bool
    ensures { IsTrue result ↔ (edges.now ≡ one_edge set ∷ []) }
{
    if edges.len() != 1 {
        return false;
    }
    if edges[0].to != set {
        return false;
    }
    edges[0].marks.is_none()
}

/// The place of a set's question among the numbers.
pub(crate) fn place_of(set: u32, question: TableQuestion) -> usize
    ensures { result ≡ place_in set question }
{
    let place = match question {
        TableQuestion::Byte(byte) => usize::from(byte),
        TableQuestion::Rest => 256,
        TableQuestion::Ends => 257,
    };
    PLACES * set as usize + place
}
