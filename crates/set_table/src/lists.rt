//! What answers are made of: sets, edges and the marks of ends, in lists that only grow.
ghost use Rattle.std.specs.Prelude.{◌≡◌, [], ◌∷◌, List, IfOk};
ghost use Rattle.marked_automaton.specs.declared.way.Way.{Way as WayOf};
ghost use Rattle.set_table.specs.Answered.{AreLonger, HasAdded, IsReady};
ghost use Rattle.set_table.specs.Runs.{AreIndexed};

use crate::answer::TableQuestion;
use crate::naming::{put_edges, put_ends, put_rest};
use crate::reaching::{idle_members, put_codes, put_marks};
use crate::way_runs::WayRuns;
use marked_automaton::Automaton;
use numbered_lists::NumberedLists;
use span_core::{Edge, Marks, OutOfMemory};
use std::alloc::Global;

/// Sets with numbers, edges to them, and the marks of ends.
#[derive(Drop)]
pub(crate) struct Lists {
    pub(crate) sets: NumberedLists,
    pub(crate) edges: Vec<Edge>,
    pub(crate) ends: Vec<Marks>,
    /// The ways of states with many of them.
    pub(crate) runs: WayRuns,
    /// Room for what members reach.
    codes: Vec<u128>,
}

/// An answer that was added: where it stands, and what it weighs with the sets that are new.
#[derive(Clone, Copy, Debug)]
pub(crate) struct Added {
    pub(crate) first: usize,
    pub(crate) count: usize,
    pub(crate) weight: u64,
}

impl Lists {
    /// One set alone.
    pub(crate) fn new(alloc: Global, start: Vec<u32>) -> Result<Lists, OutOfMemory>
        ensures sets { IfOk result (λ lists. lists.sets ≡ start.items ∷ []) }
        ensures edges { IfOk result (λ lists. lists.edges.items ≡ []) }
        ensures ends { IfOk result (λ lists. lists.ends.items ≡ []) }
        ensures indexed { IfOk result (λ lists. (ways : List WayOf) → AreIndexed ways lists.runs) }
    {
        let mut sets = NumberedLists::new(alloc);
        sets.number_of(start)?;
        Ok(Lists {
            sets,
            edges: Vec::new(alloc),
            ends: Vec::new(alloc),
            runs: WayRuns::new(alloc),
            codes: Vec::new(alloc),
        })
    }

    /// Adds an answer's edges or ends, and the sets that edges lead to, and tells what that weighs. On
    /// refusal some of them may be there.
    pub(crate) fn add(
        &mut self,
        alloc: Global,
        automaton: &Automaton,
        set: u32,
        question: TableQuestion,
    ) -> Result<Added, OutOfMemory>
        requires { IsReady automaton.now self.old set }
        ensures added { IfOk result (HasAdded automaton.now.graph self.old self.new set question) }
        ensures longer { AreLonger self.old self.new }
        ensures indexed { AreIndexed automaton.now.graph.ways self.new.runs }
    {
        match question {
            TableQuestion::Byte(byte) => self.add_edges(alloc, automaton, set, byte),
            TableQuestion::Rest => self.add_rest(alloc, automaton, set),
            TableQuestion::Ends => self.add_ends(automaton, set),
        }
    }

    /// Adds the edges of a set on a byte, and the sets that they lead to.
    fn add_edges(
        &mut self,
        alloc: Global,
        automaton: &Automaton,
        set: u32,
        byte: u8,
    ) -> Result<Added, OutOfMemory>
        requires { IsReady automaton.now self.old set }
        ensures added { IfOk result (HasAdded automaton.now.graph self.old self.new set (TableQuestion.Byte byte)) }
        ensures longer { AreLonger self.old self.new }
        ensures indexed { AreIndexed automaton.now.graph.ways self.new.runs }
    {
        put_codes(
            &mut self.codes,
            &mut self.runs,
            automaton,
            self.sets.at(set as usize),
            byte,
        )?;
        let first = self.edges.len();
        let added = put_edges(
            alloc,
            self.codes.as_slice(),
            &mut self.sets,
            &mut self.edges,
        )?;
        Ok(Added {
            first,
            count: self.edges.len() - first,
            weight: added + 1,
        })
    }

    /// Adds the edge of a set to its idle members, where it has any, and their set.
    fn add_rest(
        &mut self,
        alloc: Global,
        automaton: &Automaton,
        set: u32,
    ) -> Result<Added, OutOfMemory>
        requires { IsReady automaton.now self.old set }
        ensures added { IfOk result (HasAdded automaton.now.graph self.old self.new set TableQuestion.Rest) }
        ensures longer { AreLonger self.old self.new }
        ensures indexed { AreIndexed automaton.now.graph.ways self.new.runs }
    {
        let idle = idle_members(alloc, automaton, self.sets.at(set as usize))?;
        let first = self.edges.len();
        let added = put_rest(idle, &mut self.sets, &mut self.edges)?;
        Ok(Added {
            first,
            count: self.edges.len() - first,
            weight: added + 1,
        })
    }

    /// Adds the marks of a set's ends.
    fn add_ends(&mut self, automaton: &Automaton, set: u32) -> Result<Added, OutOfMemory>
        requires { IsReady automaton.now self.old set }
        ensures added { IfOk result (HasAdded automaton.now.graph self.old self.new set TableQuestion.Ends) }
        ensures longer { AreLonger self.old self.new }
        ensures indexed { AreIndexed automaton.now.graph.ways self.new.runs }
    {
        put_marks(
            &mut self.codes,
            automaton.stops(),
            self.sets.at(set as usize),
        )?;
        let first = self.ends.len();
        put_ends(self.codes.as_slice(), &mut self.ends)?;
        let count = self.ends.len() - first;
        Ok(Added {
            first,
            count,
            weight: count as u64 + 1,
        })
    }
}
