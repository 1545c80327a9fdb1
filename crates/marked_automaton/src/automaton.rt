//! Automata.
ghost use Rattle.std.specs.Prelude.{◌≡◌, ℕ, ◌+◌, ◌<◌, ◌≤◌, ◌↔◌, ◌⊎◌, IsTrue, IsOk, IfOk, IfErr, OnOk, OnErr, List, length, map, All};
ghost use Rattle.std.specs.Option.{ForSome};
ghost use Rattle.std.specs.FinSet as set;
ghost use Rattle.span_core.specs.Block.{block};
ghost use Rattle.span_core.specs.declared.span.Span.{Span};
ghost use Rattle.span_core.specs.Lists.{Has};
ghost use Rattle.marked_automaton.specs.declared.TheConstants.{MOST_STATES, MOST_WAYS};
ghost use Rattle.marked_automaton.specs.Automaton.{Accepts, HasGraphOf, IsBlockOf, IsMarked, TakesNoMarks, bare, idle_way, plain_stop, reversed, turned_way, with_start, with_states, with_stop, with_way, with_ways, ways_from, IsWayOf, AreGrouped};
ghost use Rattle.marked_automaton.specs.Faults.{IsSizeFaultOf};
ghost use Rattle.marked_automaton.specs.Marks.{left_of, remarked};
ghost use Rattle.marked_automaton.specs.Reduct.{IsUseful, Rearranges, Reduces};

use crate::accepting::{accepting, some_good};
use crate::eraser::Eraser;
use crate::grouping::{are_grouped, group, stay_grouped, ways_from};
use crate::trimming::{Numbers, end_states, flags_of_kept, states_between};
use crate::{MOST_STATES, MOST_WAYS, SizeFault, Stop, Way};
use span_core::{Marks, OutOfMemory, Row, VarSet};
use std::alloc::{AllocError, Global};
use std::marker::Model;

/// An automaton over the markers of some variables (Florenzano, Riveros, Ugarte, Vansummeren and Vrgoc,
/// "Constant delay algorithms for regular document spanners", PODS 2018: extended variable-set automata).
///
/// At position i of a document of length n it stands in a state, takes the block of markers of position
/// i and the byte at i in one way, and goes to the way's target. At position n it takes an end. An idle
/// state has a way to itself that takes no markers and any byte.
///
/// It is seen as its variables' names and its graph: the number of its states, and the lists of its
/// starts, ways, ends and idle states.
#[derive(Drop)]
pub struct Automaton {
    vars: VarSet,
    states: u32,
    starts: Vec<u32>,
    ways: Vec<Way>,
    stops: Vec<Stop>,
    /// For each state whether it is idle.
    idle: Vec<bool>,
    /// Whether the ways stand in the order of the states that they lead from.
    grouped: bool,
}

impl Model for Automaton {
    ghost use Rattle.std.specs.Prelude.{◌≡◌, ◌↔◌, IsTrue, length};
    ghost use Rattle.marked_automaton.specs.Automaton.{AreGrouped, Marked, IsMarked};
    ghost use Rattle.marked_automaton.specs.Inside.{graph_of};

    ghost Value = { Marked };

    ghost use Rattle.marked_automaton.specs.Codes.{marked_code};

    ghost coded = { marked_code };

    ghost view = { λ a. record { names = a.vars; graph = graph_of a.states a.starts.items a.ways.items a.stops.items a.idle.items } };

    ghost invariant = { λ a. IsMarked (record { names = a.vars; graph = graph_of a.states a.starts.items a.ways.items a.stops.items a.idle.items }) × (length a.idle.items ≡ a.states) × (IsTrue a.grouped ↔ AreGrouped a.ways.items) };
}

impl Automaton {
    /// An automaton of so many states and nothing else.
    pub fn new(alloc: Global, vars: VarSet, states: u32) -> Result<Automaton, SizeFault>
        ensures ok { IfOk result (λ a. (a.names ≡ vars) × (a.graph ≡ bare states)) }
        ensures few { OnOk result (states ≤ MOST_STATES) }
        ensures err { IfErr result (λ e. IsSizeFaultOf states 0 e) }
    {
        if states > MOST_STATES {
            return Err(SizeFault::States {
                count: u64::from(states),
            });
        }
        let mut idle = Vec::new(alloc);
        idle.resize(states as usize, false)?;
        Ok(Automaton {
            vars,
            states,
            starts: Vec::new(alloc),
            ways: Vec::new(alloc),
            stops: Vec::new(alloc),
            idle,
            grouped: true,
        })
    }

    /// An automaton of so many states with these ways, and nothing else. The refusals are those of `new`
    /// and of `add_way`, exactly by the numbers of states and ways.
    pub fn with_ways(
        alloc: Global,
        vars: VarSet,
        states: u32,
        ways: Vec<Way>,
    ) -> Result<Automaton, SizeFault>
        requires { All (IsWayOf states (length vars)) ways.items }
        ensures ok { IfOk result (λ a. (a.names ≡ vars) × (a.graph ≡ with_ways states ways.items)) }
        ensures few { OnOk result ((states ≤ MOST_STATES) × (length ways.items ≤ MOST_WAYS)) }
        ensures err { IfErr result (λ e. IsSizeFaultOf states (length ways.items) e) }
    {
        if ways.len() > MOST_WAYS && states <= MOST_STATES {
            return Err(SizeFault::Ways {
                count: ways.len() as u64,
            });
        }
        let mut automaton = Automaton::new(alloc, vars, states)?;
        automaton.grouped = are_grouped(ways.as_slice());
        automaton.ways = ways;
        Ok(automaton)
    }

    /// Puts the ways in the order of the states that they lead from, which changes no meaning. It takes
    /// time linear in the states and the ways, and memory of two numbers for each state; where they stand
    /// in order already it takes neither. On refusal nothing has moved.
    pub fn group_ways(&mut self, alloc: Global) -> Result<(), OutOfMemory>
        ensures names { self.new.names ≡ self.old.names }
        ensures rearranges { OnOk result (Rearranges self.new.graph self.old.graph) }
        ensures same { OnOk result ((self.new.graph.starts ≡ self.old.graph.starts) ×
            (self.new.graph.stops ≡ self.old.graph.stops) × (self.new.graph.idle ≡ self.old.graph.idle) ×
            (length self.new.graph.ways ≡ length self.old.graph.ways)) }
        ensures grouped { OnOk result (AreGrouped self.new.graph.ways) }
        ensures err { OnErr result (self.new.graph ≡ self.old.graph) }
    {
        if self.grouped {
            return Ok(());
        }
        group(alloc, self.states, self.ways.as_mut_slice())?;
        self.grouped = true;
        Ok(())
    }

    /// Whether the ways stand in the order of the states that they lead from. The automaton keeps count
    /// of it, so that this takes one step.
    pub fn is_grouped(&self) -> bool
        ensures { IsTrue result ↔ AreGrouped self.now.graph.ways }
    {
        self.grouped
    }

    /// Adds so many states, which nothing leads to or from. On refusal nothing is added.
    /// `SizeFault::States` comes exactly where there would be more than `MOST_STATES`, and tells that
    /// number; `SizeFault::Ways` never comes.
    pub fn add_states(&mut self, more: u32) -> Result<(), SizeFault>
        ensures names { self.new.names ≡ self.old.names }
        ensures ok { OnOk result (self.new.graph ≡ with_states more self.old.graph) }
        ensures few { OnOk result (self.old.graph.states + more ≤ MOST_STATES) }
        ensures err { OnErr result (self.new.graph ≡ self.old.graph) }
        ensures fault { IfErr result (λ e. IsSizeFaultOf (self.old.graph.states + more) 0 e) }
    {
        let count = u64::from(self.states) + u64::from(more);
        if count > u64::from(MOST_STATES) {
            return Err(SizeFault::States { count });
        }
        self.idle.resize(count as usize, false)?;
        self.states += more;
        Ok(())
    }

    /// Adds a start. On refusal nothing is added.
    pub fn add_start(&mut self, state: u32) -> Result<(), OutOfMemory>
        requires { state < self.old.graph.states }
        ensures names { self.new.names ≡ self.old.names }
        ensures ok { OnOk result (self.new.graph ≡ with_start state self.old.graph) }
        ensures err { OnErr result (self.new.graph ≡ self.old.graph) }
    {
        self.starts.push(state)?;
        Ok(())
    }

    /// Adds a way. On refusal nothing is added. `SizeFault::Ways` comes exactly where `MOST_WAYS` are
    /// there, and tells the number that there would be; `SizeFault::States` never comes.
    pub fn add_way(&mut self, way: Way) -> Result<(), SizeFault>
        requires from { way.from < self.old.graph.states }
        requires to { way.to < self.old.graph.states }
        requires marks { IsBlockOf (length self.old.names) way.marks }
        requires bytes { ¬ (way.bytes ≡ set.empty) }
        ensures names { self.new.names ≡ self.old.names }
        ensures ok { OnOk result (self.new.graph ≡ with_way way self.old.graph) }
        ensures few { OnOk result (length self.old.graph.ways < MOST_WAYS) }
        ensures err { OnErr result (self.new.graph ≡ self.old.graph) }
        ensures fault { IfErr result (λ e. IsSizeFaultOf 0 (1 + length self.old.graph.ways) e) }
    {
        if self.ways.len() >= MOST_WAYS {
            return Err(SizeFault::Ways {
                count: self.ways.len() as u64 + 1,
            });
        }
        let grouped = stay_grouped(self.grouped, self.ways.as_slice(), &way);
        self.ways.push(way)?;
        self.grouped = grouped;
        Ok(())
    }

    /// Adds an end. On refusal nothing is added.
    pub fn add_stop(&mut self, stop: Stop) -> Result<(), OutOfMemory>
        requires state { stop.state < self.old.graph.states }
        requires marks { IsBlockOf (length self.old.names) stop.marks }
        ensures names { self.new.names ≡ self.old.names }
        ensures ok { OnOk result (self.new.graph ≡ with_stop stop self.old.graph) }
        ensures err { OnErr result (self.new.graph ≡ self.old.graph) }
    {
        self.stops.push(stop)?;
        Ok(())
    }

    /// Makes a state idle, which has its way to itself already. It always succeeds.
    pub fn set_idle(&mut self, state: u32) -> Result<(), OutOfMemory>
        requires state { state < self.old.graph.states }
        requires way { Has self.old.graph.ways (idle_way state) }
        ensures names { self.new.names ≡ self.old.names }
        ensures graph { HasGraphOf self.new.graph self.old.graph }
        ensures ok { OnOk result ((p : ℕ) → Has self.new.graph.idle p ↔ (Has self.old.graph.idle p ⊎ (p ≡ state))) }
        ensures err { OnErr result (self.new.graph ≡ self.old.graph) }
        ensures succeeds { IsOk result }
    {
        self.idle[state as usize] = true;
        Ok(())
    }

    /// The variables.
    pub fn vars(&self) -> &VarSet
        ensures { result.now ≡ self.now.names }
    {
        &self.vars
    }

    /// The number of states: they are the numbers below it.
    pub fn states(&self) -> u32
        ensures value { result ≡ self.now.graph.states }
        ensures marked { IsMarked self.now }
    {
        self.states
    }

    /// What is always true of an automaton: what it holds fits together, and no more than so many states and ways.
    pub fn is_marked(&self)
        ensures { IsMarked self.now }
    {
        let _states = self.states;
    }

    /// The ways.
    pub fn ways(&self) -> &[Way]
        ensures { result.now ≡ self.now.graph.ways }
    {
        self.ways.as_slice()
    }

    /// The ways from a state, in time logarithmic in the number of all ways. It is for ways that stand in
    /// the order of the states that they lead from, as `group_ways` puts them.
    pub fn ways_from(&self, state: u32) -> &[Way]
        requires { AreGrouped self.now.graph.ways }
        ensures { result.now ≡ ways_from self.now.graph.ways state }
    {
        ways_from(self.ways.as_slice(), state)
    }

    /// The starts.
    pub fn starts(&self) -> &[u32]
        ensures { result.now ≡ self.now.graph.starts }
    {
        self.starts.as_slice()
    }

    /// The ends.
    pub fn stops(&self) -> &[Stop]
        ensures { result.now ≡ self.now.graph.stops }
    {
        self.stops.as_slice()
    }

    /// Whether a state is idle.
    pub fn is_idle(&self, state: u32) -> bool
        requires { state < self.now.graph.states }
        ensures { IsTrue result ↔ Has self.now.graph.idle state }
    {
        self.idle[state as usize]
    }

    /// Whether the blocks of the row and the bytes of the document are an accepted word. It tries all
    /// ways at each position, so it is for tests.
    pub fn accepts(&self, alloc: Global, row: &Row, doc: &[u8]) -> Result<bool, OutOfMemory>
        requires variables { length row.now ≡ length self.now.names }
        requires within { All (λ span. ForSome span (λ (s : Span). s.end ≤ length doc.now)) row.now }
        ensures { IfOk result (λ accepted. IsTrue accepted ↔ Accepts self.now.graph doc.now (block row.now)) }
    {
        let good = accepting(
            alloc,
            self.states,
            self.ways.as_slice(),
            self.stops.as_slice(),
            row,
            doc,
        )?;
        Ok(some_good(self.starts.as_slice(), good.as_slice()))
    }

    /// The automaton of the states that lie on some way from a start to an end, with the same accepted
    /// words. Idle states stay idle. On refusal the automaton is given up. The ways stay in their memory,
    /// and an automaton of which each state is kept is handed on as it is.
    pub fn trim(self, alloc: Global) -> Result<Automaton, OutOfMemory>
        ensures names { IfOk result (λ a. a.names ≡ self.names) }
        ensures reduct { IfOk result (λ a. Reduces a.graph self.graph) }
        ensures useful { IfOk result (λ a. (p : ℕ) → p < a.graph.states → IsUseful a.graph p) }
    {
        let useful = states_between(
            alloc,
            self.states,
            self.starts.as_slice(),
            self.ways.as_slice(),
            self.stops.as_slice(),
        )?;
        let kept = Numbers::new(alloc, useful.as_slice())?;
        if kept.count == self.states {
            return Ok(self);
        }
        let Automaton {
            vars,
            states: _,
            starts,
            ways,
            stops,
            idle,
            grouped: _,
        } = self;
        let ways = kept.ways(ways);
        let grouped = are_grouped(ways.as_slice());
        Ok(Automaton {
            vars,
            states: kept.count,
            starts: kept.states(alloc, starts.as_slice())?,
            ways,
            stops: kept.stops(alloc, stops.as_slice())?,
            idle: flags_of_kept(alloc, useful.as_slice(), idle.as_slice())?,
            grouped,
        })
    }

    /// The automaton over the kept variables: the markers of all others are erased. A variable that it
    /// lacks has no markers.
    pub fn erase(&self, alloc: Global, keep: &VarSet) -> Result<Automaton, OutOfMemory>
        ensures names { IfOk result (λ a. a.names ≡ keep.now) }
        ensures graph { IfOk result (λ a. a.graph ≡ remarked (left_of self.now.names keep.now) self.now.graph) }
    {
        let eraser = Eraser::new(alloc, &self.vars, keep)?;
        Ok(Automaton {
            vars: keep.copy(),
            states: self.states,
            starts: copy_of(alloc, self.starts.as_slice())?,
            ways: eraser.ways(alloc, self.ways.as_slice())?,
            stops: eraser.stops(alloc, self.stops.as_slice())?,
            idle: copy_of(alloc, self.idle.as_slice())?,
            grouped: self.grouped,
        })
    }

    /// An equal automaton.
    pub fn copy(&self, alloc: Global) -> Result<Automaton, OutOfMemory>
        ensures { IfOk result (λ a. a ≡ self.now) }
    {
        Ok(Automaton {
            vars: self.vars.copy(),
            states: self.states,
            starts: copy_of(alloc, self.starts.as_slice())?,
            ways: copy_of(alloc, self.ways.as_slice())?,
            stops: copy_of(alloc, self.stops.as_slice())?,
            idle: copy_of(alloc, self.idle.as_slice())?,
            grouped: self.grouped,
        })
    }

    /// The automaton with each way turned round, in which the ends are starts, the starts are ends, and
    /// no state is idle.
    pub fn reverse(&self, alloc: Global) -> Result<Automaton, OutOfMemory>
        requires { TakesNoMarks self.now.graph }
        ensures names { IfOk result (λ a. a.names ≡ self.now.names) }
        ensures graph { IfOk result (λ a. a.graph ≡ reversed self.now.graph) }
    {
        let mut idle = Vec::new(alloc);
        idle.resize(self.states as usize, false)?;
        let ways = turned_ways(alloc, self.ways.as_slice())?;
        let grouped = are_grouped(ways.as_slice());
        Ok(Automaton {
            vars: self.vars.copy(),
            states: self.states,
            starts: end_states(alloc, self.stops.as_slice())?,
            ways,
            stops: turned_starts(alloc, self.starts.as_slice())?,
            idle,
            grouped,
        })
    }
}

/// The ways turned round.
fn turned_ways(alloc: Global, ways: &[Way]) -> Result<Vec<Way>, AllocError>
    ensures { IfOk result (λ turned. turned.items ≡ map turned_way ways.now) }
{
    ways.iter()
        .map(|way| Way {
            from: way.to,
            marks: way.marks,
            bytes: way.bytes,
            to: way.from,
        })
        .collect(alloc)
}

/// An end without markers in each of these states.
fn turned_starts(alloc: Global, starts: &[u32]) -> Result<Vec<Stop>, AllocError>
    ensures { IfOk result (λ stops. stops.items ≡ map plain_stop starts.now) }
{
    starts
        .iter()
        .map(|start| Stop {
            state: *start,
            marks: Marks::none(),
        })
        .collect(alloc)
}

/// The same elements.
fn copy_of<T: Copy>(alloc: Global, elements: &[T]) -> Result<Vec<T>, AllocError>
    ensures { IfOk result (λ copies. copies.items ≡ elements.now) }
{
    elements.iter().copied().collect(alloc)
}
