//! The automaton of an atom: counted, placed, given its outer ways, and grouped.
//!
//! Ways are collected in one list in the order of the definition and only then handed to the automaton, so that an
//! atom at the limit holds them once.
ghost use Rattle.std.specs.Prelude.{◌≡◌, ℕ, ◌+◌, ◌<◌, ◌≤◌, ◌↔◌, List, ◌++◌, length, map, Bool, false, if◌then◌else◌, IfOk, IfErr, OnOk};
ghost use Rattle.span_core.specs.declared.TheConstants.{MOST_VARIABLES};
ghost use Rattle.span_core.specs.NameSets.{Ascending};
ghost use Rattle.spanner_model.specs.Captures.{VarName};
ghost use Rattle.spanner_model.specs.Sequential.{HasVar, IsSequential};
ghost use Rattle.span_core.specs.Lists.{Has, AreDistinct, AtMost};
ghost use Rattle.spanner_model.specs.View.{tree_of, atom_of};
ghost use Rattle.spanner_model.specs.WellBuilt.{IsWellBuilt};
ghost use Rattle.marked_automaton.specs.declared.TheConstants.{MOST_STATES, MOST_WAYS};
ghost use Rattle.marked_automaton.specs.declared.way.Stop.{Stop};
ghost use Rattle.marked_automaton.specs.Automaton.{AreGrouped, IsBlockOf, idle_way};
ghost use Rattle.marked_automaton.specs.Reduct.{Rearranges};
ghost use Rattle.place_automaton.specs.Capped.{capped};
ghost use Rattle.place_automaton.specs.Counts.{count_states, count_ways};
ghost use Rattle.place_automaton.specs.Made.{IsFinished, IsMade, end_stops, outer_ways};
ghost use Rattle.place_automaton.specs.Refusals.{IsAtomRefusal, IsRefusalOf};
ghost use Rattle.place_automaton.specs.Words.{atom_automaton};

use crate::counting::{CountFault, TOO_MANY_WAYS, numbers_of, states_of_atom};
use crate::fault::AtomFault;
use crate::fragment::Fragment;
use crate::outer::{add_stop_unless, push_idle_unless, set_idle_unless};
use crate::placing::{Draft, place};
use crate::variables::vars_of;
use crate::{BEFORE, MOST_ENDS};
use marked_automaton::{Automaton, MOST_STATES, MOST_WAYS, SizeFault, Way};
use span_core::OutOfMemory;
use spanner_model::Atom;
use std::alloc::Global;

/// The automaton of the places of an atom (Glushkov, "The abstract theory of automata", 1961), with the
/// markers of its captures on the ways. Its words are those of the rows of the atom's answers.
///
/// State 0 is Before, the states from 1 on are the places, and the last state is After, where the atom is
/// not tied to the end. It has exactly the states and the ways that `count` tells, grouped by the states
/// that they lead from. A state has an end for each set of markers with which the atom may end there.
///
/// `SizeFault::States` and then `SizeFault::Ways` come where `count` tells more than `MOST_STATES` and
/// `MOST_WAYS`, with the number that it tells, and only there. Memory may be wanting before the ways are
/// known. `AtomFault::Ends` comes only where it has more than `MOST_ENDS` ends, which only captures that may be
/// absent make.
pub fn automaton_of(alloc: Global, atom: &Atom) -> Result<Automaton, AtomFault>
    requires built { IsWellBuilt (tree_of atom.now.formula) }
    requires sequential { IsSequential (tree_of atom.now.formula) }
    requires few { AtMost MOST_VARIABLES (HasVar (tree_of atom.now.formula)) }
    ensures names { IfOk result (λ a. Ascending a.names × ((x : VarName) → Has a.names x ↔ HasVar (tree_of atom.now.formula) x)) }
    ensures reduct { IfOk result (λ a. Rearranges a.graph (atom_automaton a.names (atom_of atom.now))) }
    ensures ways { IfOk result (λ a. length a.graph.ways ≡ count_ways (atom_of atom.now)) }
    ensures grouped { IfOk result (λ a. AreGrouped a.graph.ways) }
    ensures ends { IfOk result (λ a. AreDistinct a.graph.stops) }
    ensures small { OnOk result
        ((count_states (atom_of atom.now) ≤ MOST_STATES)
        × (count_ways (atom_of atom.now) ≤ MOST_WAYS)) }
    ensures err { IfErr result (IsAtomRefusal (atom_of atom.now)) }
{
    let states = states_of_atom(atom);
    if states > u64::from(MOST_STATES) {
        return Err(AtomFault::Size(SizeFault::States { count: states }));
    }
    let numbers = match numbers_of(alloc, &atom.formula) {
        Ok(numbers) => numbers,
        Err(CountFault::LargeNull) => {
            return Err(AtomFault::Size(SizeFault::Ways {
                count: TOO_MANY_WAYS,
            }));
        }
        Err(CountFault::OutOfMemory) => return Err(AtomFault::Size(SizeFault::OutOfMemory)),
    };
    let ways = numbers.ways(atom.from_start, atom.to_end);
    if ways > MOST_WAYS as u64 {
        return Err(AtomFault::Size(SizeFault::Ways { count: ways }));
    }
    let ends = numbers.ends();
    if ends > MOST_ENDS {
        return Err(AtomFault::Ends { count: ends });
    }
    let automaton = made(alloc, atom, ways as usize)?;
    Ok(automaton)
}

/// The automaton that `automaton_of` makes. More ends than `MOST_ENDS` are told as want of memory.
pub fn of_atom(alloc: Global, atom: &Atom) -> Result<Automaton, SizeFault>
    requires built { IsWellBuilt (tree_of atom.now.formula) }
    requires sequential { IsSequential (tree_of atom.now.formula) }
    requires few { AtMost MOST_VARIABLES (HasVar (tree_of atom.now.formula)) }
    ensures names { IfOk result (λ a. Ascending a.names × ((x : VarName) → Has a.names x ↔ HasVar (tree_of atom.now.formula) x)) }
    ensures reduct { IfOk result (λ a. Rearranges a.graph (atom_automaton a.names (atom_of atom.now))) }
    ensures ways { IfOk result (λ a. length a.graph.ways ≡ count_ways (atom_of atom.now)) }
    ensures grouped { IfOk result (λ a. AreGrouped a.graph.ways) }
    ensures ends { IfOk result (λ a. AreDistinct a.graph.stops) }
    ensures small { OnOk result
        ((count_states (atom_of atom.now) ≤ MOST_STATES)
        × (count_ways (atom_of atom.now) ≤ MOST_WAYS)) }
    ensures err { IfErr result (λ e. IsRefusalOf
        (capped (count_states (atom_of atom.now)))
        (capped (count_ways (atom_of atom.now))) e) }
{
    match automaton_of(alloc, atom) {
        Ok(automaton) => Ok(automaton),
        Err(AtomFault::Size(fault)) => Err(fault),
        Err(AtomFault::Ends { .. }) => Err(SizeFault::OutOfMemory),
    }
}

/// The automaton of an atom that is not too large. Room for so many ways is made at once.
fn made(alloc: Global, atom: &Atom, room: usize) -> Result<Automaton, OutOfMemory>
    requires built { IsWellBuilt (tree_of atom.now.formula) }
    requires sequential { IsSequential (tree_of atom.now.formula) }
    requires few { AtMost MOST_VARIABLES (HasVar (tree_of atom.now.formula)) }
    requires states { count_states (atom_of atom.now) ≤ MOST_STATES }
    ensures { IfOk result (IsMade (atom_of atom.now)) }
{
    let vars = vars_of(&atom.formula);
    let mut draft = Draft {
        next: 1,
        ways: Vec::with_capacity(alloc, room)?,
    };
    let fragment = place(alloc, &vars, &atom.formula, &mut draft)?;
    let after = draft.next;
    let mut ways = draft.ways;
    push_outer(alloc, atom, &fragment, after, &mut ways)?;
    let states = states_of(atom.to_end, after);
    let Ok(mut automaton) = Automaton::with_ways(alloc, vars, states, ways) else {
        return Err(OutOfMemory);
    };
    finish(alloc, atom, &fragment, after, &mut automaton)?;
    automaton.group_ways(alloc)?;
    Ok(automaton)
}

/// How many states there are where After has this number.
fn states_of(to_end: bool, after: u32) -> u32
    requires { after ≤ MOST_STATES }
    ensures { result ≡ after + (if to_end then 0 else 1) }
{
    if to_end { after } else { after + 1 }
}

/// Adds the ways that are not between places, where After has this number.
fn push_outer(
    alloc: Global,
    atom: &Atom,
    fragment: &Fragment,
    after: u32,
    ways: &mut Vec<Way>,
) -> Result<(), OutOfMemory>
    ensures { OnOk result (ways.new.items ≡ ways.old.items ++ outer_ways atom.now.from_start atom.now.to_end after fragment.now) }
{
    fragment.push_firsts(ways)?;
    push_idle_unless(atom.from_start, BEFORE, ways)?;
    push_idle_unless(atom.to_end, after, ways)?;
    if atom.to_end {
        return Ok(());
    }
    fragment.push_afters(alloc, after, ways)
}

/// Adds the start, the ends and the idle states.
fn finish(
    alloc: Global,
    atom: &Atom,
    fragment: &Fragment,
    after: u32,
    automaton: &mut Automaton,
) -> Result<(), OutOfMemory>
    requires start { 0 < automaton.old.graph.states }
    requires after { atom.now.to_end ≡ false → after < automaton.old.graph.states }
    requires stops { (x : Stop) → Has (end_stops fragment.now) x → x.state < automaton.old.graph.states }
    requires marks { (x : Stop) → Has (end_stops fragment.now) x → IsBlockOf (length automaton.old.names) x.marks }
    requires before_way { atom.now.from_start ≡ false → Has automaton.old.graph.ways (idle_way 0) }
    requires after_way { atom.now.to_end ≡ false → Has automaton.old.graph.ways (idle_way after) }
    ensures names { automaton.new.names ≡ automaton.old.names }
    ensures ok { OnOk result (IsFinished atom.now.from_start atom.now.to_end after fragment.now automaton.old.graph automaton.new.graph) }
{
    automaton.add_start(BEFORE)?;
    fragment.add_stops(alloc, automaton)?;
    add_stop_unless(atom.to_end, after, automaton)?;
    set_idle_unless(atom.from_start, BEFORE, automaton)?;
    set_idle_unless(atom.to_end, after, automaton)
}
