//! The two automata of an atom by which a document is read forwards and backwards.
//!
//! Markers are erased. Turned round, Before does not wait: what leads back to it begins a part there. After counts on
//! neither side, so that a position behind a part is not touched.
ghost use Rattle.std.specs.Prelude.{◌≡◌, [], map, IfOk};
ghost use Rattle.std.specs.List.{filter};
ghost use Rattle.marked_automaton.specs.Automaton.{turned_way};
ghost use Rattle.spanner_model.specs.Sequential.{HasVar, IsSequential};
ghost use Rattle.span_core.specs.Lists.{AtMost};
ghost use Rattle.spanner_model.specs.View.{tree_of, atom_of};
ghost use Rattle.spanner_model.specs.WellBuilt.{IsWellBuilt};
ghost use Rattle.span_core.specs.declared.TheConstants.{MOST_VARIABLES};
ghost use Rattle.place_automaton.specs.Variables.{with_vars};
ghost use Rattle.segment_filter.specs.Costs.{CostAs};
ghost use Rattle.segment_filter.specs.Readings.{moves_on, turned};
ghost use Rattle.segment_filter.specs.Sets.{AreReadingsOf, TakesNone};

use crate::FilterFault;
use marked_automaton::{Automaton, Way};
use place_automaton::of_atom;
use span_core::VarSet;
use spanner_model::Atom;
use std::alloc::Global;

/// The automaton of an atom without markers, and the same turned round. At each position that the atom
/// touches, and at no other, both lead to a state that is at most `most`.
#[derive(Drop)]
pub(crate) struct Readings {
    pub(crate) forward: Automaton,
    pub(crate) backward: Automaton,
    pub(crate) most: u32,
}

impl Readings {
    pub(crate) fn of(alloc: Global, atom: &Atom) -> Result<Readings, FilterFault>
        requires built { IsWellBuilt (tree_of atom.now.formula) }
        requires sequential { IsSequential (tree_of atom.now.formula) }
        requires few { AtMost MOST_VARIABLES (HasVar (tree_of atom.now.formula)) }
        ensures costs { IfOk result (λ r. CostAs (with_vars [] (tree_of atom.now.formula)) (atom_of atom.now)
            r.forward.graph r.backward.graph) }
        ensures meet { IfOk result (λ r. AreReadingsOf (atom_of atom.now) r.forward.graph r.backward.graph r.most) }
    {
        let Ok(marked) = of_atom(alloc, atom) else {
            return Err(FilterFault::OutOfMemory);
        };
        let forward = marked.erase(alloc, &VarSet::empty())?;
        let backward = turn(alloc, &forward)?;
        let beyond = if atom.to_end { 1 } else { 2 };
        let most = marked.states() - beyond;
        Ok(Readings {
            forward,
            backward,
            most,
        })
    }
}

/// The automaton turned round, without ways of the state 0 to itself: it starts in the states that have an end.
fn turn(alloc: Global, automaton: &Automaton) -> Result<Automaton, FilterFault>
    requires { TakesNone automaton.now.graph }
    ensures { IfOk result (λ a. a.graph ≡ turned automaton.now.graph) }
{
    let Ok(mut back) = Automaton::with_ways(
        alloc,
        VarSet::empty(),
        automaton.states(),
        turned_ways(alloc, automaton.ways())?,
    ) else {
        return Err(FilterFault::OutOfMemory);
    };
    for stop in automaton.stops() {
        back.add_start(stop.state)?;
    }
    Ok(back)
}

/// The ways turned round, but for those of the state 0 to itself.
fn turned_ways(alloc: Global, ways: &[Way]) -> Result<Vec<Way>, FilterFault>
    ensures { IfOk result (λ turned. turned.items ≡ map turned_way (filter moves_on ways.now)) }
{
    let mut turned = Vec::new(alloc);
    for way in ways {
        if !(way.from == 0 && way.to == 0) {
            turned.push(Way {
                from: way.to,
                marks: way.marks,
                bytes: way.bytes,
                to: way.from,
            })?;
        }
    }
    Ok(turned)
}
