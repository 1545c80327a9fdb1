//! The ways and the ends of an atom's automaton that are not between places.
//!
//! Before leads into the first places and waits in front of them, After is led to from the last places and waits
//! behind them: so the atom fits any part of the document. A tie leaves out the wait on its side.
ghost use Rattle.std.specs.Prelude.{◌≡◌, ℕ, ◌<◌, ◌↔◌, ◌⊎◌, [], ◌∷◌, ◌++◌, length, map, false, IfOk, OnOk};
ghost use Rattle.span_core.specs.Lists.{Has};
ghost use Rattle.marked_automaton.specs.declared.way.Stop.{Stop};
ghost use Rattle.marked_automaton.specs.Automaton.{HasGraphOf, IsBlockOf, idle_way};
ghost use Rattle.place_automaton.specs.Atom.{stop_before, unless, way_after, way_from_first};
ghost use Rattle.place_automaton.specs.Made.{after_stop, with_stops};

use crate::BEFORE;
use crate::fragment::Entry;
use marked_automaton::{Automaton, Stop, Way};
use span_core::{ByteSet, Marks, OutOfMemory};
use std::alloc::Global;

/// Adds the ways from Before through these entries.
pub(crate) fn push_from_before(first: &[Entry], ways: &mut Vec<Way>) -> Result<(), OutOfMemory>
    ensures { OnOk result (ways.new.items ≡ ways.old.items ++ map way_from_first first.now) }
{
    for entry in first {
        ways.push(Way {
            from: BEFORE,
            marks: entry.marks,
            bytes: entry.bytes,
            to: entry.to,
        })?;
    }
    Ok(())
}

/// Adds the ways from these ends into After, whose number is given.
pub(crate) fn push_into_after(
    last: &[Stop],
    after: u32,
    ways: &mut Vec<Way>,
) -> Result<(), OutOfMemory>
    ensures { OnOk result (ways.new.items ≡ ways.old.items ++ map (way_after after) last.now) }
{
    for stop in last {
        ways.push(Way {
            from: stop.state,
            marks: stop.marks,
            bytes: ByteSet::all(),
            to: after,
        })?;
    }
    Ok(())
}

/// The ends of Before: one for each set of markers with which the empty string fits.
pub(crate) fn before_stops(alloc: Global, null: &[Marks]) -> Result<Vec<Stop>, OutOfMemory>
    ensures { IfOk result (λ v. v.items ≡ map stop_before null.now) }
{
    let mut stops = Vec::with_capacity(alloc, null.len())?;
    for marks in null {
        stops.push(Stop {
            state: BEFORE,
            marks: *marks,
        })?;
    }
    Ok(stops)
}

/// Adds the way of a state to itself, unless the atom is tied there.
pub(crate) fn push_idle_unless(
    tied: bool,
    state: u32,
    ways: &mut Vec<Way>,
) -> Result<(), OutOfMemory>
    ensures { OnOk result (ways.new.items ≡ ways.old.items ++ unless tied (idle_way state ∷ [])) }
{
    if tied {
        return Ok(());
    }
    ways.push(Way {
        from: state,
        marks: Marks::none(),
        bytes: ByteSet::all(),
        to: state,
    })?;
    Ok(())
}

/// Adds these ends.
pub(crate) fn add_last_stops(last: &[Stop], automaton: &mut Automaton) -> Result<(), OutOfMemory>
    requires state { (x : Stop) → Has last.now x → x.state < automaton.old.graph.states }
    requires marks { (x : Stop) → Has last.now x → IsBlockOf (length automaton.old.names) x.marks }
    ensures names { automaton.new.names ≡ automaton.old.names }
    ensures ok { OnOk result (automaton.new.graph ≡ with_stops last.now automaton.old.graph) }
{
    for stop in last {
        automaton.add_stop(Stop {
            state: stop.state,
            marks: stop.marks,
        })?;
    }
    Ok(())
}

/// Adds an end without markers in After, unless the atom is tied there.
pub(crate) fn add_stop_unless(
    tied: bool,
    after: u32,
    automaton: &mut Automaton,
) -> Result<(), OutOfMemory>
    requires { tied ≡ false → after < automaton.old.graph.states }
    ensures names { automaton.new.names ≡ automaton.old.names }
    ensures ok { OnOk result (automaton.new.graph ≡ with_stops (unless tied (after_stop after ∷ [])) automaton.old.graph) }
{
    if tied {
        return Ok(());
    }
    automaton.add_stop(Stop {
        state: after,
        marks: Marks::none(),
    })
}

/// Makes a state idle, unless the atom is tied there.
pub(crate) fn set_idle_unless(
    tied: bool,
    state: u32,
    automaton: &mut Automaton,
) -> Result<(), OutOfMemory>
    requires state { tied ≡ false → state < automaton.old.graph.states }
    requires way { tied ≡ false → Has automaton.old.graph.ways (idle_way state) }
    ensures names { automaton.new.names ≡ automaton.old.names }
    ensures graph { HasGraphOf automaton.new.graph automaton.old.graph }
    ensures ok { OnOk result ((p : ℕ) →
        Has automaton.new.graph.idle p ↔ (Has automaton.old.graph.idle p ⊎ Has (unless tied (state ∷ [])) p)) }
{
    if tied {
        return Ok(());
    }
    automaton.set_idle(state)
}
