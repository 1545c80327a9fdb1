//! The two sides of a join.
ghost use Rattle.std.specs.Prelude.{◌≡◌, ◌≤◌, length, map, true, IfOk, OnOk};
ghost use Rattle.std.specs.List.Sorted.{IsNonDecreasingBy};
ghost use Rattle.span_core.specs.declared.TheConstants.{MOST_VARIABLES};
ghost use Rattle.marked_automaton.specs.Automaton.{AreGrouped};
ghost use Rattle.algebra.specs.Pairs.{HaveSameRows, half_at};
ghost use Rattle.algebra.specs.Renaming.{AreShifts, half_stop, half_way};
ghost use Rattle.algebra.specs.Sides.{IsJoinable, IsSideOf, shifts_of};

use crate::renaming::{moved, shifts};
use marked_automaton::{Automaton, Stop, Way};
use span_core::{Marks, OutOfMemory, VarSet};
use std::alloc::Global;

/// A way of one side of a join. Its markers are those that this side brings to the join's.
#[derive(Clone, Copy, Debug)]
pub(crate) struct HalfWay {
    pub(crate) way: Way,
    /// The markers of the variables that both sides have.
    pub(crate) shared: Marks,
}

/// An end of one side of a join. Its markers are those that this side brings to the join's.
#[derive(Clone, Copy, Debug)]
pub(crate) struct HalfStop {
    pub(crate) stop: Stop,
    /// The markers of the variables that both sides have.
    pub(crate) shared: Marks,
}

/// One side of a join: an automaton, and the markers that it brings.
#[derive(Drop)]
pub(crate) struct Operand<'a> {
    pub(crate) automaton: &'a Automaton,
    /// For each variable of the join how far up its bits stand in the markers of this side, if this side
    /// brings them.
    pub(crate) own: Vec<Option<u32>>,
    /// The same, if both sides have them.
    pub(crate) shared: Vec<Option<u32>>,
    /// The ends, in the order of their states.
    pub(crate) stops: Vec<HalfStop>,
}

impl<'a> Operand<'a> {
    /// The side that an automaton is in a join over the names `all`. It brings the markers of those of its
    /// variables that `own` has, or of those that `own` lacks, as `wanted` says, and shares those that `other`
    /// has.
    pub(crate) fn of(
        alloc: Global,
        automaton: &'a Automaton,
        all: &VarSet,
        own: &Automaton,
        wanted: bool,
        other: &Automaton,
    ) -> Result<Operand<'a>, OutOfMemory>
        requires grouped { AreGrouped automaton.now.graph.ways }
        requires few { length all.now ≤ MOST_VARIABLES }
        ensures side { IfOk result (IsSideOf (shifts_of automaton.now.names own.now.names wanted all.now)
            (shifts_of automaton.now.names other.now.names true all.now) automaton.now) }
        ensures joinable { IfOk result IsJoinable }
    {
        let vars = automaton.vars();
        let brought = shifts(alloc, all, vars, own.vars(), wanted)?;
        let shared = shifts(alloc, all, vars, other.vars(), true)?;
        let stops = half_stops(
            alloc,
            automaton.stops(),
            brought.as_slice(),
            shared.as_slice(),
        )?;
        Ok(Operand {
            automaton,
            own: brought,
            shared,
            stops,
        })
    }
}

/// Makes of these ways those of a side, in the place of what `halves` had.
pub(crate) fn put_half_ways(
    halves: &mut Vec<HalfWay>,
    ways: &[Way],
    own: &[Option<u32>],
    shared: &[Option<u32>],
) -> Result<(), OutOfMemory>
    requires own { AreShifts own.now }
    requires shared { AreShifts shared.now }
    ensures { OnOk result (halves.new.items ≡ map (half_way own.now shared.now) ways.now) }
{
    halves.clear();
    for way in ways {
        halves.push(HalfWay {
            way: Way {
                from: way.from,
                marks: moved(own, way.marks),
                bytes: way.bytes,
                to: way.to,
            },
            shared: moved(shared, way.marks),
        })?;
    }
    Ok(())
}

/// The ends of one side, in the order of their states.
fn half_stops(
    alloc: Global,
    stops: &[Stop],
    own: &[Option<u32>],
    shared: &[Option<u32>],
) -> Result<Vec<HalfStop>, OutOfMemory>
    requires own { AreShifts own.now }
    requires shared { AreShifts shared.now }
    ensures order { IfOk result (λ v. IsNonDecreasingBy half_at v.items) }
    ensures rows { IfOk result (λ v. HaveSameRows half_at v.items (map (half_stop own.now shared.now) stops.now)) }
{
    let mut halves = Vec::with_capacity(alloc, stops.len())?;
    for stop in stops {
        halves.push(HalfStop {
            stop: Stop {
                state: stop.state,
                marks: moved(own, stop.marks),
            },
            shared: moved(shared, stop.marks),
        })?;
    }
    halves.sort_by_key(|half| half.stop.state)?;
    Ok(halves)
}
