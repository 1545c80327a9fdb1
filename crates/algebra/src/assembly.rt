//! The automaton of the pairs that a search found.
ghost use Rattle.std.specs.Prelude.{◌≡◌, ℕ, ◌+◌, ◌*◌, ◌^◌, ◌<◌, ◌≤◌, ◌↔◌, ◌⊎◌, List, [], ◌∷◌, ◌++◌, length, map, All, IfOk, IfErr, OnOk};
ghost use Rattle.std.specs.List.{flat_map};
ghost use Rattle.std.specs.List.Sorted.{IsNonDecreasingBy};
ghost use Rattle.span_core.specs.declared.TheConstants.{MOST_VARIABLES};
ghost use Rattle.span_core.specs.Lists.{Has};
ghost use Rattle.marked_automaton.specs.declared.way.Stop.{Stop as StopOf};
ghost use Rattle.marked_automaton.specs.declared.TheConstants.{MOST_STATES};
ghost use Rattle.marked_automaton.specs.Automaton.{HasGraphOf, IsWayOf, idle_way};
ghost use Rattle.algebra.specs.Joining.{IsJoinFaultWithin, IsSpentOn};
ghost use Rattle.algebra.specs.Sides.{IsAssembledOf, graph_of, stops_tried};
ghost use Rattle.algebra.specs.Pairs.{ArePairsWithin, HasAllButStarts, HasAllButStops, IsIdleHere, IsIdlePair, IsStopAt, Matched, half_at, pairs, stop_at, stop_pair, stops_at_pair, stops_meet, stops_with};

use crate::MOST_ENDS;
use crate::effort::Effort;
use crate::fault::JoinFault;
use crate::halves::{HalfStop, Operand};
use crate::pairs::{Pair, ReachedPairs};
use crate::rows::stops_from;
use marked_automaton::{Automaton, Stop};
use span_core::{Marks, OutOfMemory, VarSet};
use std::alloc::Global;

/// The automaton over these variables whose states are the pairs that are reached, the first of which are its starts,
/// with the ways between them.
pub(crate) fn assembled(
    alloc: Global,
    vars: VarSet,
    reached: ReachedPairs,
    left: &Operand<'_>,
    right: &Operand<'_>,
    effort: &mut Effort,
) -> Result<Automaton, JoinFault>
    requires few { length vars ≤ MOST_VARIABLES }
    requires few_states { length reached.found.keys ≤ MOST_STATES }
    requires starts { reached.starts ≤ length reached.found.keys }
    requires ways { All (IsWayOf (length reached.found.keys) (length vars)) reached.ways.items }
    requires within { ArePairsWithin (graph_of left.now).states (graph_of right.now).states reached.found.keys }
    requires idle { (p : ℕ) → IsIdlePair reached.found.keys (graph_of left.now).idle (graph_of right.now).idle p →
        Has reached.ways.items (idle_way p) }
    requires left { IsNonDecreasingBy half_at left.now.stops.items }
    requires right { IsNonDecreasingBy half_at right.now.stops.items }
    requires marks { (x y : HalfStop) → Has left.now.stops.items x → Has right.now.stops.items y →
        x.stop.marks + y.stop.marks < 2 ^ (2 * length vars) }
    ensures names { IfOk result (λ j. j.names ≡ vars) }
    ensures made { IfOk result (λ j. IsAssembledOf left.now right.now reached.found.keys reached.starts reached.ways.items j.graph) }
    ensures fault { IfErr result (IsJoinFaultWithin (length reached.found.keys) (length reached.ways.items)
        (length (flat_map (stops_at_pair left.now.stops.items right.now.stops.items) reached.found.keys))) }
    ensures effort { effort.new ≤ effort.old }
    ensures spent { IfErr result (IsSpentOn effort.old
        (length (stops_tried left.now.stops.items right.now.stops.items reached.found.keys))) }
    ensures steps { OnOk result (effort.old ≤ effort.new + length
        (stops_tried left.now.stops.items right.now.stops.items reached.found.keys)) }
{
    let states = reached.found.len() as u32;
    let mut automaton = Automaton::with_ways(alloc, vars, states, reached.ways)?;
    let found = reached.found.as_slice();
    add_starts(&mut automaton, reached.starts)?;
    add_stops(
        &mut automaton,
        found,
        left.stops.as_slice(),
        right.stops.as_slice(),
        effort,
    )?;
    add_idle(&mut automaton, found, left.automaton, right.automaton)?;
    Ok(automaton)
}

/// Makes the first `count` states starts. The bound of steps is that of `count` states.
pub fn add_starts(automaton: &mut Automaton, count: u32) -> Result<(), OutOfMemory>
    requires { count ≤ automaton.old.graph.states }
    ensures names { automaton.new.names ≡ automaton.old.names }
    ensures starts { OnOk result ((p : ℕ) → Has automaton.new.graph.starts p ↔ (Has automaton.old.graph.starts p ⊎ (p < count))) }
    ensures same { OnOk result (HasAllButStarts automaton.new.graph automaton.old.graph) }
{
    for state in 0..count {
        automaton.add_start(state)?;
    }
    Ok(())
}

/// Adds the ends that one end of the first side makes with these of the second, at a state.
fn add_stops_with(
    automaton: &mut Automaton,
    state: u32,
    x: &HalfStop,
    ys: &[HalfStop],
) -> Result<(), OutOfMemory>
    requires state { state < automaton.old.graph.states }
    requires few { length automaton.old.names ≤ MOST_VARIABLES }
    requires marks { (y : HalfStop) → Has ys.now y → x.now.stop.marks + y.stop.marks < 2 ^ (2 * length automaton.old.names) }
    ensures names { automaton.new.names ≡ automaton.old.names }
    ensures stops { OnOk result (automaton.new.graph.stops ≡ automaton.old.graph.stops ++ map (stop_at state) (stops_with x.now ys.now)) }
    ensures same { OnOk result (HasAllButStops automaton.new.graph automaton.old.graph) }
{
    for y in ys {
        add_stop_of(automaton, state, x, y)?;
    }
    Ok(())
}

/// Adds the end that two make, if they go together, at a state.
fn add_stop_of(
    automaton: &mut Automaton,
    state: u32,
    x: &HalfStop,
    y: &HalfStop,
) -> Result<(), OutOfMemory>
    requires state { state < automaton.old.graph.states }
    requires few { length automaton.old.names ≤ MOST_VARIABLES }
    requires marks { x.now.stop.marks + y.now.stop.marks < 2 ^ (2 * length automaton.old.names) }
    ensures names { automaton.new.names ≡ automaton.old.names }
    ensures stops { OnOk result (automaton.new.graph.stops ≡ automaton.old.graph.stops ++ map (stop_at state)
        (stops_with x.now (y.now ∷ []))) }
    ensures same { OnOk result (HasAllButStops automaton.new.graph automaton.old.graph) }
{
    if x.shared.number() != y.shared.number() {
        return Ok(());
    }
    automaton.add_stop(Stop {
        state,
        marks: Marks::of(x.stop.marks.number() + y.stop.marks.number()),
    })
}

/// Adds the ends that these make with each other, at a state. A step is taken from the effort for each two. Where none
/// is left then, or there are more than `MOST_ENDS`, it is refused.
fn add_stops_at(
    automaton: &mut Automaton,
    state: u32,
    xs: &[HalfStop],
    ys: &[HalfStop],
    effort: &mut Effort,
) -> Result<(), JoinFault>
    requires state { state < automaton.old.graph.states }
    requires few { length automaton.old.names ≤ MOST_VARIABLES }
    requires marks { (x y : HalfStop) → Has xs.now x → Has ys.now y → x.stop.marks + y.stop.marks < 2 ^ (2 * length automaton.old.names) }
    ensures names { automaton.new.names ≡ automaton.old.names }
    ensures stops { OnOk result (automaton.new.graph.stops ≡ automaton.old.graph.stops ++ map (stop_at state)
        (pairs stops_meet stop_pair ys.now xs.now)) }
    ensures same { OnOk result (HasAllButStops automaton.new.graph automaton.old.graph) }
    ensures fault { IfErr result (IsJoinFaultWithin 0 0
        (length automaton.old.graph.stops + length (pairs stops_meet stop_pair ys.now xs.now))) }
    ensures effort { effort.new ≤ effort.old }
    ensures spent { IfErr result (IsSpentOn effort.old (length xs.now * length ys.now)) }
    ensures steps { OnOk result (effort.old ≤ effort.new + length xs.now * length ys.now) }
{
    for x in xs {
        effort.spend(ys.len() as u64);
        if effort.is_spent() {
            return Err(JoinFault::Spent);
        }
        let count = automaton.stops().len() as u64;
        if count > MOST_ENDS {
            return Err(JoinFault::Ends { count });
        }
        add_stops_with(automaton, state, x, ys)?;
    }
    Ok(())
}

/// Adds the ends of all pairs, whose places are the states.
fn add_stops(
    automaton: &mut Automaton,
    found: &[Pair],
    xs: &[HalfStop],
    ys: &[HalfStop],
    effort: &mut Effort,
) -> Result<(), JoinFault>
    requires states { automaton.old.graph.states ≡ length found.now }
    requires few_states { length found.now ≤ MOST_STATES }
    requires few { length automaton.old.names ≤ MOST_VARIABLES }
    requires left { IsNonDecreasingBy half_at xs.now }
    requires right { IsNonDecreasingBy half_at ys.now }
    requires marks { (x y : HalfStop) → Has xs.now x → Has ys.now y → x.stop.marks + y.stop.marks < 2 ^ (2 * length automaton.old.names) }
    ensures names { automaton.new.names ≡ automaton.old.names }
    ensures stops { OnOk result ((made : List StopOf) × (automaton.new.graph.stops ≡ automaton.old.graph.stops ++ made)
        × Matched (IsStopAt found.now) (flat_map (stops_at_pair xs.now ys.now) found.now) made) }
    ensures same { OnOk result (HasAllButStops automaton.new.graph automaton.old.graph) }
    ensures fault { IfErr result (IsJoinFaultWithin 0 0
        (length automaton.old.graph.stops + length (flat_map (stops_at_pair xs.now ys.now) found.now))) }
    ensures effort { effort.new ≤ effort.old }
    ensures spent { IfErr result (IsSpentOn effort.old (length (stops_tried xs.now ys.now found.now))) }
    ensures steps { OnOk result (effort.old ≤ effort.new + length (stops_tried xs.now ys.now found.now)) }
{
    for state in 0..found.len() {
        let pair = found[state];
        add_stops_at(
            automaton,
            state as u32,
            stops_from(xs, pair.left),
            stops_from(ys, pair.right),
            effort,
        )?;
    }
    Ok(())
}

/// Makes each pair idle whose states both are, and which has its way to itself already.
fn add_idle(
    automaton: &mut Automaton,
    found: &[Pair],
    a: &Automaton,
    b: &Automaton,
) -> Result<(), OutOfMemory>
    requires states { automaton.old.graph.states ≡ length found.now }
    requires few_states { length found.now ≤ MOST_STATES }
    requires within { ArePairsWithin a.now.graph.states b.now.graph.states found.now }
    requires ways { (p : ℕ) → IsIdlePair found.now a.now.graph.idle b.now.graph.idle p → Has automaton.old.graph.ways (idle_way p) }
    ensures names { automaton.new.names ≡ automaton.old.names }
    ensures graph { OnOk result (HasGraphOf automaton.new.graph automaton.old.graph) }
    ensures idles { OnOk result ((p : ℕ) →
        Has automaton.new.graph.idle p ↔ (Has automaton.old.graph.idle p ⊎ IsIdlePair found.now a.now.graph.idle b.now.graph.idle p)) }
{
    for state in 0..found.len() {
        let pair = found[state];
        add_idle_of(automaton, state as u32, pair, a, b)?;
    }
    Ok(())
}

/// Makes a state idle if both states of the pair are, and if so it has its way to itself already.
fn add_idle_of(
    automaton: &mut Automaton,
    state: u32,
    pair: Pair,
    a: &Automaton,
    b: &Automaton,
) -> Result<(), OutOfMemory>
    requires state { state < automaton.old.graph.states }
    requires left { pair.left < a.now.graph.states }
    requires right { pair.right < b.now.graph.states }
    requires way { Has a.now.graph.idle pair.left → Has b.now.graph.idle pair.right → Has automaton.old.graph.ways (idle_way state) }
    ensures names { automaton.new.names ≡ automaton.old.names }
    ensures graph { OnOk result (HasGraphOf automaton.new.graph automaton.old.graph) }
    ensures idles { OnOk result ((p : ℕ) →
        Has automaton.new.graph.idle p ↔ (Has automaton.old.graph.idle p ⊎ IsIdleHere state pair a.now.graph.idle b.now.graph.idle p)) }
{
    if !a.is_idle(pair.left) {
        return Ok(());
    }
    if !b.is_idle(pair.right) {
        return Ok(());
    }
    automaton.set_idle(state)
}
