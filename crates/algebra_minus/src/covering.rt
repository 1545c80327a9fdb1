//! Which states of the right side cover the next one: with each markers, the next leads only where they do.
//!
//! Such a next state adds nothing to where a set goes that has both, so its ways are passed over. Of the optional parts
//! `a?a?a?..` each place covers the next, and without this each set would cost the square of its size.
ghost use Rattle.std.specs.Prelude.{◌+◌, ◌<◌, ◌≤◌, length, IfOk};
ghost use Rattle.std.specs.Bool.{OnTrue};
ghost use Rattle.span_core.specs.Lists.{Has};
ghost use Rattle.marked_automaton.specs.declared.way.Way.{Way as WayOf};
ghost use Rattle.marked_automaton.specs.Automaton.{AreGrouped};
ghost use Rattle.algebra_minus.specs.Rights.{AreCovering, IsPassed, LeadWithin, LeadsAs};
ghost use Rattle.algebra_minus.specs.Steps.{covering_steps};

use algebra::Effort;
use marked_automaton::{Automaton, Way};
use span_core::OutOfMemory;
use std::alloc::Global;

/// What it costs to find the ways from a state and those from the next, in steps.
const STEPS_OF_ROWS: u64 = 32;

/// Whether this way has the markers and the target of the other, and all its bytes.
fn leads_as(way: &Way, other: &Way) -> bool
    ensures { OnTrue result (LeadsAs way.now other.now) }
{
    if way.to != other.to {
        return false;
    }
    if way.marks.number() != other.marks.number() {
        return false;
    }
    other.bytes.without(&way.bytes).is_empty()
}

/// Notes for each target of these ways the place of a way to it. Where there is no room for the target, nothing is noted.
pub(crate) fn note_places(places: &mut [usize], ways: &[Way]) {
    for place in 0..ways.len() {
        let to = ways[place].to as usize;
        if to < places.len() {
            places[to] = place;
        }
    }
}

/// Whether the one of the ways that is noted for the target of this way leads as it does.
fn is_led(way: &Way, ways: &[Way], places: &[usize]) -> bool
    ensures { OnTrue result ((other : WayOf) × Has ways.now other × LeadsAs other way.now) }
{
    let to = way.to as usize;
    if to >= places.len() {
        return false;
    }
    let place = places[to];
    if place >= ways.len() {
        return false;
    }
    leads_as(&ways[place], way)
}

/// Whether for each way of the row one of the ways leads as it does, of those that are noted.
pub(crate) fn lead_within(row: &[Way], ways: &[Way], places: &[usize]) -> bool
    ensures { OnTrue result (LeadWithin row.now ways.now) }
{
    for way in row {
        if !is_led(way, ways, places) {
            return false;
        }
    }
    true
}

/// For each state whether it covers the next. A step is taken for each way, and `STEPS_OF_ROWS` for each state.
pub(crate) fn covering_states(
    alloc: Global,
    automaton: &Automaton,
    effort: &mut Effort,
) -> Result<Vec<bool>, OutOfMemory>
    requires { AreGrouped automaton.now.graph.ways }
    ensures covering { IfOk result (λ v. AreCovering automaton.now.graph.ways v.items) }
    ensures effort { effort.new ≤ effort.old }
    ensures steps { effort.old ≤ effort.new + covering_steps automaton.now.graph }
{
    let rows = u64::from(automaton.states()).saturating_mul(STEPS_OF_ROWS);
    effort.spend(rows.saturating_add(automaton.ways().len() as u64));
    if effort.is_spent() {
        return Err(OutOfMemory);
    }
    let mut covering = Vec::new(alloc);
    let mut places = Vec::new(alloc);
    places.resize(automaton.states() as usize, 0)?;
    for state in 0..automaton.states() {
        let ways = automaton.ways_from(state);
        note_places(places.as_mut_slice(), ways);
        let next = automaton.ways_from(state + 1);
        covering.push(lead_within(next, ways, places.as_slice()))?;
    }
    Ok(covering)
}

/// Whether the member at this place is the next state after the member before it, which covers it.
pub(crate) fn is_passed(covering: &[bool], members: &[u32], place: usize) -> bool
    requires { place < length members.now }
    ensures { OnTrue result (IsPassed covering.now members.now place) }
{
    if place == 0 {
        return false;
    }
    let before = members[place - 1] as usize;
    if members[place] as usize != before + 1 {
        return false;
    }
    if before >= covering.len() {
        return false;
    }
    covering[before]
}
