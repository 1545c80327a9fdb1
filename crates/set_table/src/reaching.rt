//! What the members of a set reach, as numbers in order.
//!
//! A way is coded as one number, its marks turned round above its target: sorted, these numbers come the greatest
//! marks first and then by target, so that each edge with its set is one run.
ghost use Rattle.std.specs.Prelude.{◌≡◌, ℕ, ◌+◌, ◌<◌, ◌≤◌, ◌∷◌, ◌++◌, ◌^◌, length, map, OnOk, IfOk};
ghost use Rattle.std.specs.List.{filter, flat_map};
ghost use Rattle.span_core.specs.Lists.{Has, IsInOrder};
ghost use Rattle.marked_automaton.specs.Automaton.{AreGrouped};
ghost use Rattle.automaton_reading.specs.Reading.{is_among, set_of, ways_taken};
ghost use Rattle.set_table.specs.Cut.{code_of, codes_among, codes_at, codes_on, marks_among};
ghost use Rattle.set_table.specs.Runs.{AreIndexed, AreRuns, AreSeen, Gains};

use crate::parts::{put_in_order, put_parts};
use crate::way_runs::{FEW_WAYS, WayRuns, first_run};
use indexmap::IndexMap;
use marked_automaton::{Automaton, Stop, Way};
use span_core::{ByteSet, OutOfMemory};
use std::alloc::Global;

/// The most numbers of a state's ways that take a byte which are read anew each time.
const FEW_CODES: usize = 64;

/// The set of these states.
pub(crate) fn start_set(alloc: Global, starts: &[u32]) -> Result<Vec<u32>, OutOfMemory>
    ensures { IfOk result (λ v. v.items ≡ set_of starts.now) }
{
    let mut states = copy_of(alloc, starts)?;
    states.sort_unstable();
    states.dedup();
    Ok(states)
}

/// The same states.
fn copy_of(alloc: Global, states: &[u32]) -> Result<Vec<u32>, OutOfMemory>
    ensures { IfOk result (λ v. v.items ≡ states.now) }
{
    let mut copy = Vec::with_capacity(alloc, states.len())?;
    for state in states {
        copy.push(*state)?;
    }
    Ok(copy)
}

/// The ways of the members that take the byte, each as the number of its marks and target, in order and
/// each once. They take the place of what `codes` had.
pub(crate) fn put_codes(
    codes: &mut Vec<u128>,
    runs: &mut WayRuns,
    automaton: &Automaton,
    members: &[u32],
    byte: u8,
) -> Result<(), OutOfMemory>
    requires order { IsInOrder ◌<◌ members.now }
    requires indexed { AreIndexed automaton.now.graph.ways runs.old }
    ensures codes { OnOk result (codes.new.items ≡ set_of (map code_of (ways_taken automaton.now.graph members.now byte))) }
    ensures indexed { AreIndexed automaton.now.graph.ways runs.new }
{
    codes.clear();
    if automaton.is_grouped() {
        put_rows(codes, runs, automaton, members, byte)?;
    } else {
        put_among(codes, automaton.ways(), members, byte)?;
    }
    put_in_order(codes);
    Ok(())
}

/// The marks of the members' ends, each as a number that is less where they are greater, in order and
/// each once. They take the place of what `codes` had.
pub(crate) fn put_marks(
    codes: &mut Vec<u128>,
    stops: &[Stop],
    members: &[u32],
) -> Result<(), OutOfMemory>
    requires { IsInOrder ◌<◌ members.now }
    ensures { OnOk result (codes.new.items ≡ set_of (marks_among members.now stops.now)) }
{
    codes.clear();
    put_stops(codes, stops, members)?;
    put_in_order(codes);
    Ok(())
}

/// The idle members of a set.
pub(crate) fn idle_members(
    alloc: Global,
    automaton: &Automaton,
    members: &[u32],
) -> Result<Vec<u32>, OutOfMemory>
    requires { (p : ℕ) → Has members.now p → p < automaton.now.graph.states }
    ensures { IfOk result (λ v. v.items ≡ filter (is_among automaton.now.graph.idle) members.now) }
{
    let mut idle = Vec::new(alloc);
    for state in members {
        if automaton.is_idle(*state) {
            idle.push(*state)?;
        }
    }
    Ok(idle)
}

/// A way's marks and target as one number, so that numbers ascend where marks descend and then targets
/// ascend.
fn code_of(way: &Way) -> u128
    ensures { result ≡ code_of way.now }
{
    let to = way.to;
    u128::from(u64::MAX - way.marks.number()) * 4_294_967_296 + u128::from(to)
}

/// Appends the ways that take the byte.
fn put_row(codes: &mut Vec<u128>, ways: &[Way], byte: u8) -> Result<(), OutOfMemory>
    ensures { OnOk result (codes.new.items ≡ codes.old.items ++ codes_on byte ways.now) }
{
    for way in ways {
        if way.bytes.contains(byte) {
            codes.push(code_of(way))?;
        }
    }
    Ok(())
}

/// Appends the ways of the members that take the byte, where the ways stand in the order of states. What is appended may have
/// less repeats.
fn put_rows(
    codes: &mut Vec<u128>,
    runs: &mut WayRuns,
    automaton: &Automaton,
    members: &[u32],
    byte: u8,
) -> Result<(), OutOfMemory>
    requires grouped { AreGrouped automaton.now.graph.ways }
    requires indexed { AreIndexed automaton.now.graph.ways runs.old }
    ensures codes { OnOk result (Gains codes.old.items codes.new.items
        (Has (flat_map (codes_at automaton.now.graph.ways byte) members.now))) }
    ensures indexed { AreIndexed automaton.now.graph.ways runs.new }
{
    let mut seen = runs.nothing_seen();
    for state in members {
        put_state(codes, &mut seen, runs, automaton, *state, byte)?;
    }
    Ok(())
}

/// Appends the ways of a state that take the byte, where the ways stand in the order of states, but for what was seen.
fn put_state(
    codes: &mut Vec<u128>,
    seen: &mut IndexMap<u128, ByteSet>,
    runs: &mut WayRuns,
    automaton: &Automaton,
    state: u32,
    byte: u8,
) -> Result<(), OutOfMemory>
    requires grouped { AreGrouped automaton.now.graph.ways }
    requires indexed { AreIndexed automaton.now.graph.ways runs.old }
    requires seen { AreSeen seen.old codes.old.items }
    ensures codes { OnOk result (Gains codes.old.items codes.new.items (Has (codes_at automaton.now.graph.ways byte state))) }
    ensures seen { OnOk result (AreSeen seen.new codes.new.items) }
    ensures indexed { AreIndexed automaton.now.graph.ways runs.new }
{
    if let Some(parts) = runs.parts(state, byte) {
        return put_parts(codes, seen, parts);
    }
    let first = codes.len();
    put_read(codes, runs, automaton, state, byte)?;
    if codes.len() - first <= FEW_CODES {
        return Ok(());
    }
    let (_, found) = codes.as_slice().split_at(first);
    runs.keep(state, byte, found);
    if let Some(parts) = runs.parts(state, byte) {
        codes.truncate(first);
        return put_parts(codes, seen, parts);
    }
    Ok(())
}

/// Appends the ways of a state that take the byte, where the ways stand in the order of states. Of many ways only those runs
/// are read of which some way takes it.
fn put_read(
    codes: &mut Vec<u128>,
    runs: &mut WayRuns,
    automaton: &Automaton,
    state: u32,
    byte: u8,
) -> Result<(), OutOfMemory>
    requires grouped { AreGrouped automaton.now.graph.ways }
    requires indexed { AreIndexed automaton.now.graph.ways runs.old }
    ensures codes { OnOk result (codes.new.items ≡ codes.old.items ++ codes_at automaton.now.graph.ways byte state) }
    ensures indexed { AreIndexed automaton.now.graph.ways runs.new }
{
    let ways = automaton.ways_from(state);
    if ways.len() <= FEW_WAYS {
        return put_row(codes, ways, byte);
    }
    runs.lay(automaton, state);
    match runs.of(state) {
        Some(runs) => put_runs(codes, ways, runs, byte),
        None => put_row(codes, ways, byte),
    }
}

/// Appends the ways that take the byte, by their runs.
fn put_runs(
    codes: &mut Vec<u128>,
    ways: &[Way],
    runs: &[ByteSet],
    byte: u8,
) -> Result<(), OutOfMemory>
    requires { AreRuns ways.now runs.now }
    ensures { OnOk result (codes.new.items ≡ codes.old.items ++ codes_on byte ways.now) }
{
    let mut rest = ways;
    for bytes in runs {
        let (run, behind) = first_run(rest);
        if bytes.contains(byte) {
            put_row(codes, run, byte)?;
        }
        rest = behind;
    }
    Ok(())
}

/// Appends the ways of the members that take the byte, by one pass over all ways.
fn put_among(
    codes: &mut Vec<u128>,
    ways: &[Way],
    members: &[u32],
    byte: u8,
) -> Result<(), OutOfMemory>
    requires { IsInOrder ◌<◌ members.now }
    ensures { OnOk result (codes.new.items ≡ codes.old.items ++ codes_among members.now byte ways.now) }
{
    for way in ways {
        if has_state(members, way.from) && way.bytes.contains(byte) {
            codes.push(code_of(way))?;
        }
    }
    Ok(())
}

/// Appends the marks of the members' ends.
fn put_stops(codes: &mut Vec<u128>, stops: &[Stop], members: &[u32]) -> Result<(), OutOfMemory>
    requires { IsInOrder ◌<◌ members.now }
    ensures { OnOk result (codes.new.items ≡ codes.old.items ++ marks_among members.now stops.now) }
{
    for stop in stops {
        if has_state(members, stop.state) {
            codes.push(u128::from(u64::MAX - stop.marks.number()))?;
        }
    }
    Ok(())
}

/// Whether the state is a member.
pub(crate) fn has_state(members: &[u32], state: u32) -> bool
    requires { IsInOrder ◌<◌ members.now }
    ensures { result ≡ is_among members.now state }
{
    members.binary_search(&state).is_ok()
}
