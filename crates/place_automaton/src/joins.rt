//! Entries, ends and ways of parts that are put together.
//!
//! Markers in front of an entry and behind an end are joined by bits: on sequential formulas the bits are apart, so
//! that this is the sum of the definition.
ghost use Rattle.std.specs.Prelude.{◌≡◌, ℕ, ◌++◌, map, IfOk, OnOk};
ghost use Rattle.std.specs.List.{flat_map};
ghost use Rattle.span_core.specs.Lists.{Has};
ghost use Rattle.marked_automaton.specs.declared.way.Stop.{Stop};
ghost use Rattle.place_automaton.specs.declared.fragment.Entry.{Entry};
ghost use Rattle.place_automaton.specs.Sides.{JoinAsSum};
ghost use Rattle.place_automaton.specs.Places.{way_into, ways_between, entry_with, stop_with};

use crate::fragment::Entry;
use marked_automaton::{Stop, Way};
use span_core::{Marks, OutOfMemory};

/// Puts the markers in front of those of each entry.
pub(crate) fn mark_entries(marks: Marks, entries: &mut [Entry])
    requires { (e : Entry) → Has entries.old e → JoinAsSum marks e.marks }
    ensures { entries.new ≡ map (entry_with marks) entries.old }
{
    if marks.is_none() {
        return;
    }
    for entry in entries.iter_mut() {
        entry.marks = marks.with(entry.marks);
    }
}

/// Puts the markers behind those of each end.
pub(crate) fn mark_stops(marks: Marks, stops: &mut [Stop])
    requires { (s : Stop) → Has stops.old s → JoinAsSum s.marks marks }
    ensures { stops.new ≡ map (stop_with marks) stops.old }
{
    if marks.is_none() {
        return;
    }
    for stop in stops.iter_mut() {
        stop.marks = stop.marks.with(marks);
    }
}

/// The entries in front, and for each set of markers with which the empty string fits in front those behind too.
pub(crate) fn all_entries(
    front: Vec<Entry>,
    null: &[Marks],
    behind: Vec<Entry>,
) -> Result<Vec<Entry>, OutOfMemory>
    requires { (m : ℕ) (e : Entry) → Has null.now m → Has behind.items e → JoinAsSum m e.marks }
    ensures { IfOk result (λ v. v.items ≡ front.items ++ flat_map (λ m. map (entry_with m) behind.items) null.now) }
{
    if null.len() == 1 {
        return entries_then(front, null[0], behind);
    }
    let mut all = front;
    for marks in null {
        push_entries(*marks, &behind, &mut all)?;
    }
    Ok(all)
}

/// Adds the entries, with the markers in front of those of each.
fn push_entries(marks: Marks, entries: &[Entry], all: &mut Vec<Entry>) -> Result<(), OutOfMemory>
    requires { (e : Entry) → Has entries.now e → JoinAsSum marks e.marks }
    ensures { OnOk result (all.new.items ≡ all.old.items ++ map (entry_with marks) entries.now) }
{
    for entry in entries {
        all.push(Entry {
            marks: marks.with(entry.marks),
            bytes: entry.bytes,
            to: entry.to,
        })?;
    }
    Ok(())
}

/// The same of one set of markers, in the room of the entries behind.
fn entries_then(
    mut front: Vec<Entry>,
    marks: Marks,
    mut behind: Vec<Entry>,
) -> Result<Vec<Entry>, OutOfMemory>
    requires { (e : Entry) → Has behind.items e → JoinAsSum marks e.marks }
    ensures { IfOk result (λ v. v.items ≡ front.items ++ map (entry_with marks) behind.items) }
{
    mark_entries(marks, &mut behind);
    if front.is_empty() {
        return Ok(behind);
    }
    front.append(&mut behind)?;
    Ok(front)
}

/// The ends behind, and for each set of markers with which the empty string fits behind those in front too.
pub(crate) fn all_stops(
    behind: Vec<Stop>,
    null: &[Marks],
    front: Vec<Stop>,
) -> Result<Vec<Stop>, OutOfMemory>
    requires { (m : ℕ) (s : Stop) → Has null.now m → Has front.items s → JoinAsSum s.marks m }
    ensures { IfOk result (λ v. v.items ≡ behind.items ++ flat_map (λ m. map (stop_with m) front.items) null.now) }
{
    if null.len() == 1 {
        return stops_then(behind, null[0], front);
    }
    let mut all = behind;
    for marks in null {
        push_stops(*marks, &front, &mut all)?;
    }
    Ok(all)
}

/// Adds the ends, with the markers behind those of each.
fn push_stops(marks: Marks, stops: &[Stop], all: &mut Vec<Stop>) -> Result<(), OutOfMemory>
    requires { (s : Stop) → Has stops.now s → JoinAsSum s.marks marks }
    ensures { OnOk result (all.new.items ≡ all.old.items ++ map (stop_with marks) stops.now) }
{
    for stop in stops {
        all.push(Stop {
            state: stop.state,
            marks: stop.marks.with(marks),
        })?;
    }
    Ok(())
}

/// The same of one set of markers, in the room of the ends in front.
fn stops_then(
    mut behind: Vec<Stop>,
    marks: Marks,
    mut front: Vec<Stop>,
) -> Result<Vec<Stop>, OutOfMemory>
    requires { (s : Stop) → Has front.items s → JoinAsSum s.marks marks }
    ensures { IfOk result (λ v. v.items ≡ behind.items ++ map (stop_with marks) front.items) }
{
    mark_stops(marks, &mut front);
    if behind.is_empty() {
        return Ok(front);
    }
    behind.append(&mut front)?;
    Ok(behind)
}

/// Adds the ways from each end through each entry.
pub(crate) fn push_ways(
    last: &[Stop],
    first: &[Entry],
    ways: &mut Vec<Way>,
) -> Result<(), OutOfMemory>
    requires { (s : Stop) (e : Entry) → Has last.now s → Has first.now e → JoinAsSum s.marks e.marks }
    ensures { OnOk result (ways.new.items ≡ ways.old.items ++ ways_between last.now first.now) }
{
    for stop in last {
        push_ways_from(stop, first, ways)?;
    }
    Ok(())
}

fn push_ways_from(stop: &Stop, first: &[Entry], ways: &mut Vec<Way>) -> Result<(), OutOfMemory>
    requires { (e : Entry) → Has first.now e → JoinAsSum stop.now.marks e.marks }
    ensures { OnOk result (ways.new.items ≡ ways.old.items ++ map (way_into stop.now) first.now) }
{
    for entry in first {
        ways.push(Way {
            from: stop.state,
            marks: stop.marks.with(entry.marks),
            bytes: entry.bytes,
            to: entry.to,
        })?;
    }
    Ok(())
}
