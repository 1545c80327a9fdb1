//! Entries, ends and ways whose places get other numbers.
//!
//! A copy of a formula is the first one with all numbers raised by the same amount, so it costs what it adds and
//! looks at no formula.
ghost use Rattle.std.specs.Prelude.{◌≡◌, ◌+◌, ◌-◌, ◌≤◌, ◌++◌, length, take, drop, map, IfOk, OnOk};
ghost use Rattle.span_core.specs.Lists.{Has};
ghost use Rattle.marked_automaton.specs.declared.TheConstants.{MOST_STATES};
ghost use Rattle.marked_automaton.specs.declared.way.Stop.{Stop};
ghost use Rattle.marked_automaton.specs.declared.way.Way.{Way};
ghost use Rattle.place_automaton.specs.declared.fragment.Entry.{Entry};
ghost use Rattle.place_automaton.specs.Moves.{entry_moved, stop_moved, way_moved};

use crate::fragment::Entry;
use marked_automaton::{Stop, Way};
use span_core::OutOfMemory;
use std::alloc::Global;

/// The entries, into places whose numbers are greater by so many.
pub(crate) fn moved_entries(
    alloc: Global,
    entries: &[Entry],
    by: u32,
) -> Result<Vec<Entry>, OutOfMemory>
    requires { (e : Entry) → Has entries.now e → e.to + by ≤ MOST_STATES }
    ensures { IfOk result (λ v. v.items ≡ map (entry_moved by) entries.now) }
{
    let mut moved = Vec::with_capacity(alloc, entries.len())?;
    for entry in entries {
        moved.push(Entry {
            marks: entry.marks,
            bytes: entry.bytes,
            to: entry.to + by,
        })?;
    }
    Ok(moved)
}

/// The ends, in places whose numbers are greater by so many.
pub(crate) fn moved_stops(alloc: Global, stops: &[Stop], by: u32) -> Result<Vec<Stop>, OutOfMemory>
    requires { (s : Stop) → Has stops.now s → s.state + by ≤ MOST_STATES }
    ensures { IfOk result (λ v. v.items ≡ map (stop_moved by) stops.now) }
{
    let mut moved = Vec::with_capacity(alloc, stops.len())?;
    for stop in stops {
        moved.push(Stop {
            state: stop.state + by,
            marks: stop.marks,
        })?;
    }
    Ok(moved)
}

/// Adds the ways from the one index to the other once more, between places whose numbers are greater by so
/// many.
pub(crate) fn push_moved_ways(
    from: usize,
    end: usize,
    by: u32,
    ways: &mut Vec<Way>,
) -> Result<(), OutOfMemory>
    requires order { from ≤ end }
    requires within { end ≤ length ways.old.items }
    requires froms { (w : Way) → Has (take (end - from) (drop from ways.old.items)) w → w.from + by ≤ MOST_STATES }
    requires tos { (w : Way) → Has (take (end - from) (drop from ways.old.items)) w → w.to + by ≤ MOST_STATES }
    ensures { OnOk result (ways.new.items ≡ ways.old.items ++ map (way_moved by) (take (end - from) (drop from ways.old.items))) }
{
    for k in from..end {
        let way = ways[k];
        ways.push(Way {
            from: way.from + by,
            marks: way.marks,
            bytes: way.bytes,
            to: way.to + by,
        })?;
    }
    Ok(())
}
