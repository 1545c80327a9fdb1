//! A text inside: where what leaves states that wait comes through behind a text alone, and some bytes end all that is under
//! way before it.
//!
//! What leaves the states goes about in a region of states, which it leaves behind the text alone. Up to a place before which
//! the text ends nowhere, behind a byte that no way in the region takes, each set of the states leads back to itself. The
//! region and the text are proposed (`regions`), and what is proposed is checked here, way by way.
ghost use Rattle.std.specs.Prelude.{◌≡◌, ◌⊎◌, ℕ, [], ◌∷◌, None, false, slice_index, IfSome, IsTrue};
ghost use Rattle.std.specs.FinSet as bytes;
ghost use Rattle.span_core.specs.Lists.{Has};
ghost use Rattle.marked_automaton.specs.Automaton.{HasByte};
ghost use Rattle.way_exits.specs.Home.{BringsHome, BeginsIn, ComesHome, IsOnWay, IsUnspoilt, LeadsTo};
ghost use Rattle.way_exits.specs.Inside.{Closes, Deepens, Kills, WaitsInside};
ghost use Rattle.way_exits.specs.Regions.{Enters, FitsIn, StaysIn, depth_of, region_of};
ghost use Rattle.way_exits.specs.Waiting.{IsLoop, IsLooping};

use crate::regions::{Member, propose};
use crate::states::{has, is_loop, loops};
use byte_runs::InnerText;
use marked_automaton::Way;
use span_core::ByteSet;
use std::alloc::Global;

/// The text that leads out of these states, each of which loops on each byte, and the bytes that kill, if there are any.
pub(crate) fn inside_of(alloc: Global, ways: &[Way], states: &[u32]) -> Option<InnerText>
    requires { (p : ℕ) → Has states.now p → IsLooping ways.now p }
    ensures { IfSome result (WaitsInside ways.now states.now) }
{
    let region = match propose(alloc, ways, states, false) {
        Some(region) => region,
        None => return None,
    };
    inside_by(
        alloc,
        ways,
        states,
        region.members.as_slice(),
        region.text.as_slice(),
    )
}

/// As `inside_of`, by a region and a text that were proposed.
fn inside_by(
    alloc: Global,
    ways: &[Way],
    states: &[u32],
    members: &[Member],
    text: &[u8],
) -> Option<InnerText>
    requires { (p : ℕ) → Has states.now p → IsLooping ways.now p }
    ensures { IfSome result (WaitsInside ways.now states.now) }
{
    if !is_region(ways, states, members, text) {
        return None;
    }
    InnerText::new(alloc, text, &kills_of(ways, states, members))
}

/// The text that leads out of these states, which wait or stand in a region, and the bytes that bring each of these sets of
/// them home, if there are any.
pub(crate) fn home_of(
    alloc: Global,
    ways: &[Way],
    states: &[u32],
    sets: &[Vec<u32>],
) -> Option<InnerText>
    ensures { IfSome result (ComesHome ways.now sets.now) }
{
    let region = match propose(alloc, ways, states, true) {
        Some(region) => region,
        None => return None,
    };
    home_by(
        alloc,
        ways,
        sets,
        region.members.as_slice(),
        region.text.as_slice(),
    )
}

/// As `home_of`, by a region and a text that were proposed.
fn home_by(
    alloc: Global,
    ways: &[Way],
    sets: &[Vec<u32>],
    members: &[Member],
    text: &[u8],
) -> Option<InnerText>
    ensures { IfSome result (ComesHome ways.now sets.now) }
{
    let mut homes = ByteSet::all();
    for set in sets {
        let states = set.as_slice();
        if !begins(ways, states, members) || !is_region(ways, states, members, text) {
            return None;
        }
        homes = homes.meet(&homes_of(ways, states, members));
    }
    if homes.is_empty() {
        return None;
    }
    InnerText::new(alloc, text, &homes)
}

/// Whether each of the states waits, or stands in the region where no byte of the text stands before it.
fn begins(ways: &[Way], states: &[u32], members: &[Member]) -> bool
    ensures { IsTrue result → (p : ℕ) → Has states.now p → BeginsIn ways.now members.now p }
{
    for state in states {
        if !begins_at(ways, members, *state) {
            return false;
        }
    }
    true
}

/// As `begins`, of one state.
fn begins_at(ways: &[Way], members: &[Member], state: u32) -> bool
    ensures { IsTrue result → BeginsIn ways.now members.now state }
{
    if loops(ways, state) {
        return true;
    }
    is_front(members, state)
}

/// Whether the state is of the region, and no byte of the text stands before it.
fn is_front(members: &[Member], state: u32) -> bool
    ensures { IsTrue result → Has (region_of members.now) state × (depth_of members.now state ≡ 0) }
{
    match depth_at(members, state) {
        Some(depth) => depth == 0,
        None => false,
    }
}

/// Whether each way is as a region asks.
fn is_region(ways: &[Way], states: &[u32], members: &[Member], text: &[u8]) -> bool
    ensures { IsTrue result → (y : Way) → Has ways.now y → FitsIn states.now members.now text.now y }
{
    for way in ways {
        if !enters(way, states, members, text) || !stays(way, members, text) {
            return false;
        }
    }
    true
}

/// Whether the way does not leave the states, or leads into the region.
fn enters(way: &Way, states: &[u32], members: &[Member], text: &[u8]) -> bool
    ensures { IsTrue result → Enters states.now members.now text.now way.now }
{
    if !has(states, way.from) {
        return true;
    }
    if is_loop(way) {
        return true;
    }
    match depth_at(members, way.to) {
        Some(depth) => deepens(way, text, 0, depth as usize),
        None => false,
    }
}

/// Whether the way does not lead from the region, or stays in it, or takes the last byte of the text.
fn stays(way: &Way, members: &[Member], text: &[u8]) -> bool
    ensures { IsTrue result → StaysIn members.now text.now way.now }
{
    let from = match depth_at(members, way.from) {
        Some(depth) => depth as usize,
        None => return true,
    };
    if closes(way, text, from) {
        return true;
    }
    match depth_at(members, way.to) {
        Some(depth) => deepens(way, text, from, depth as usize),
        None => false,
    }
}

/// How many bytes of the text stand before a state of the region, if it is one.
fn depth_at(members: &[Member], state: u32) -> Option<u32>
    ensures there { IfSome result (λ d. Has (region_of members.now) state × (depth_of members.now state ≡ d)) }
    ensures none { result ≡ None → Has (region_of members.now) state → ⊥ }
{
    for member in members {
        if member.state == state {
            return Some(member.depth);
        }
    }
    None
}

/// Whether the way leads from so many bytes of the text to none, or to one more by the next.
fn deepens(way: &Way, text: &[u8], from: usize, to: usize) -> bool
    ensures { IsTrue result → Deepens text.now from way.now to }
{
    if to == 0 {
        return true;
    }
    to - 1 == from && takes_only(way, text, from)
}

/// Whether the way takes the last byte of the text.
fn closes(way: &Way, text: &[u8], from: usize) -> bool
    ensures { IsTrue result → Closes text.now from way.now }
{
    from < text.len() && from + 1 == text.len() && takes_only(way, text, from)
}

/// Whether the way takes the byte of the text at a place alone.
fn takes_only(way: &Way, text: &[u8], place: usize) -> bool
    ensures { IsTrue result → (b : ℕ) → HasByte way.now.bytes b → b ≡ slice_index text.now place }
{
    if place >= text.len() {
        return false;
    }
    is_only(&way.bytes, text[place])
}

/// Whether the set has no byte beside this one.
pub(crate) fn is_only(set: &ByteSet, byte: u8) -> bool
    ensures { IsTrue result → (b : ℕ) → IsTrue (bytes.contains set.now b) → b ≡ byte }
{
    set.without(&ByteSet::single(byte)).is_empty()
}

/// The bytes that no way takes from the region, nor, but for a loop, from the states.
pub(crate) fn kills_of(ways: &[Way], states: &[u32], members: &[Member]) -> ByteSet
    ensures { (b : ℕ) → IsTrue (bytes.contains result b) → Kills ways.now states.now (region_of members.now) b }
{
    let mut kills = ByteSet::all();
    for way in ways {
        kills = spared(&kills, way, states, members);
    }
    kills
}

/// The bytes that no way takes from the region, and that lead from the states to each of them alone, without marks.
pub(crate) fn homes_of(ways: &[Way], states: &[u32], members: &[Member]) -> ByteSet
    ensures { (b : ℕ) → IsTrue (bytes.contains result b) → BringsHome ways.now states.now (region_of members.now) b }
{
    let mut homes = ByteSet::all();
    for state in states {
        homes = homes.meet(&bytes_to(ways, states, *state));
    }
    for way in ways {
        homes = unspoilt(&homes, way, states, members);
    }
    homes
}

/// The bytes that ways without marks take from the states to this one.
fn bytes_to(ways: &[Way], states: &[u32], state: u32) -> ByteSet
    ensures { (b : ℕ) → IsTrue (bytes.contains result b) → LeadsTo ways.now states.now state b }
{
    let mut taken = ByteSet::empty();
    for way in ways {
        taken = with_bytes(&taken, way, states, state);
    }
    taken
}

/// The bytes, and those of the way, if it leads without marks from the states to this one.
fn with_bytes(taken: &ByteSet, way: &Way, states: &[u32], state: u32) -> ByteSet
    ensures { (b : ℕ) → IsTrue (bytes.contains result b) → IsTrue (bytes.contains taken.now b) ⊎ IsOnWay way.now states.now state b }
{
    if !leads_to(way, states, state) {
        return *taken;
    }
    taken.union(&way.bytes)
}

/// Whether the way leads without marks from the states to this one.
fn leads_to(way: &Way, states: &[u32], state: u32) -> bool
    ensures { IsTrue result → Has states.now way.now.from × (way.now.marks ≡ 0) × (way.now.to ≡ state) }
{
    way.to == state && way.marks.is_none() && has(states, way.from)
}

/// Those of the bytes that the way leaves, if it leads from the region, or from the states and not home.
fn unspoilt(homes: &ByteSet, way: &Way, states: &[u32], members: &[Member]) -> ByteSet
    ensures before { (b : ℕ) → IsTrue (bytes.contains result b) → IsTrue (bytes.contains homes.now b) }
    ensures homes { (b : ℕ) → IsTrue (bytes.contains result b) → IsUnspoilt way.now states.now (region_of members.now) b }
{
    if spoils(way, states, members) {
        homes.without(&way.bytes)
    } else {
        *homes
    }
}

/// Whether the way leads from the region, or from the states and not to one of them without marks.
fn spoils(way: &Way, states: &[u32], members: &[Member]) -> bool
    ensures region { result ≡ false → Has (region_of members.now) way.now.from → ⊥ }
    ensures states { result ≡ false → Has states.now way.now.from → (way.now.marks ≡ 0) × Has states.now way.now.to }
{
    match depth_at(members, way.from) {
        Some(_) => true,
        None => has(states, way.from) && !(way.marks.is_none() && has(states, way.to)),
    }
}

/// Those of the bytes that the way leaves, if it leads from the region, or from the states and is no loop.
fn spared(kills: &ByteSet, way: &Way, states: &[u32], members: &[Member]) -> ByteSet
    ensures before { (b : ℕ) → IsTrue (bytes.contains result b) → IsTrue (bytes.contains kills.now b) }
    ensures kills { (b : ℕ) → IsTrue (bytes.contains result b) → Kills (way.now ∷ []) states.now (region_of members.now) b }
{
    if takes_part(way, states, members) {
        kills.without(&way.bytes)
    } else {
        *kills
    }
}

/// Whether the way leads from the region, or from the states and is no loop.
fn takes_part(way: &Way, states: &[u32], members: &[Member]) -> bool
    ensures region { result ≡ false → Has (region_of members.now) way.now.from → ⊥ }
    ensures states { result ≡ false → Has states.now way.now.from → IsLoop way.now }
{
    match depth_at(members, way.from) {
        Some(_) => true,
        None => has(states, way.from) && !is_loop(way),
    }
}
