//! Which states stay accepted, whatever comes.
ghost use Rattle.std.specs.Prelude.{◌≡◌, ℕ, ◌<◌, ◌↔◌, Bool, true, false, length, replicate, slice_index_or, IfOk, OnOk, IsTrue};
ghost use Rattle.std.specs.FinSet as bytes;
ghost use Rattle.span_core.specs.Lists.{Has};
ghost use Rattle.marked_automaton.specs.Accepting.{Gathers};
ghost use Rattle.marked_automaton.specs.Reach.{IsFlagged};
ghost use Rattle.marked_automaton.specs.Trimmed.{count_set};
ghost use Rattle.settled_states.specs.Covering.{AreBytesInto, HasEachByte, IsUncovered, LeadsInto, LeadsPlainly};
ghost use Rattle.settled_states.specs.States.{AreLasting, Told};

use marked_automaton::{Automaton, Stop, Way};
use span_core::{ByteSet, OutOfMemory};
use std::alloc::Global;

/// For each state whether it is lasting. These are all that are: a set of states that is lasting is among them, as the idle states
/// that have an end without marks are.
///
/// It begins with the states that have an end without marks, and goes over all ways, round by round, until no state is left out. In
/// most automata there are two rounds, and in no automaton are there more than one for each state and one.
pub fn lasting_states(alloc: Global, automaton: &Automaton) -> Result<Vec<bool>, OutOfMemory>
    ensures len { IfOk result (λ flags. length flags.items ≡ automaton.now.graph.states) }
    ensures lasting { IfOk result (λ flags. AreLasting automaton.now.graph (IsFlagged flags.items)) }
    ensures largest { IfOk result (λ flags. (y : ℕ → Bool) → AreLasting automaton.now.graph (Told y) → (q : ℕ) → Told y q →
        IsFlagged flags.items q) }
{
    automaton.is_marked();
    let ways = automaton.ways();
    let mut flags = plain_ends(alloc, automaton.states(), automaton.stops())?;
    loop {
        if !leave_out_uncovered(alloc, ways, flags.as_mut_slice())? {
            return Ok(flags);
        }
    }
}

/// For each state whether one of these is an end of it without marks.
fn plain_ends(alloc: Global, states: u32, stops: &[Stop]) -> Result<Vec<bool>, OutOfMemory>
    requires { (x : Stop) → Has stops.now x → x.state < states }
    ensures len { IfOk result (λ flags. length flags.items ≡ states) }
    ensures exactly { IfOk result (λ flags. Gathers (λ (x : Stop). x.marks ≡ 0) (λ (x : Stop). x.state) stops.now flags.items) }
{
    let mut flags = Vec::new(alloc);
    flags.resize(states as usize, false)?;
    for stop in stops {
        if stop.marks.is_none() {
            flags[stop.state as usize] = true;
        }
    }
    Ok(flags)
}

/// Leaves out the states from which ways without marks lead to flagged states on some bytes only, and tells whether there were any.
fn leave_out_uncovered(alloc: Global, ways: &[Way], flags: &mut [bool]) -> Result<bool, OutOfMemory>
    requires froms { (y : Way) → Has ways.now y → y.from < length flags.old }
    requires tos { (y : Way) → Has ways.now y → y.to < length flags.old }
    ensures len { length flags.new ≡ length flags.old }
    ensures kept { OnOk result ((q : ℕ) → IsFlagged flags.new q ↔ (IsFlagged flags.old q × LeadsInto ways.now (IsFlagged flags.old) q)) }
    ensures same { IfOk result (λ some. some ≡ false → flags.new ≡ flags.old) }
    ensures fewer { IfOk result (λ some. some ≡ true → count_set flags.new < count_set flags.old) }
{
    let sets = bytes_into(alloc, ways, flags)?;
    let some = leave_out(flags, sets.as_slice());
    Ok(some)
}

/// Leaves out the states whose set does not have each byte, and tells whether there were any.
fn leave_out(flags: &mut [bool], sets: &[ByteSet]) -> bool
    requires { length sets.now ≡ length flags.old }
    ensures len { length flags.new ≡ length flags.old }
    ensures kept { (q : ℕ) → IsFlagged flags.new q ↔ (IsFlagged flags.old q × HasEachByte (slice_index_or sets.now q bytes.empty)) }
    ensures same { result ≡ false → flags.new ≡ flags.old }
    ensures fewer { result ≡ true → count_set flags.new < count_set flags.old }
{
    let mut some = false;
    for k in 0..flags.len() {
        if is_uncovered(flags[k], &sets[k]) {
            flags[k] = false;
            some = true;
        }
    }
    some
}

/// Whether the flag is set, and the set does not have each byte.
fn is_uncovered(flag: bool, set: &ByteSet) -> bool
    ensures yes { IsTrue result → IsUncovered flag set.now }
    ensures no { result ≡ false → IsTrue flag → HasEachByte set.now }
{
    flag && !has_each_byte(set)
}

/// For each state the bytes on which ways without marks lead from it to states of `good`.
fn bytes_into(alloc: Global, ways: &[Way], good: &[bool]) -> Result<Vec<ByteSet>, OutOfMemory>
    requires froms { (y : Way) → Has ways.now y → y.from < length good.now }
    requires tos { (y : Way) → Has ways.now y → y.to < length good.now }
    ensures len { IfOk result (λ sets. length sets.items ≡ length good.now) }
    ensures exactly { IfOk result (λ sets. AreBytesInto ways.now good.now sets.items) }
{
    let mut sets = empty_sets(alloc, good.len())?;
    for way in ways {
        if leads_plainly(way, good) {
            let bytes = sets[way.from as usize].union(&way.bytes);
            sets[way.from as usize] = bytes;
        }
    }
    Ok(sets)
}

/// So many sets without bytes.
fn empty_sets(alloc: Global, count: usize) -> Result<Vec<ByteSet>, OutOfMemory>
    ensures { IfOk result (λ sets. sets.items ≡ replicate count bytes.empty) }
{
    let mut sets = Vec::new(alloc);
    sets.resize(count, ByteSet::empty())?;
    Ok(sets)
}

/// Whether the way has no marks and leads to a state of `good`.
fn leads_plainly(way: &Way, good: &[bool]) -> bool
    requires { way.now.to < length good.now }
    ensures { IsTrue result ↔ LeadsPlainly good.now way.now }
{
    way.marks.is_none() && good[way.to as usize]
}

/// Whether each byte is in the set.
fn has_each_byte(set: &ByteSet) -> bool
    ensures { IsTrue result ↔ HasEachByte set.now }
{
    set.negation().is_empty()
}
