//! Documents read by sets of states, from the end and then from the start.
//!
//! The reading from the end keeps the number of its set at each position; the one from the start compares its set with
//! that, position by position, and marks where they meet.
ghost use Rattle.std.specs.Prelude.{◌≡◌, ℕ, ◌+◌, ◌*◌, ◌^◌, ◌<◌, ◌≤◌, ◌↔◌, length, reverse, slice_index, IfOk, IfErr, OnOk, IsTrue, ◌⊎◌};
ghost use Rattle.span_core.specs.Intervals.{Covers};
ghost use Rattle.span_core.specs.Lists.{IsInOrder};
ghost use Rattle.marked_automaton.specs.Automaton.{size};
ghost use Rattle.set_table.specs.Tabled.{fresh, weight};
ghost use Rattle.numbered_lists.specs.Numbered.{set_at};
ghost use Rattle.segment_filter.specs.Weights.{IsFullWithin, reading_look_ups, reading_weight};
ghost use Rattle.segment_filter.specs.SetNumbers.{numbers_of};
ghost use Rattle.segment_filter.specs.declared.comparing.TheConstants.{PLACES};
ghost use Rattle.segment_filter.specs.Remembered.{AreRemembered};
ghost use Rattle.segment_filter.specs.Sets.{Grows, HaveShared, MeetAt, ReadsAll, TakesNone};

use crate::FilterFault;
use crate::comparing::Comparisons;
use crate::dense::DenseTable;
use crate::numbers::Numbers;
use span_core::{OutOfMemory, Steps, Touched};
use std::alloc::Global;
use std::sync::ledger::Ledger;

/// Reads the document from its end, and gives the numbers of the sets that are led to, one for each position
/// from the last on, as long as there are any.
pub(crate) fn read_back<L: Ledger>(
    alloc: Global,
    table: &mut DenseTable<'_>,
    doc: &[u8],
    steps: &mut Steps<L>,
) -> Result<Numbers, FilterFault>
    requires plain { TakesNone table.old.graph }
    requires fresh { table.old ≡ fresh table.old.graph table.old.limit }
    ensures grows { Grows table.new table.old }
    ensures ok { IfOk result (λ numbers. ReadsAll table.new (reverse doc.now) (numbers_of numbers)) }
    ensures limit { table.new.limit ≡ table.old.limit }
    ensures weight { OnOk result (weight table.new ≡ reading_weight table.old.graph (reverse doc.now)) }
    ensures full { IfErr result (λ e. IsFullWithin table.old.limit (reading_weight table.old.graph (reverse doc.now)) e) }
    ensures steps { steps.new ≤ steps.old + length doc.now + size table.old.graph * reading_look_ups table.old.graph (reverse doc.now) }
{
    let mut set = table.start();
    let none = Numbers::with_room(alloc, doc.len() + 1)?;
    let mut numbers = none.followed_by(alloc, set)?;
    for k in 0..doc.len() {
        let byte = doc[doc.len() - 1 - k];
        let next = match table.next(set, byte, steps) {
            Ok(next) => next,
            Err(fault) => return Err(fault),
        };
        set = match next {
            Some(to) => to,
            None => return Ok(numbers),
        };
        numbers = numbers.followed_by(alloc, set)?;
    }
    Ok(numbers)
}

/// What a reading from the end leaves: the table of its sets, and the number of the set at each position, from the last on.
#[derive(Drop)]
pub(crate) struct BackReading<'a> {
    pub(crate) table: DenseTable<'a>,
    pub(crate) numbers: Numbers,
}

/// Reads the document, and gives the positions at which a state that is led to is also one of those that the
/// bytes from the end lead back to, and is at most `most`.
pub(crate) fn meetings<L: Ledger>(
    alloc: Global,
    table: &mut DenseTable<'_>,
    back: &BackReading<'_>,
    doc: &[u8],
    most: u32,
    steps: &mut Steps<L>,
) -> Result<Touched, FilterFault>
    requires plain { TakesNone table.old.graph }
    requires fresh { table.old ≡ fresh table.old.graph table.old.limit }
    requires numbers { ReadsAll back.now.table (reverse doc.now) (numbers_of back.now.numbers) }
    requires small { length doc.now < 2 ^ 32 }
    ensures within { OnOk result (reading_weight table.old.graph doc.now ≤ table.old.limit) }
    ensures full { IfErr result (λ e. IsFullWithin table.old.limit (reading_weight table.old.graph doc.now) e) }
    ensures steps { steps.new ≤ steps.old + length doc.now + size table.old.graph * reading_look_ups table.old.graph doc.now }
    ensures ok { IfOk result (λ t. (i : ℕ) →
        Covers t i ↔ ((i ≤ length doc.now) × MeetAt table.old.graph back.now.table.graph most doc.now i)) }
{
    let mut touched = Touched::new(alloc);
    let mut seen = Comparisons::new(alloc)?;
    let mut set = table.start();
    for at in 0..doc.len() {
        let meets = meet(table, back, set, doc.len() - at, most, &mut seen);
        mark(&mut touched, meets, at as u32)?;
        let next = match table.next(set, doc[at], steps) {
            Ok(next) => next,
            Err(fault) => return Err(fault),
        };
        set = match next {
            Some(to) => to,
            None => return Ok(touched),
        };
    }
    let meets = meet(table, back, set, 0, most, &mut seen);
    mark(&mut touched, meets, doc.len() as u32)?;
    Ok(touched)
}

/// Whether a set shares a state with the one that the last `behind` bytes lead back to.
#[inline(always)]
fn meet(
    table: &DenseTable<'_>,
    back: &BackReading<'_>,
    set: u32,
    behind: usize,
    most: u32,
    seen: &mut Comparisons,
) -> bool
    requires set { (set < length table.now.sets) × IsInOrder ◌<◌ (set_at table.now.sets set) }
    requires numbers { behind < length (numbers_of back.now.numbers) →
        (slice_index (numbers_of back.now.numbers) behind < length back.now.table.sets)
        × IsInOrder ◌<◌ (set_at back.now.table.sets (slice_index (numbers_of back.now.numbers) behind)) }
    requires places { length seen.old.pairs.items ≡ PLACES }
    requires right { AreRemembered most table.now.sets back.now.table.sets seen.old.pairs.items }
    ensures meets { IsTrue result ↔ ((behind < length (numbers_of back.now.numbers))
        × HaveShared most (set_at table.now.sets set) (set_at back.now.table.sets (slice_index (numbers_of back.now.numbers) behind))) }
    ensures places { length seen.new.pairs.items ≡ PLACES }
    ensures right { AreRemembered most table.now.sets back.now.table.sets seen.new.pairs.items }
{
    if behind >= back.numbers.len() {
        return false;
    }
    let other = back.numbers.at(behind);
    seen.meet(most, table, set, &back.table, other)
}

/// Adds a position, where it is touched, that is greater than each that is there.
#[inline(always)]
fn mark(touched: &mut Touched, is_touched: bool, at: u32) -> Result<(), OutOfMemory>
    requires { (q : ℕ) → Covers touched.old q → q < at }
    ensures { OnOk result ((q : ℕ) → Covers touched.new q ↔ (Covers touched.old q ⊎ (IsTrue is_touched × (q ≡ at)))) }
{
    if is_touched {
        touched.add(at)?;
    }
    Ok(())
}
