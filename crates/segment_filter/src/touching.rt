//! The positions that an atom touches.
ghost use Rattle.std.specs.Prelude.{◌≡◌, [], ℕ, ◌+◌, ◌-◌, ◌*◌, ◌^◌, ◌<◌, ◌≤◌, ◌↔◌, length, reverse, IfOk, IfErr, OnOk};
ghost use Rattle.span_core.specs.Intervals.{Covers};
ghost use Rattle.marked_automaton.specs.Automaton.{size};
ghost use Rattle.segment_filter.specs.Sets.{MeetAt, ReadsAll, TakesNone};
ghost use Rattle.segment_filter.specs.SetNumbers.{numbers_of};
ghost use Rattle.set_table.specs.Tabled.{IsRefusal, Tabled, weight};
ghost use Rattle.segment_filter.specs.Weights.{IsFullWithin, both_take, both_weigh, reading_look_ups, reading_weight};
ghost use Rattle.span_core.specs.declared.TheConstants.{MOST_VARIABLES};
ghost use Rattle.spanner_model.specs.Sequential.{HasVar, IsSequential};
ghost use Rattle.span_core.specs.Lists.{AtMost};
ghost use Rattle.spanner_model.specs.View.{tree_of, atom_of};
ghost use Rattle.spanner_model.specs.WellBuilt.{IsWellBuilt};
ghost use Rattle.segment_filter.specs.Costs.{atom_weight, readings_weight, touching_steps};
ghost use Rattle.segment_filter.specs.Touching.{IsTouchedBy};

use crate::FilterFault;
use crate::dense::DenseTable;
use crate::reading::{BackReading, meetings, read_back};
use crate::readings::Readings;
use set_table::TableFault;
use span_core::{Steps, Touched};
use spanner_model::Atom;
use std::alloc::Global;
use std::sync::ledger::Ledger;

/// The positions that an atom touches: those in a part that it fits, from the part's first position to its
/// last, both included.
///
/// The document is read by sets of the states of the atom's automaton (Glushkov 1961) without markers, from
/// its end and from its start; a position is touched exactly where the two sets there share a place, or Before.
/// The two readings weigh no more than `limit` together; `FilterFault::Full` comes only where they weigh more, and
/// carries the weight that passed it. An atom whose automaton is past the limits of size answers want of memory; a query
/// that is compiled has none such. The set numbers of the reading from the end are kept, in 1, 2 or 4 bytes a position.
pub fn touched<L: Ledger>(
    alloc: Global,
    atom: &Atom,
    doc: &[u8],
    limit: u64,
    steps: &mut Steps<L>,
) -> Result<Touched, FilterFault>
    requires built { IsWellBuilt (tree_of atom.now.formula) }
    requires sequential { IsSequential (tree_of atom.now.formula) }
    requires few { AtMost MOST_VARIABLES (HasVar (tree_of atom.now.formula)) }
    requires doc { length doc.now ≤ 2 ^ 28 }
    requires limit { limit ≤ 100000000 }
    ensures ok { IfOk result (λ t. (i : ℕ) → Covers t i ↔ IsTouchedBy (atom_of atom.now) doc.now i) }
    ensures within { OnOk result (readings_weight (atom_of atom.now) doc.now ≤ limit) }
    ensures full { IfErr result (λ e. IsFullWithin limit (atom_weight (atom_of atom.now) doc.now) e) }
    ensures steps { steps.new ≤ steps.old + touching_steps (atom_of atom.now) doc.now }
{
    let Ok(readings) = Readings::of(alloc, atom) else {
        return Err(FilterFault::OutOfMemory);
    };
    touched_by(alloc, &readings, doc, limit, steps)
}

/// The positions at which the two readings of a document meet.
fn touched_by<L: Ledger>(
    alloc: Global,
    readings: &Readings,
    doc: &[u8],
    limit: u64,
    steps: &mut Steps<L>,
) -> Result<Touched, FilterFault>
    requires forward { TakesNone readings.now.forward.graph }
    requires backward { TakesNone readings.now.backward.graph }
    requires small { length doc.now < 2 ^ 32 }
    requires limit { limit ≤ 100000000 }
    ensures ok { IfOk result (λ t. (i : ℕ) →
        Covers t i ↔ ((i ≤ length doc.now) × MeetAt readings.now.forward.graph readings.now.backward.graph readings.now.most doc.now i)) }
    ensures within { OnOk result (both_weigh readings.now.forward.graph readings.now.backward.graph doc.now ≤ limit) }
    ensures full { IfErr result (λ e. IsFullWithin limit (both_weigh readings.now.forward.graph readings.now.backward.graph doc.now) e) }
    ensures steps { steps.new ≤ steps.old + both_take readings.now.forward.graph readings.now.backward.graph doc.now }
{
    let mut behind = match DenseTable::new(alloc, &readings.backward, limit, steps) {
        Ok(table) => table,
        Err(fault) => return Err(fault_of(fault)),
    };
    let numbers = match read_back(alloc, &mut behind, doc, steps) {
        Ok(numbers) => numbers,
        Err(fault) => return Err(fault),
    };
    let back = BackReading {
        table: behind,
        numbers,
    };
    touched_ahead(alloc, readings, &back, doc, limit, steps)
}

/// The positions at which the reading from the start meets the one from the end. The tables of both together are held
/// to the limit.
fn touched_ahead<'r, L: Ledger>(
    alloc: Global,
    readings: &'r Readings,
    back: &BackReading<'r>,
    doc: &[u8],
    limit: u64,
    steps: &mut Steps<L>,
) -> Result<Touched, FilterFault>
    requires forward { TakesNone readings.now.forward.graph }
    requires numbers { ReadsAll back.now.table (reverse doc.now) (numbers_of back.now.numbers) }
    requires within { weight back.now.table ≤ limit }
    requires small { length doc.now < 2 ^ 32 }
    requires limit { limit ≤ 100000000 }
    ensures ok { IfOk result (λ t. (i : ℕ) →
        Covers t i ↔ ((i ≤ length doc.now) × MeetAt readings.now.forward.graph back.now.table.graph readings.now.most doc.now i)) }
    ensures within { OnOk result (weight back.now.table + reading_weight readings.now.forward.graph doc.now ≤ limit) }
    ensures full { IfErr result (λ e. IsFullWithin limit (weight back.now.table + reading_weight readings.now.forward.graph doc.now) e) }
    ensures steps { steps.new ≤ steps.old +
        (length doc.now + 1 + size readings.now.forward.graph * reading_look_ups readings.now.forward.graph doc.now) }
{
    let spent = back.table.weight();
    let mut ahead = match DenseTable::new(alloc, &readings.forward, limit - spent, steps) {
        Ok(table) => table,
        Err(fault) => return Err(heavier(fault_of(fault), spent)),
    };
    let most = readings.most;
    match meetings(alloc, &mut ahead, back, doc, most, steps) {
        Ok(touched) => Ok(touched),
        Err(fault) => Err(heavier(fault, spent)),
    }
}

/// The same refusal of a table.
fn fault_of(fault: TableFault) -> FilterFault
    ensures { (t : Tabled) (limit most : ℕ) → IsRefusal t fault → t.limit ≡ limit → weight t ≤ most → IsFullWithin limit most result }
{
    match fault {
        TableFault::Full { weight } => FilterFault::Full { weight },
        TableFault::OutOfMemory => FilterFault::OutOfMemory,
    }
}

/// The fault with so much more weight.
fn heavier(fault: FilterFault, more: u64) -> FilterFault
    ensures { (limit most other : ℕ) → limit ≤ 100000000 → more ≤ limit → more ≤ other →
        IsFullWithin (limit - more) most fault → IsFullWithin limit (other + most) result }
{
    match fault {
        FilterFault::Full { weight } => FilterFault::Full {
            weight: weight.saturating_add(more),
        },
        FilterFault::OutOfMemory => FilterFault::OutOfMemory,
    }
}
