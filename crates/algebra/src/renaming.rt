//! Markers of the variables of one set as markers of those of another.
ghost use Rattle.std.specs.Prelude.{◌≡◌, ◌<◌, ◌≤◌, length, map, IfOk};
ghost use Rattle.std.specs.Option.{ForSome};
ghost use Rattle.span_core.specs.declared.TheConstants.{MOST_VARIABLES};
ghost use Rattle.algebra.specs.JoinedNames.{all_names};
ghost use Rattle.algebra.specs.Renaming.{AreShifts, bits_up, moved_marks, shift_of};

use span_core::{Marks, Name, OutOfMemory, VarSet};
use std::alloc::Global;

/// The names of both sets.
pub(crate) fn names_of_both(a: &VarSet, b: &VarSet) -> VarSet
    requires { length (all_names a.now b.now) ≤ MOST_VARIABLES }
    ensures { result ≡ all_names a.now b.now }
{
    let mut names = a.copy();
    for k in 0..b.len() {
        names.add(*b.at(k));
    }
    names
}

/// For each of `all` how far up its two bits stand in markers over `names`; nothing for one that is not
/// there, or that `other` has although it is not wanted, or lacks although it is.
pub(crate) fn shifts(
    alloc: Global,
    all: &VarSet,
    names: &VarSet,
    other: &VarSet,
    wanted: bool,
) -> Result<Vec<Option<u32>>, OutOfMemory>
    requires { length all.now ≤ MOST_VARIABLES }
    ensures value { IfOk result (λ v. v.items ≡ map (shift_of names.now other.now wanted) all.now) }
    ensures fit { IfOk result (λ v. AreShifts v.items) }
{
    // What `len` says of each set holds of this one.
    let _few = names.len();
    let mut shifts = Vec::new(alloc);
    for k in 0..all.len() {
        shifts.push(shift(all.at(k), names, other, wanted))?;
    }
    Ok(shifts)
}

fn shift(name: &Name, names: &VarSet, other: &VarSet, wanted: bool) -> Option<u32>
    ensures { result ≡ shift_of names.now other.now wanted name.now }
{
    let is_there = other.find(name).is_some();
    if is_there != wanted {
        return None;
    }
    let len = names.len();
    match names.find(name) {
        Some(k) => Some(2 * (len - k - 1) as u32),
        None => None,
    }
}

/// The markers that have the bits of these, two after two, which stand so far up.
pub(crate) fn moved(shifts: &[Option<u32>], marks: Marks) -> Marks
    requires { AreShifts shifts.now }
    ensures { result ≡ moved_marks shifts.now marks }
{
    if marks.is_none() {
        return Marks::none();
    }
    let mut number = 0;
    for shift in shifts {
        number = number * 4 + bits(*shift, marks.number());
    }
    Marks::of(number)
}

fn bits(shift: Option<u32>, number: u64) -> u64
    requires { ForSome shift (λ s. s < 64) }
    ensures value { result ≡ bits_up shift number }
    ensures small { result < 4 }
{
    match shift {
        Some(shift) => (number >> shift) % 4,
        None => 0,
    }
}
