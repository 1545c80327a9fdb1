//! The numbers of an atom's automaton, before it is made.
//!
//! Two walks over the tree, one for the states and one for the ways, tell whether an atom is too large; so nothing
//! that is refused is built. Memory is taken for null alone, the sets of markers with which a part fits the empty
//! string, and at most `MOST_SETS` of them are listed of each part.
ghost use Rattle.std.specs.Prelude.{◌≡◌, ℕ, ◌+◌, ◌-◌, ◌^◌, ◌<◌, ◌≤◌, [], length, min, true, false, IfOk, IfErr, OnOk, OnErr};
ghost use Rattle.span_core.specs.declared.TheConstants.{MOST_VARIABLES};
ghost use Rattle.span_core.specs.Lists.{AreDistinct, AtMost, Has};
ghost use Rattle.spanner_model.specs.Sequential.{HasVar, IsSequential};
ghost use Rattle.spanner_model.specs.Tree.{Tree, cat_all, alt_all};
ghost use Rattle.spanner_model.specs.View.{tree_of, trees_of, atom_of};
ghost use Rattle.spanner_model.specs.WellBuilt.{IsWellBuilt};
ghost use Rattle.place_automaton.specs.declared.TheConstants.{MOST_SETS};
ghost use Rattle.place_automaton.specs.declared.counting.CountFault.TheVariants.{LargeNull, OutOfMemory};
ghost use Rattle.place_automaton.specs.Capped.{AreCapped, capped};
ghost use Rattle.place_automaton.specs.Counts.{PlaceCounts, counts_cap, counts_over, count_states, count_ways, has_large_null, largest_null_over};
ghost use Rattle.place_automaton.specs.Drafts.{AreNamed};
ghost use Rattle.place_automaton.specs.Sides.{JoinAsSum};
ghost use Rattle.place_automaton.specs.Variables.{with_vars};
ghost use Rattle.place_automaton.specs.Words.{opening_of, closing_of};

use crate::numbers::Numbers;
use crate::place_count::count_places;
use crate::placing::is_once;
use crate::variables::vars_of;
use marked_automaton::MOST_WAYS;
use span_core::{Marks, Name, OutOfMemory, VarSet};
use spanner_model::{Atom, Formula, Parts};
use std::alloc::Global;

/// The ways that are told of an atom of which null is too large somewhere.
pub(crate) const TOO_MANY_WAYS: u64 = MOST_WAYS as u64 + 1;

/// The numbers of an atom's automaton. A number past 2^64 - 1 is kept as 2^64 - 1.
#[derive(Clone, Copy, Debug, PartialEq, Eq)]
pub struct Counts {
    /// The states.
    pub states: u64,
    /// The ways.
    pub ways: u64,
}

/// Why the ways of an atom's automaton are not counted.
pub(crate) enum CountFault {
    /// Some part of the formula, or the first parts of a concatenation, fits the empty string with more than
    /// `MOST_SETS` sets of markers.
    LargeNull,
    /// Want of memory.
    OutOfMemory,
}

impl From<OutOfMemory> for CountFault {
    ghost from_gives = { λ _ e. e ≡ OutOfMemory };

    fn from(_error: OutOfMemory) -> CountFault {
        CountFault::OutOfMemory
    }
}

/// The numbers of the automaton of an atom, by its formula alone.
///
/// It looks at each formula of the tree twice, and counts at most its greatest number of copies for each
/// repetition. The sets of captures with which the empty string fits are listed, since two arms may have some
/// in common, and memory is taken for them. Where more than `MOST_SETS` would be listed of one part, or of the
/// first parts of a concatenation, the ways are told as one more than `MOST_WAYS`.
pub fn count(alloc: Global, atom: &Atom) -> Result<Counts, OutOfMemory>
    requires built { IsWellBuilt (tree_of atom.now.formula) }
    requires sequential { IsSequential (tree_of atom.now.formula) }
    requires few { AtMost MOST_VARIABLES (HasVar (tree_of atom.now.formula)) }
    ensures states { IfOk result (λ c. c.states ≡ min (count_states (atom_of atom.now)) (2 ^ 64 - 1)) }
    ensures ways { IfOk result (λ c. c.ways ≡ min (count_ways (atom_of atom.now)) (2 ^ 64 - 1)) }
{
    let states = states_of_atom(atom);
    let ways = match numbers_of(alloc, &atom.formula) {
        Ok(numbers) => numbers.ways(atom.from_start, atom.to_end),
        Err(CountFault::LargeNull) => TOO_MANY_WAYS,
        Err(CountFault::OutOfMemory) => return Err(OutOfMemory),
    };
    Ok(Counts { states, ways })
}

/// The states of the automaton of the atom, or 2^64 - 1 where they are more.
pub(crate) fn states_of_atom(atom: &Atom) -> u64
    requires { IsWellBuilt (tree_of atom.now.formula) }
    ensures { result ≡ capped (count_states (atom_of atom.now)) }
{
    let inner = count_places(&atom.formula).saturating_add(1);
    if atom.to_end {
        inner
    } else {
        inner.saturating_add(1)
    }
}

/// The numbers of a formula.
pub(crate) fn numbers_of(alloc: Global, formula: &Formula) -> Result<Numbers, CountFault>
    requires built { IsWellBuilt (tree_of formula.now) }
    requires sequential { IsSequential (tree_of formula.now) }
    requires few { AtMost MOST_VARIABLES (HasVar (tree_of formula.now)) }
    ensures ok { IfOk result (λ n. AreCapped (counts_over (with_vars [] (tree_of formula.now)) (tree_of formula.now)) n) }
    ensures small { OnOk result (has_large_null (tree_of formula.now) ≡ false) }
    ensures err { IfErr result (λ e. e ≡ LargeNull → has_large_null (tree_of formula.now) ≡ true) }
{
    let vars = vars_of(formula);
    count_formula(alloc, &vars, formula)
}

#[cycle(count)]
fn count_formula(alloc: Global, vars: &VarSet, formula: &Formula) -> Result<Numbers, CountFault>
    requires built { IsWellBuilt (tree_of formula.now) }
    requires sequential { IsSequential (tree_of formula.now) }
    requires distinct { AreDistinct vars.now }
    requires named { AreNamed vars.now (tree_of formula.now) }
    ensures ok { IfOk result (λ n. AreCapped (counts_over vars.now (tree_of formula.now)) n) }
    ensures small { OnOk result (largest_null_over vars.now (tree_of formula.now) ≤ MOST_SETS) }
    ensures err { IfErr result (λ e. e ≡ LargeNull → MOST_SETS < largest_null_over vars.now (tree_of formula.now)) }
{
    match formula {
        Formula::Empty => Ok(Numbers::nothing(alloc)?),
        Formula::One(_) => Ok(Numbers::one(alloc)),
        Formula::Cat(parts) => count_parts(alloc, vars, parts),
        Formula::Alt(arms) => count_arms(alloc, vars, arms),
        Formula::Rep(sub, least, most) => {
            let numbers = count_formula(alloc, vars, sub)?;
            if is_once(*most) {
                return listed(numbers.opt_if(*least == 0)?);
            }
            listed(numbers.repeated(alloc, *least, *most)?)
        }
        Formula::Cap(name, sub) => {
            let numbers = count_formula(alloc, vars, sub)?;
            Ok(captured(vars, name, numbers))
        }
    }
}

/// The numbers, unless null is too large.
fn listed(numbers: Numbers) -> Result<Numbers, CountFault>
    ensures ok { IfOk result (λ n. n ≡ numbers) }
    ensures small { OnOk result (length numbers.null.items ≤ MOST_SETS) }
    ensures err { OnErr result (MOST_SETS < length numbers.null.items) }
{
    if numbers.has_large_null() {
        return Err(CountFault::LargeNull);
    }
    Ok(numbers)
}

/// The numbers of a concatenation, whose parts are joined from left to right.
#[cycle(count)]
fn count_parts(alloc: Global, vars: &VarSet, parts: &Parts) -> Result<Numbers, CountFault>
    requires built { (f : Tree) → Has (trees_of parts.now) f → IsWellBuilt f }
    requires sequential { IsSequential (cat_all (trees_of parts.now)) }
    requires distinct { AreDistinct vars.now }
    requires named { AreNamed vars.now (cat_all (trees_of parts.now)) }
    ensures ok { IfOk result (λ n. AreCapped (counts_over vars.now (cat_all (trees_of parts.now))) n) }
    ensures small { OnOk result (largest_null_over vars.now (cat_all (trees_of parts.now)) ≤ MOST_SETS) }
    ensures err { IfErr result (λ e. e ≡ LargeNull → MOST_SETS < largest_null_over vars.now (cat_all (trees_of parts.now))) }
{
    let mut numbers = Numbers::nothing(alloc)?;
    for k in 0..parts.len() {
        let part = count_formula(alloc, vars, parts.at(k))?;
        if numbers.has_large_join(&part) {
            return Err(CountFault::LargeNull);
        }
        numbers = numbers.cat(alloc, part)?;
    }
    Ok(numbers)
}

/// The numbers of an alternation.
#[cycle(count)]
fn count_arms(alloc: Global, vars: &VarSet, arms: &Parts) -> Result<Numbers, CountFault>
    requires built { (f : Tree) → Has (trees_of arms.now) f → IsWellBuilt f }
    requires sequential { IsSequential (alt_all (trees_of arms.now)) }
    requires distinct { AreDistinct vars.now }
    requires named { AreNamed vars.now (alt_all (trees_of arms.now)) }
    ensures ok { IfOk result (λ n. AreCapped (counts_over vars.now (alt_all (trees_of arms.now))) n) }
    ensures small { OnOk result (largest_null_over vars.now (alt_all (trees_of arms.now)) ≤ MOST_SETS) }
    ensures err { IfErr result (λ e. e ≡ LargeNull → MOST_SETS < largest_null_over vars.now (alt_all (trees_of arms.now))) }
{
    let mut numbers = Numbers::never(alloc);
    let mut waiting = arms.len();
    while waiting > 0 {
        waiting -= 1;
        let arm = count_formula(alloc, vars, arms.at(waiting))?;
        numbers = listed(arm.alt(numbers)?)?;
    }
    Ok(numbers)
}

/// The numbers in a capture of this name.
fn captured(vars: &VarSet, name: &Name, numbers: Numbers) -> Numbers
    requires distinct { AreDistinct vars.now }
    requires named { Has vars.now name.now }
    requires apart { JoinAsSum (opening_of vars.now name.now) (closing_of vars.now name.now) }
    requires marks { (m : ℕ) → Has numbers.null.items m → JoinAsSum (opening_of vars.now name.now + closing_of vars.now name.now) m }
    ensures { (a : PlaceCounts) → AreCapped a numbers →
        AreCapped (counts_cap (opening_of vars.now name.now + closing_of vars.now name.now) a) result }
{
    match vars.find(name) {
        Some(k) => {
            let count = vars.len();
            numbers.captured(Marks::opening(k, count).with(Marks::closing(k, count)))
        }
        None => numbers,
    }
}
