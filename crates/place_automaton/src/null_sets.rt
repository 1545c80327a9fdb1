//! Lists of marker sets: those with which a formula fits the empty string.
ghost use Rattle.std.specs.Prelude.{◌≡◌, ℕ, ◌+◌, List, ◌++◌, ◌∷◌, [], map, reverse, nat_eq, IfOk, IsTrue, OnOk};
ghost use Rattle.std.specs.HashSet.{contains};
ghost use Rattle.std.specs.List.{list_any};
ghost use Rattle.span_core.specs.Lists.{AreDistinct, Has};
ghost use Rattle.place_automaton.specs.Sides.{JoinAsSum};
ghost use Rattle.place_automaton.specs.Places.{add_once, either_once, sums, without};

use span_core::{Marks, OutOfMemory};
use std::alloc::Global;
use std::collections::HashSet;

/// The most sets on one side that are each compared with all of the other side. Where both sides have more, they are
/// looked up by hash.
const FEW_SETS: usize = 16;

/// The list of the one set without a marker.
pub(crate) fn only_none(alloc: Global) -> Result<Vec<Marks>, OutOfMemory>
    ensures { IfOk result (λ v. v.items ≡ 0 ∷ []) }
{
    let mut sets = Vec::new(alloc);
    sets.push(Marks::none())?;
    Ok(sets)
}

/// The same sets.
pub(crate) fn copied_sets(alloc: Global, sets: &[Marks]) -> Result<Vec<Marks>, OutOfMemory>
    ensures { IfOk result (λ v. v.items ≡ sets.now) }
{
    let mut copy = Vec::with_capacity(alloc, sets.len())?;
    for set in sets {
        copy.push(*set)?;
    }
    Ok(copy)
}

/// Whether the set is there.
fn has_set(sets: &[Marks], marks: Marks) -> bool
    ensures { result ≡ list_any (nat_eq marks) sets.now }
{
    for set in sets {
        if marks.number() == set.number() {
            return true;
        }
    }
    false
}

/// Puts the set in front, unless it is there.
pub(crate) fn add_unless_there(marks: Marks, sets: &mut Vec<Marks>) -> Result<(), OutOfMemory>
    ensures { OnOk result (sets.new.items ≡ add_once marks sets.old.items) }
{
    if has_set(sets, marks) {
        return Ok(());
    }
    sets.insert(0, marks)?;
    Ok(())
}

/// Each set of the one or of the other, once. So a set costs at most `FEW_SETS` comparisons, or one look-up.
pub(crate) fn either_of(
    front: Vec<Marks>,
    mut behind: Vec<Marks>,
) -> Result<Vec<Marks>, OutOfMemory>
    requires { AreDistinct front.items }
    ensures { IfOk result (λ v. v.items ≡ either_once front.items behind.items) }
{
    if front.len() <= FEW_SETS {
        return either_of_few(front, behind);
    }
    if behind.len() <= FEW_SETS {
        return either_before_few(front, behind);
    }
    let mut known = known_sets(&behind)?;
    let mut all = new_sets(front, &mut known)?;
    all.reverse();
    all.append(&mut behind)?;
    Ok(all)
}

/// The same, where each set of the one is compared with each of the other.
fn either_of_few(mut front: Vec<Marks>, behind: Vec<Marks>) -> Result<Vec<Marks>, OutOfMemory>
    ensures { IfOk result (λ v. v.items ≡ either_once front.items behind.items) }
{
    let mut all = behind;
    while let Some(marks) = front.pop() {
        add_unless_there(marks, &mut all)?;
    }
    Ok(all)
}

/// The same, where few are behind.
#[tactic(auto, using(crate::proofs::WithoutLaws::either_without))]
fn either_before_few(front: Vec<Marks>, mut behind: Vec<Marks>) -> Result<Vec<Marks>, OutOfMemory>
    requires { AreDistinct front.items }
    ensures { IfOk result (λ v. v.items ≡ either_once front.items behind.items) }
{
    let mut all = other_sets(&front, &behind)?;
    all.append(&mut behind)?;
    Ok(all)
}

/// The sets that are not among the others, in their order.
fn other_sets(sets: &Vec<Marks>, others: &[Marks]) -> Result<Vec<Marks>, OutOfMemory>
    ensures { IfOk result (λ v. v.items ≡ without others.now sets.now.items) }
{
    let mut left = Vec::new(*sets.allocator());
    for set in sets {
        push_other(*set, others, &mut left)?;
    }
    Ok(left)
}

/// Adds the set, unless it is among the others.
fn push_other(set: Marks, others: &[Marks], left: &mut Vec<Marks>) -> Result<(), OutOfMemory>
    ensures { OnOk result (left.new.items ≡ left.old.items ++ without others.now (set ∷ [])) }
{
    if has_set(others, set) {
        return Ok(());
    }
    left.push(set)?;
    Ok(())
}

/// The numbers of the sets, to be looked up.
fn known_sets(sets: &Vec<Marks>) -> Result<HashSet<u64>, OutOfMemory>
    ensures { IfOk result (λ known. (m : ℕ) → contains nat_eq known m ≡ list_any (nat_eq m) sets.now.items) }
{
    let mut known = HashSet::with_capacity(*sets.allocator(), sets.len())?;
    for set in sets {
        known.insert(set.number())?;
    }
    Ok(known)
}

/// The sets that are not known, each once, from the last to the first.
fn new_sets(mut front: Vec<Marks>, known: &mut HashSet<u64>) -> Result<Vec<Marks>, OutOfMemory>
    ensures { (ns : List ℕ) → ((m : ℕ) → contains nat_eq known.old m ≡ list_any (nat_eq m) ns)
        → IfOk result (λ v. reverse v.items ++ ns ≡ either_once front.items ns) }
{
    let mut new = Vec::new(*front.allocator());
    while let Some(marks) = front.pop() {
        if known.insert(marks.number())? {
            new.push(marks)?;
        }
    }
    Ok(new)
}

/// Whether the set without a marker is the only one.
fn is_only_none(sets: &[Marks]) -> bool
    ensures { IsTrue result → sets.now ≡ 0 ∷ [] }
{
    sets.len() == 1 && sets[0].is_none()
}

/// Each set of the one, joined with each of the other.
pub(crate) fn joined_with(
    alloc: Global,
    front: Vec<Marks>,
    mut behind: Vec<Marks>,
) -> Result<Vec<Marks>, OutOfMemory>
    requires { (m n : ℕ) → Has front.items m → Has behind.items n → JoinAsSum m n }
    ensures { IfOk result (λ v. v.items ≡ sums front.items behind.items) }
{
    if front.is_empty() {
        behind.clear();
        return Ok(behind);
    }
    if is_only_none(&front) {
        return Ok(behind);
    }
    if is_only_none(&behind) {
        return Ok(front);
    }
    let mut all = Vec::new(alloc);
    for marks in &front {
        push_joined(*marks, &behind, &mut all)?;
    }
    Ok(all)
}

/// Adds the sets, each joined with these markers.
fn push_joined(marks: Marks, behind: &[Marks], all: &mut Vec<Marks>) -> Result<(), OutOfMemory>
    requires { (n : ℕ) → Has behind.now n → JoinAsSum marks n }
    ensures { OnOk result (all.new.items ≡ all.old.items ++ map (◌+◌ marks) behind.now) }
{
    for set in behind {
        all.push(marks.with(*set))?;
    }
    Ok(())
}

/// Joins each set with these markers.
pub(crate) fn mark_each(marks: Marks, sets: &mut [Marks])
    requires { (n : ℕ) → Has sets.old n → JoinAsSum marks n }
    ensures { sets.new ≡ map (◌+◌ marks) sets.old }
{
    for set in sets.iter_mut() {
        *set = marks.with(*set);
    }
}
