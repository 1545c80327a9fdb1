//! Edges to numbered sets, cut from numbers in order.
//!
//! Each run of numbers with the same marks is an edge, and its targets, which ascend, are the set as it is kept.
ghost use Rattle.std.specs.Prelude.{◌≡◌, ℕ, ◌+◌, ◌<◌, ◌≤◌, ◌++◌, ◌∷◌, List, [], length, map, take, drop, slice_index, OnOk, IfOk};
ghost use Rattle.automaton_reading.specs.Reading.{Reach, rest_edge};
ghost use Rattle.set_table.specs.Cut.{cut, mark_of, marks_of, to_of};
ghost use Rattle.set_table.specs.Named.{PutsEdges, PutsRun, run};
ghost use Rattle.numbered_lists.specs.Numbered.{IsLongerBy};

use numbered_lists::NumberedLists;
use span_core::{Edge, Marks, OutOfMemory};
use std::alloc::Global;

/// Appends for each of the marks an edge to the set of its targets, and tells what the edges and the sets
/// that are new weigh. On refusal some of them may be there.
pub(crate) fn put_edges(
    alloc: Global,
    codes: &[u128],
    sets: &mut NumberedLists,
    edges: &mut Vec<Edge>,
) -> Result<u64, OutOfMemory>
    requires few_codes { length codes.now ≤ 2000000 }
    requires few_sets { length sets.old ≤ 100000000 }
    ensures put { IfOk result (λ weight. PutsEdges (cut codes.now) sets.old sets.new edges.old.items edges.new.items weight) }
    ensures sets { IsLongerBy sets.old sets.new }
    ensures edges { IsLongerBy edges.old.items edges.new.items }
{
    let mut weight = 0;
    let mut at = 0;
    while at < codes.len() {
        let (count, added) = put_edge(alloc, &codes[at..], sets, edges)?;
        weight += added;
        at += count;
    }
    Ok(weight)
}

/// Appends an edge without marks to a set, unless that is empty, and tells what it weighs, with the set
/// where that is new. On refusal the set may be there.
pub(crate) fn put_rest(
    idle: Vec<u32>,
    sets: &mut NumberedLists,
    edges: &mut Vec<Edge>,
) -> Result<u64, OutOfMemory>
    requires few_members { length idle.items ≤ 20000 }
    requires few_sets { length sets.old ≤ 100000000 }
    ensures put { IfOk result (λ weight. PutsEdges (rest_edge idle.items) sets.old sets.new edges.old.items edges.new.items weight) }
    ensures sets { IsLongerBy sets.old sets.new }
    ensures edges { IsLongerBy edges.old.items edges.new.items }
{
    let count = idle.len();
    if count == 0 {
        return Ok(0);
    }
    let before = sets.len();
    let to = sets.number_of(idle)?;
    let weight = if sets.len() == before {
        1
    } else {
        2 + count as u64
    };
    edges.push(Edge {
        marks: Marks::none(),
        to: to as u32,
    })?;
    Ok(weight)
}

/// Appends the marks of ends, which were turned into numbers.
pub(crate) fn put_ends(codes: &[u128], ends: &mut Vec<Marks>) -> Result<(), OutOfMemory>
    ensures put { OnOk result (ends.new.items ≡ ends.old.items ++ map mark_of codes.now) }
    ensures longer { IsLongerBy ends.old.items ends.new.items }
{
    for code in codes {
        ends.push(Marks::of(turned(*code)))?;
    }
    Ok(())
}

/// Appends the edge of the marks of the first number, and tells how many numbers it took and what it
/// weighs, with its set where that is new.
fn put_edge(
    alloc: Global,
    codes: &[u128],
    sets: &mut NumberedLists,
    edges: &mut Vec<Edge>,
) -> Result<(usize, u64), OutOfMemory>
    requires some { 0 < length codes.now }
    requires few_codes { length codes.now ≤ 2000000 }
    requires few_sets { length sets.old ≤ 200000000 }
    ensures put { IfOk result (λ r. PutsRun codes.now sets.old sets.new edges.old.items edges.new.items r.0 r.1) }
    ensures sets { IsLongerBy sets.old sets.new }
    ensures edges { IsLongerBy edges.old.items edges.new.items }
{
    let count = run_len(codes);
    let marks = Marks::of(marks_of(codes[0]));
    let targets = targets_of(alloc, &codes[..count])?;
    let before = sets.len();
    let to = sets.number_of(targets)?;
    let weight = if sets.len() == before {
        1
    } else {
        2 + count as u64
    };
    edges.push(Edge {
        marks,
        to: to as u32,
    })?;
    Ok((count, weight))
}

/// The marks of a number.
fn marks_of(code: u128) -> u64
    ensures { result ≡ marks_of code }
{
    turned(code / 4_294_967_296)
}

/// The marks that were turned round to this number.
fn turned(number: u128) -> u64
    ensures { result ≡ mark_of number }
{
    u128::from(u64::MAX).saturating_sub(number) as u64
}

/// How many numbers have the marks of the first, from the first on.
fn run_len(codes: &[u128]) -> usize
    requires { 0 < length codes.now }
    ensures some { 0 < result }
    ensures within { result ≤ length codes.now }
    ensures run { cut codes.now ≡ run codes.now result ∷ cut (drop result codes.now) }
{
    let marks = marks_of(codes[0]);
    for (k, code) in codes.iter().enumerate() {
        if marks_of(*code) != marks {
            return k;
        }
    }
    codes.len()
}

/// The targets of numbers.
fn targets_of(alloc: Global, codes: &[u128]) -> Result<Vec<u32>, OutOfMemory>
    ensures { IfOk result (λ v. v.items ≡ map to_of codes.now) }
{
    let mut targets = Vec::with_capacity(alloc, codes.len())?;
    for code in codes {
        targets.push((*code % 4_294_967_296) as u32)?;
    }
    Ok(targets)
}
