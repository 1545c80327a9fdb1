//! Chains of cells, shared prefixes, and copies of chains.
ghost use Rattle.std.specs.Prelude.{◌≡◌, ◌<◌, IfSome};
ghost use Rattle.node_arena.specs.Cells.{hold, with_hold};

use node_arena::{Arena, Cell};
use span_core::{Marks, Steps};
use std::alloc::Global;
use std::marker::Brand;
use std::sync::ledger::{Blank, Ledger};

/// A cell that continues `from` and is held once.
fn next_of<L: Ledger>(arena: &mut Arena, from: Cell, steps: &mut Steps<L>) -> Option<Cell>
    requires { 0 < hold arena.old.holds from }
    ensures holds { IfSome result (λ c. arena.new.holds ≡ with_hold arena.old.holds c 1) }
    ensures fresh { IfSome result (λ c. hold arena.old.holds c ≡ 0) }
{
    let Ok(()) = arena.reserve(1) else {
        return None;
    };
    arena.is_arena();
    Some(arena.link(1, Marks::of(1), from, None, steps))
}

/// The number of live cells after a chain of a million links was released.
fn chain<L: Ledger>(alloc: Global, steps: &mut Steps<L>) -> Option<u64> {
    let mut arena = Arena::new(alloc);
    let Ok(()) = arena.reserve(1) else {
        return None;
    };
    let mut cell = arena.root(steps);
    for _ in 0..1_000_000u32 {
        let Some(next) = next_of(&mut arena, cell, steps) else {
            return None;
        };
        arena.release(cell, steps);
        cell = next;
    }
    arena.release(cell, steps);
    Some(arena.live())
}

/// The number of live cells after one of two cells that share a prefix was released, and then after the other was.
fn prefix<L: Ledger>(alloc: Global, steps: &mut Steps<L>) -> Option<(u64, u64)> {
    let mut arena = Arena::new(alloc);
    let Ok(()) = arena.reserve(1) else {
        return None;
    };
    let root = arena.root(steps);
    let Some(shared) = next_of(&mut arena, root, steps) else {
        return None;
    };
    let Some(one) = next_of(&mut arena, shared, steps) else {
        return None;
    };
    let Some(two) = next_of(&mut arena, shared, steps) else {
        return None;
    };
    arena.release(root, steps);
    arena.release(shared, steps);
    arena.release(one, steps);
    let left = arena.live();
    arena.release(two, steps);
    Some((left, arena.live()))
}

/// The cells of a copy, and the copy of this cell among them.
fn copy_with<L: Ledger>(
    arena: &Arena,
    cell: Cell,
    alloc: Global,
    steps: &mut Steps<L>,
) -> Option<(Arena, Cell)>
    requires { 0 < hold arena.now.holds cell }
    ensures { IfSome result (λ made. 0 < hold made.0.holds made.1) }
{
    arena.is_arena();
    let mut cells = Vec::new(alloc);
    let Ok(()) = cells.push(cell) else {
        return None;
    };
    let Ok(copy) = arena.copy(alloc, &mut cells, steps) else {
        return None;
    };
    Some((copy, cells[0]))
}

/// The numbers of live cells of the copy of a chain of so many links, and of the chain and of the copy after the copy's newest cell was
/// released.
fn apart<L: Ledger>(links: u32, alloc: Global, steps: &mut Steps<L>) -> Option<(u64, u64, u64)> {
    let mut arena = Arena::new(alloc);
    let Ok(()) = arena.reserve(1) else {
        return None;
    };
    let mut cell = arena.root(steps);
    for _ in 0..links {
        let Some(next) = next_of(&mut arena, cell, steps) else {
            return None;
        };
        arena.release(cell, steps);
        cell = next;
    }
    let Some((mut copy, twin)) = copy_with(&arena, cell, alloc, steps) else {
        return None;
    };
    let live = copy.live();
    copy.release(twin, steps);
    Some((live, arena.live(), copy.live()))
}

/// Whether all cells of a chain of a million links are given back, a prefix that two cells share stays until both are
/// released, and copies are apart from what they are copied of, where their cells are numbered in a list and in a map.
pub(crate) fn chains_are_freed(alloc: Global) -> bool {
    all_hold::<Brand>(alloc, Blank::new(1))
}

fn all_hold<L: Ledger>(alloc: Global, blank: Blank) -> bool
    requires name { blank.name ≡ L.name }
    requires parts { blank.parts ≡ L.parts }
    requires some { 0 < L.parts }
{
    let mut steps = Steps::<L>::new(blank);
    chain(alloc, &mut steps) == Some(0)
        && prefix(alloc, &mut steps) == Some((3, 0))
        && apart(1, alloc, &mut steps) == Some((2, 2, 0))
        && apart(9_999, alloc, &mut steps) == Some((10_000, 10_000, 0))
}
