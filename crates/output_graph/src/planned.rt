//! Programs that are run one behind another.
//!
//! Room for the cells of all of them is asked for once, before the first is run: so a refusal changes nothing.
ghost use Rattle.std.specs.Prelude.{◌≡◌, ◌≤◌, ◌+◌, [], length, IfOk};
ghost use Rattle.std.specs.Vec.{vec_capacity, vec_len};
ghost use Rattle.output_graph.specs.Planned.{AreRun, AreWithin, IsRunBy, MayRun, codes_long};
ghost use Rattle.output_graph.specs.Plans.{IsPlan};
ghost use Rattle.output_graph.specs.Pools.{AreOfPlan, ArePooled, meaning_of, programs_in};
ghost use Rattle.output_graph.specs.Sound.{IsPlaceOf, IsSound, graph_of};

use crate::programs::{Pool, lists_at};
use crate::registers::Registers;
use crate::running::{PlanLists, run_code};
use node_arena::Arena;
use span_core::{OutOfMemory, Steps};
use std::sync::ledger::Ledger;

/// The program of a number, which is to be run at a position.
#[derive(Clone, Copy, Drop)]
pub struct Planned {
    pub at: u32,
    pub program: u32,
}

/// How long the codes of these programs are in all: no more cells are made, and no more registers.
pub(crate) fn room_for(pool: &Pool, planned: &[Planned]) -> Result<usize, OutOfMemory>
    requires pooled { ArePooled pool.now }
    requires within { AreWithin (length pool.now.parts.items) planned.now }
    ensures { IfOk result (λ n. n ≡ codes_long pool.now.parts.items planned.now) }
{
    let mut room = 0usize;
    for one in planned {
        let lists = lists_at(pool, one.program as usize);
        match room.checked_add(lists.code.len()) {
            Some(sum) => room = sum,
            None => return Err(OutOfMemory),
        }
    }
    Ok(room)
}

/// Runs these programs one behind another. `was` stands for the position of the layer before, which only the clauses read.
pub(crate) fn run_planned<L: Ledger>(
    arena: &mut Arena,
    registers: &mut Registers,
    was: u32,
    pool: &Pool,
    planned: &[Planned],
    steps: &mut Steps<L>,
)
    requires pooled { ArePooled pool.now }
    requires within { AreWithin (length pool.now.parts.items) planned.now }
    requires may { MayRun (programs_in pool.now.parts.items) planned.now
        (graph_of arena.old.cells registers.old.sources.items [] 0 was) steps.old }
    requires sound { IsSound (graph_of arena.old.cells registers.old.sources.items [] 0 was) arena.old.holds }
    requires spare { codes_long pool.now.parts.items planned.now ≤ arena.old.spare }
    requires room { vec_len registers.old.sources + codes_long pool.now.parts.items planned.now ≤ vec_capacity registers.old.sources }
    ensures run { AreRun (programs_in pool.now.parts.items) planned.now
        (graph_of arena.old.cells registers.old.sources.items [] 0 was)
        (graph_of arena.new.cells registers.new.sources.items [] 0 was) steps.old steps.new }
    ensures sound { IsSound (graph_of arena.new.cells registers.new.sources.items [] 0 was) arena.new.holds }
{
    for one in planned {
        arena.is_arena();
        let lists = lists_at(pool, one.program as usize);
        run_lists(arena, registers, one.at, was, lists, steps);
    }
}

/// Runs one of them, by the lists of its plan.
fn run_lists<L: Ledger>(
    arena: &mut Arena,
    registers: &mut Registers,
    at: u32,
    was: u32,
    lists: PlanLists<'_>,
    steps: &mut Steps<L>,
)
    requires lists { AreOfPlan lists }
    requires plan { IsPlan lists.plan.now.value }
    requires sound { IsSound (graph_of arena.old.cells registers.old.sources.items [] 0 was) arena.old.holds }
    requires every { length (meaning_of lists.plan.now.value).groups ≡ length registers.old.sources.items }
    requires place { IsPlaceOf (graph_of arena.old.cells registers.old.sources.items [] 0 was) at }
    requires spare { length lists.code.now ≤ arena.old.spare }
    requires room { vec_len registers.old.sources + length lists.code.now ≤ vec_capacity registers.old.sources }
    ensures run { IsRunBy (meaning_of lists.entry.plan.now.value) at
        (graph_of arena.old.cells registers.old.sources.items [] 0 was)
        (graph_of arena.new.cells registers.new.sources.items [] 0 was) steps.old steps.new }
    ensures sound { IsSound (graph_of arena.new.cells registers.new.sources.items [] 0 was) arena.new.holds }
    ensures spare { arena.old.spare ≤ arena.new.spare + length lists.entry.code.now }
    ensures room { vec_len registers.new.sources + vec_capacity registers.old.sources ≤ vec_len registers.old.sources +
        vec_capacity registers.new.sources + length lists.entry.code.now }
{
    let before = registers.len();
    run_code(arena, registers, at, was, lists, steps);
    registers.settle(lists.targets, before);
}
