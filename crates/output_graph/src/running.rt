//! Running a program.
//!
//! Only cells that are made, let go or moved are touched; a cell that is handed on to its own place stays in its register.
ghost use Rattle.std.specs.Prelude.{◌≡◌, ◌≤◌, ◌+◌, ◌*◌, [], length, take};
ghost use Rattle.std.specs.Vec.{vec_capacity, vec_len};
ghost use Rattle.output_graph.specs.Graph.{sets_of};
ghost use Rattle.output_graph.specs.Pools.{AreOfPlan};
ghost use Rattle.output_graph.specs.Running.{HasCome, Leads, Runs, point};
ghost use Rattle.output_graph.specs.Sound.{graph_of};

use crate::code::Instruction;
use crate::program::Plan;
use crate::registers::Registers;
use node_arena::Arena;
use span_core::Steps;
use std::snapshot::Snapshot;
use std::sync::ledger::Ledger;

/// What running a plan reads. `plan` stands for the plan itself, which only the clauses read.
#[derive(Clone, Copy)]
pub(crate) struct PlanLists<'a> {
    pub(crate) plan: &'a Snapshot<Plan>,
    pub(crate) code: &'a [Instruction],
    pub(crate) targets: &'a [u32],
    pub(crate) sources: usize,
}

/// Runs the code of a plan, and counts a step for each source. `was` stands for the position of the layer before, which
/// only the clauses read.
pub(crate) fn run_code<L: Ledger>(
    arena: &mut Arena,
    registers: &mut Registers,
    at: u32,
    was: u32,
    lists: PlanLists<'_>,
    steps: &mut Steps<L>,
)
    requires lists { AreOfPlan lists }
    requires leads { Leads registers.old.sources.items at
        (Runs (graph_of arena.old.cells registers.old.sources.items [] 0 was) at lists.plan.now.value steps.old)
        lists.plan.now.value.actions.items (point [] arena.old.cells arena.old.holds steps.old) }
    requires every { length lists.plan.now.value.counts.items ≡ length registers.old.sources.items }
    requires spare { length lists.code.now ≤ arena.old.spare }
    requires room { vec_len registers.old.sources + length lists.code.now ≤ vec_capacity registers.old.sources }
    ensures run { HasCome (graph_of arena.old.cells registers.old.sources.items [] 0 was) at lists.entry.plan.now.value
        steps.old registers.new.sources.items arena.new.cells arena.new.holds steps.new }
    ensures names { take (length registers.old.sources.items) (sets_of registers.new.sources.items) ≡ sets_of registers.old.sources.items }
    ensures spare { arena.old.spare ≤ arena.new.spare + length lists.entry.code.now }
    ensures room { vec_len registers.new.sources + vec_capacity registers.old.sources ≤ vec_len registers.old.sources +
        vec_capacity registers.new.sources + length lists.entry.code.now }
    ensures counted { steps.old + lists.entry.sources ≤ steps.new }
{
    let _was = was;
    for instruction in lists.code {
        match *instruction {
            Instruction::Create(making) => {
                let from = registers.cell(making.from);
                let also = registers.cell_of(making.also);
                let cell = arena.link(at, making.marks, from, also, steps);
                registers.put(making.to, cell);
            }
            Instruction::Free(register) => arena.release(registers.cell(register), steps),
            Instruction::Shift(shifting) => {
                let cell = registers.cell(shifting.from);
                registers.put(shifting.to, cell);
            }
        }
    }
    count(lists.sources, steps);
}

/// Counts so many steps.
fn count<L: Ledger>(number: usize, steps: &mut Steps<L>)
    ensures { steps.new ≡ steps.old + number }
{
    for _ in 0..number {
        steps.tick();
    }
}
