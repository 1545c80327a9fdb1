//! Programs in lists that they share.
//!
//! A program that stands alone has lists of its own, each somewhere else in memory. Here they lie one behind another, so
//! that running one reads few places. Of a plan they have the code and the targets, which is all that a run reads.
ghost use Rattle.std.specs.Prelude.{◌≡◌, ◌<◌, ◌++◌, ◌∷◌, [], List, length, slice_get, IfOk, OnErr, OnOk};
ghost use Rattle.output_graph.specs.Codes.{IsCode};
ghost use Rattle.output_graph.specs.Planned.{code_long};
ghost use Rattle.output_graph.specs.Plans.{IsPlan};
ghost use Rattle.output_graph.specs.Pools.{AreOfPlan, ArePooled, HasPiece, meaning_of, program_at, programs_in};

use crate::code::{Instruction, code_of};
use crate::program::{Plan, Program, small};
use crate::running::PlanLists;
use span_core::OutOfMemory;
use std::alloc::Global;
use std::marker::Model;
use std::snapshot::Snapshot;

/// Where a piece of a list begins, and where it ends.
#[derive(Clone, Copy, Drop)]
pub(crate) struct Piece {
    pub(crate) from: u32,
    pub(crate) to: u32,
}

/// What a program has of each list. `plan` stands for the plan that it has come of, which only clauses read.
#[derive(Drop)]
pub(crate) struct Part {
    pub(crate) plan: Snapshot<Plan>,
    pub(crate) code: Piece,
    pub(crate) targets: Piece,
    pub(crate) sources: u32,
}

/// The lists of all programs, one behind another.
#[derive(Drop)]
pub(crate) struct Pool {
    pub(crate) code: Vec<Instruction>,
    pub(crate) targets: Vec<u32>,
    pub(crate) parts: Vec<Part>,
}

/// Programs, one behind another in lists that they share.
#[derive(Drop)]
pub struct Programs {
    alloc: Global,
    pool: Pool,
}

impl Model for Programs {
    ghost use Rattle.std.specs.Prelude.{List};
    ghost use Rattle.output_graph.specs.Programs.{Steps};
    ghost use Rattle.output_graph.specs.Pools.{ArePooled, programs_in};

    ghost Value = { List Steps };

    ghost view = { λ p. programs_in p.pool.parts.items };

    ghost invariant = { λ p. ArePooled p.pool };
}

impl Programs {
    /// No programs. Takes no memory.
    pub fn new(alloc: Global) -> Programs
        ensures { result ≡ [] }
    {
        Programs {
            alloc,
            pool: Pool {
                code: Vec::new(alloc),
                targets: Vec::new(alloc),
                parts: Vec::new(alloc),
            },
        }
    }

    /// How many there are.
    pub fn len(&self) -> usize
        ensures { result ≡ length self.now }
    {
        self.pool.parts.len()
    }

    /// Adds a program, the last, and returns its number. It is refused for want of memory, or where no code of it is found.
    pub fn add(&mut self, program: &Program) -> Result<usize, OutOfMemory>
        ensures number { IfOk result (λ k. k ≡ length self.old) }
        ensures added { OnOk result (self.new ≡ self.old ++ program.now ∷ []) }
        ensures refused { OnErr result (self.new ≡ self.old) }
    {
        let code = code_of(self.alloc, &program.plan)?;
        add_plan(&mut self.pool, &program.plan, &code)
    }

    /// Where they stand.
    pub(crate) fn pool(&self) -> &Pool
        ensures pooled { ArePooled result.now }
        ensures programs { programs_in result.now.parts.items ≡ self.now }
        ensures many { length result.now.parts.items ≡ length self.now }
    {
        &self.pool
    }
}

/// What running program `k` reads.
pub(crate) fn lists_at(pool: &Pool, k: usize) -> PlanLists<'_>
    requires pooled { ArePooled pool.now }
    requires within { k < length pool.now.parts.items }
    ensures lists { AreOfPlan result }
    ensures plan { IsPlan result.plan.now.value }
    ensures program { meaning_of result.plan.now.value ≡ program_at (programs_in pool.now.parts.items) k }
    ensures code { length result.code.now ≡ code_long (slice_get pool.now.parts.items k) }
{
    let part = &pool.parts[k];
    PlanLists {
        plan: &part.plan,
        code: piece_of(pool.code.as_slice(), part.code),
        targets: piece_of(pool.targets.as_slice(), part.targets),
        sources: part.sources as usize,
    }
}

/// A piece of a list.
fn piece_of<T>(list: &[T], piece: Piece) -> &[T]
    requires { (these : List T) × HasPiece list.now piece these }
    ensures { HasPiece list.now piece result.now }
{
    &list[piece.from as usize..piece.to as usize]
}

/// Adds the lists of a plan and its code, the last. If memory runs out, what was added of them is named by no part.
fn add_plan(pool: &mut Pool, plan: &Plan, code: &[Instruction]) -> Result<usize, OutOfMemory>
    requires pooled { ArePooled pool.old }
    requires plan { IsPlan plan.now }
    requires code { IsCode plan.now code.now }
    ensures pooled { ArePooled pool.new }
    ensures number { IfOk result (λ k. k ≡ length pool.old.parts.items) }
    ensures added { OnOk result (programs_in pool.new.parts.items ≡ programs_in pool.old.parts.items ++ meaning_of plan.now ∷ []) }
    ensures refused { OnErr result (pool.new.parts.items ≡ pool.old.parts.items) }
{
    let code = append(&mut pool.code, code)?;
    let targets = append(&mut pool.targets, plan.targets.as_slice())?;
    let sources = small(plan.counts.len())?;
    let number = pool.parts.len();
    pool.parts.push(Part {
        plan: Snapshot::of(plan),
        code,
        targets,
        sources,
    })?;
    Ok(number)
}

/// Puts these behind a list, and tells where they stand.
fn append<T: Copy>(list: &mut Vec<T>, more: &[T]) -> Result<Piece, OutOfMemory>
    ensures old { (rest : List T) × (list.new.items ≡ list.old.items ++ rest) }
    ensures piece { IfOk result (λ p. HasPiece list.new.items p more.now) }
{
    let from = small(list.len())?;
    list.extend_from_slice(more)?;
    let to = small(list.len())?;
    Ok(Piece { from, to })
}
