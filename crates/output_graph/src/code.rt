//! The code of a plan: what it does, on the registers of a graph alone.
//!
//! A draft of it comes from a heuristic, of which nothing is proved. It is run on symbols instead: what each register
//! holds, as the plan names it. Only a draft that does the plan's actions, and ends with what the plan holds, is run on
//! cells.
ghost use Rattle.std.specs.Prelude.{◌≡◌, ◌<◌, ◌++◌, List, drop, length, slice_get, IfOk, IfSome, IsTrue, Some};
ghost use Rattle.output_graph.specs.declared.code.Instruction.TheVariants.{Create, Free, Shift};
ghost use Rattle.output_graph.specs.declared.program.Action.TheVariants.{Make, Release};
ghost use Rattle.output_graph.specs.declared.program.Register.{Register as register};
ghost use Rattle.output_graph.specs.Codes.{DoesAll, IsAlso, IsCode, IsMaking, IsTaken, first_symbols};
ghost use Rattle.output_graph.specs.Plans.{put};

use crate::drafting::draft_code;
use crate::program::{Action, Link, Plan, Register, put_register, small};
use span_core::{Marks, OutOfMemory};
use std::alloc::Global;

/// A cell to make: its marks, the register of the cell that it continues, that of the one that it takes along, and its own.
#[derive(Clone, Copy, Drop)]
pub(crate) struct Making {
    pub(crate) marks: Marks,
    pub(crate) from: u32,
    pub(crate) also: Option<u32>,
    pub(crate) to: u32,
}

/// The registers from which and to which a cell is moved.
#[derive(Clone, Copy, Drop)]
pub(crate) struct Shifting {
    pub(crate) from: u32,
    pub(crate) to: u32,
}

/// What is done to registers, and to the cells that they have.
#[derive(Clone, Copy, Drop)]
pub(crate) enum Instruction {
    /// Makes a cell.
    Create(Making),
    /// Gives up the hold of the cell of this register.
    Free(u32),
    /// Moves a cell.
    Shift(Shifting),
}

/// What each register holds behind some instructions, how many cells they made, and how many actions they did.
#[derive(Drop)]
pub(crate) struct Symbols {
    pub(crate) registers: Vec<Register>,
    pub(crate) made: u32,
    pub(crate) done: usize,
}

/// A code of a plan. Where the draft is none, it is refused as for want of memory.
pub(crate) fn code_of(alloc: Global, plan: &Plan) -> Result<Vec<Instruction>, OutOfMemory>
    ensures { IfOk result (λ code. IsCode plan.now code.items) }
{
    let code = draft_code(alloc, plan)?;
    let first = Symbols::first(alloc, plan.counts.len())?;
    if is_code(first, &code, plan) {
        return Ok(code);
    }
    Err(OutOfMemory)
}

/// Whether the code does the actions of the plan that are left, and ends with what the plan holds.
fn is_code(first: Symbols, code: &[Instruction], plan: &Plan) -> bool
    ensures { IsTrue result → DoesAll first.registers.items first.made code.now (drop first.done plan.now.actions.items)
        plan.now.held.items }
{
    let mut symbols = first;
    for instruction in code {
        if !symbols.take(*instruction, plan.actions.as_slice()) {
            return false;
        }
    }
    if symbols.done < plan.actions.len() {
        return false;
    }
    begins_with(symbols.registers.as_slice(), plan.held.as_slice())
}

impl Symbols {
    /// Those before a program of so many sources.
    fn first(alloc: Global, sources: usize) -> Result<Symbols, OutOfMemory>
        ensures registers { IfOk result (λ s. s.registers.items ≡ first_symbols sources) }
        ensures begun { IfOk result (λ s. (s.made ≡ 0) × (s.done ≡ 0)) }
    {
        let mut registers = Vec::new(alloc);
        for k in 0..sources {
            registers.push(Register::Kept(small(k)?))?;
        }
        Ok(Symbols {
            registers,
            made: 0,
            done: 0,
        })
    }

    /// Goes on by an instruction, if it does the next of these actions or moves a cell.
    fn take(&mut self, instruction: Instruction, actions: &[Action]) -> bool
        ensures { IsTrue result → IsTaken actions.now instruction self.old self.new }
    {
        match instruction {
            Instruction::Create(making) => self.take_create(making, actions),
            Instruction::Free(register) => self.take_free(register, actions),
            Instruction::Shift(shifting) => self.take_shift(shifting, actions),
        }
    }

    /// As `take`, where a cell is made.
    fn take_create(&mut self, making: Making, actions: &[Action]) -> bool
        ensures { IsTrue result → IsTaken actions.now (Create making) self.old self.new }
    {
        let Some(link) = link_at(actions, self.done) else {
            return false;
        };
        if !is_making(self.registers.as_slice(), &making, &link) {
            return false;
        }
        let made = Register::Made(self.made);
        let Ok(more) = small(self.made as usize + 1) else {
            return false;
        };
        if !self.put(making.to, made) {
            return false;
        }
        self.made = more;
        self.done += 1;
        true
    }

    /// A register holds this from now on, where there is memory.
    fn put(&mut self, register: u32, symbol: Register) -> bool
        ensures registers { IsTrue result → self.new.registers.items ≡ put self.old.registers.items register symbol }
        ensures made { self.new.made ≡ self.old.made }
        ensures done { self.new.done ≡ self.old.done }
    {
        put_register(&mut self.registers, register as usize, symbol).is_ok()
    }

    /// As `take`, where the hold of a source's cell is given up.
    fn take_free(&mut self, register: u32, actions: &[Action]) -> bool
        ensures { IsTrue result → IsTaken actions.now (Free register) self.old self.new }
    {
        let Some(source) = release_at(actions, self.done) else {
            return false;
        };
        if !has_at(
            self.registers.as_slice(),
            register as usize,
            Register::Kept(source),
        ) {
            return false;
        }
        self.done += 1;
        true
    }

    /// As `take`, where a cell is moved. `actions` is read by the clause alone.
    fn take_shift(&mut self, shifting: Shifting, actions: &[Action]) -> bool
        ensures { IsTrue result → IsTaken actions.now (Shift shifting) self.old self.new }
    {
        let _actions = actions;
        let from = shifting.from as usize;
        if self.registers.len() <= from {
            return false;
        }
        let symbol = self.registers[from];
        put_register(&mut self.registers, shifting.to as usize, symbol).is_ok()
    }
}

/// The link of action `k`, if that makes a cell.
fn link_at(actions: &[Action], k: usize) -> Option<Link>
    ensures { IfSome result (λ l. (slice_get actions.now k ≡ Some (Make l)) × (k < length actions.now)) }
{
    if actions.len() <= k {
        return None;
    }
    match actions[k] {
        Action::Make(link) => Some(link),
        Action::Release(_) => None,
    }
}

/// The source of action `k`, if that gives up a hold.
fn release_at(actions: &[Action], k: usize) -> Option<u32>
    ensures { IfSome result (λ s. (slice_get actions.now k ≡ Some (Release s)) × (k < length actions.now)) }
{
    if actions.len() <= k {
        return None;
    }
    match actions[k] {
        Action::Make(_) => None,
        Action::Release(source) => Some(source),
    }
}

/// Whether the cell to make is that of a link.
fn is_making(symbols: &[Register], making: &Making, link: &Link) -> bool
    ensures { IsTrue result → IsMaking symbols.now making.now link.now }
{
    making.marks == link.marks
        && has_at(symbols, making.from as usize, Register::Kept(link.from))
        && is_also(symbols, making.also, link.also)
}

/// Whether a register holds what a link takes along, if it takes something.
fn is_also(symbols: &[Register], register: Option<u32>, wanted: Option<Register>) -> bool
    ensures { IsTrue result → IsAlso symbols.now register wanted }
{
    match (register, wanted) {
        (None, None) => true,
        (Some(register), Some(wanted)) => has_at(symbols, register as usize, wanted),
        (None, Some(_)) => false,
        (Some(_), None) => false,
    }
}

/// Whether a register holds this.
fn has_at(symbols: &[Register], register: usize, wanted: Register) -> bool
    ensures { IsTrue result → slice_get symbols.now register ≡ Some wanted }
{
    register < symbols.len() && is_same(symbols[register], wanted)
}

/// Whether the first registers hold these.
fn begins_with(symbols: &[Register], held: &[Register]) -> bool
    ensures { IsTrue result → (rest : List register) × (symbols.now ≡ held.now ++ rest) }
{
    for k in 0..held.len() {
        if !has_at(symbols, k, held[k]) {
            return false;
        }
    }
    true
}

/// Whether these are the same.
pub(crate) fn is_same(register: Register, other: Register) -> bool
    ensures { IsTrue result → register ≡ other }
{
    match (register, other) {
        (Register::Kept(source), Register::Kept(before)) => source == before,
        (Register::Made(number), Register::Made(before)) => number == before,
        (Register::Kept(_), Register::Made(_)) => false,
        (Register::Made(_), Register::Kept(_)) => false,
    }
}
