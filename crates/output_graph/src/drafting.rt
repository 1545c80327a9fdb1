//! A draft of a plan's code, by a heuristic: `code` checks it.
//!
//! A cell that is handed on keeps its register. One that is made gets that of the cell that it takes along, or that of its
//! place in the next layer if it is free, or the first that is. What is not in its place at the end is moved there.
use crate::code::{Instruction, Making, Shifting, is_same};
use crate::program::{Action, Link, Plan, Register, small};
use span_core::OutOfMemory;
use std::alloc::Global;

/// A code so far, what each register holds that is still needed, and how many cells are made.
#[derive(Drop)]
struct Draft {
    code: Vec<Instruction>,
    registers: Vec<Option<Register>>,
    made: u32,
}

/// A draft of the code of a plan.
pub(crate) fn draft_code(alloc: Global, plan: &Plan) -> Result<Vec<Instruction>, OutOfMemory> {
    let held = plan.held.as_slice();
    let mut draft = Draft::of(alloc, plan.counts.len())?;
    for action in plan.actions.as_slice() {
        match *action {
            Action::Make(link) => draft.make(link, held)?,
            Action::Release(source) => draft.release(source)?,
        }
    }
    for place in 0..held.len() {
        draft.bring(held[place], place)?;
    }
    Ok(draft.code)
}

impl Draft {
    /// No code yet, for so many sources.
    fn of(alloc: Global, sources: usize) -> Result<Draft, OutOfMemory> {
        let mut registers = Vec::new(alloc);
        for k in 0..sources {
            registers.push(Some(Register::Kept(small(k)?)))?;
        }
        Ok(Draft {
            code: Vec::new(alloc),
            registers,
            made: 0,
        })
    }

    /// Makes the cell of a link.
    fn make(&mut self, link: Link, held: &[Register]) -> Result<(), OutOfMemory> {
        let made = Register::Made(self.made);
        let from = small(self.register_of(Register::Kept(link.from)))?;
        let also = match link.also {
            Some(register) => Some(small(self.register_of(register))?),
            None => None,
        };
        let to = match also {
            Some(register) => register,
            None => small(self.free_for(place_in(held, made)))?,
        };
        self.code.push(Instruction::Create(Making {
            marks: link.marks,
            from,
            also,
            to,
        }))?;
        self.made = small(self.made as usize + 1)?;
        self.put(to as usize, made)
    }

    /// Gives up the hold of a source's cell.
    fn release(&mut self, source: u32) -> Result<(), OutOfMemory> {
        let register = self.register_of(Register::Kept(source));
        self.code.push(Instruction::Free(small(register)?))?;
        self.forget(register);
        Ok(())
    }

    /// Brings what a place is to hold to its place. What was there goes behind all others.
    fn bring(&mut self, wanted: Register, place: usize) -> Result<(), OutOfMemory> {
        let from = self.register_of(wanted);
        if from == place {
            return Ok(());
        }
        let behind = self.registers.len();
        if let Some(other) = self.held_at(place) {
            self.shift(other, place, behind)?;
        }
        self.shift(wanted, from, place)
    }

    /// Moves what a register holds to another.
    fn shift(&mut self, held: Register, from: usize, to: usize) -> Result<(), OutOfMemory> {
        self.code.push(Instruction::Shift(Shifting {
            from: small(from)?,
            to: small(to)?,
        }))?;
        self.put(to, held)?;
        self.forget(from);
        Ok(())
    }

    /// The register that holds this, or how many there are.
    fn register_of(&self, wanted: Register) -> usize {
        for k in 0..self.registers.len() {
            if let Some(held) = self.registers[k] {
                if is_same(held, wanted) {
                    return k;
                }
            }
        }
        self.registers.len()
    }

    /// A register that holds nothing: this, or else the first, or else a new one.
    fn free_for(&self, wanted: usize) -> usize {
        if wanted == self.registers.len() {
            return wanted;
        }
        if wanted < self.registers.len() && self.registers[wanted].is_none() {
            return wanted;
        }
        for k in 0..self.registers.len() {
            if self.registers[k].is_none() {
                return k;
            }
        }
        self.registers.len()
    }

    /// What a register holds.
    fn held_at(&self, register: usize) -> Option<Register> {
        if register < self.registers.len() {
            self.registers[register]
        } else {
            None
        }
    }

    /// A register, or a new one, holds this.
    fn put(&mut self, register: usize, held: Register) -> Result<(), OutOfMemory> {
        if register < self.registers.len() {
            self.registers[register] = Some(held);
            return Ok(());
        }
        self.registers.push(Some(held))?;
        Ok(())
    }

    /// A register holds nothing more.
    fn forget(&mut self, register: usize) {
        if register < self.registers.len() {
            self.registers[register] = None;
        }
    }
}

/// The place that is to hold this, or how many there are.
fn place_in(held: &[Register], wanted: Register) -> usize {
    for k in 0..held.len() {
        if is_same(held[k], wanted) {
            return k;
        }
    }
    held.len()
}
