//! Programs of layers on bytes, in lists that they share, each with the number of the layer that it leads to.
ghost use Rattle.std.specs.Prelude.{◌≡◌, ◌<◌, ◌++◌, ◌∷◌, [], length, IfOk, OnErr, OnOk};
ghost use Rattle.one_pass.specs.KnownSteps.{known_step_at, known_step_of, programs_of};

use output_graph::{Program, Programs};
use span_core::OutOfMemory;
use std::alloc::Global;
use std::marker::Model;

/// Programs, each with the number of the layer that it leads to.
#[derive(Drop)]
pub(crate) struct KnownSteps {
    programs: Programs,
    numbers: Vec<u32>,
}

impl Model for KnownSteps {
    ghost use Rattle.std.specs.Prelude.{◌≡◌, List, length};
    ghost use Rattle.one_pass.specs.KnownSteps.{KnownStep, known_steps_of};

    ghost Value = { List KnownStep };

    ghost view = { λ s. known_steps_of s.programs s.numbers.items };

    ghost invariant = { λ s. length s.programs ≡ length s.numbers.items };
}

impl KnownSteps {
    /// No steps. Takes no memory.
    pub(crate) fn new(alloc: Global) -> KnownSteps
        ensures { result ≡ [] }
    {
        KnownSteps {
            programs: Programs::new(alloc),
            numbers: Vec::new(alloc),
        }
    }

    /// How many there are.
    pub(crate) fn len(&self) -> usize
        ensures { result ≡ length self.now }
    {
        self.numbers.len()
    }

    /// Adds a program that leads to the layer of this number, the last.
    pub(crate) fn add(&mut self, program: &Program, next: usize) -> Result<(), OutOfMemory>
        ensures added { OnOk result (self.new ≡ self.old ++ known_step_of program.now next ∷ []) }
        ensures refused { OnErr result (self.new ≡ self.old) }
    {
        let Ok(number) = u32::try_from(next) else {
            return Err(OutOfMemory);
        };
        self.numbers.reserve(1)?;
        self.programs.add(program)?;
        self.numbers.push_reserved(number);
        Ok(())
    }

    /// The number of the layer that step `k` leads to.
    #[inline(always)]
    pub(crate) fn next(&self, k: usize) -> usize
        requires { k < length self.now }
        ensures { result ≡ (known_step_at self.now k).next }
    {
        self.numbers[k] as usize
    }

    /// The programs of all steps.
    #[inline(always)]
    pub(crate) fn programs(&self) -> &Programs
        ensures { result.now ≡ programs_of self.now }
    {
        &self.programs
    }
}
