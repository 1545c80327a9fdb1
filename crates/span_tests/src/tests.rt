//! Lists of tests.
ghost use Rattle.std.specs.Prelude.{◌≡◌, ◌<◌, ◌≤◌, ◌^◌, ◌+◌, ◌↔◌, [], ◌∷◌, ◌++◌, length, IfSome, IfNone, OnOk, OnErr, IsErrOf};
ghost use Rattle.span_tests.specs.Judged.{AnswersExactly};
ghost use Rattle.span_tests.specs.Listed.{IsFirstNamed, IsNamed, number_at, number_named};

use crate::Judge;
use crate::test::Test;
use span_core::{Name, Steps};
use std::alloc::Global;
use std::marker::Model;
use std::sync::ledger::Ledger;

/// Why a test was not added.
#[derive(Clone, Copy, Debug, PartialEq, Eq)]
pub enum AddFault {
    /// A test of this name is there.
    Taken,
    /// The allocator gave no memory.
    OutOfMemory,
}

/// Tests of different names, seen as the list of their names and numbers.
#[derive(Drop)]
pub struct Tests<J: Judge> {
    tests: Vec<Test<J>>,
}

impl<J: Judge> Model for Tests<J> {
    ghost use Rattle.std.specs.Prelude.{List, ℕ};

    ghost Value = { List (List ℕ × ℕ) };

    ghost view = { λ t. t.tests.items };
}

impl<J: Judge> Tests<J> {
    /// The list of no test. It takes no memory.
    pub fn new(alloc: Global) -> Tests<J>
        ensures { result ≡ [] }
    {
        Tests {
            tests: Vec::new(alloc),
        }
    }

    /// Adds a test behind the others. Taken exactly where its name is there; after a refusal the
    /// list is as it was, and the code is dropped.
    pub fn add(&mut self, name: Name, number: u32, call: J::Call) -> Result<(), AddFault>
        requires { AnswersExactly (J.Call.answers call) (J.judges number) }
        ensures added { OnOk result (self.new ≡ self.old ++ (name, number) ∷ []) }
        ensures kept { OnErr result (self.new ≡ self.old) }
        ensures taken { IsErrOf result AddFault.Taken ↔ IsNamed self.old name }
    {
        if self.find(&name).is_some() {
            return Err(AddFault::Taken);
        }
        match self.tests.push(Test::new(name, number, call)) {
            Ok(()) => Ok(()),
            Err(_) => Err(AddFault::OutOfMemory),
        }
    }

    /// The place of the first test with this name, counted from 0. None exactly where there is none.
    pub fn find(&self, name: &Name) -> Option<usize>
        ensures some { IfSome result (IsFirstNamed self.now name.now) }
        ensures number { IfSome result (λ k. number_at self.now k ≡ number_named self.now name.now) }
        ensures within { IfSome result (λ k. k < length self.now) }
        ensures none { IfNone result (¬ IsNamed self.now name.now) }
    {
        let mut k = 0;
        while k < self.tests.len() {
            if self.tests[k].is_named(name) {
                return Some(k);
            }
            k += 1;
        }
        None
    }

    /// Whether the relation of test `k`, counted from 0, holds of the bytes. It counts one step.
    pub fn holds<L: Ledger>(&self, k: usize, bytes: &[u8], steps: &mut Steps<L>) -> bool
        requires place { k < length self.now }
        requires few { length bytes.now ≤ 2 ^ 28 }
        ensures value { result ≡ J.judges (number_at self.now k) bytes.now }
        ensures steps { steps.new ≡ steps.old + 1 }
    {
        steps.tick();
        self.tests[k].holds(bytes)
    }
}
