//! The lets that are ended, with their numbers by name.
//!
//! A name means the last `let` before it. In the tree a `let` is a number, so that no later step compares names.
ghost use Rattle.std.specs.Prelude.{◌≡◌, [], ◌∷◌, ◌++◌, IfOk};
ghost use Rattle.spanner_model.specs.ExprView.{expr_of, lets_of};
ghost use Rattle.query_parser.specs.Spells.{names_of};
ghost use Rattle.query_parser.specs.Reads.{is_among};
ghost use Rattle.query_parser.specs.Nest.{find};
ghost use Rattle.query_parser.specs.Numbers.{Numbers};

use span_core::{Name, OutOfMemory};
use spanner_model::{Expr, Lets};
use std::alloc::Global;
use std::collections::BTreeMap;

/// Lets in order. Each is found by its name.
#[derive(Drop)]
pub(crate) struct Named {
    pub(crate) lets: Lets,
    numbers: BTreeMap<Name, u32>,
    ghost told: { Numbers numbers (names_of (lets_of lets)) },
}

impl Named {
    pub(crate) fn new(alloc: Global) -> Named
        ensures { lets_of result.lets ≡ [] }
    {
        Named {
            lets: Lets::new(alloc),
            numbers: BTreeMap::new(alloc),
        }
    }

    /// The number of the last let of this name, counted from 0.
    pub(crate) fn find(&self, name: &Name) -> Option<u32>
        ensures { result ≡ find (names_of (lets_of self.now.lets)) name.now }
    {
        self.numbers.get(name).copied()
    }

    /// Whether there is a let of this name.
    #[tactic(auto, using(crate::proofs::MoveLaws::found_among))]
    pub(crate) fn has(&self, name: &Name) -> bool
        ensures { result ≡ is_among (names_of (lets_of self.now.lets)) name.now }
    {
        self.find(name).is_some()
    }

    /// The lets with one more.
    ///
    /// A text has no room for so many lets that their numbers would not fit.
    pub(crate) fn with(self, name: Name, expr: Expr) -> Result<Named, OutOfMemory>
        ensures { IfOk result (λ r. lets_of r.lets ≡ lets_of self.lets ++ (name, expr_of expr) ∷ []) }
    {
        let Named { lets, numbers } = self;
        let mut lets = lets;
        let mut numbers = numbers;
        let Ok(number) = u32::try_from(lets.len()) else {
            return Err(OutOfMemory);
        };
        let Ok(_old) = numbers.insert(name, number) else {
            return Err(OutOfMemory);
        };
        let Ok(()) = lets.push((name, expr)) else {
            return Err(OutOfMemory);
        };
        Ok(Named { lets, numbers })
    }
}
