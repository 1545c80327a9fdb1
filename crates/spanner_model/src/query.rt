//! Queries.
ghost use Rattle.std.specs.Prelude.{◌≡◌, ◌<◌, ◌++◌, [], ◌∷◌, length, is_ok, if◌then◌else◌, IfErr, Some, slice_get};
ghost use Rattle.spanner_model.specs.ExprView.{expr_of, lets_of};

use crate::expression::Expr;
use crate::lists::push_or_give_back;
use span_core::{Name, OutOfMemory};
use std::alloc::Global;

/// An expression, and the named expressions of which it and they may speak by number, each of those
/// before it.
#[derive(Drop)]
pub struct Query {
    pub lets: Lets,
    pub body: Expr,
}

/// Named expressions, in order.
#[derive(Drop)]
pub struct Lets {
    list: Vec<(Name, Expr)>,
}

impl Lets {
    /// No named expressions. Takes no memory.
    pub fn new(alloc: Global) -> Lets
        ensures { lets_of result ≡ [] }
    {
        Lets {
            list: Vec::new(alloc),
        }
    }

    /// Adds a named expression at the end. Where there is no memory for it, hands the pair back.
    pub fn push(&mut self, part: (Name, Expr)) -> Result<(), ((Name, Expr), OutOfMemory)>
        ensures lets { lets_of self.new
            ≡ (if is_ok result then lets_of self.old ++ (part.0, expr_of part.1) ∷ [] else lets_of self.old) }
        ensures back { IfErr result (λ e. e.0 ≡ part) }
    {
        push_or_give_back(&mut self.list, part)
    }

    /// How many `let`s there are.
    pub fn len(&self) -> usize
        ensures { result ≡ length (lets_of self.now) }
    {
        self.list.len()
    }

    /// Named expression `k`, counted from 0.
    pub fn at(&self, k: usize) -> &(Name, Expr)
        requires { k < length (lets_of self.now) }
        ensures { slice_get (lets_of self.now) k ≡ Some (result.now.0, expr_of result.now.1) }
    {
        &self.list[k]
    }
}
