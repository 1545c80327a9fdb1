//! Expressions over atoms.
ghost use Rattle.std.specs.Prelude.{◌≡◌, ◌<◌, ◌++◌, [], ◌∷◌, length, is_ok, if◌then◌else◌, IfErr, OnOk, Some, slice_get};
ghost use Rattle.spanner_model.specs.ExprView.{expr_of, exprs_of};

use crate::formula::Atom;
use crate::lists::push_or_give_back;
use span_core::{OutOfMemory, VarSet};
use std::alloc::Global;

/// An expression over atoms: the closure of regex formulas under union, natural join and projection, and
/// difference (Fagin, Kimelfeld, Reiss and Vansummeren, "Document Spanners", JACM 62(2), 2015).
///
/// `Named` holds the number of one of the query's `let`s, counted from 0. `Project` holds the variables
/// that are kept.
#[derive(Drop)]
#[cycle(expr)]
pub enum Expr {
    Atom(Atom),
    Named(u32),
    Union(Exprs),
    Join(Exprs),
    Project(VarSet, Box<Expr>),
    Minus(Box<Expr>, Box<Expr>),
}

/// The parts of a union or of a join, in order.
#[derive(Drop)]
#[cycle(expr)]
pub struct Exprs {
    list: Vec<Expr>,
}

impl Exprs {
    /// No parts. Takes no memory.
    pub fn new(alloc: Global) -> Exprs
        ensures { exprs_of result ≡ [] }
    {
        Exprs {
            list: Vec::new(alloc),
        }
    }

    /// Adds a part at the end. Where there is no memory for it, hands it back.
    pub fn push(&mut self, part: Expr) -> Result<(), (Expr, OutOfMemory)>
        ensures parts { exprs_of self.new
            ≡ (if is_ok result then exprs_of self.old ++ expr_of part ∷ [] else exprs_of self.old) }
        ensures back { IfErr result (λ e. e.0 ≡ part) }
    {
        push_or_give_back(&mut self.list, part)
    }

    /// Adds a part at the end.
    pub fn add(&mut self, part: Expr) -> Result<(), OutOfMemory>
        ensures { OnOk result (exprs_of self.new ≡ exprs_of self.old ++ expr_of part ∷ []) }
    {
        match self.push(part) {
            Ok(()) => Ok(()),
            Err((_, refused)) => Err(refused),
        }
    }

    /// How many expressions stand in the list.
    pub fn len(&self) -> usize
        ensures { result ≡ length (exprs_of self.now) }
    {
        self.list.len()
    }

    /// Part `k`, counted from 0.
    pub fn at(&self, k: usize) -> &Expr
        requires { k < length (exprs_of self.now) }
        ensures { slice_get (exprs_of self.now) k ≡ Some (expr_of result.now) }
    {
        &self.list[k]
    }
}
