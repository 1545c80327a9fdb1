//! Formulas.
ghost use Rattle.std.specs.Prelude.{◌≡◌, ◌<◌, ◌++◌, [], ◌∷◌, length, is_ok, if◌then◌else◌, IfErr, OnOk, Some, slice_get};
ghost use Rattle.spanner_model.specs.View.{tree_of, trees_of};

use crate::lists::push_or_give_back;
use span_core::{ByteSet, Name, OutOfMemory};
use std::alloc::Global;

/// A regex formula: a regular expression with captures (Fagin, Kimelfeld, Reiss and Vansummeren,
/// "Document Spanners", JACM 62(2), 2015).
///
/// `Rep` holds the least number of times and, where there is one, the greatest.
#[derive(Drop)]
#[cycle(formula)]
pub enum Formula {
    Empty,
    One(ByteSet),
    Cat(Parts),
    Alt(Parts),
    Rep(Box<Formula>, u16, Option<u16>),
    Cap(Name, Box<Formula>),
}

/// The parts of a concatenation, or the arms of an alternation, in order.
#[derive(Drop)]
#[cycle(formula)]
pub struct Parts {
    list: Vec<Formula>,
}

impl Parts {
    /// No parts. Takes no memory.
    pub fn new(alloc: Global) -> Parts
        ensures { trees_of result ≡ [] }
    {
        Parts {
            list: Vec::new(alloc),
        }
    }

    /// Adds a part at the end. Where there is no memory for it, hands it back.
    pub fn push(&mut self, part: Formula) -> Result<(), (Formula, OutOfMemory)>
        ensures parts { trees_of self.new
            ≡ (if is_ok result then trees_of self.old ++ tree_of part ∷ [] else trees_of self.old) }
        ensures back { IfErr result (λ e. e.0 ≡ part) }
    {
        push_or_give_back(&mut self.list, part)
    }

    /// Adds a part at the end.
    pub fn add(&mut self, part: Formula) -> Result<(), OutOfMemory>
        ensures { OnOk result (trees_of self.new ≡ trees_of self.old ++ tree_of part ∷ []) }
    {
        match self.push(part) {
            Ok(()) => Ok(()),
            Err((_, refused)) => Err(refused),
        }
    }

    /// How many formulas stand in the list.
    pub fn len(&self) -> usize
        ensures { result ≡ length (trees_of self.now) }
    {
        self.list.len()
    }

    /// Part `k`, counted from 0.
    pub fn at(&self, k: usize) -> &Formula
        requires { k < length (trees_of self.now) }
        ensures { slice_get (trees_of self.now) k ≡ Some (tree_of result.now) }
    {
        &self.list[k]
    }
}

/// A formula between slashes, and whether what fits it must begin where the document does, and end
/// where the document does.
#[derive(Drop)]
pub struct Atom {
    pub from_start: bool,
    pub to_end: bool,
    pub formula: Formula,
}
