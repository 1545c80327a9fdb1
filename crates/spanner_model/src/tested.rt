//! A query with its tests.
ghost use Rattle.std.specs.Prelude.{◌≡◌, ◌<◌, [], ◌∷◌, ◌++◌, length, slice_get, Some, OnOk, OnErr, IfErr};

use crate::Query;
use crate::lists::push_or_give_back;
use span_core::{Name, OutOfMemory};
use std::alloc::Global;
use std::marker::Model;

/// A test that a query asks of each of its rows.
#[derive(Clone, Copy, Debug)]
pub struct Asked {
    /// The name of the test.
    pub test: Name,
    /// The place of that name in the query's text.
    pub at: usize,
    /// The variable of whose span's bytes it is asked.
    pub var: Name,
}

/// The tests of a query, in the order of its text.
#[derive(Drop)]
pub struct Asks {
    list: Vec<Asked>,
}

impl Model for Asks {
    ghost use Rattle.std.specs.Prelude.{List};
    ghost use Rattle.spanner_model.specs.declared.tested.Asked.{Asked};

    ghost Value = { List Asked };

    ghost view = { λ a. a.list.items };
}

impl Asks {
    /// No test. It takes no memory.
    pub fn new(alloc: Global) -> Asks
        ensures { result ≡ [] }
    {
        Asks {
            list: Vec::new(alloc),
        }
    }

    /// Adds a test behind the others, or hands it back.
    pub fn push(&mut self, part: Asked) -> Result<(), (Asked, OutOfMemory)>
        ensures added { OnOk result (self.new ≡ self.old ++ part ∷ []) }
        ensures kept { OnErr result (self.new ≡ self.old) }
        ensures back { IfErr result (λ e. e.0 ≡ part) }
    {
        push_or_give_back(&mut self.list, part)
    }

    /// The number of tests.
    pub fn len(&self) -> usize
        ensures { result ≡ length self.now }
    {
        self.list.len()
    }

    /// The test `k`, counted from 0.
    pub fn at(&self, k: usize) -> &Asked
        requires { k < length self.now }
        ensures { slice_get self.now k ≡ Some result.now }
    {
        &self.list[k]
    }
}

/// A query with its tests.
#[derive(Drop)]
pub struct Tested {
    pub query: Query,
    pub asked: Asks,
}
