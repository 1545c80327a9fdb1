//! Lists of numbers, each with a number of its own.
ghost use Rattle.std.specs.Prelude.{◌≡◌, ℕ, ◌+◌, ◌<◌, ◌≤◌, ◌++◌, List, [], length, take, slice_get, Some, OnOk, OnErr, IfOk};
ghost use Rattle.span_core.specs.Lists.{AreDistinct};
ghost use Rattle.numbered_lists.specs.Numbered.{set_at, with_set};

use indexmap::IndexSet;
use span_core::OutOfMemory;
use std::alloc::Global;
use std::marker::Model;

/// Lists of numbers, as of the states of a set or the sets of a layer, no two of them the same, each with its number:
/// that of its place.
#[derive(Drop)]
pub struct NumberedLists {
    index: IndexSet<Vec<u32>>,
}

impl Model for NumberedLists {
    ghost use Rattle.std.specs.Prelude.{ℕ, List};
    ghost use Rattle.numbered_lists.specs.Numbered.{lists};

    ghost Value = { List (List ℕ) };

    ghost view = { λ s. lists s.index.keys };
}

impl NumberedLists {
    /// No list.
    pub fn new(alloc: Global) -> NumberedLists
        ensures { result ≡ [] }
    {
        NumberedLists {
            index: IndexSet::new(alloc),
        }
    }

    /// How many there are.
    pub fn len(&self) -> usize
        ensures value { result ≡ length self.now }
        ensures apart { AreDistinct self.now }
    {
        self.index.as_slice().len()
    }

    /// The list of a number.
    pub fn at(&self, number: usize) -> &[u32]
        requires { number < length self.now }
        ensures { result.now ≡ set_at self.now number }
    {
        self.index.as_slice()[number].as_slice()
    }

    /// The number of a list, which comes last if it is new. On refusal nothing has changed.
    pub fn number_of(&mut self, set: Vec<u32>) -> Result<usize, OutOfMemory>
        ensures sets { OnOk result (self.new ≡ with_set self.old set.items) }
        ensures number { IfOk result (λ k. slice_get self.new k ≡ Some set.items) }
        ensures err { OnErr result (self.new ≡ self.old) }
    {
        let (number, _) = self.index.insert_full(set)?;
        Ok(number)
    }

    /// Keeps the first lists alone, so many as it says.
    pub fn truncate(&mut self, count: usize)
        ensures { self.new ≡ take count self.old }
    {
        self.index.truncate(count);
    }
}
