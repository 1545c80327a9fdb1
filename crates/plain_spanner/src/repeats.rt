//! Ends that repetitions reach.
ghost use Rattle.std.specs.Prelude.{◌≡◌, true, ◌⊎◌, ℕ, ◌+◌, ◌≤◌, List, [], ◌++◌, length, drop, OnOk};
ghost use Rattle.std.specs.Option.{ForSome};
ghost use Rattle.std.specs.Ordering.{nat_cmp};
ghost use Rattle.std.specs.BTreeSet.{contains};
ghost use Rattle.span_core.specs.Lists.{Has, IsPrefixOf};
ghost use Rattle.plain_spanner.specs.Listed.{Tells, has_number};

use span_core::OutOfMemory;
use std::alloc::Global;
use std::collections::BTreeSet;

/// Ends in the order in which they were reached, each once.
#[derive(Drop)]
pub struct Reached {
    ends: Vec<usize>,
    known: BTreeSet<usize>,
    ghost listed: { (j : ℕ) → contains nat_cmp known j ≡ true → has_number ends.items j ≡ true },
}

impl Reached {
    /// No end.
    pub fn new(alloc: Global) -> Reached
        ensures { result.ends.items ≡ [] }
    {
        Reached {
            ends: Vec::new(alloc),
            known: BTreeSet::new(alloc),
        }
    }

    /// How many ends were reached so far.
    pub fn len(&self) -> usize
        ensures { result ≡ length self.now.ends.items }
    {
        self.ends.len()
    }

    /// The ends that were reached after the first `done`.
    pub fn after(&self, done: usize) -> &[usize]
        requires { done ≤ length self.now.ends.items }
        ensures { result.now ≡ drop done self.now.ends.items }
    {
        &self.ends[done..]
    }

    /// All ends that were reached, in the order in which they were.
    pub fn into_ends(self) -> Vec<usize>
        ensures { result.items ≡ self.ends.items }
    {
        self.ends
    }

    /// Adds those of the ends that are new.
    pub fn add_all(&mut self, ends: &[usize]) -> Result<(), OutOfMemory>
        ensures all { OnOk result (Tells (Has self.new.ends.items) (λ j. Has self.old.ends.items j ⊎ Has ends.now j)) }
        ensures grown { OnOk result (IsPrefixOf self.old.ends.items self.new.ends.items) }
    {
        for end in ends {
            self.add(*end)?;
        }
        Ok(())
    }

    fn add(&mut self, end: usize) -> Result<(), OutOfMemory>
        ensures all { OnOk result (Tells (Has self.new.ends.items) (λ j. Has self.old.ends.items j ⊎ (end ≡ j))) }
        ensures grown { OnOk result (IsPrefixOf self.old.ends.items self.new.ends.items) }
    {
        if !self.known.contains(&end) {
            self.ends.push(end)?;
            self.known.insert(end)?;
        }
        Ok(())
    }
}

/// How many repetitions more than the least can lead to a further end in a document of `len` bytes.
pub fn rounds(least: u16, most: Option<u16>, len: usize) -> usize
    requires { ForSome most (λ b. least ≤ b) }
    ensures capped { ForSome most (λ b. least + result ≤ b) }
    ensures enough { (c : ℕ) → c ≤ len → ForSome most (λ b. least + c ≤ b) → c ≤ result }
{
    match most {
        None => len,
        Some(most) => len.min((most - least) as usize),
    }
}
