//! Automata that are used in more than one place.
//!
//! A counted pointer that is seen as the automaton itself, so that no definition above speaks of owners. It is taken
//! out where it has one owner, and copied only where it has more.
ghost use Rattle.std.specs.Prelude.{◌≡◌, ◌≤◌, IfOk};
ghost use Rattle.marked_automaton.specs.Automaton.{IsMarked, size};

use crate::effort::size_of;
use marked_automaton::Automaton;
use span_core::OutOfMemory;
use std::alloc::Global;
use std::marker::Model;
use std::rc::Rc;

/// An automaton with one owner or more, let go with the last. It is seen as the automaton.
#[derive(Drop)]
pub struct Shared {
    automaton: Rc<Automaton, Global>,
}

impl Model for Shared {
    ghost use Rattle.marked_automaton.specs.Automaton.{Marked};

    ghost Value = { Marked };

    ghost use Rattle.marked_automaton.specs.Codes.{marked_code};

    ghost coded = { marked_code };

    ghost view = { λ s. s.automaton.value };
}

impl Shared {
    /// The automaton, with one owner.
    pub fn new(alloc: Global, automaton: Automaton) -> Result<Shared, OutOfMemory>
        ensures { IfOk result (λ s. s ≡ automaton) }
    {
        Ok(Shared {
            automaton: Rc::new(alloc, automaton)?,
        })
    }

    /// One owner more. Nothing is copied.
    pub fn share(&self) -> Result<Shared, OutOfMemory>
        ensures { IfOk result (λ s. s ≡ self.now) }
    {
        Ok(Shared {
            automaton: self.automaton.clone()?,
        })
    }

    /// The automaton, to look at.
    pub fn as_automaton(&self) -> &Automaton
        ensures { result.now ≡ self.now }
    {
        Rc::as_ref(&self.automaton)
    }

    /// How many states, ways and ends it has, if this is its one owner, and else 0.
    pub fn own_size(&self) -> u64
        ensures marked { IsMarked self.now }
        ensures most { result ≤ size self.now.graph }
    {
        let own = size_of(Rc::as_ref(&self.automaton));
        if Rc::strong_count(&self.automaton) > 1 {
            return 0;
        }
        own
    }

    /// The automaton itself where this is its one owner, and else a copy.
    pub fn take(self, alloc: Global) -> Result<Automaton, OutOfMemory>
        ensures { IfOk result (λ a. a ≡ self) }
    {
        match Rc::try_unwrap(self.automaton) {
            Ok(automaton) => Ok(automaton),
            Err(shared) => shared.copy(alloc),
        }
    }
}
