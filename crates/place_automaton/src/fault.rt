//! Why the automaton of an atom is not made.
ghost use Rattle.std.specs.Prelude.{◌≡◌};
ghost use Rattle.marked_automaton.specs.declared.fault.SizeFault.TheVariants.{OutOfMemory};
ghost use Rattle.place_automaton.specs.declared.fault.AtomFault.TheVariants.{Size};

use crate::MOST_ENDS;
use marked_automaton::SizeFault;
use span_core::OutOfMemory;
use thiserror::Error;

/// The automaton of an atom would be too large, or there is no memory for it.
#[derive(Clone, Copy, Debug, PartialEq, Eq, Error)]
pub enum AtomFault {
    /// Its states or ways are too many, or memory is wanting.
    #[error("{0}")]
    Size(SizeFault),
    /// It has more than `MOST_ENDS` ends: at least so many.
    #[error("{count} ends, more than {most}", most = MOST_ENDS)]
    Ends { count: u64 },
}

impl From<SizeFault> for AtomFault {
    ghost from_gives = { λ fault e. e ≡ Size fault };

    fn from(fault: SizeFault) -> AtomFault {
        AtomFault::Size(fault)
    }
}

impl From<OutOfMemory> for AtomFault {
    ghost from_gives = { λ _ e. e ≡ Size OutOfMemory };

    fn from(_error: OutOfMemory) -> AtomFault {
        AtomFault::Size(SizeFault::OutOfMemory)
    }
}
