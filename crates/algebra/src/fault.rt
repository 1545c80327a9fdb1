//! Why a join is not made.
ghost use Rattle.std.specs.Prelude.{◌≡◌};
ghost use Rattle.marked_automaton.specs.declared.fault.SizeFault.TheVariants.{OutOfMemory};
ghost use Rattle.algebra.specs.declared.fault.JoinFault.TheVariants.{Size};

use crate::MOST_ENDS;
use marked_automaton::SizeFault;
use span_core::OutOfMemory;
use thiserror::Error;

/// The automaton of a join would be too large, it takes too many steps, or there is no memory for it.
#[derive(Clone, Copy, Debug, PartialEq, Eq, Error)]
pub enum JoinFault {
    /// Its states or ways are too many, or memory is wanting.
    #[error("{0}")]
    Size(SizeFault),
    /// It has more than `MOST_ENDS` ends: at least so many.
    #[error("{count} ends, more than {most}", most = MOST_ENDS)]
    Ends { count: u64 },
    /// No step of the effort is left.
    #[error("no step is left")]
    Spent,
}

impl From<SizeFault> for JoinFault {
    ghost from_gives = { λ fault e. e ≡ Size fault };

    fn from(fault: SizeFault) -> JoinFault {
        JoinFault::Size(fault)
    }
}

impl From<OutOfMemory> for JoinFault {
    ghost from_gives = { λ _ e. e ≡ Size OutOfMemory };

    fn from(_error: OutOfMemory) -> JoinFault {
        JoinFault::Size(SizeFault::OutOfMemory)
    }
}
