//! Why a difference is not made.
ghost use Rattle.std.specs.Prelude.{◌≡◌};
ghost use Rattle.marked_automaton.specs.declared.fault.SizeFault.TheVariants.{OutOfMemory};
ghost use Rattle.algebra_minus.specs.declared.fault.MinusFault.TheVariants.{Size};

use marked_automaton::SizeFault;
use span_core::OutOfMemory;
use thiserror::Error;

/// The automaton of a difference would be too large, it takes too many steps, or there is no memory for it.
#[derive(Clone, Copy, Debug, PartialEq, Eq, Error)]
pub enum MinusFault {
    /// Its states or ways are too many, or memory is wanting.
    #[error("{0}")]
    Size(SizeFault),
    /// No step of the effort is left.
    #[error("no step is left")]
    Spent,
}

impl From<SizeFault> for MinusFault {
    ghost from_gives = { λ fault e. e ≡ Size fault };

    fn from(fault: SizeFault) -> MinusFault {
        MinusFault::Size(fault)
    }
}

impl From<OutOfMemory> for MinusFault {
    ghost from_gives = { λ _ e. e ≡ Size OutOfMemory };

    fn from(_error: OutOfMemory) -> MinusFault {
        MinusFault::Size(SizeFault::OutOfMemory)
    }
}
