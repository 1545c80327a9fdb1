//! Why an automaton is not made.
ghost use Rattle.std.specs.Prelude.{◌≡◌};
ghost use Rattle.marked_automaton.specs.declared.fault.SizeFault.TheVariants.{OutOfMemory};

use crate::{MOST_STATES, MOST_WAYS};
use span_core::OutOfMemory;
use std::alloc::{AllocError, AllocFailed};
use thiserror::Error;

/// An automaton would be too large, or there is no memory for it.
#[derive(Clone, Copy, Debug, PartialEq, Eq, Error)]
pub enum SizeFault {
    /// More than `MOST_STATES` states: so many.
    #[error("{count} states, more than {most}", most = MOST_STATES)]
    States { count: u64 },
    /// More than `MOST_WAYS` ways: so many.
    #[error("{count} ways, more than {most}", most = MOST_WAYS)]
    Ways { count: u64 },
    /// Want of memory.
    #[error("out of memory")]
    OutOfMemory,
}

impl From<OutOfMemory> for SizeFault {
    ghost from_gives = { λ _ e. e ≡ OutOfMemory };

    fn from(_error: OutOfMemory) -> SizeFault {
        SizeFault::OutOfMemory
    }
}

impl From<AllocError> for SizeFault {
    ghost from_gives = { λ _ e. e ≡ OutOfMemory };

    fn from(_error: AllocError) -> SizeFault {
        SizeFault::OutOfMemory
    }
}

impl<T: Drop> From<AllocFailed<T>> for SizeFault {
    ghost from_gives = { λ _ e. e ≡ OutOfMemory };

    fn from(_error: AllocFailed<T>) -> SizeFault {
        SizeFault::OutOfMemory
    }
}
