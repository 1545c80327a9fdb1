//! Why a query is not compiled.
ghost use Rattle.std.specs.Prelude.{◌≡◌};
ghost use Rattle.marked_automaton.specs.declared.fault.SizeFault.TheVariants.{OutOfMemory};
ghost use Rattle.query_automaton.specs.declared.fault.CompileFault.TheVariants.{Size};
ghost use Rattle.query_automaton.specs.Told.{atom_fault_of, compile_fault, minus_fault};

use crate::effort::{MOST_HELD, MOST_STEPS};
use algebra::{JoinFault, MOST_ENDS};
use algebra_minus::MinusFault;
use marked_automaton::SizeFault;
use place_automaton::AtomFault;
use span_core::OutOfMemory;
use std::alloc::AllocFailed;
use thiserror::Error;

/// The automaton of some part of a query would be too large, or there is no memory for it.
#[derive(Clone, Copy, Debug, PartialEq, Eq, Error)]
pub enum CompileFault {
    /// Its states or ways are too many, or memory is wanting.
    #[error("{0}")]
    Size(SizeFault),
    /// More than `MOST_HELD` states, ways and ends would be held at one time: so many.
    #[error("{count} states, ways and ends held, more than {most}", most = MOST_HELD)]
    Held { count: u64 },
    /// The automaton of an atom or of a join would have more ends than are made of one: at least so many.
    #[error("{count} ends, more than {most}", most = MOST_ENDS)]
    Ends { count: u64 },
    /// `MOST_STEPS` steps are taken.
    #[error("more than {most} steps", most = MOST_STEPS)]
    Spent,
}

impl From<SizeFault> for CompileFault {
    ghost from_gives = { λ fault e. e ≡ Size fault };

    fn from(fault: SizeFault) -> CompileFault {
        CompileFault::Size(fault)
    }
}

impl From<OutOfMemory> for CompileFault {
    ghost from_gives = { λ _ e. e ≡ Size OutOfMemory };

    fn from(_error: OutOfMemory) -> CompileFault {
        CompileFault::Size(SizeFault::OutOfMemory)
    }
}

impl<T: Drop> From<AllocFailed<T>> for CompileFault {
    ghost from_gives = { λ _ e. e ≡ Size OutOfMemory };

    fn from(_error: AllocFailed<T>) -> CompileFault {
        CompileFault::Size(SizeFault::OutOfMemory)
    }
}

impl From<JoinFault> for CompileFault {
    ghost from_gives = { λ fault e. e ≡ compile_fault fault };

    fn from(fault: JoinFault) -> CompileFault {
        match fault {
            JoinFault::Size(fault) => CompileFault::Size(fault),
            JoinFault::Ends { count } => CompileFault::Ends { count },
            JoinFault::Spent => CompileFault::Spent,
        }
    }
}

impl From<MinusFault> for CompileFault {
    ghost from_gives = { λ fault e. e ≡ minus_fault fault };

    fn from(fault: MinusFault) -> CompileFault {
        match fault {
            MinusFault::Size(fault) => CompileFault::Size(fault),
            MinusFault::Spent => CompileFault::Spent,
        }
    }
}

impl From<AtomFault> for CompileFault {
    ghost from_gives = { λ fault e. e ≡ atom_fault_of fault };

    fn from(fault: AtomFault) -> CompileFault {
        match fault {
            AtomFault::Size(fault) => CompileFault::Size(fault),
            AtomFault::Ends { count } => CompileFault::Ends { count },
        }
    }
}
