//! Why a check fails.

use crate::pairs::Operation;
use crate::states::Settled;
use marked_automaton::SizeFault;
use query_parser::QueryFault;
use segment_filter::FilterFault;
use span_core::{OutOfMemory, Row};
use std::alloc::{AllocError, AllocFailed};

/// The first thing that is not as it must be.
#[derive(Debug, Drop)]
pub(crate) enum Fault {
    /// A text of a table is no query.
    Text(QueryFault),
    /// A query of a table has no automaton.
    Size(SizeFault),
    /// The filter of an atom weighs too much.
    Table {
        weight: u64,
    },
    /// A query of a table is no atom.
    NoAtom,
    /// The automaton accepts the row's word on this document and the row is no answer, or it is one and
    /// the word is not accepted.
    Row {
        document: Vec<u8>,
        row: Row,
        accepted: bool,
    },
    /// Not as many rows are accepted on this document as there are answers.
    Number {
        document: Vec<u8>,
        accepted: usize,
        answers: usize,
    },
    /// What is made of two automata accepts this document where it must not, or does not where it must.
    Made {
        operation: Operation,
        document: Vec<u8>,
    },
    /// An atom touches these parts, and not those of the table.
    Touched {
        parts: Vec<(u32, u32)>,
    },
    /// So many states are spent and lasting, and not as many as in the table.
    Settled(Settled),
    /// There is not enough memory.
    OutOfMemory,
}

impl From<QueryFault> for Fault {
    fn from(fault: QueryFault) -> Fault {
        match fault {
            QueryFault::OutOfMemory => Fault::OutOfMemory,
            other => Fault::Text(other),
        }
    }
}

impl From<SizeFault> for Fault {
    fn from(fault: SizeFault) -> Fault {
        match fault {
            SizeFault::OutOfMemory => Fault::OutOfMemory,
            other => Fault::Size(other),
        }
    }
}

impl From<FilterFault> for Fault {
    fn from(fault: FilterFault) -> Fault {
        match fault {
            FilterFault::OutOfMemory => Fault::OutOfMemory,
            FilterFault::Full { weight } => Fault::Table { weight },
        }
    }
}

impl From<OutOfMemory> for Fault {
    fn from(_error: OutOfMemory) -> Fault {
        Fault::OutOfMemory
    }
}

impl From<AllocError> for Fault {
    fn from(_error: AllocError) -> Fault {
        Fault::OutOfMemory
    }
}

impl<T: Drop> From<AllocFailed<T>> for Fault {
    fn from(_error: AllocFailed<T>) -> Fault {
        Fault::OutOfMemory
    }
}
