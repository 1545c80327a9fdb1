//! Why a check fails.

use crate::words::Block;
use marked_automaton::SizeFault;
use query_parser::QueryFault;
use set_table::TableFault;
use span_core::OutOfMemory;
use std::alloc::{AllocError, AllocFailed};

/// The first thing that is not as it must be.
#[derive(Debug, Drop)]
pub(crate) enum Fault {
    /// A text of a table is no query.
    Text(QueryFault),
    /// A query of a table has no automaton.
    Size(SizeFault),
    /// A document's reading weighs too much.
    Table {
        weight: u64,
    },
    /// The words of a reading at the positions whose bits are set are not those of the definition.
    Words {
        document: Vec<u8>,
        positions: u32,
        read: Vec<Vec<Block>>,
        defined: Vec<Vec<Block>>,
    },
    /// The words of a document that is read in two pieces, cut there, are not those of the whole.
    Pieces {
        document: Vec<u8>,
        cut: usize,
        read: Vec<Vec<Block>>,
        whole: Vec<Vec<Block>>,
    },
    /// A walk through the rows did not end where it must.
    TooManyRows,
    /// There is not enough memory.
    OutOfMemory,
}

impl From<QueryFault> for Fault {
    fn from(fault: QueryFault) -> Fault {
        match fault {
            QueryFault::OutOfMemory => Fault::OutOfMemory,
            other => Fault::Text(other),
        }
    }
}

impl From<SizeFault> for Fault {
    fn from(fault: SizeFault) -> Fault {
        match fault {
            SizeFault::OutOfMemory => Fault::OutOfMemory,
            other => Fault::Size(other),
        }
    }
}

impl From<TableFault> for Fault {
    fn from(fault: TableFault) -> Fault {
        match fault {
            TableFault::OutOfMemory => Fault::OutOfMemory,
            TableFault::Full { weight } => Fault::Table { weight },
        }
    }
}

impl From<OutOfMemory> for Fault {
    fn from(_error: OutOfMemory) -> Fault {
        Fault::OutOfMemory
    }
}

impl From<AllocError> for Fault {
    fn from(_error: AllocError) -> Fault {
        Fault::OutOfMemory
    }
}

impl<T: Drop> From<AllocFailed<T>> for Fault {
    fn from(_error: AllocFailed<T>) -> Fault {
        Fault::OutOfMemory
    }
}
