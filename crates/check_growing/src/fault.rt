//! Why a case fails.

use growing_document::GrowFault;
use marked_automaton::SizeFault;
use query_parser::QueryFault;
use spanner_engine::BeginFault;
use std::alloc::AllocError;
use std::io;
use thiserror::Error;

/// The first thing that is not as it must be.
#[derive(Clone, Copy, Debug, Error)]
pub(crate) enum Fault {
    #[error("no query: {0:?}")]
    Text(QueryFault),
    #[error("no automaton: {0:?}")]
    Size(SizeFault),
    #[error("{0:?}")]
    Grow(GrowFault),
    #[error("{0:?}")]
    Begin(BeginFault),
    #[error("row {at} of pieces of {bytes} bytes is not that of the whole")]
    Row { bytes: usize, at: u64 },
    #[error("pieces of {bytes} bytes are not kept")]
    Kept { bytes: usize },
    #[error("a document is longer than it may be")]
    TooLong,
    #[error("a group has no row")]
    NoRow,
    #[error("out of memory")]
    OutOfMemory,
    #[error("a line cannot be printed")]
    NotPrinted,
}

impl From<QueryFault> for Fault {
    fn from(fault: QueryFault) -> Fault {
        Fault::Text(fault)
    }
}

impl From<SizeFault> for Fault {
    fn from(fault: SizeFault) -> Fault {
        Fault::Size(fault)
    }
}

impl From<GrowFault> for Fault {
    fn from(fault: GrowFault) -> Fault {
        Fault::Grow(fault)
    }
}

impl From<BeginFault> for Fault {
    fn from(fault: BeginFault) -> Fault {
        Fault::Begin(fault)
    }
}

impl From<AllocError> for Fault {
    fn from(_error: AllocError) -> Fault {
        Fault::OutOfMemory
    }
}

impl From<io::Error> for Fault {
    fn from(_error: io::Error) -> Fault {
        Fault::NotPrinted
    }
}
