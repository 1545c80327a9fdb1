//! What a cursor keeps.

use crate::Row;

/// The row after which a page begins, and the length in bytes of the document of which it is a row, where that is known.
#[derive(Debug, Drop)]
pub struct Kept {
    /// The row, which need not be an answer.
    pub row: Row,
    /// The document's length.
    pub length: Option<u32>,
}
