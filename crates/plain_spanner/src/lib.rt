//! All answers of a query on a document, computed straight from the meaning.
#![tactic(auto)]

pub use answers::all;

mod answers;
mod bare;
mod ends;
mod fits;
mod join;
mod less;
mod order;
mod repeats;
mod rows;
mod table;
mod tables;
mod unite;

/// The most bytes of a document.
pub const MOST_DOCUMENT_BYTES: usize = 268_435_456;
