//! Queries that are compiled once and asked of many documents, for callers that hold the documents themselves.
//!
//! A `Prepared` owns all that a query needs, and is not changed by what is asked of it. `Rows` own what a document was
//! read to, and lend nothing: neither the query nor the document. They are given many at a time, as numbers in memory
//! of the caller's.
#![tactic(auto)]

pub use prepared::{PrepareFault, Prepared};
pub use rows::Rows;
pub use span_core::Kept;
pub use spanner_engine::{BeginFault, Cache, Options};

mod cells;
#[cfg(test)]
mod first_tests;
mod prepared;
mod rows;

/// What stands in the place of both numbers of an absent span.
pub const ABSENT: u32 = u32::MAX;
