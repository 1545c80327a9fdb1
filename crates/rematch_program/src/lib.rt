//! A run of the program, over any shelf and any sinks.
//!
//! `run` goes from the words after the program's name to the status with which the program ends. Its
//! one contract is the relation `Run`: what is fetched, what is written, and which status with which
//! note comes when, in terms of what a query means and never of how it is evaluated.
#![tactic(auto)]

ghost use Rattle.std.specs.Prelude.{◌≡◌};
ghost use Rattle.rematch_program.specs.declared.TheConstants.{DOCUMENT_LIMIT, QUERY_LIMIT};

pub use laws::{completeness_follows, names_are_fetched_once, pages_resume, worked_examples};
pub use top::{run, run_tested};
pub use untested::NoJudge;

mod explanation;
mod gather;
mod laws;
mod lines;
mod page;
mod page_writer;
mod remaining;
mod summary;
#[cfg(test)]
mod tests;
mod top;
mod untested;

/// The most bytes of a query's text.
pub const QUERY_LIMIT: u64 = 65_536;

/// The most bytes of a document.
pub const DOCUMENT_LIMIT: u64 = 268_435_456;

/// The limits, as numbers: a law.
pub fn limits()
    ensures query { QUERY_LIMIT ≡ 65536 }
    ensures document { DOCUMENT_LIMIT ≡ 268435456 }
{}
