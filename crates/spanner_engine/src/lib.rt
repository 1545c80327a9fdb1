//! The answers of a query on a document, one by one.
//!
//! The document is read whole before the first answer comes; then each takes a number of steps that does not depend
//! on the document. What is refused is refused before: by weight, which the query and the document determine.
#![tactic(auto)]

pub use answers::Answers;
pub use beginning::{BeginFault, Options, begin, begin_by, begin_with};
pub use cache::Cache;
pub use coming::{Going, Stage, read_on};
pub use enumerator::{EndRun, MOST_ENDS};
pub use query_automaton::{Compiled, compile};
pub use rows::TestedRows;
pub use tested::{advance_tested, next_tested};

mod answers;
mod beginning;
mod cache;
mod coming;
mod differences;
pub mod laws;
mod place;
mod positions;
mod rows;
mod tested;
