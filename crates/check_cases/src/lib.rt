//! The queries and the short documents that the programs `check_automata` and `check_readings` go through, and how such a program ends.
#![tactic(auto)]

pub use documents::{document_of, number_of_documents};
pub use ending::Ending;
pub use texts::{GROUPS, Group, LARGE, PAIRS, Pair};

mod documents;
mod ending;
mod texts;

/// The most bytes of a document that is tried.
pub const MOST_BYTES: u32 = 3;
