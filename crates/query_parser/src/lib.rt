//! The text of a query and its tree.
//!
//! Tokens do not depend on the grammar, and what may come next is a function of what was read: so each text has one
//! first fault. What the grammar spells is then checked as a tree, where names and variables are known.
#![tactic(auto)]

ghost use Rattle.std.specs.Prelude.{◌≡◌};
ghost use Rattle.query_parser.specs.declared.TheConstants.{MOST_MINUSES, MOST_OPEN, MOST_TEXT_BYTES};

pub use binding::bind;
pub use fault::QueryFault;
pub use laws::{
    each_text_has_a_query_or_a_fault, each_text_is_read_or_refused, each_text_with_tests_is_told,
    no_text_has_a_query_and_a_fault, no_text_has_two_faults, no_text_has_two_faults_of_reading,
    no_text_is_read_and_has_a_fault_of_reading, no_text_spells_two_queries,
    queries_without_tests_are_as_before,
};
pub use reader::read_query;
pub use spanner_model::{Asked, Asks, Tested};
pub use tested::read_tested;

mod binding;
mod check;
mod fault;
mod laws;
mod named;
mod nest;
mod reader;
mod tested;
mod tests_read;
mod tokens;
mod turns;

/// The most bytes that the text of a query may have.
pub const MOST_TEXT_BYTES: usize = 65_536;

/// The most parentheses that may be open at once.
pub const MOST_OPEN: usize = 100;

/// The most signs `minus` that the text of a query may have, those of its lets among them.
pub const MOST_MINUSES: usize = 100;

/// The limits, as numbers: a law.
pub fn limits()
    ensures text_bytes { MOST_TEXT_BYTES ≡ 65536 }
    ensures open { MOST_OPEN ≡ 100 }
    ensures minuses { MOST_MINUSES ≡ 100 }
{}
