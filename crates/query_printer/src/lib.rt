//! The printed forms of formulas, of atoms and of queries.
//!
//! They stand above both readers, since a law says that a printed form is read as what was printed.
#![tactic(auto)]

pub use formulas::{print_atom, print_formula, printed_forms_spell_their_trees};
pub use queries::{print_query, printed_forms_spell_their_queries};
pub use tested::{print_tested, printed_tests_are_read};

mod formulas;
mod queries;
mod tested;
