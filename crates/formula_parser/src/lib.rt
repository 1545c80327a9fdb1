//! The text of an atom and its tree.
//!
//! A reader goes over the text once, a token a turn, with the open groups on a stack of its own: the limit on open
//! groups is then an index, and nothing recurses. Each turn is one equation on a step function of `specs/`, which
//! joins the grammar to the code.
#![tactic(auto)]

ghost use Rattle.std.specs.Prelude.{◌≡◌};
ghost use Rattle.formula_parser.specs.declared.TheConstants.{MOST_OPEN};

pub use fault::FormulaFault;
pub use laws::{
    each_text_has_a_tree_or_a_fault, no_text_has_a_tree_and_a_fault, no_text_has_two_faults,
    no_text_has_two_trees, texts_without_the_sign_stay,
};
pub use reader::read_atom;

mod alphabet;
mod char_class;
mod characters;
mod class;
mod fault;
mod laws;
mod nest;
mod reader;
mod sign;
mod tokens;

/// The most groups and captures that may be open at once.
pub const MOST_OPEN: usize = 100;

/// The limits, as numbers: a law.
pub fn limits()
    ensures { MOST_OPEN ≡ 100 }
{}
