//! Formulas and queries with their tests, and what they mean.
#![tactic(auto)]

ghost use Rattle.std.specs.Prelude.{◌≡◌};
ghost use Rattle.spanner_model.specs.declared.TheConstants.{MOST_REPEATS, MOST_NESTED_FORMULAS, MOST_NESTED_EXPRESSIONS};

pub use expression::{Expr, Exprs};
pub use formula::{Atom, Formula, Parts};
pub use gathering::{gather, variables};
pub use query::{Lets, Query};
pub use tested::{Asked, Asks, Tested};

pub mod examples;
mod expression;
mod formula;
mod gathering;
pub mod laws;
mod lists;
mod query;
mod tested;

/// The largest number of a repetition.
pub const MOST_REPEATS: u16 = 1_000;

/// The most formulas that may stand inside each other, the outermost among them.
pub const MOST_NESTED_FORMULAS: usize = 500;

/// The most unions, differences, joins and projections that may stand inside each other in one expression.
pub const MOST_NESTED_EXPRESSIONS: usize = 600;

/// The limits, as numbers: a law.
pub fn limits()
    ensures repeats { MOST_REPEATS ≡ 1000 }
    ensures nested_formulas { MOST_NESTED_FORMULAS ≡ 500 }
    ensures nested_expressions { MOST_NESTED_EXPRESSIONS ≡ 600 }
{}
