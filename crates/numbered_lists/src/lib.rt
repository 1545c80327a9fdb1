//! Lists of numbers, each with a number of its own.
#![tactic(auto)]

pub use numbering::NumberedLists;

mod numbering;
