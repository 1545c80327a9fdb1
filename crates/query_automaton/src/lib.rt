//! From a query to its automaton.
//!
//! The tree is gone over once, from the leaves up; what leads to no end is taken away after each atom and each join,
//! and once more at the end. A `let` is compiled once, in its turn, used or not, and shared by all that name it.
#![tactic(auto)]

pub use compiled::{Compiled, compile, compile_with_cause};
pub use fault::CompileFault;

mod compiled;
mod effort;
mod expressions;
mod fault;
pub mod laws;
mod shared;
