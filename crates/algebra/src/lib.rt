//! Union, projection and join of automata.
#![tactic(auto)]

pub use assembly::add_starts;
pub use effort::Effort;
pub use fault::JoinFault;
pub use joining::grouped;
pub use operations::{join, join_with_cause, join_within, project, union, unite};

mod assembly;
mod effort;
mod fault;
mod halves;
mod joining;
pub mod laws;
mod moved;
mod operations;
mod pairs;
mod renaming;
mod rows;
mod uniting;

/// The most ends of a join that is made, some 130 MB. Two automata have no more than the product of their numbers of
/// ends.
pub const MOST_ENDS: u64 = 8_000_000;
