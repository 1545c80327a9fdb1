//! A table that determinises an automaton while a document is read.
//!
//! Only the sets that the document leads to are made, each with a number, and only the edges that were asked for:
//! the subset construction, as far as it is needed. What was answered once is looked up, with no hash.
#![tactic(auto)]

pub use fault::TableFault;
pub use state::TableState;
pub use table::Table;

mod answer;
mod fault;
mod index;
mod lists;
mod naming;
mod parts;
mod reaching;
mod state;
mod staying;
mod store;
mod table;
#[cfg(test)]
mod tests;
mod way_runs;
