//! One forward pass over a document: its places are read in order, by a table of the sets of states and a
//! graph of the words that reach them.
//!
//! At each place every set of the layer is looked up and stepped. Where no set changes on a byte, the byte is passed
//! over; in a gap that is not read, each set goes once to its idle members. What a reading costs is said by numbers of
//! the automaton and the document alone.
#![tactic(auto)]

pub use known::{Known, MOST_WORDS};
pub use known_table::{KeptTable, KnownTable, Listed};
pub use listing::read_rows;
pub use pieces::{advance, finish};
pub use reading::read;
pub use readings::{Laid, Reading, Settled};

mod bytes;
mod entries;
mod known;
mod known_steps;
mod known_table;
pub mod laws;
mod listing;
mod parts;
mod pass;
mod pieces;
mod places;
mod reading;
mod readings;
mod search;
mod settled;
mod settling;
mod waiting;
