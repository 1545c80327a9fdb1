//! The end of a run of bytes of one set, the next place from which bytes keep to several sets in turn, and the next place at
//! which a text ends.
//!
//! Most runs are short: those of a set that was not asked for before are gone through byte by byte at first. Behind
//! that the set is prepared: the bytes that end its runs are worked out, which are searched for where they are at most
//! three (memchr), and a table of all bytes, through which eight are looked at in one turn. That is done once for a
//! set, and anew only for a long run of another, so that a pass that asks for one set again and again searches at once.
#![tactic(auto)]

pub use chain::Chain;
pub use inner::InnerText;
pub use skipper::Skipper;

mod chain;
mod inner;
mod skipper;
