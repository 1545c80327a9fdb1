//! Sets of characters, and the formulas that fit their UTF-8 texts.
//!
//! A character is a Unicode scalar value: a number from 0 to 10FFFF that is no surrogate (D800 to
//! DFFF). Its text is its UTF-8 of one to four bytes (RFC 3629). The formula of a set is made of sets
//! of bytes alone, so that automata need nothing new to read characters.
#![tactic(auto)]

pub use char_set::CharSet;

mod arms;
mod blocks;
mod char_set;
pub mod laws;
mod properties;
mod ranges;
