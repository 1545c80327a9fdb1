//! A document that grows, followed: what is new with each piece.
//!
//! Where a piece ends, the words of the sets that have an end without marks are given, and their sources are given up. So each word is
//! given once, and nothing is kept of it.
#![tactic(auto)]

pub mod laws;
