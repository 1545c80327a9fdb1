//! Which positions of a document an atom touches.
//!
//! A position is touched exactly where a place, or Before, can be reached from the document's start and leads on to
//! its end with no further wait. So the document is read from both sides by sets of states, without markers, and a
//! position is touched where the two sets meet.
#![tactic(auto)]

pub use fault::FilterFault;
pub use touching::touched;

mod comparing;
mod dense;
mod fault;
pub mod laws;
mod numbers;
mod reading;
mod readings;
mod sharing;
mod targets;
mod told;
mod touching;
