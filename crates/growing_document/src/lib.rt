//! Documents that grow at their end.
//!
//! Reading goes on where it stopped: what is kept between two pieces is the table of the sets that were reached, the
//! graph of the words that lead to them, and what is known of whole layers. The rows of the document so far are had from a copy of
//! the graph, so that neither their cost nor that of a piece depends on how much was read before.
#![tactic(auto)]

pub use fault::GrowFault;
pub use growing::Growing;

mod fault;
mod growing;
pub mod laws;
