//! Notes: what a run reports at its end, and why a session refuses a query. The numbers of limits come from their
//! constants, or from the caller.
#![tactic(auto)]

pub use line::NoteLine;
pub use note::{FixedNote, Note};
pub use notes::push_note;
pub use outcome::Outcome;
pub use refusals::{Refusal, query_note, query_refusal, size_note, size_refusal, table_note};

mod line;
mod note;
mod notes;
mod outcome;
mod refusals;
