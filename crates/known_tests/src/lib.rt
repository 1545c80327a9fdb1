//! The program's tests on spans.
#![tactic(auto)]

pub use calls::{ProgramCall, ProgramJudge, program_tests};
pub use relations::{LUHN, UPPER, luhn, upper};

mod calls;
mod relations;
