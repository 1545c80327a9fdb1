//! The command line: which words are accepted, and what they ask for.
//!
//! The words are those of one simple command of `clap`, whose public definition is `the_command`,
//! with the program's own checks on what that command finds.
#![tactic(auto)]

ghost use Rattle.std.specs.Prelude.{◌≡◌};
ghost use Rattle.command_line.specs.declared.TheConstants.{DEFAULT_MAX_TABLE, MOST_MAX_TABLE, MOST_TRIAL_LINES};

pub use reading::{WordsFault, read_request};
pub use request::{Form, Mode, QuerySource, Request};

mod command;
mod given;
mod reading;
mod request;

/// The most that a table or a filter may weigh, where nothing is said of it.
pub const DEFAULT_MAX_TABLE: u64 = 8_000_000;

/// The most that can be said of it.
pub const MOST_MAX_TABLE: u64 = 100_000_000;

/// The most lines of a trial.
pub const MOST_TRIAL_LINES: u32 = 4_000_000;

/// The limits, as numbers: a law.
pub fn limits()
    ensures default_table { DEFAULT_MAX_TABLE ≡ 8000000 }
    ensures most_table { MOST_MAX_TABLE ≡ 100000000 }
    ensures trial_lines { MOST_TRIAL_LINES ≡ 4000000 }
{}
