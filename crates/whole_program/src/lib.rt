//! The program: a run, or sessions.
#![tactic(auto)]

ghost use Rattle.std.specs.Prelude.{◌≡◌};
ghost use Rattle.whole_program.specs.declared.TheConstants.{MOST_REQUESTS};

pub use all::run_all;

mod all;
pub mod laws;
#[cfg(test)]
mod serving_tests;

/// The most requests that are answered in a run that serves.
pub const MOST_REQUESTS: u64 = 4_294_967_295;

/// The limit, as a number: a law.
pub fn limits()
    ensures requests { MOST_REQUESTS ≡ 4294967295 }
{}
