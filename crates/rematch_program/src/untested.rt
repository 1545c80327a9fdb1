//! A list of tests in which there is none.

use span_tests::{Ask, Judge};

/// The code of a test that is in no list.
#[derive(Clone, Copy, Debug, PartialEq, Eq)]
pub struct NoCall;

impl Ask for NoCall {
    ghost use Rattle.std.specs.Prelude.{◌≡◌, false};

    ghost answers = { λ call bytes answer. answer ≡ false };

    fn ask(&self, _bytes: &[u8]) -> bool {
        false
    }
}

/// What no test means.
#[derive(Clone, Copy, Debug, PartialEq, Eq)]
pub struct NoJudge;

impl Judge for NoJudge {
    ghost use Rattle.std.specs.Prelude.{false};

    type Call = NoCall;

    ghost judges = { λ number bytes. false };
}
