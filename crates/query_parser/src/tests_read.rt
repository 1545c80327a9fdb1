//! The turns of reading the tests behind a query: what each token makes of those that have been read.
ghost use Rattle.std.specs.Prelude.{◌≡◌, ◌<◌, length};
ghost use Rattle.query_parser.specs.Tokens.{open_paren, close_paren, comma, sign_token};
ghost use Rattle.query_parser.specs.TestSteps.{no_test_read, test_mark, test_named, test_opened, test_closed, test_parted, test_moved, test_words, test_signs, test_step};
ghost use Rattle.query_parser.specs.Tested.{ends_tests};
ghost use Rattle.query_parser.specs.TestAnswers.{tests_of, IsTestStep};

use crate::fault::QueryFault;
use crate::tokens::{Sign, Word, is_blank, sign_of, word_at, word_of};
use span_core::{Name, is_name_start};
use spanner_model::{Asked, Asks};
use std::alloc::Global;

/// The name of a test, and its place.
#[derive(Clone, Copy, Debug)]
pub(crate) struct Called {
    pub(crate) name: Name,
    pub(crate) at: usize,
}

/// The last thing read of the tests.
#[derive(Clone, Copy, Debug)]
pub(crate) enum Mark {
    /// Something that the name of a test has to follow.
    Before,
    /// The name of a test.
    Name(Called),
    /// The parenthesis behind such a name.
    Open(Called),
    /// The variable of a test.
    Var(Asked),
    Test,
}

/// What has been read of the tests: those that stand whole, and the last thing.
#[derive(Drop)]
pub(crate) struct SoFar {
    pub(crate) asked: Asks,
    pub(crate) mark: Mark,
}

impl SoFar {
    pub(crate) fn new(alloc: Global) -> SoFar
        ensures { tests_of result ≡ no_test_read }
    {
        SoFar {
            asked: Asks::new(alloc),
            mark: Mark::Before,
        }
    }

    /// Whether the tests may end here.
    pub(crate) fn is_whole(&self) -> bool
        ensures { result ≡ ends_tests (test_mark (tests_of self.now).last) }
    {
        matches!(self.mark, Mark::Test)
    }
}

/// A name, which may be that of a test or of its variable.
fn test_name(at: usize, word: &[u8], tests: &mut SoFar) -> Result<usize, QueryFault>
    ensures { IsTestStep result
        (test_moved at (length word.now) (test_named at word.now (tests_of tests.old).last (tests_of tests.old).asked)) (tests_of tests.new) }
{
    match tests.mark {
        Mark::Before => {
            let Some(name) = Name::read(word) else {
                return Err(QueryFault::NameTooLong { at });
            };
            tests.mark = Mark::Name(Called { name, at });
            Ok(word.len())
        }
        Mark::Open(called) => {
            let Some(var) = Name::read(word) else {
                return Err(QueryFault::NameTooLong { at });
            };
            tests.mark = Mark::Var(Asked {
                test: called.name,
                at: called.at,
                var,
            });
            Ok(word.len())
        }
        _ => Err(QueryFault::Unexpected { at }),
    }
}

fn test_word(at: usize, word: &[u8], tests: &mut SoFar) -> Result<usize, QueryFault>
    ensures { IsTestStep result (test_words at word.now (tests_of tests.old)) (tests_of tests.new) }
{
    match word_of(word) {
        Word::Name => test_name(at, word, tests),
        Word::Let | Word::Union | Word::Join | Word::Project | Word::None => {
            Err(QueryFault::Unexpected { at })
        }
    }
}

/// A `(` behind the name of a test.
fn test_open(at: usize, tests: &mut SoFar) -> Result<usize, QueryFault>
    ensures { IsTestStep result (test_moved at 1 (test_opened (tests_of tests.old).last (tests_of tests.old).asked)) (tests_of tests.new) }
{
    match tests.mark {
        Mark::Name(called) => {
            tests.mark = Mark::Open(called);
            Ok(1)
        }
        _ => Err(QueryFault::Unexpected { at }),
    }
}

/// A `)`, which ends a test.
fn test_close(at: usize, tests: &mut SoFar) -> Result<usize, QueryFault>
    ensures { IsTestStep result (test_moved at 1 (test_closed (tests_of tests.old).last (tests_of tests.old).asked)) (tests_of tests.new) }
{
    match tests.mark {
        Mark::Var(ask) => {
            let Ok(()) = tests.asked.push(ask) else {
                return Err(QueryFault::OutOfMemory);
            };
            tests.mark = Mark::Test;
            Ok(1)
        }
        _ => Err(QueryFault::Unexpected { at }),
    }
}

/// A `,` between tests.
fn test_comma(at: usize, tests: &mut SoFar) -> Result<usize, QueryFault>
    ensures { IsTestStep result (test_moved at 1 (test_parted (tests_of tests.old).last (tests_of tests.old).asked)) (tests_of tests.new) }
{
    match tests.mark {
        Mark::Test => {
            tests.mark = Mark::Before;
            Ok(1)
        }
        _ => Err(QueryFault::Unexpected { at }),
    }
}

fn test_sign(at: usize, c: u8, tests: &mut SoFar) -> Result<usize, QueryFault>
    ensures { IsTestStep result (test_signs at (sign_token c) (tests_of tests.old)) (tests_of tests.new) }
{
    match sign_of(c) {
        Some(Sign::Open) => test_open(at, tests),
        Some(Sign::Close) => test_close(at, tests),
        Some(Sign::Comma) => test_comma(at, tests),
        Some(Sign::Equals) | Some(Sign::Semicolon) | None => Err(QueryFault::Unexpected { at }),
    }
}

/// Reads the blank or the token at the place `at`, where the rest of the text begins, and gives how many
/// bytes it takes.
pub(crate) fn test_turn(at: usize, rest: &[u8], tests: &mut SoFar) -> Result<usize, QueryFault>
    requires { 0 < length rest.now }
    ensures { IsTestStep result (test_step at rest.now (tests_of tests.old)) (tests_of tests.new) }
{
    let [c, ..] = rest else {
        return Err(QueryFault::Unexpected { at });
    };
    if is_blank(*c) {
        return Ok(1);
    }
    if is_name_start(*c) {
        return test_word(at, word_at(rest), tests);
    }
    test_sign(at, *c, tests)
}
