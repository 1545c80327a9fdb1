//! The code of the program's tests, and the list of them.
ghost use Rattle.std.specs.Prelude.{◌≡◌, [], ◌∷◌, ◌++◌, codes, IfOk, OnOk, IsTrue};
ghost use Rattle.span_core.specs.Names.{is_name};
ghost use Rattle.span_tests.specs.Judged.{AnswersExactly};
ghost use Rattle.span_tests.specs.Listed.{IsNamed};
ghost use Rattle.known_tests.specs.Answers.{answers_of};
ghost use Rattle.known_tests.specs.Relations.{known_tests, relation};

use crate::{LUHN, UPPER, luhn, upper};
use span_core::{Name, OutOfMemory};
use span_tests::{AddFault, Ask, Judge, Tests};
use std::alloc::Global;

/// The code of a test of the program.
#[derive(Clone, Copy, Debug, PartialEq, Eq)]
pub enum ProgramCall {
    /// `luhn`.
    Luhn,
    /// `upper`.
    Upper,
}

impl Ask for ProgramCall {
    ghost use Rattle.known_tests.specs.Answers.{answers_of};

    ghost answers = { answers_of };

    fn ask(&self, bytes: &[u8]) -> bool {
        match self {
            ProgramCall::Luhn => luhn(bytes),
            ProgramCall::Upper => upper(bytes),
        }
    }
}

/// What the program's tests mean.
#[derive(Clone, Copy, Debug, PartialEq, Eq)]
pub struct ProgramJudge;

impl Judge for ProgramJudge {
    ghost use Rattle.known_tests.specs.Relations.{relation};

    type Call = ProgramCall;

    ghost judges = { relation };
}

/// The program's tests by their names.
pub fn program_tests(alloc: Global) -> Result<Tests<ProgramJudge>, OutOfMemory>
    ensures { IfOk result (λ tests. tests ≡ known_tests) }
{
    let mut tests = Tests::<ProgramJudge>::new(alloc);
    add(&mut tests, b"luhn", LUHN, ProgramCall::Luhn)?;
    add(&mut tests, b"upper", UPPER, ProgramCall::Upper)?;
    Ok(tests)
}

/// Adds a test whose name is new.
fn add(
    tests: &mut Tests<ProgramJudge>,
    name: &[u8],
    number: u32,
    call: ProgramCall,
) -> Result<(), OutOfMemory>
    requires named { IsTrue (is_name name.now) }
    requires exact { AnswersExactly (answers_of call) (relation number) }
    requires new { ¬ IsNamed tests.old name.now }
    ensures { OnOk result (tests.new ≡ tests.old ++ (name.now, number) ∷ []) }
{
    let Some(name) = Name::read(name) else {
        unreachable!();
    };
    match tests.add(name, number, call) {
        Ok(()) => Ok(()),
        Err(AddFault::Taken) => unreachable!(),
        Err(AddFault::OutOfMemory) => Err(OutOfMemory),
    }
}
