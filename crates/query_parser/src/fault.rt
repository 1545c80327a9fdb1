//! Why a text is no sound query.
ghost use Rattle.std.specs.Prelude.{◌≡◌};
ghost use Rattle.query_parser.specs.declared.fault.QueryFault.TheVariants.{OutOfMemory};

use formula_parser::FormulaFault;
use functional_check::CheckFault;
use span_core::{Name, OutOfMemory};

/// The first fault of a text. Places count bytes from 0. Each fault has the public number that stands
/// before it; no fault has the number 7.
///
/// A text that is too long has no other fault. In any other, a fault that is met when the text is read
/// from left to right comes first, then too many variables, and then the faults that a whole tree has:
/// those of the `let`s in order and then of the body, in each expression those of its parts from left to
/// right and then its own.
#[derive(Clone, Copy, Debug)]
pub enum QueryFault {
    /// 1: the fault of an atom. It is never `FormulaFault::OutOfMemory`.
    Formula(FormulaFault),
    /// 2: an atom whose formula is not sequential.
    Check(CheckFault),
    /// 3: a token that no rule allows, or a byte that begins none; or the text's end, at its length.
    Unexpected { at: usize },
    /// 4: a name as a unit without a `let` of that name that was ended by `;` before it.
    UnknownName { at: usize },
    /// 5: after `let`, a name that an earlier `let` has.
    NameTwice { at: usize },
    /// 6: a word of more than 32 bytes where a name is allowed.
    NameTooLong { at: usize },
    /// 8: the least name that a projection keeps and its inner expression does not have.
    UnknownVariable { var: Name },
    /// 9: a projection keeps more than `MOST_VARIABLES` distinct names, or the captures of all atoms
    /// have more.
    TooManyVariables,
    /// 10: the text has more than `MOST_TEXT_BYTES` bytes.
    TooLong,
    /// 11: a `(` that would be the 101st open at once, those of projections included; or a `minus` behind a whole
    /// conjunction that would be the 101st of the text, those of its lets included.
    TooDeep { at: usize },
    /// 12: want of memory.
    OutOfMemory,
    /// 13: a join, at its first part that has a variable of an earlier part which is not sure in both:
    /// the least such name.
    JoinUnsure { var: Name },
    /// 14: a test whose name is not known, at its name. It is found where the tests are.
    UnknownTest { at: usize },
    /// 15: the first variable of a test that is none of the result's.
    TestVariable { var: Name },
    /// 16: a difference whose sides have different variables: the least name that is in one of them alone.
    MinusVariables { var: Name },
}

impl From<OutOfMemory> for QueryFault {
    ghost from_gives = { λ _ e. e ≡ OutOfMemory };

    fn from(_e: OutOfMemory) -> QueryFault {
        QueryFault::OutOfMemory
    }
}
