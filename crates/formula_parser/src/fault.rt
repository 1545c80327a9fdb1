//! Why a text is no atom.
ghost use Rattle.std.specs.Prelude.{◌≡◌};
ghost use Rattle.formula_parser.specs.declared.fault.FormulaFault.TheVariants.{OutOfMemory};

use span_core::OutOfMemory;

/// The place of the first fault, and which it is. Places count bytes from 0 in the whole text. The
/// faults have the public numbers 1 to 13, in this order.
///
/// An opener is the atom's first slash, a `(`, the `!` of a capture, or a `[`.
#[derive(Clone, Copy, PartialEq, Eq, Debug)]
pub enum FormulaFault {
    /// 1: a repeat with nothing before it in its sequence, a closing byte where only the slash is
    /// open, a `]` outside a class; in a class a `]` before any item, a `[`, a byte of 80 or more.
    Unexpected { at: usize },
    /// 2: the innermost opener, where a slash, the text's end or a closing byte of another kind
    /// stands.
    Unclosed { at: usize },
    /// 3: a backslash that begins no escape.
    BadEscape { at: usize },
    /// 4: the first element of a range that falls or is not of single bytes, or the `[` of a class
    /// that is empty.
    BadRange { at: usize },
    /// 5: a `{` after a unit that begins no repeat.
    BadRepeat { at: usize },
    /// 6: a repeat straight after a repeat.
    DoubleRepeat { at: usize },
    /// 7: a `^` not straight after the slash, a `$` inside an opener or not before the slash.
    Anchor { at: usize },
    /// 8: the `!` of a capture with a name of more than 32 bytes.
    NameTooLong { at: usize },
    /// 9: the `!` of a capture with the name `none`.
    ReservedName { at: usize },
    /// 10: a `(`, or the `!` of a capture, that would be the 101st open at once.
    TooDeep { at: usize },
    /// 11: want of memory.
    OutOfMemory,
    /// 12: in an atom with the sign, the first byte that begins no character of UTF-8. It comes before
    /// all other faults of the atom.
    NotUtf8 { at: usize },
    /// 13: in an atom with the sign, the backslash of a `\p{NAME}` where no property has the name.
    UnknownProperty { at: usize },
}

impl From<OutOfMemory> for FormulaFault {
    ghost from_gives = { λ _ e. e ≡ OutOfMemory };

    fn from(_e: OutOfMemory) -> FormulaFault {
        FormulaFault::OutOfMemory
    }
}
