//! Whether a cursor is one of a document.
ghost use Rattle.std.specs.Prelude.{◌↔◌, ℕ, IfNone, IfSome, IsTrue};
ghost use Rattle.std.specs.Option.{option_copied};
ghost use Rattle.spanner_engine.specs.Begun.{EndsPast, IsPast, KeepsOther};

use span_core::{Kept, Row};

/// The length that the cursor keeps, where it keeps one that is not `n`.
pub(crate) fn other_length(after: Option<&Kept>, n: u32) -> Option<u32>
    ensures some { IfSome result (KeepsOther n (option_copied after.entry)) }
    ensures none { IfNone result ((other : ℕ) → ¬ KeepsOther n (option_copied after.entry) other) }
{
    match after {
        Some(kept) => match kept.length {
            Some(length) if length != n => Some(length),
            _ => None,
        },
        None => None,
    }
}

/// Whether a cursor is given that keeps no length, and some span of its row ends past `n`.
pub(crate) fn is_past(after: Option<&Kept>, n: usize) -> bool
    ensures { IsTrue result ↔ IsPast n (option_copied after.entry) }
{
    match after {
        Some(kept) => match kept.length {
            Some(_) => false,
            None => ends_past(&kept.row, n),
        },
        None => false,
    }
}

/// Whether some span of the row ends past `n`.
fn ends_past(row: &Row, n: usize) -> bool
    ensures { IsTrue result ↔ EndsPast n row.now }
{
    for k in 0..row.len() {
        if let Some(span) = row.at(k) {
            if span.end as usize > n {
                return true;
            }
        }
    }
    false
}
