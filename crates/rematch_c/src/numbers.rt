//! Numbers of a row, as they were given, read again.
ghost use Rattle.std.specs.Prelude.{◌≡◌, ◌≤◌, [], ◌∷◌, IfNone, IfSome, IsTrue, Option};
ghost use Rattle.span_core.specs.declared.TheConstants.{MOST_VARIABLES};
ghost use Rattle.span_core.specs.declared.span.Span.{Span as SpanSpec};
ghost use Rattle.cell_text.specs.Cells.{ends_by};
ghost use Rattle.spanner_model.specs.Answers.{SpanRow};
ghost use Rattle.spanner_library.specs.Cells.{span_cells};
ghost use Rattle.rematch_c.specs.Rows.{IsRowIn};

use span_core::{Row, Span};
use spanner_library::ABSENT;

/// The row of so many variables that these numbers are, within a document of `n` bytes.
pub(crate) fn row_of(numbers: &[u32], variables: usize, n: u32) -> Option<Row>
    requires few { variables ≤ MOST_VARIABLES }
    ensures some { IfSome result (IsRowIn variables n numbers.now) }
    ensures none { IfNone result ((row : SpanRow) → IsRowIn variables n numbers.now row → ⊥) }
{
    if numbers.len() != 2 * variables {
        return None;
    }
    let mut row = Row::empty();
    let mut k = 0;
    while k < variables {
        match span_of(numbers[2 * k], numbers[2 * k + 1], n) {
            Some(span) => row.push(span),
            None => return None,
        }
        k += 1;
    }
    Some(row)
}

/// The span that two numbers are, within a document of `n` bytes.
fn span_of(start: u32, end: u32, n: u32) -> Option<Option<Span>>
    ensures some { IfSome result (λ span. (span_cells span ≡ start ∷ end ∷ []) × IsTrue (ends_by n span)) }
    ensures none { IfNone result ((span : Option SpanSpec) → span_cells span ≡ start ∷ end ∷ [] → IsTrue (ends_by n span) → ⊥) }
{
    if start == ABSENT && end == ABSENT {
        return Some(None);
    }
    if start > end || end > n {
        return None;
    }
    Some(Some(Span::new(start, end)))
}
