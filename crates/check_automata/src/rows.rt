//! All rows on a document.
ghost use Rattle.std.specs.Prelude.{◌≡◌, ℕ, ◌<◌, ◌≤◌, length, IfOk, All};
ghost use Rattle.std.specs.Option.{ForSome};
ghost use Rattle.span_core.specs.declared.span.Span.{Span};
ghost use Rattle.span_core.specs.declared.TheConstants.{MOST_VARIABLES};

use span_core::{Row, Span};
use std::alloc::{AllocError, Global};

/// What a variable may have on a document of `len` bytes, each once: none, and each span.
pub(crate) fn spans_within(alloc: Global, len: u32) -> Result<Vec<Option<Span>>, AllocError>
    ensures some { IfOk result (λ spans. 0 < length spans.items) }
    ensures within { IfOk result (λ spans. All (λ span. ForSome span (λ (s : Span). s.end ≤ len)) spans.items) }
{
    let mut spans = Vec::new(alloc);
    spans.push(None)?;
    spans.push(Some(Span::new(len, len)))?;
    for start in 0..len {
        for end in start..=len {
            spans.push(Some(Span::new(start, end)))?;
        }
    }
    Ok(spans)
}

/// The number of rows over so many variables, with these spans.
pub(crate) fn number_of_rows(spans: &[Option<Span>], variables: u32) -> usize {
    spans.len().saturating_pow(variables)
}

/// One of these rows: that of the number's last digits in base `spans.len()`, so that the numbers below
/// `number_of_rows` give each once.
pub(crate) fn row_of(spans: &[Option<Span>], variables: usize, number: usize) -> Row
    requires some { 0 < length spans.now }
    requires few { variables ≤ MOST_VARIABLES }
    ensures len { length result ≡ variables }
    ensures within { (n : ℕ) → All (λ span. ForSome span (λ (s : Span). s.end ≤ n)) spans.now →
        All (λ span. ForSome span (λ (s : Span). s.end ≤ n)) result }
{
    let mut row = Row::empty();
    let mut left = number;
    for _ in 0..variables {
        row.push(spans[left % spans.len()]);
        left /= spans.len();
    }
    row
}
