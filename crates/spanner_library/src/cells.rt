//! Rows as numbers.
ghost use Rattle.std.specs.Prelude.{◌≡◌, ◌+◌, ◌*◌, ◌≤◌, ◌++◌, [], ◌∷◌, length, take, drop};
ghost use Rattle.spanner_library.specs.Cells.{row_cells, span_cells};

use crate::ABSENT;
use span_core::Span;

/// Puts the two numbers of a span at a place.
fn put_span(out: &mut [u32], at: usize, span: Option<Span>)
    requires room { at + 2 ≤ length out.old }
    ensures put { take (at + 2) out.new ≡ take at out.old ++ span_cells span }
    ensures behind { drop (at + 2) out.new ≡ drop (at + 2) out.old }
    ensures len { length out.new ≡ length out.old }
{
    let (start, end) = numbers(span);
    out[at] = start;
    out[at + 1] = end;
}

/// The two numbers of a span.
fn numbers(span: Option<Span>) -> (u32, u32)
    ensures { span_cells span ≡ result.0 ∷ result.1 ∷ [] }
{
    match span {
        Some(span) => (span.start, span.end),
        None => (ABSENT, ABSENT),
    }
}

/// Puts the numbers of a row's spans from a place on.
pub(crate) fn put_row(out: &mut [u32], at: usize, spans: &[Option<Span>])
    requires room { at + 2 * length spans.now ≤ length out.old }
    ensures put { take (at + 2 * length spans.now) out.new ≡ take at out.old ++ row_cells spans.now }
    ensures behind { drop (at + 2 * length spans.now) out.new ≡ drop (at + 2 * length spans.now) out.old }
    ensures len { length out.new ≡ length out.old }
{
    let mut k = 0;
    while k < spans.len() {
        put_span(out, at + 2 * k, spans[k]);
        k += 1;
    }
}
