//! Rows that differ from the one before in the end of one span.
ghost use Rattle.std.specs.Prelude.{◌≡◌, ℕ, ◌<◌, ◌≤◌, length, slice_get, IfSome, Some};
ghost use Rattle.std.specs.Bool.{OnTrue};
ghost use Rattle.row_writer.specs.Open.{IsAlike, IsBeside};

use crate::open::OpenLine;
use span_core::Span;

/// How many rows are opened as they come once a row had other ends.
pub(crate) const OPENED_ROWS: u32 = 4;

/// The row that was written last but by an open line, and that line, where the rows differ in the end of the span at this
/// place alone. `to_open` counts the rows that are opened there as they come, since some of those before had other ends.
#[derive(Drop)]
pub(crate) struct Run {
    pub last: Vec<Option<Span>>,
    pub place: usize,
    pub line: Option<OpenLine>,
    pub to_open: u32,
}

/// A row that has another end of the span at this place.
#[derive(Clone, Copy)]
pub(crate) struct Beside {
    pub place: usize,
    pub span: Span,
}

/// Where a row differs from the last one in the end of one span alone.
#[inline(always)]
pub(crate) fn find_beside(last: &[Option<Span>], spans: &[Option<Span>]) -> Option<Beside>
    requires lengths { length spans.now ≡ length last.now }
    ensures { IfSome result (λ b. IsBeside last.now spans.now b.place b.span) }
{
    let place = alike(last, spans);
    if place >= spans.len() || !are_same_behind(last, spans, place) {
        return None;
    }
    let Some(before) = last[place] else {
        return None;
    };
    let Some(span) = spans[place] else {
        return None;
    };
    if before.start != span.start {
        return None;
    }
    Some(Beside { place, span })
}

/// Where a row that is not beside the last one is opened as it comes: at the place of the last run.
#[inline(always)]
pub(crate) fn find_likely(run: &Run, spans: &[Option<Span>]) -> Option<Beside>
    ensures some { IfSome result (λ b. 0 < run.now.to_open) }
    ensures span { IfSome result (λ b. slice_get spans.now b.place ≡ Some (Some b.span)) }
{
    if run.to_open == 0 || run.place >= spans.len() {
        return None;
    }
    let Some(span) = spans[run.place] else {
        return None;
    };
    Some(Beside {
        place: run.place,
        span,
    })
}

/// Whether the line that is open, if one is, is that of a row at the end of its span at this place.
#[inline(always)]
pub(crate) fn is_open_for(
    last: &[Option<Span>],
    open_place: usize,
    spans: &[Option<Span>],
    beside: Beside,
) -> bool
    requires lengths { length spans.now ≡ length last.now }
    requires span { slice_get spans.now beside.place ≡ Some (Some beside.span) }
    ensures { OnTrue result (IsAlike last.now spans.now open_place beside.place beside.span) }
{
    let place = beside.place;
    if open_place != place || place >= spans.len() {
        return false;
    }
    if alike(last, spans) < place || !are_same_behind(last, spans, place) {
        return false;
    }
    let Some(before) = last[place] else {
        return false;
    };
    if before.start != beside.span.start {
        return false;
    }
    true
}

/// How many spans of two rows are the same before one differs.
#[inline(always)]
fn alike(last: &[Option<Span>], spans: &[Option<Span>]) -> usize
    requires lengths { length spans.now ≡ length last.now }
    ensures { (j : ℕ) → j < result → slice_get last.now j ≡ slice_get spans.now j }
{
    for k in 0..spans.len() {
        if !is_same(last[k], spans[k]) {
            return k;
        }
    }
    spans.len()
}

/// Whether two rows are the same behind this place.
#[inline(always)]
fn are_same_behind(last: &[Option<Span>], spans: &[Option<Span>], place: usize) -> bool
    requires lengths { length spans.now ≡ length last.now }
    requires within { place < length spans.now }
    ensures { OnTrue result ((j : ℕ) → place < j → j < length spans.now → slice_get last.now j ≡ slice_get spans.now j) }
{
    for k in place + 1..spans.len() {
        if !is_same(last[k], spans[k]) {
            return false;
        }
    }
    true
}

/// Whether both are absent, or are the same span.
#[inline(always)]
fn is_same(a: Option<Span>, b: Option<Span>) -> bool
    ensures { OnTrue result (a ≡ b) }
{
    match (a, b) {
        (Some(a), Some(b)) => a.start == b.start && a.end == b.end,
        (None, None) => true,
        _ => false,
    }
}
