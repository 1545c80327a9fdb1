//! The cells of a row, written in parts round the end of one span.
ghost use Rattle.std.specs.Prelude.{◌≡◌, ◌+◌, ◌-◌, ◌*◌, ◌<◌, ◌≤◌, ◌++◌, take, drop, length, slice_get, IfSome, IsTrue, Some, false};
ghost use Rattle.std.specs.List.{list_all};
ghost use Rattle.std.specs.Fmt.{decimal};
ghost use Rattle.cell_text.specs.Cells.{ends_by};
ghost use Rattle.row_writer.specs.Kept.{cells_text, heads_of};
ghost use Rattle.row_writer.specs.Open.{before_end, behind_end, open_with};
ghost use Rattle.row_writer.specs.declared.open.TheConstants.{BACK_BYTES, FRONT_BYTES};

use crate::cells::{put_kept, put_rest};
use crate::field::Field;
use crate::open::OpenLine;
use crate::run::Beside;
use cell_text::put_number;
use span_core::Span;

/// Where the parts end: what stands before the number, the number, and what stands behind it.
#[derive(Clone, Copy)]
pub(crate) struct Parts {
    pub front: usize,
    pub number: usize,
    pub end: usize,
}

/// Takes spans into their fields, and writes the cells without texts.
pub(crate) fn put_parted(
    fields: &mut [Field],
    spans: &[Option<Span>],
    beside: Beside,
    doc: &[u8],
    buffer: &mut [u8],
    at: usize,
) -> Parts
    requires lengths { length spans.now ≡ length fields.old }
    requires within { beside.place < length spans.now }
    requires span { slice_get spans.now beside.place ≡ Some (Some beside.span) }
    requires inside { IsTrue (list_all (ends_by (length doc.now)) spans.now) }
    requires room { at + 64 * length spans.now + 64 ≤ length buffer.old }
    ensures heads { heads_of fields.new ≡ heads_of fields.old }
    ensures end { result.end ≤ at + 64 * length spans.now }
    ensures between { result.front ≤ result.number }
    ensures behind { result.number ≤ result.end }
    ensures front { take result.front buffer.new ≡ take at buffer.old ++ before_end doc.now (heads_of fields.old)
        spans.now beside.place beside.span.start }
    ensures number { take result.number buffer.new ≡ take result.front buffer.new ++ decimal beside.span.end }
    ensures back { take result.end buffer.new ≡ take result.number buffer.new ++ behind_end doc.now
        (heads_of fields.old) spans.now beside.place }
{
    let Beside { place, span } = beside;
    let end = put_cells(fields, &spans[..place], 0, doc, buffer, at);
    let front = fields[place].put_start(span, buffer, end);
    let number = put_number(span.end, buffer, front);
    let end = put_rest(fields[place].style(), span, doc, false, buffer, number);
    let end = put_cells(fields, spans, place + 1, doc, buffer, end);
    Parts { front, number, end }
}

/// Takes the spans from a place on into their fields, and writes these cells without texts.
fn put_cells(
    fields: &mut [Field],
    spans: &[Option<Span>],
    from: usize,
    doc: &[u8],
    buffer: &mut [u8],
    at: usize,
) -> usize
    requires lengths { length spans.now ≤ length fields.old }
    requires within { from ≤ length spans.now }
    requires inside { IsTrue (list_all (ends_by (length doc.now)) spans.now) }
    requires room { at + 64 * length spans.now + 64 ≤ length buffer.old + 64 * from }
    ensures heads { heads_of fields.new ≡ heads_of fields.old }
    ensures end { result + 64 * from ≤ at + 64 * length spans.now }
    ensures text { take result buffer.new ≡ take at buffer.old ++ cells_text doc.now false
        (drop from (heads_of fields.old)) (drop from spans.now) }
{
    let mut end = at;
    for k in from..spans.len() {
        end = put_kept(&mut fields[k], spans[k], doc, false, buffer, end);
    }
    end
}

/// The line whose parts were written from a position on, open at its number.
pub(crate) fn open_line(buffer: &[u8], at: usize, parts: Parts, end: usize) -> Option<OpenLine>
    requires before { at ≤ parts.front }
    requires behind { parts.number ≤ end }
    requires front { at + FRONT_BYTES ≤ length buffer.now }
    requires back { parts.number + BACK_BYTES ≤ length buffer.now }
    ensures { IfSome result (λ o. o ≡ open_with (take (parts.front - at) (drop at buffer.now))
        (take (end - parts.number) (drop parts.number buffer.now))) }
{
    OpenLine::taken(
        buffer,
        at,
        parts.front - at,
        parts.number,
        end - parts.number,
    )
}
