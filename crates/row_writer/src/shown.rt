//! The cell of a span, as the spans line and the table show it, and its text in JSON.
ghost use Rattle.std.specs.Prelude.{◌≡◌, ℕ, ◌+◌, ◌-◌, ◌*◌, ◌≤◌, ◌++◌, take, length, IsTrue, true};
ghost use Rattle.serde_json.specs.Written.{items_text};
ghost use Rattle.cell_text.specs.Cells.{ends_by};
ghost use Rattle.row_writer.specs.JsonLines.{json_form};
ghost use Rattle.row_writer.specs.Lines.{quoted, shown};
ghost use Rattle.row_writer.specs.Room.{shown_room};

use crate::forms::{put_escaped_form, put_form};
use cell_text::{put_byte, put_bytes, put_cell};
use span_core::Span;

/// Writes the cell of a span at a position, with its text in quotes where that is asked for, and says where it ends.
#[inline(always)]
pub fn put_shown(span: Option<Span>, doc: &[u8], texts: bool, buffer: &mut [u8], at: usize) -> usize
    requires inside { IsTrue (ends_by (length doc.now) span) }
    requires room { at + shown_room texts span ≤ length buffer.old }
    ensures end { result ≤ at + shown_room texts span }
    ensures text { take result buffer.new ≡ take at buffer.old ++ shown doc.now texts span }
{
    match span {
        Some(span) if texts => {
            let end = put_cell(Some(span), buffer, at);
            put_quoted(span, doc, buffer, end)
        }
        span => put_cell(span, buffer, at),
    }
}

/// Writes the text of a span in quotes.
pub fn put_quoted(span: Span, doc: &[u8], buffer: &mut [u8], at: usize) -> usize
    requires inside { span.end ≤ length doc.now }
    requires room { at + 2 + 4 * (span.end - span.start) ≤ length buffer.old }
    ensures end { result ≤ at + 2 + 4 * (span.end - span.start) }
    ensures text { take result buffer.new ≡ take at buffer.old ++ quoted doc.now span }
{
    let end = put_byte(b'"', buffer, at);
    let end = put_form(&doc[span.start as usize..span.end as usize], buffer, end);
    put_byte(b'"', buffer, end)
}

/// Writes the text of a span as the last item of its array in JSON, and the array's end.
pub fn put_item(span: Span, doc: &[u8], buffer: &mut [u8], at: usize) -> usize
    requires inside { span.end ≤ length doc.now }
    requires room { at + 4 + 5 * (span.end - span.start) ≤ length buffer.old }
    ensures end { result ≤ at + 4 + 5 * (span.end - span.start) }
    ensures text { take result buffer.new ≡ take at buffer.old ++ items_text true (json_form doc.now true span) }
{
    let end = put_bytes(b",\"", buffer, at);
    let end = put_escaped_form(&doc[span.start as usize..span.end as usize], buffer, end);
    put_bytes(b"\"]", buffer, end)
}
