//! The cells of a line, each behind its head.
ghost use Rattle.std.specs.Prelude.{◌≡◌, ◌+◌, ◌≤◌, ◌++◌, take, length, IsTrue, Some};
ghost use Rattle.std.specs.List.{list_all};
ghost use Rattle.cell_text.specs.Cells.{ends_by};
ghost use Rattle.row_writer.specs.Kept.{cells_text, heads_of, line_room, quote_room, styled_cell};
ghost use Rattle.row_writer.specs.KeptField.{span_rest};
ghost use Rattle.row_writer.specs.declared.field.TheConstants.{FIELD_BYTES};

use crate::field::Field;
use crate::shown::{put_item, put_quoted};
use crate::style::Style;
use cell_text::put_byte;
use span_core::Span;

/// Takes spans into their fields, and writes each field with its text where that is asked for.
#[inline(always)]
pub(crate) fn put_fields(
    fields: &mut [Field],
    spans: &[Option<Span>],
    doc: &[u8],
    texts: bool,
    buffer: &mut [u8],
    at: usize,
) -> usize
    requires lengths { length spans.now ≡ length fields.old }
    requires inside { IsTrue (list_all (ends_by (length doc.now)) spans.now) }
    requires room { at + line_room texts (heads_of fields.old) spans.now ≤ length buffer.old }
    ensures heads { heads_of fields.new ≡ heads_of fields.old }
    ensures end { result + 64 ≤ at + line_room texts (heads_of fields.old) spans.now }
    ensures text { take result buffer.new ≡ take at buffer.old ++ cells_text doc.now texts (heads_of fields.old) spans.now }
{
    let mut end = at;
    for k in 0..spans.len() {
        end = put_kept(&mut fields[k], spans[k], doc, texts, buffer, end);
    }
    end
}

/// Takes a span into its field, and writes the field with the span's text where that is asked for.
#[inline(always)]
pub(crate) fn put_kept(
    field: &mut Field,
    span: Option<Span>,
    doc: &[u8],
    texts: bool,
    buffer: &mut [u8],
    at: usize,
) -> usize
    requires inside { IsTrue (ends_by (length doc.now) span) }
    requires room { at + FIELD_BYTES + quote_room field.old.head.style texts span ≤ length buffer.old }
    ensures head { field.new.head ≡ field.old.head }
    ensures end { result ≤ at + FIELD_BYTES + quote_room field.old.head.style texts span }
    ensures text { take result buffer.new
        ≡ take at buffer.old ++ (field.old.head.before ++ styled_cell field.old.head.style doc.now texts span) }
{
    let end = field.put(span, buffer, at);
    match span {
        Some(span) => put_rest(field.style(), span, doc, texts, buffer, end),
        None => end,
    }
}

/// Writes what stands behind the numbers of a span.
#[inline(always)]
pub(crate) fn put_rest(
    style: Style,
    span: Span,
    doc: &[u8],
    texts: bool,
    buffer: &mut [u8],
    at: usize,
) -> usize
    requires inside { span.end ≤ length doc.now }
    requires room { at + 1 + quote_room style texts (Some span) ≤ length buffer.old }
    ensures end { result ≤ at + 1 + quote_room style texts (Some span) }
    ensures text { take result buffer.new ≡ take at buffer.old ++ span_rest style doc.now texts span }
{
    match style {
        Style::Plain if texts => put_quoted(span, doc, buffer, at),
        Style::Plain => at,
        Style::Json if texts => put_item(span, doc, buffer, at),
        Style::Json => put_byte(b']', buffer, at),
    }
}
