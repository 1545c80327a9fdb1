//! The spans line: `name=start-end` for each variable, with one space between.
ghost use Rattle.std.specs.Prelude.{◌≡◌, ℕ, ◌+◌, ◌≤◌, ◌++◌, take, length, IsTrue, OnOk, OnErr};
ghost use Rattle.std.specs.List.{list_all};
ghost use Rattle.cell_text.specs.Cells.{ends_by};
ghost use Rattle.row_writer.specs.Lines.{spans_field, spans_text};
ghost use Rattle.row_writer.specs.Room.{fields_room, shown_room};
ghost use Rattle.span_core.specs.declared.TheConstants.{MOST_NAME_BYTES};

use crate::room::line_room;
use crate::shown::put_shown;
use cell_text::{put_byte, put_bytes};
use span_core::{Name, OutOfMemory, Row, Span, VarSet};
use std::alloc::Allocator;

/// Appends the spans line of a row: `x=0-2 y=2-3`, with `texts` `x=0-2"ab" y=2-3"c"`, and `()` without variables.
///
/// Offsets count bytes from 0. A text stands in its printable form: `\\`, `\"`, `\n`, `\t`, `\r` and `\xhh`.
/// An absent span is `-`.
pub fn spans_line<A: Allocator>(
    vars: &VarSet,
    row: &Row,
    doc: &[u8],
    texts: bool,
    out: &mut Vec<u8, A>,
) -> Result<(), OutOfMemory>
    requires lengths { length row.now ≡ length vars.now }
    requires inside { IsTrue (list_all (ends_by (length doc.now)) row.now) }
    ensures ok { OnOk result (out.new.items ≡ out.old.items ++ spans_text vars.now row.now doc.now texts) }
    ensures err { OnErr result (out.new.items ≡ out.old.items) }
{
    let before = out.len();
    out.resize(before + line_room(row, texts), 0)?;
    let end = put_spans(vars, row, doc, texts, out.as_mut_slice(), before);
    out.truncate(end);
    Ok(())
}

fn put_spans(
    vars: &VarSet,
    row: &Row,
    doc: &[u8],
    texts: bool,
    buffer: &mut [u8],
    at: usize,
) -> usize
    requires lengths { length row.now ≡ length vars.now }
    requires inside { IsTrue (list_all (ends_by (length doc.now)) row.now) }
    requires room { at + 3 + fields_room texts row.now ≤ length buffer.old }
    ensures end { result ≤ length buffer.new }
    ensures text { take result buffer.new ≡ take at buffer.old ++ spans_text vars.now row.now doc.now texts }
{
    if vars.len() == 0 {
        return put_bytes(b"()\n", buffer, at);
    }
    let mut end = put_field(vars.at(0), row.at(0), doc, texts, buffer, at);
    for k in 1..vars.len() {
        end = put_byte(b' ', buffer, end);
        end = put_field(vars.at(k), row.at(k), doc, texts, buffer, end);
    }
    put_byte(b'\n', buffer, end)
}

#[inline(always)]
fn put_field(
    name: &Name,
    span: Option<Span>,
    doc: &[u8],
    texts: bool,
    buffer: &mut [u8],
    at: usize,
) -> usize
    requires inside { IsTrue (ends_by (length doc.now) span) }
    requires room { at + MOST_NAME_BYTES + 1 + shown_room texts span ≤ length buffer.old }
    ensures end { result ≤ at + MOST_NAME_BYTES + 1 + shown_room texts span }
    ensures text { take result buffer.new ≡ take at buffer.old ++ spans_field doc.now texts name.now span }
{
    let end = put_bytes(name.as_bytes(), buffer, at);
    let end = put_byte(b'=', buffer, end);
    put_shown(span, doc, texts, buffer, end)
}
