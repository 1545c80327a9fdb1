//! How much room a line needs at most.
//!
//! A bound by the row alone, so that one growth serves a line and writing it cannot fail.
ghost use Rattle.std.specs.Prelude.{◌≡◌, ◌+◌, ◌≤◌, ◌^◌};
ghost use Rattle.row_writer.specs.Room.{fields_room, shown_room};
ghost use Rattle.cell_text.specs.declared.TheConstants.{MOST_SPAN_BYTES};

use cell_text::MOST_SPAN_BYTES;
use span_core::{MOST_NAME_BYTES, Row, Span};

/// The room of a line of a row: its fields, and `()` where there is none, and the line's end.
pub fn line_room(row: &Row, texts: bool) -> usize
    ensures room { result ≡ 3 + fields_room texts row.now }
    ensures few { result ≤ 2 ^ 40 }
{
    let mut room = 3;
    for k in 0..row.len() {
        room += MOST_NAME_BYTES + 2 + cell_room(row.at(k), texts);
    }
    room
}

/// The room of a cell, with its text in quotes where that is asked for.
fn cell_room(span: Option<Span>, texts: bool) -> usize
    ensures value { result ≡ shown_room texts span }
    ensures few { result ≤ 2 ^ 34 + MOST_SPAN_BYTES + 2 }
{
    match span {
        Some(span) if texts => MOST_SPAN_BYTES + 2 + 4 * (span.end - span.start) as usize,
        _ => MOST_SPAN_BYTES,
    }
}
