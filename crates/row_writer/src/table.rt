//! The lines of the table: the cells of a row, with a tab between.
ghost use Rattle.std.specs.Prelude.{◌≡◌, ℕ, ◌+◌, ◌≤◌, ◌++◌, take, length, IsTrue, OnOk, OnErr};
ghost use Rattle.std.specs.List.{list_all};
ghost use Rattle.cell_text.specs.Cells.{ends_by};
ghost use Rattle.row_writer.specs.Lines.{table_text};
ghost use Rattle.row_writer.specs.Room.{fields_room};

use crate::room::line_room;
use crate::shown::put_shown;
use cell_text::{put_byte, put_bytes};
use span_core::{OutOfMemory, Row, VarSet};
use std::alloc::Allocator;

/// Appends the line of a row in the table: its cells with a tab between, and `()` without variables.
///
/// A cell is `start-end`, with `texts` followed by the text in quotes, as in a spans line.
pub fn table_line<A: Allocator>(
    vars: &VarSet,
    row: &Row,
    doc: &[u8],
    texts: bool,
    out: &mut Vec<u8, A>,
) -> Result<(), OutOfMemory>
    requires lengths { length row.now ≡ length vars.now }
    requires inside { IsTrue (list_all (ends_by (length doc.now)) row.now) }
    ensures ok { OnOk result (out.new.items ≡ out.old.items ++ table_text row.now doc.now texts) }
    ensures err { OnErr result (out.new.items ≡ out.old.items) }
{
    let _names = vars;
    let before = out.len();
    out.resize(before + line_room(row, texts), 0)?;
    let end = put_cells(row, doc, texts, out.as_mut_slice(), before);
    out.truncate(end);
    Ok(())
}

fn put_cells(row: &Row, doc: &[u8], texts: bool, buffer: &mut [u8], at: usize) -> usize
    requires inside { IsTrue (list_all (ends_by (length doc.now)) row.now) }
    requires room { at + 3 + fields_room texts row.now ≤ length buffer.old }
    ensures end { result ≤ length buffer.new }
    ensures text { take result buffer.new ≡ take at buffer.old ++ table_text row.now doc.now texts }
{
    if row.len() == 0 {
        return put_bytes(b"()\n", buffer, at);
    }
    let mut end = put_shown(row.at(0), doc, texts, buffer, at);
    for k in 1..row.len() {
        end = put_byte(b'\t', buffer, end);
        end = put_shown(row.at(k), doc, texts, buffer, end);
    }
    put_byte(b'\n', buffer, end)
}
