//! How long the lines of many rows take.
ghost use Rattle.std.specs.Prelude.{◌≡◌, IsTrue, length};
ghost use Rattle.std.specs.List.{list_all};
ghost use Rattle.cell_text.specs.Cells.{ends_by};

use row_cursor::fits;
use row_writer::{json_line, spans_line, table_line};
use span_core::{Name, OutOfMemory, Row, Span, VarSet};
use std::alloc::Global;
use std::time::Instant;

/// The length of the document that the rows are of.
const DOCUMENT_BYTES: u32 = 1_000_000;

/// What is written of each row.
#[derive(Clone, Copy)]
enum Form {
    Rows,
    Spans,
    Table,
    Texts,
    Json,
}

/// Writes the lines of so many rows in the form of this word, and prints how many bytes they have.
pub(crate) fn measure_lines(rt: &HostRuntime, form: &str, rows: u32) -> anyhow::Result<()> {
    let Some(form) = form_of(form) else {
        println!(rt; "no such form")?;
        return Ok(());
    };
    let start = Instant::now(rt)?;
    let written = write_rows(rt.alloc(), form, rows);
    let end = Instant::now(rt)?;
    eprintln!(rt; "lines of {rows} rows: {:?}", end.duration_since(start))?;
    match written {
        Ok(bytes) => println!(rt; "bytes {bytes}")?,
        Err(OutOfMemory) => println!(rt; "out of memory")?,
    }
    Ok(())
}

fn form_of(word: &str) -> Option<Form> {
    match word {
        "rows" => Some(Form::Rows),
        "spans" => Some(Form::Spans),
        "table" => Some(Form::Table),
        "texts" => Some(Form::Texts),
        "json" => Some(Form::Json),
        _ => None,
    }
}

/// Writes the lines of so many rows of two variables, and gives the number of their bytes.
fn write_rows(alloc: Global, form: Form, rows: u32) -> Result<u64, OutOfMemory> {
    let vars = variables();
    let doc = vec![in alloc; b'a'; 1_000_000]?;
    let mut out = Vec::new(alloc);
    let mut total: u64 = 0;
    for i in 0..rows {
        let at = i % 900_000;
        let mut row = Row::empty();
        row.push(Some(Span::new(at, at + 7)));
        row.push(Some(Span::new(at + 3, at + 19)));
        if row.len() == vars.len() && doc.len() == 1_000_000 && fits(&row, DOCUMENT_BYTES) {
            write_row(alloc, &vars, &row, &doc, form, &mut out)?;
        }
        if out.len() > 65_536 {
            total = total.wrapping_add(out.len() as u64);
            out.clear();
        }
    }
    Ok(total.wrapping_add(out.len() as u64))
}

fn variables() -> VarSet {
    let mut vars = VarSet::empty();
    for name in [b"x", b"y"] {
        if let Some(name) = Name::read(name) {
            let _ = vars.add(name);
        }
    }
    vars
}

fn write_row(
    alloc: Global,
    vars: &VarSet,
    row: &Row,
    doc: &[u8],
    form: Form,
    out: &mut Vec<u8>,
) -> Result<(), OutOfMemory>
    requires lengths { length row.now ≡ length vars.now }
    requires inside { IsTrue (list_all (ends_by (length doc.now)) row.now) }
{
    match form {
        Form::Rows => Ok(()),
        Form::Spans => spans_line(vars, row, doc, false, out),
        Form::Table => table_line(vars, row, doc, false, out),
        Form::Texts => spans_line(vars, row, doc, true, out),
        Form::Json => json_line(alloc, vars, row, doc, false, out),
    }
}
