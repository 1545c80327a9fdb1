//! Rows as the array of a reply.
ghost use Rattle.std.specs.Prelude.{◌≡◌, ◌≤◌, ℕ, List, [], length, IsTrue, IfOk, OnOk};
ghost use Rattle.std.specs.List.{list_all};
ghost use Rattle.cell_text.specs.Cells.{ends_by};
ghost use Rattle.row_writer.specs.Kept.{json_kept};
ghost use Rattle.serde_json.specs.Written.{compact_text};
ghost use Rattle.span_core.specs.declared.TheConstants.{MOST_VARIABLES};
ghost use Rattle.session_server.specs.Replies.{row_data};
ghost use Rattle.session_server.specs.Rows.{array_of, sign_behind, with_row};

use row_writer::KeptLine;
use span_core::{OutOfMemory, Span, VarSet};
use std::alloc::Global;

/// Rows that are written in place, one after another, by the writer of JSON lines.
#[derive(Drop)]
pub(crate) struct JsonRows {
    line: KeptLine,
    /// The rows so far, each behind the array's bracket or a comma.
    text: Vec<u8>,
    ghost few: { length line.heads ≤ MOST_VARIABLES },
}

impl JsonRows {
    /// No row yet, over these variables.
    pub(crate) fn new(alloc: Global, vars: &VarSet) -> Result<JsonRows, OutOfMemory>
        ensures line { IfOk result (λ r. r.line ≡ json_kept vars.now) }
        ensures empty { IfOk result (λ r. r.text.items ≡ []) }
    {
        let _few = vars.len();
        let line = KeptLine::json(alloc, vars)?;
        Ok(JsonRows {
            line,
            text: Vec::new(alloc),
        })
    }

    /// Writes a row after the others.
    pub(crate) fn add(&mut self, spans: &[Option<Span>], document: &[u8]) -> Result<(), OutOfMemory>
        requires lengths { length spans.now ≡ length self.old.line.heads }
        requires inside { IsTrue (list_all (ends_by (length document.now)) spans.now) }
        ensures line { self.new.line ≡ self.old.line }
        ensures text { OnOk result ((names : List (List ℕ)) → self.old.line ≡ json_kept names
            → self.new.text.items ≡ with_row self.old.text.items (compact_text (row_data names spans.now))) }
    {
        let sign = sign_after(self.text.as_slice());
        self.text.push(sign)?;
        let start = self.text.len();
        let room = self.line.room(spans, false);
        self.text.resize(start + room, 0)?;
        let end = self
            .line
            .put(spans, document, false, self.text.as_mut_slice(), start);
        self.text.truncate(end - 1); // without the line's end
        Ok(())
    }

    /// The array of the rows.
    pub(crate) fn into_array(self) -> Result<Vec<u8>, OutOfMemory>
        ensures { IfOk result (λ array. array.items ≡ array_of self.text.items) }
    {
        let mut array = self.text;
        if array.is_empty() {
            array.push(b'[')?;
        }
        array.push(b']')?;
        Ok(array)
    }
}

/// What stands before a row: a comma, and before the first one the array's bracket.
fn sign_after(text: &[u8]) -> u8
    ensures { result ≡ sign_behind text.now }
{
    match text {
        [] => b'[',
        [..] => b',',
    }
}
