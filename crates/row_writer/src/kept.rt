//! The lines of one row after another, of which what stays the same is not written anew.
ghost use Rattle.std.specs.Prelude.{◌≡◌, ℕ, ◌+◌, ◌*◌, ◌^◌, ◌<◌, ◌≤◌, ◌++◌, take, length, slice_get, IsTrue, IfOk, MatchOption, Some, true, false};
ghost use Rattle.std.specs.List.{flat_map, list_all};
ghost use Rattle.enumerator.specs.Ends.{AreFrom, row_to};
ghost use Rattle.cell_text.specs.Cells.{ends_by};
ghost use Rattle.row_writer.specs.Kept.{heads_of, json_kept, kept_text, line_room, line_with, quote_room, spans_kept, table_kept};
ghost use Rattle.row_writer.specs.declared.field.TheConstants.{FIELD_BYTES};
ghost use Rattle.span_core.specs.declared.TheConstants.{MOST_VARIABLES};

use crate::cells::put_fields;
use crate::field::{FIELD_BYTES, Field};
use crate::parted::{open_line, put_parted};
use crate::run::{Beside, OPENED_ROWS, Run, find_beside, find_likely, is_open_for};
use crate::style::{Style, put_empty, put_line_end};
use span_core::{MOST_VARIABLES, OutOfMemory, Span, VarSet};
use std::alloc::Global;
use std::marker::Model;

/// Writes the lines of rows in place, as spans, as lines of the table, or as JSON.
///
/// It is seen as how the line is written, and what stands before each of its cells. The fields are kept from one row to
/// the next, so that of a row only the numbers that changed are made into digits. Where rows without texts differ in the
/// end of one span alone, the bytes before that end and behind it are kept as they are, from the second such row on. The
/// next few rows may well be the first of such rows too, and are written so that these bytes are kept from them on.
#[derive(Drop)]
pub struct KeptLine {
    fields: Vec<Field>,
    style: Style,
    run: Run,
}

impl Model for KeptLine {
    ghost use Rattle.row_writer.specs.Kept.{Line, heads_of, line_with};

    ghost Value = { Line };

    ghost view = { λ l. line_with l.style (heads_of l.fields.items) };

    ghost use Rattle.row_writer.specs.Open.{IsRun};

    ghost invariant = { λ l. IsRun (line_with l.style (heads_of l.fields.items)) l.run.last.items l.run.place l.run.line };
}

impl KeptLine {
    /// For spans lines over these variables.
    pub fn spans(alloc: Global, vars: &VarSet) -> Result<KeptLine, OutOfMemory>
        ensures { IfOk result (λ line. line ≡ spans_kept vars.now) }
    {
        let mut fields = Vec::new(alloc);
        if vars.len() > 0 {
            fields.push(Field::named(true, vars.at(0)))?;
        }
        for k in 1..vars.len() {
            fields.push(Field::named(false, vars.at(k)))?;
        }
        KeptLine::over(alloc, fields, Style::Plain)
    }

    /// For lines of the table over these variables.
    pub fn table(alloc: Global, vars: &VarSet) -> Result<KeptLine, OutOfMemory>
        ensures { IfOk result (λ line. line ≡ table_kept vars.now) }
    {
        let mut fields = Vec::new(alloc);
        if vars.len() > 0 {
            fields.push(Field::tabbed(true))?;
        }
        for _k in 1..vars.len() {
            fields.push(Field::tabbed(false))?;
        }
        KeptLine::over(alloc, fields, Style::Plain)
    }

    /// For JSON lines over these variables.
    pub fn json(alloc: Global, vars: &VarSet) -> Result<KeptLine, OutOfMemory>
        ensures { IfOk result (λ line. line ≡ json_kept vars.now) }
    {
        let mut fields = Vec::new(alloc);
        if vars.len() > 0 {
            fields.push(Field::member(b'{', vars.at(0)))?;
        }
        for k in 1..vars.len() {
            fields.push(Field::member(b',', vars.at(k)))?;
        }
        KeptLine::over(alloc, fields, Style::Json)
    }

    /// The line of these fields, before its first row.
    fn over(alloc: Global, fields: Vec<Field>, style: Style) -> Result<KeptLine, OutOfMemory>
        ensures { IfOk result (λ line. line ≡ line_with style (heads_of fields.items)) }
    {
        let mut last = Vec::new(alloc);
        last.resize(fields.len(), None)?;
        let run = Run {
            last,
            place: 0,
            line: None,
            to_open: 0,
        };
        Ok(KeptLine { fields, style, run })
    }

    /// The room that the line of a row needs where it is written by `put`.
    #[inline(always)]
    pub fn room(&self, spans: &[Option<Span>], texts: bool) -> usize
        requires lengths { length spans.now ≡ length self.now.heads }
        requires few { length spans.now ≤ MOST_VARIABLES }
        ensures { result ≡ line_room texts self.now.heads spans.now }
    {
        if !texts {
            return FIELD_BYTES * (spans.len() + 1);
        }
        fields_room(self.fields.as_slice(), spans)
    }

    /// Writes the line of a row at a position, and says where it ends. `room` is the room that it needs.
    #[inline(always)]
    pub fn put(
        &mut self,
        spans: &[Option<Span>],
        doc: &[u8],
        texts: bool,
        buffer: &mut [u8],
        at: usize,
    ) -> usize
        requires lengths { length spans.now ≡ length self.old.heads }
        requires inside { IsTrue (list_all (ends_by (length doc.now)) spans.now) }
        requires room { at + line_room texts self.old.heads spans.now ≤ length buffer.old }
        ensures line { self.new ≡ self.old }
        ensures end { result ≤ at + line_room texts self.old.heads spans.now }
        ensures text { take result buffer.new ≡ take at buffer.old ++ kept_text self.old spans.now doc.now texts }
    {
        if spans.is_empty() {
            return put_empty(self.style, buffer, at);
        }
        if texts {
            let end = put_fields(self.fields.as_mut_slice(), spans, doc, texts, buffer, at);
            return put_line_end(self.style, buffer, end);
        }
        self.put_bare(spans, doc, buffer, at)
    }

    /// Writes the line of a row with some variables, without texts.
    #[inline(always)]
    fn put_bare(
        &mut self,
        spans: &[Option<Span>],
        doc: &[u8],
        buffer: &mut [u8],
        at: usize,
    ) -> usize
        requires some { 0 < length spans.now }
        requires lengths { length spans.now ≡ length self.old.heads }
        requires inside { IsTrue (list_all (ends_by (length doc.now)) spans.now) }
        requires room { at + line_room false self.old.heads spans.now ≤ length buffer.old }
        ensures line { self.new ≡ self.old }
        ensures end { result ≤ at + line_room false self.old.heads spans.now }
        ensures text { take result buffer.new ≡ take at buffer.old ++ kept_text self.old spans.now doc.now false }
    {
        let Some(beside) = find_beside(self.run.last.as_slice(), spans) else {
            return self.put_new(spans, doc, buffer, at);
        };
        if beside.place == self.run.place {
            if let Some(line) = &self.run.line {
                return line.put(beside.span.end, buffer, at);
            }
        }
        self.put_first(spans, beside, doc, buffer, at)
    }

    /// Writes the lines of a row without texts with each of these ends of its span at a place, one behind another, and says where
    /// they end; None where no line can be kept open there, and then what stands before the position is as it was.
    pub fn put_ends(
        &mut self,
        spans: &[Option<Span>],
        place: usize,
        span: Span,
        ends: &[u32],
        doc: &[u8],
        buffer: &mut [u8],
        at: usize,
    ) -> Option<usize>
        requires lengths { length spans.now ≡ length self.old.heads }
        requires span { slice_get spans.now place ≡ Some (Some span) }
        requires from { AreFrom span.start ends.now }
        requires inside { IsTrue (list_all (ends_by (length doc.now)) spans.now) }
        requires room { at + line_room false self.old.heads spans.now ≤ length buffer.old }
        requires rooms { at + 128 * length ends.now ≤ length buffer.old }
        ensures line { self.new ≡ self.old }
        ensures end { MatchOption result (take at buffer.new ≡ take at buffer.old) (λ e. e ≤ at + 122 * length ends.now) }
        ensures text { MatchOption result (take at buffer.new ≡ take at buffer.old) (λ e. take e buffer.new
            ≡ take at buffer.old ++ flat_map (λ end. kept_text self.old (row_to spans.now place end) doc.now false) ends.now) }
    {
        self.run.to_open = OPENED_ROWS;
        let beside = Beside { place, span };
        if let Some(end) = self.put_open(spans, beside, ends, doc, buffer, at) {
            return Some(end);
        }
        let _end = self.put_first(spans, beside, doc, buffer, at);
        self.put_open(spans, beside, ends, doc, buffer, at)
    }

    /// Writes the lines of a row with each of these ends if its line is open there; None if it is not, and then nothing is written.
    fn put_open(
        &self,
        spans: &[Option<Span>],
        beside: Beside,
        ends: &[u32],
        doc: &[u8],
        buffer: &mut [u8],
        at: usize,
    ) -> Option<usize>
        requires lengths { length spans.now ≡ length self.now.heads }
        requires span { slice_get spans.now beside.place ≡ Some (Some beside.span) }
        requires from { AreFrom beside.span.start ends.now }
        requires rooms { at + 128 * length ends.now ≤ length buffer.old }
        ensures end { MatchOption result (buffer.new ≡ buffer.old) (λ e. e ≤ at + 122 * length ends.now) }
        ensures text { MatchOption result (buffer.new ≡ buffer.old) (λ e. take e buffer.new
            ≡ take at buffer.old ++ flat_map (λ end. kept_text self.now (row_to spans.now beside.place end) doc.now false) ends.now) }
    {
        let _doc = doc;
        if !is_open_for(self.run.last.as_slice(), self.run.place, spans, beside) {
            return None;
        }
        let Some(line) = &self.run.line else {
            return None;
        };
        Some(line.put_all(ends, buffer, at))
    }

    /// Writes the line of a row that is not beside the last one. It is open at once where rows in runs were written not long before.
    fn put_new(&mut self, spans: &[Option<Span>], doc: &[u8], buffer: &mut [u8], at: usize) -> usize
        requires some { 0 < length spans.now }
        requires lengths { length spans.now ≡ length self.old.heads }
        requires inside { IsTrue (list_all (ends_by (length doc.now)) spans.now) }
        requires room { at + line_room false self.old.heads spans.now ≤ length buffer.old }
        ensures line { self.new ≡ self.old }
        ensures end { result ≤ at + line_room false self.old.heads spans.now }
        ensures text { take result buffer.new ≡ take at buffer.old ++ kept_text self.old spans.now doc.now false }
    {
        let Some(beside) = find_likely(&self.run, spans) else {
            return self.put_other(spans, doc, buffer, at);
        };
        self.run.to_open -= 1;
        self.put_first(spans, beside, doc, buffer, at)
    }

    /// Writes the line of a row, with which none is open.
    fn put_other(
        &mut self,
        spans: &[Option<Span>],
        doc: &[u8],
        buffer: &mut [u8],
        at: usize,
    ) -> usize
        requires some { 0 < length spans.now }
        requires lengths { length spans.now ≡ length self.old.heads }
        requires inside { IsTrue (list_all (ends_by (length doc.now)) spans.now) }
        requires room { at + line_room false self.old.heads spans.now ≤ length buffer.old }
        ensures line { self.new ≡ self.old }
        ensures end { result ≤ at + line_room false self.old.heads spans.now }
        ensures text { take result buffer.new ≡ take at buffer.old ++ kept_text self.old spans.now doc.now false }
    {
        let end = put_fields(self.fields.as_mut_slice(), spans, doc, false, buffer, at);
        let end = put_line_end(self.style, buffer, end);
        self.run.line = None;
        self.run.last.copy_from_slice(spans);
        end
    }

    /// Writes the line of a row, with which the lines of a run are open at the end of its span.
    fn put_first(
        &mut self,
        spans: &[Option<Span>],
        beside: Beside,
        doc: &[u8],
        buffer: &mut [u8],
        at: usize,
    ) -> usize
        requires lengths { length spans.now ≡ length self.old.heads }
        requires span { slice_get spans.now beside.place ≡ Some (Some beside.span) }
        requires inside { IsTrue (list_all (ends_by (length doc.now)) spans.now) }
        requires room { at + line_room false self.old.heads spans.now ≤ length buffer.old }
        ensures line { self.new ≡ self.old }
        ensures end { result ≤ at + line_room false self.old.heads spans.now }
        ensures text { take result buffer.new ≡ take at buffer.old ++ kept_text self.old spans.now doc.now false }
    {
        let parts = put_parted(self.fields.as_mut_slice(), spans, beside, doc, buffer, at);
        let end = put_line_end(self.style, buffer, parts.end);
        self.run.line = open_line(buffer, at, parts, end);
        self.run.place = beside.place;
        self.run.last.copy_from_slice(spans);
        end
    }
}

/// The room of a line with texts.
fn fields_room(fields: &[Field], spans: &[Option<Span>]) -> usize
    requires lengths { length spans.now ≡ length fields.now }
    requires few { length spans.now ≤ MOST_VARIABLES }
    ensures { result ≡ line_room true (heads_of fields.now) spans.now }
{
    let mut room = FIELD_BYTES;
    for k in 0..spans.len() {
        room += field_room(fields[k].style(), spans[k]);
    }
    room
}

/// The room of a field with its text.
#[inline(always)]
fn field_room(style: Style, span: Option<Span>) -> usize
    ensures value { result ≡ FIELD_BYTES + quote_room style true span }
    ensures few { result ≤ 2 ^ 35 }
{
    let bytes = match span {
        Some(span) => (span.end - span.start) as usize,
        None => return FIELD_BYTES,
    };
    match style {
        Style::Plain => FIELD_BYTES + 2 + 4 * bytes,
        Style::Json => FIELD_BYTES + 3 + 5 * bytes,
    }
}
