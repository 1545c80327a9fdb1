//! Rows of a query on a document.
ghost use Rattle.std.specs.Prelude.{◌≡◌, ◌*◌, ◌^◌, ◌≤◌, ◌<◌, [], length, IfOk, IfErr, IfNone, IfSome, IsTrue, OnOk, codes};
ghost use Rattle.std.specs.List.{list_all};
ghost use Rattle.std.specs.Option.{option_copied};
ghost use Rattle.cell_text.specs.Cells.{ends_by};
ghost use Rattle.row_cursor.specs.CursorTexts.{cursor_text};
ghost use Rattle.spanner_model.specs.Answers.{SpanRow};
ghost use Rattle.spanner_engine.specs.Begun.{row_kept};
ghost use Rattle.spanner_engine.specs.Fitting.{AreLast};
ghost use Rattle.known_tests.specs.Relations.{relation};
ghost use Rattle.note_texts.specs.Notes.{note_text};
ghost use Rattle.spanner_library.specs.Library.{Given, checks_by, tree};
ghost use Rattle.rematch_program.specs.Pages.{CursorFits};
ghost use Rattle.rematch_c.specs.Refusals.{IsLongRefusal, IsReadRefusal, IsResumeRefusal, IsUnread, Says};
ghost use Rattle.rematch_c.specs.Rows.{AreRowsAfter, AreRowsBehind, IsRowIn, rows_within};
ghost use Rattle.rematch_c.specs.Texts.{IsText};

use crate::ShortText;
use crate::numbers::row_of;
use crate::shared_query::{SharedQuery, note_said, out_of_memory};
use note_texts::{FixedNote, Note};
use rm_outside::Status;
use row_cursor::CursorFault;
use span_core::{Kept, OutOfMemory, Row, Steps};
use spanner_library::{BeginFault, Options, Rows};
use std::alloc::Global;
use std::marker::Model;
use std::sync::ledger::{Blank, Ledger};

/// The most bytes of a document.
const MOST_DOCUMENT: u64 = 268_435_456;

/// The greatest weight of a table that may be asked for.
const MOST_TABLE: u64 = 100_000_000;

/// How a document is read.
#[repr(C)]
#[derive(Clone, Copy)]
pub struct ReadOptions {
    /// The greatest weight of the table, and of the filter of an atom, as of `--max-table`. A greater one than 100,000,000 is
    /// taken as that.
    pub max_table: u64,
    /// Whether it is read only where an atom of the query may touch it, as with `--filter`.
    pub filter: bool,
}

/// What is asked to be read: a document, and how.
#[derive(Clone, Copy)]
pub(crate) struct ReadRequest<'d> {
    pub(crate) document: &'d [u8],
    pub(crate) options: &'d ReadOptions,
}

/// Rows that are still to come, with their query and a copy of their document.
#[derive(Drop)]
pub struct OpenRows {
    query: SharedQuery,
    document: Vec<u8>,
    rows: Rows,
}

impl Model for OpenRows {
    ghost use Rattle.rematch_c.specs.Rows.{AreLastRows, QueryRows, rows_code};

    ghost Value = { QueryRows };

    ghost coded = { rows_code };

    ghost view = { λ r. record {
      query = r.query;
      document = r.document.items;
      rest = r.rows.rest;
    } };

    ghost invariant = { λ r. AreLastRows r.query r.document.items r.rows.rest };
}

impl OpenRows {
    /// Reads a document, for the rows behind the one that is kept, or for all.
    pub(crate) fn read<L: Ledger>(
        alloc: Global,
        blank: Blank,
        query: &SharedQuery,
        asked: &ReadRequest<'_>,
        after: Option<&Kept>,
        note: &mut ShortText,
    ) -> Result<OpenRows, Status>
        requires name { blank.name ≡ L.name }
        requires parts { blank.parts ≡ L.parts }
        requires some { 0 < L.parts }
        requires row { IfSome (option_copied after) (λ kept. length kept.row ≡ length query.now.names) }
        ensures rows { IfOk result (AreRowsAfter query.now asked.now.document.now asked.now.options.now
            (row_kept (option_copied after.entry))) }
        ensures fits { OnOk result (CursorFits (length asked.now.document.now) (option_copied after.entry)) }
        ensures silent { OnOk result (IsText note.new []) }
        ensures refused { IfErr result (λ status.
            IsReadRefusal query.now asked.now.document.now asked.now.options.now (option_copied after.entry) status note.new) }
    {
        if asked.document.len() as u64 > MOST_DOCUMENT {
            return Err(too_long(alloc, note));
        }
        let options = Options {
            filter: asked.options.filter,
            limit: asked.options.max_table.min(MOST_TABLE),
        };
        let prepared = query.prepared();
        prepared.vars(); // the automaton was compiled from the query, which this call says
        let mut steps = Steps::<L>::new(blank);
        match prepared.open(alloc, asked.document, after, options, &mut steps) {
            Ok(rows) => kept(alloc, query, asked.document, rows, note),
            Err(fault) => Err(unread(alloc, options.limit, fault, note)),
        }
    }

    /// Reads a document, for the rows behind the one whose cursor this is.
    pub(crate) fn resume<L: Ledger>(
        alloc: Global,
        blank: Blank,
        query: &SharedQuery,
        asked: &ReadRequest<'_>,
        cursor: &[u8],
        note: &mut ShortText,
    ) -> Result<OpenRows, Status>
        requires name { blank.name ≡ L.name }
        requires parts { blank.parts ≡ L.parts }
        requires some { 0 < L.parts }
        ensures rows { IfOk result (AreRowsBehind query.now asked.now.document.now cursor.now asked.now.options.now) }
        ensures silent { OnOk result (IsText note.new []) }
        ensures refused { IfErr result (λ status.
            IsResumeRefusal query.now asked.now.document.now cursor.now asked.now.options.now status note.new) }
    {
        match row_cursor::read(cursor, query.prepared().vars()) {
            Ok(kept) => OpenRows::read::<L>(alloc, blank, query, asked, Some(&kept), note),
            Err(CursorFault::Syntax) => {
                let none = Note::Fixed(FixedNote::NotACursor);
                Err(said(alloc, Status::Cursor, &none, note))
            }
            Err(CursorFault::Variables) => {
                let other = Note::Fixed(FixedNote::OtherVariables);
                Err(said(alloc, Status::Cursor, &other, note))
            }
        }
    }

    /// The row of which these are the numbers, if they are those of a row within the document.
    pub(crate) fn row_of(&self, numbers: &[u32]) -> Option<Row>
        ensures some { IfSome result (IsRowIn (length self.now.query.names) (length self.now.document) numbers.now) }
        ensures none { IfNone result ((row : SpanRow) →
            IsRowIn (length self.now.query.names) (length self.now.document) numbers.now row → ⊥) }
    {
        row_of(
            numbers,
            self.query.prepared().vars().len(),
            self.document.len() as u32,
        )
    }

    /// The cursor of a row within the document.
    pub(crate) fn cursor(&self, alloc: Global, row: &Row) -> Result<Vec<u8>, OutOfMemory>
        requires lengths { length row.now ≡ length self.now.query.names }
        requires inside { IsTrue (list_all (ends_by (length self.now.document)) row.now) }
        ensures { IfOk result (λ text. text.items ≡ cursor_text self.now.query.names row.now (length self.now.document)) }
    {
        let mut text = Vec::new(alloc);
        let n = self.document.len() as u32;
        row_cursor::print(row, self.query.prepared().vars(), n, &mut text)?;
        Ok(text)
    }

    /// Gives the next rows, so many at most.
    pub(crate) fn fill<L: Ledger>(&mut self, blank: Blank, out: &mut [u32], most: usize) -> usize
        requires name { blank.name ≡ L.name }
        requires parts { blank.parts ≡ L.parts }
        requires some { 0 < L.parts }
        requires room { most * (2 * length self.old.query.names) ≤ length out.old }
        ensures given { Given (checks_by relation self.old.query) self.old.query.names self.old.document
            self.old.rest self.new.rest out.old out.new most result }
        ensures query { self.new.query ≡ self.old.query }
        ensures document { self.new.document ≡ self.old.document }
        ensures len { length out.new ≡ length out.old }
    {
        let mut steps = Steps::<L>::new(blank);
        self.rows.fill(self.query.prepared(), &self.document, out, most, &mut steps)
    }

    /// So many rows at most, and as many as have room in so many numbers.
    pub(crate) fn fitting(&self, room: usize, most: usize) -> usize
        ensures { result ≡ rows_within most room (2 * length self.now.query.names) }
    {
        let width = 2 * self.query.prepared().vars().len();
        if width == 0 {
            return most;
        }
        most.min(room / width)
    }
}

/// Keeps the rows with their query and a copy of their document.
fn kept(
    alloc: Global,
    query: &SharedQuery,
    document: &[u8],
    rows: Rows,
    note: &mut ShortText,
) -> Result<OpenRows, Status>
    requires few { length document.now ≤ 2 ^ 28 }
    requires last { AreLast (tree query.now).query document.now query.now.names rows.rest }
    ensures query { IfOk result (λ r. r.query ≡ query.now) }
    ensures document { IfOk result (λ r. r.document ≡ document.now) }
    ensures rest { IfOk result (λ r. r.rest ≡ rows.rest) }
    ensures silent { OnOk result (IsText note.new []) }
    ensures refused { IfErr result (λ status. (status ≡ Status.Memory) × IsText note.new (codes "out of memory")) }
{
    let Ok(query) = query.another() else {
        return Err(out_of_memory(note));
    };
    let Ok(document) = Vec::from_slice(alloc, document) else {
        return Err(out_of_memory(note));
    };
    note.clear();
    Ok(OpenRows {
        query,
        document,
        rows,
    })
}

/// The document is longer than one may be.
fn too_long(alloc: Global, note: &mut ShortText) -> Status
    ensures { IsLongRefusal result note.new }
{
    let long = Note::DocumentTooLong {
        most: MOST_DOCUMENT,
    };
    match note_said(alloc, &long, note) {
        Ok(()) => Status::Long,
        Err(OutOfMemory) => out_of_memory(note),
    }
}

/// Nothing is begun, where a table and a filter may weigh so much.
fn unread(alloc: Global, limit: u64, fault: BeginFault, note: &mut ShortText) -> Status
    ensures { IsUnread limit fault result note.new }
{
    match fault {
        BeginFault::CursorOther { kept, found } => {
            let other = Note::OtherDocument { kept, found };
            said(alloc, Status::Cursor, &other, note)
        }
        BeginFault::CursorPlace => {
            let past = Note::Fixed(FixedNote::PastTheDocument);
            said(alloc, Status::Cursor, &past, note)
        }
        BeginFault::Filter { weight: _ } => {
            said(alloc, Status::Size, &Note::Filter { limit }, note)
        }
        BeginFault::Table { weight: _ } => {
            said(alloc, Status::Size, &Note::Table { limit }, note)
        }
        BeginFault::OutOfMemory => out_of_memory(note),
    }
}

/// Says a note, which is that of this status.
fn said(alloc: Global, status: Status, told: &Note<'_>, note: &mut ShortText) -> Status
    ensures { Says status (note_text told.now) result note.new }
{
    match note_said(alloc, told, note) {
        Ok(()) => status,
        Err(OutOfMemory) => out_of_memory(note),
    }
}
