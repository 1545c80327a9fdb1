//! The lines of a page, row by row.
//!
//! A line is written where it waits for a put; one with long texts is written apart, in room that is used again.
ghost use Rattle.std.specs.Prelude.{◌≡◌, ℕ, ◌<◌, ◌≤◌, ◌++◌, [], IfOk, IsTrue, OnOk, OnErr, IsErrOf, length, false};
ghost use Rattle.std.specs.Bool.{OnTrue};
ghost use Rattle.std.specs.List.{list_all};
ghost use Rattle.span_core.specs.Lists.{Has};
ghost use Rattle.enumerator.specs.Ends.{AreEnds, rows_to};
ghost use Rattle.cell_text.specs.Cells.{ends_by};
ghost use Rattle.command_line.specs.RequestView.{request_view};
ghost use Rattle.rm_outside.specs.Change.{change, Adds, AddsPart, Failed};
ghost use Rattle.row_writer.specs.Kept.{kept_text};
ghost use Rattle.span_core.specs.declared.TheConstants.{MOST_VARIABLES};
ghost use Rattle.rematch_program.specs.Work.{Passes};
ghost use Rattle.rematch_program.specs.Written.{Fits, line_of, lines_of, page_begun, with_waiting};
ghost use Rattle.rematch_program.specs.declared.page_writer.PageFault.TheVariants as fault;

use crate::gather::{Ends, Gather, LINE_ROOM};
use crate::lines::{kept_line, put_head};
use command_line::{Form, Request};
use rm_outside::{Sink, SinkFailed};
use row_writer::KeptLine;
use span_core::{MOST_VARIABLES, OutOfMemory, Span, VarSet};
use std::alloc::Global;
use std::marker::Model;

/// Why a page was not written whole.
#[derive(Clone, Copy, Debug, PartialEq, Eq)]
pub enum PageFault {
    /// A put on out failed.
    Failed,
    /// Memory is wanting.
    OutOfMemory,
}

impl From<OutOfMemory> for PageFault {
    ghost from_gives = { λ _ e. e ≡ fault.OutOfMemory };

    fn from(_e: OutOfMemory) -> PageFault {
        PageFault::OutOfMemory
    }
}

impl From<SinkFailed> for PageFault {
    ghost from_gives = { λ _ e. e ≡ fault.Failed };

    fn from(_e: SinkFailed) -> PageFault {
        PageFault::Failed
    }
}

/// A page while it is written, seen as its form, its columns, its document, and what of its text waits to be put.
#[derive(Drop)]
pub struct PageWriter<'p> {
    form: Form,
    texts: bool,
    vars: &'p VarSet,
    document: &'p [u8],
    /// What is kept of the lines from one row to the next.
    kept: KeptLine,
    /// What waits.
    gather: Gather,
    /// The room of the line that was written apart last.
    apart: Vec<u8>,
}

impl<'p> Model for PageWriter<'p> {
    ghost use Rattle.std.specs.Prelude.{◌≡◌, ◌≤◌, length};
    ghost use Rattle.rematch_program.specs.Kept.{kept_of};
    ghost use Rattle.rematch_program.specs.Written.{Page, page_of};
    ghost use Rattle.span_core.specs.declared.TheConstants.{MOST_VARIABLES};

    ghost Value = { Page };

    ghost view = { λ p. page_of p.form p.texts p.vars.now p.document.now p.gather };

    ghost invariant = { λ p. (p.kept ≡ kept_of p.form p.vars.now) × (length p.vars.now ≤ MOST_VARIABLES) };
}

impl<'p> PageWriter<'p> {
    /// The page of a request, with these columns. What stands before its rows waits.
    pub fn begin(
        alloc: Global,
        request: &Request<'_>,
        vars: &'p VarSet,
        document: &'p [u8],
    ) -> Result<PageWriter<'p>, OutOfMemory>
        ensures { IfOk result (λ page. page ≡ page_begun (request_view request.now) vars.now document.now) }
    {
        let form = request.form;
        let mut head = Vec::new(alloc);
        put_head(form, vars, &mut head)?;
        let gather = Gather::new(alloc, &head)?;
        let kept = kept_line(alloc, form, vars)?;
        let _few = vars.len();
        Ok(PageWriter {
            form,
            texts: request.texts,
            vars,
            document,
            kept,
            gather,
            apart: head,
        })
    }

    /// Puts the line of a row, or lets it wait.
    #[inline(always)]
    pub fn put<O: Sink>(&mut self, spans: &[Option<Span>], out: &mut O) -> Result<(), PageFault>
        requires fits { Fits self.old spans.now }
        ensures same { self.new ≡ with_waiting self.new.waiting self.old }
        ensures ok { OnOk result (Passes self.old.waiting (line_of self.old spans.now) self.new.waiting
            (change (O.told out.old) (O.told out.new))) }
        ensures part { OnErr result (AddsPart (change (O.told out.old) (O.told out.new)) (self.old.waiting ++ line_of self.old spans.now)) }
        ensures failed { IsErrOf result PageFault.Failed → Failed (change (O.told out.old) (O.told out.new)) }
        ensures later { (O.told out.old).faults ≤ (O.told out.new).faults }
    {
        if self.kept.room(spans, self.texts) > LINE_ROOM {
            return self.put_apart(spans, out);
        }
        let (kept, document) = (&mut self.kept, self.document);
        if let Err(SinkFailed) = self.gather.add_row(kept, spans, document, self.texts, out) {
            return Err(PageFault::Failed);
        }
        Ok(())
    }

    /// Puts the line of a row, or lets it wait, after it is written in the room of the one before it that was too.
    #[inline(never)]
    fn put_apart<O: Sink>(&mut self, spans: &[Option<Span>], out: &mut O) -> Result<(), PageFault>
        requires fits { Fits self.old spans.now }
        ensures same { self.new ≡ with_waiting self.new.waiting self.old }
        ensures ok { OnOk result (Passes self.old.waiting (line_of self.old spans.now) self.new.waiting
            (change (O.told out.old) (O.told out.new))) }
        ensures part { OnErr result (AddsPart (change (O.told out.old) (O.told out.new)) (self.old.waiting ++ line_of self.old spans.now)) }
        ensures failed { IsErrOf result PageFault.Failed → Failed (change (O.told out.old) (O.told out.new)) }
        ensures later { (O.told out.old).faults ≤ (O.told out.new).faults }
    {
        let row = Shown {
            spans,
            document: self.document,
            texts: self.texts,
        };
        put_long(&row, &mut self.kept, &mut self.apart, &mut self.gather, out)
    }

    /// Whether lines of rows that differ in one end can be put at once: texts are not shown, and all spans have room.
    pub fn takes_ends(&self) -> bool
        ensures { OnTrue result ((self.now.texts ≡ false) × (length self.now.names < MOST_VARIABLES)) }
    {
        !self.texts && self.vars.len() < MOST_VARIABLES
    }

    /// Puts the lines of a row with each of these ends of its span at a place, or lets them wait.
    pub fn put_ends<O: Sink>(
        &mut self,
        spans: &[Option<Span>],
        place: usize,
        ends: &[u32],
        out: &mut O,
    ) -> Result<(), PageFault>
        requires some { 0 < length ends.now }
        requires most { length ends.now ≤ 16 }
        requires bare { self.old.texts ≡ false }
        requires few { length self.old.names < MOST_VARIABLES }
        requires fits { Fits self.old spans.now }
        requires ends { AreEnds spans.now place ends.now }
        requires each { (at : ℕ) → Has ends.now at → at ≤ length self.old.document }
        ensures same { self.new ≡ with_waiting self.new.waiting self.old }
        ensures ok { OnOk result (Passes self.old.waiting (lines_of self.old (rows_to spans.now place ends.now)) self.new.waiting
            (change (O.told out.old) (O.told out.new))) }
        ensures part { OnErr result (AddsPart (change (O.told out.old) (O.told out.new))
            (self.old.waiting ++ lines_of self.old (rows_to spans.now place ends.now))) }
        ensures failed { IsErrOf result PageFault.Failed → Failed (change (O.told out.old) (O.told out.new)) }
        ensures later { (O.told out.old).faults ≤ (O.told out.new).faults }
    {
        if place >= spans.len() {
            unreachable!();
        }
        let Some(span) = spans[place] else {
            unreachable!();
        };
        let of = Ends {
            spans,
            place,
            span,
            ends,
            document: self.document,
        };
        if let Err(SinkFailed) = self.gather.add_ends(&mut self.kept, &of, out) {
            return Err(PageFault::Failed);
        }
        Ok(())
    }

    /// Puts what waits.
    pub fn flush<O: Sink>(&mut self, out: &mut O) -> Result<(), SinkFailed>
        ensures same { self.new ≡ with_waiting self.new.waiting self.old }
        ensures ok { OnOk result (Adds (change (O.told out.old) (O.told out.new)) self.old.waiting) }
        ensures empty { OnOk result (self.new.waiting ≡ []) }
        ensures part { OnErr result (AddsPart (change (O.told out.old) (O.told out.new)) self.old.waiting) }
        ensures failed { OnErr result (Failed (change (O.told out.old) (O.told out.new))) }
        ensures later { (O.told out.old).faults ≤ (O.told out.new).faults }
    {
        self.gather.flush(out)
    }
}

/// A row as it is shown.
#[derive(Clone, Copy)]
struct Shown<'a> {
    spans: &'a [Option<Span>],
    document: &'a [u8],
    texts: bool,
}

/// Writes the line of a row in the room of the long line before it, and puts it, or lets it wait.
fn put_long<O: Sink>(
    row: &Shown<'_>,
    kept: &mut KeptLine,
    apart: &mut Vec<u8>,
    gather: &mut Gather,
    out: &mut O,
) -> Result<(), PageFault>
    requires width { length row.now.spans.now ≡ length kept.old.heads }
    requires few { length row.now.spans.now ≤ MOST_VARIABLES }
    requires inside { IsTrue (list_all (ends_by (length row.now.document.now)) row.now.spans.now) }
    ensures kept { kept.new ≡ kept.old }
    ensures ok { OnOk result (Passes gather.old (kept_text kept.old row.now.spans.now row.now.document.now row.now.texts) gather.new
        (change (O.told out.old) (O.told out.new))) }
    ensures part { OnErr result (AddsPart (change (O.told out.old) (O.told out.new))
        (gather.old ++ kept_text kept.old row.now.spans.now row.now.document.now row.now.texts)) }
    ensures failed { IsErrOf result PageFault.Failed → Failed (change (O.told out.old) (O.told out.new)) }
    ensures later { (O.told out.old).faults ≤ (O.told out.new).faults }
{
    make_room(apart, kept.room(row.spans, row.texts))?;
    let end = kept.put(row.spans, row.document, row.texts, apart.as_mut_slice(), 0);
    gather.add(&apart[..end], out)?;
    Ok(())
}

/// Makes the bytes so many at least.
fn make_room(bytes: &mut Vec<u8>, room: usize) -> Result<(), OutOfMemory>
    ensures { OnOk result (room ≤ length bytes.new.items) }
{
    if bytes.len() < room {
        bytes.resize(room, 0)?;
    }
    Ok(())
}
