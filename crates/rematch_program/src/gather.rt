//! Lines are gathered, and put as whole lines: as many lines and runs of lines as fit a piece in one put, a longer line alone.
//!
//! What was put is always a front of the whole text that ends with a line, whatever fails after it.
ghost use Rattle.std.specs.Prelude.{◌≡◌, ℕ, ◌+◌, ◌-◌, ◌≤◌, ◌++◌, [], OnOk, OnErr, IfOk, IsTrue, length, take, Some, slice_get, slice_range, false};
ghost use Rattle.std.specs.List.{list_all};
ghost use Rattle.span_core.specs.Lists.{Has};
ghost use Rattle.enumerator.specs.Ends.{AreFrom};
ghost use Rattle.cell_text.specs.Cells.{ends_by};
ghost use Rattle.row_writer.specs.Kept.{kept_text, line_room};
ghost use Rattle.rm_outside.specs.Change.{change, Adds, AddsPart, Failed};
ghost use Rattle.rematch_program.specs.Kept.{ends_text};
ghost use Rattle.rematch_program.specs.Work.{Passes};
ghost use Rattle.rematch_program.specs.declared.gather.TheConstants.{LINE_ROOM, PIECE};

use cell_text::put_bytes;
use rm_outside::{Sink, SinkFailed};
use row_writer::KeptLine;
use span_core::{MOST_VARIABLES, OutOfMemory, Span};
use std::alloc::Global;
use std::marker::Model;

/// The most bytes of a put of several lines.
pub const PIECE: usize = 65_536;

/// The most room of a line that is written in place, behind those that wait. All spans have this room.
pub const LINE_ROOM: usize = 2_048;

/// The lines that wait for a put, which are seen. Once it is made, no call takes memory.
#[derive(Drop)]
pub struct Gather {
    bytes: Vec<u8>,
    end: usize,
}

impl Model for Gather {
    ghost use Rattle.std.specs.Prelude.{◌≡◌, ◌≤◌, List, ℕ, take, length};

    ghost Value = { List ℕ };

    ghost view = { λ g. take g.end g.bytes.items };

    ghost invariant = { λ g. (g.end ≤ 65536) × (length g.bytes.items ≡ 67584) };
}

impl Gather {
    /// These bytes wait, and the room that is ever needed is made.
    pub fn new(alloc: Global, first: &[u8]) -> Result<Gather, OutOfMemory>
        requires { length first.now ≤ PIECE }
        ensures { IfOk result (λ g. g ≡ first.now) }
    {
        let mut bytes = vec![in alloc; 0; PIECE + LINE_ROOM]?;
        let end = put_bytes(first, bytes.as_mut_slice(), 0);
        Ok(Gather { bytes, end })
    }

    /// Puts what waits, unless nothing does.
    pub fn flush<O: Sink>(&mut self, out: &mut O) -> Result<(), SinkFailed>
        ensures ok { OnOk result (Adds (change (O.told out.old) (O.told out.new)) self.old) }
        ensures empty { OnOk result (self.new ≡ []) }
        ensures part { OnErr result (AddsPart (change (O.told out.old) (O.told out.new)) self.old) }
        ensures failed { OnErr result (Failed (change (O.told out.old) (O.told out.new))) }
        ensures later { (O.told out.old).faults ≤ (O.told out.new).faults }
    {
        if self.end == 0 {
            return Ok(());
        }
        out.put(&self.bytes[..self.end])?;
        self.end = 0;
        Ok(())
    }

    /// Adds a line.
    #[tactic(auto, using(crate::proofs::Gathers::part_more, crate::proofs::Gathers::part_after, crate::proofs::Gathers::passes_after))]
    pub fn add<O: Sink>(&mut self, line: &[u8], out: &mut O) -> Result<(), SinkFailed>
        ensures ok { OnOk result (Passes self.old line.now self.new (change (O.told out.old) (O.told out.new))) }
        ensures part { OnErr result (AddsPart (change (O.told out.old) (O.told out.new)) (self.old ++ line.now)) }
        ensures failed { OnErr result (Failed (change (O.told out.old) (O.told out.new))) }
        ensures later { (O.told out.old).faults ≤ (O.told out.new).faults }
    {
        if line.len() <= PIECE - self.end {
            self.end = put_bytes(line, self.bytes.as_mut_slice(), self.end);
            return Ok(());
        }
        match self.flush(out) {
            Ok(()) => self.begin(line, out),
            Err(fault) => Err(fault),
        }
    }

    /// Adds a line where none waits.
    fn begin<O: Sink>(&mut self, line: &[u8], out: &mut O) -> Result<(), SinkFailed>
        requires { self.old ≡ [] }
        ensures ok { OnOk result (Passes [] line.now self.new (change (O.told out.old) (O.told out.new))) }
        ensures part { OnErr result (AddsPart (change (O.told out.old) (O.told out.new)) line.now) }
        ensures failed { OnErr result (Failed (change (O.told out.old) (O.told out.new))) }
        ensures later { (O.told out.old).faults ≤ (O.told out.new).faults }
    {
        if line.len() > PIECE {
            return out.put(line);
        }
        self.end = put_bytes(line, self.bytes.as_mut_slice(), 0);
        Ok(())
    }

    /// Adds the line of a row. It is written where it waits, and what waits is put first where both are too long.
    #[inline(always)]
    pub fn add_row<O: Sink>(
        &mut self,
        line: &mut KeptLine,
        spans: &[Option<Span>],
        document: &[u8],
        texts: bool,
        out: &mut O,
    ) -> Result<(), SinkFailed>
        requires lengths { length spans.now ≡ length line.old.heads }
        requires inside { IsTrue (list_all (ends_by (length document.now)) spans.now) }
        requires room { line_room texts line.old.heads spans.now ≤ LINE_ROOM }
        ensures line { line.new ≡ line.old }
        ensures ok { OnOk result (Passes self.old (kept_text line.old spans.now document.now texts) self.new
            (change (O.told out.old) (O.told out.new))) }
        ensures part { OnErr result (AddsPart (change (O.told out.old) (O.told out.new))
            (self.old ++ kept_text line.old spans.now document.now texts)) }
        ensures failed { OnErr result (Failed (change (O.told out.old) (O.told out.new))) }
        ensures later { (O.told out.old).faults ≤ (O.told out.new).faults }
    {
        let end = line.put(spans, document, texts, self.bytes.as_mut_slice(), self.end);
        if end <= PIECE {
            self.end = end;
            return Ok(());
        }
        match put_before(&mut self.bytes, self.end, end, out) {
            Ok(()) => {
                self.end = end - self.end;
                Ok(())
            }
            Err(fault) => Err(fault),
        }
    }

    /// Adds the lines of a row with each of these ends of one span. They are written where they wait, and what waits is put first
    /// where all are too long.
    pub fn add_ends<O: Sink>(
        &mut self,
        line: &mut KeptLine,
        of: &Ends<'_>,
        out: &mut O,
    ) -> Result<(), SinkFailed>
        requires most { length of.now.ends.now ≤ 16 }
        requires lengths { length of.now.spans.now ≡ length line.old.heads }
        requires room { line_room false line.old.heads of.now.spans.now ≤ LINE_ROOM }
        requires span { slice_get of.now.spans.now of.now.place ≡ Some (Some of.now.span) }
        requires from { AreFrom of.now.span.start of.now.ends.now }
        requires inside { IsTrue (list_all (ends_by (length of.now.document.now)) of.now.spans.now) }
        requires each { (at : ℕ) → Has of.now.ends.now at → at ≤ length of.now.document.now }
        ensures line { line.new ≡ line.old }
        ensures ok { OnOk result (Passes self.old
            (ends_text line.old of.now.spans.now of.now.place of.now.document.now of.now.ends.now) self.new
            (change (O.told out.old) (O.told out.new))) }
        ensures part { OnErr result (AddsPart (change (O.told out.old) (O.told out.new))
            (self.old ++ ends_text line.old of.now.spans.now of.now.place of.now.document.now of.now.ends.now)) }
        ensures failed { OnErr result (Failed (change (O.told out.old) (O.told out.new))) }
        ensures later { (O.told out.old).faults ≤ (O.told out.new).faults }
    {
        let (at, buffer) = (self.end, self.bytes.as_mut_slice());
        let Some(end) = line.put_ends(
            of.spans,
            of.place,
            of.span,
            of.ends,
            of.document,
            buffer,
            at,
        ) else {
            return self.add_each(line, of, out);
        };
        if end <= PIECE {
            self.end = end;
            return Ok(());
        }
        match put_before(&mut self.bytes, self.end, end, out) {
            Ok(()) => {
                self.end = end - self.end;
                Ok(())
            }
            Err(fault) => Err(fault),
        }
    }

    /// Adds these lines row by row.
    #[inline(never)]
    fn add_each<O: Sink>(
        &mut self,
        line: &mut KeptLine,
        of: &Ends<'_>,
        out: &mut O,
    ) -> Result<(), SinkFailed>
        requires lengths { length of.now.spans.now ≡ length line.old.heads }
        requires room { line_room false line.old.heads of.now.spans.now ≤ LINE_ROOM }
        requires span { slice_get of.now.spans.now of.now.place ≡ Some (Some of.now.span) }
        requires from { AreFrom of.now.span.start of.now.ends.now }
        requires inside { IsTrue (list_all (ends_by (length of.now.document.now)) of.now.spans.now) }
        requires each { (at : ℕ) → Has of.now.ends.now at → at ≤ length of.now.document.now }
        ensures line { line.new ≡ line.old }
        ensures ok { OnOk result (Passes self.old
            (ends_text line.old of.now.spans.now of.now.place of.now.document.now of.now.ends.now) self.new
            (change (O.told out.old) (O.told out.new))) }
        ensures part { OnErr result (AddsPart (change (O.told out.old) (O.told out.new))
            (self.old ++ ends_text line.old of.now.spans.now of.now.place of.now.document.now of.now.ends.now)) }
        ensures failed { OnErr result (Failed (change (O.told out.old) (O.told out.new))) }
        ensures later { (O.told out.old).faults ≤ (O.told out.new).faults }
    {
        let mut row = [None; MOST_VARIABLES];
        row[..of.spans.len()].copy_from_slice(of.spans);
        for end in of.ends {
            row[of.place] = Some(Span::new(of.span.start, *end));
            let spans = &row[..of.spans.len()];
            if let Err(fault) = self.add_row(line, spans, of.document, false, out) {
                return Err(fault);
            }
        }
        Ok(())
    }
}

/// The lines of a row without texts with each of these ends of its span at a place, and the document.
#[derive(Clone, Copy)]
pub struct Ends<'a> {
    pub spans: &'a [Option<Span>],
    pub place: usize,
    pub span: Span,
    pub ends: &'a [u32],
    pub document: &'a [u8],
}

/// Puts the bytes before a place, and moves those from there up to `end` to the front.
fn put_before<O: Sink>(
    bytes: &mut Vec<u8>,
    at: usize,
    end: usize,
    out: &mut O,
) -> Result<(), SinkFailed>
    requires order { at ≤ end }
    requires inside { end ≤ length bytes.old.items }
    ensures length { length bytes.new.items ≡ length bytes.old.items }
    ensures ok { OnOk result (Adds (change (O.told out.old) (O.told out.new)) (take at bytes.old.items)) }
    ensures moved { OnOk result (take at bytes.old.items ++ take (end - at) bytes.new.items ≡ take end bytes.old.items) }
    ensures part { OnErr result (AddsPart (change (O.told out.old) (O.told out.new)) (take at bytes.old.items)) }
    ensures failed { OnErr result (Failed (change (O.told out.old) (O.told out.new))) }
    ensures later { (O.told out.old).faults ≤ (O.told out.new).faults }
{
    out.put(&bytes[..at])?;
    bytes.copy_within(at..end, 0);
    Ok(())
}
