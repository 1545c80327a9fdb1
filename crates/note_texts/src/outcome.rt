//! How a run ended, before its note is written.
ghost use Rattle.std.specs.Prelude.{◌≡◌, ◌⊎◌, codes};
ghost use Rattle.rm_outside.specs.Change.{change};
ghost use Rattle.note_texts.specs.Notes.{fault_note, fixed_text, line, note_bytes, note_text, size_note};
ghost use Rattle.note_texts.specs.Outcomes.{Is, IsOutOfMemory, Reports};

use crate::line::NoteLine;
use crate::note::{FixedNote, Note};
use crate::refusals::{query_refusal, size_refusal};
use marked_automaton::SizeFault;
use query_parser::QueryFault;
use rm_outside::{Sink, Status};
use span_core::OutOfMemory;
use std::alloc::Global;

/// A status with its note.
#[derive(Drop)]
pub struct Outcome {
    pub status: Status,
    pub note: NoteLine,
}

impl Outcome {
    /// A status with this note, or that memory is wanting for its line.
    pub fn with(alloc: Global, status: Status, note: &Note<'_>) -> Outcome
        ensures { Is result.status (note_bytes result.note) status (note_text note.now) ⊎ IsOutOfMemory result.status
            (note_bytes result.note) }
    {
        match NoteLine::of_note(alloc, note) {
            Ok(note) => Outcome { status, note },
            Err(OutOfMemory) => Outcome::out_of_memory(),
        }
    }

    /// A status with a note that is always the same.
    pub fn fixed(status: Status, note: FixedNote) -> Outcome
        ensures status { result.status ≡ status }
        ensures note { note_bytes result.note ≡ line (fixed_text note) }
    {
        Outcome {
            status,
            note: NoteLine::Fixed(note),
        }
    }

    /// Memory is wanting.
    pub fn out_of_memory() -> Outcome
        ensures status { result.status ≡ Status.Memory }
        ensures note { note_bytes result.note ≡ line (codes "out of memory") }
    {
        Outcome::fixed(Status::Memory, FixedNote::OutOfMemory)
    }

    /// A query's text has this fault, or memory is wanting.
    pub fn of_query(alloc: Global, fault: &QueryFault) -> Outcome
        ensures { ((¬ (fault.now ≡ QueryFault.OutOfMemory)) × Is result.status (note_bytes result.note) Status.Query
            (fault_note fault.now)) ⊎ IsOutOfMemory result.status (note_bytes result.note) }
    {
        match query_refusal(fault) {
            Some(note) => Outcome::with(alloc, Status::Query, &note),
            None => Outcome::out_of_memory(),
        }
    }

    /// An automaton of a query is too large, or memory is wanting.
    pub fn of_size(alloc: Global, fault: &SizeFault) -> Outcome
        ensures { ((¬ (fault.now ≡ SizeFault.OutOfMemory)) × Is result.status (note_bytes result.note) Status.Size
            (size_note fault.now)) ⊎ IsOutOfMemory result.status (note_bytes result.note) }
    {
        match size_refusal(fault) {
            Some(note) => Outcome::with(alloc, Status::Size, &note),
            None => Outcome::out_of_memory(),
        }
    }

    /// Writes the note, and returns the status with which the process ends.
    pub fn report<N: Sink>(&self, notes: &mut N) -> Status
        ensures { Reports self.now.status (note_bytes self.now.note)
            (change (N.told notes.old) (N.told notes.new))
            result }
    {
        match (notes.put(self.note.as_bytes()), self.status) {
            (Err(_), Status::Done) => Status::Write,
            (_, status) => status,
        }
    }
}
