//! The notes with which a query, the size of its automaton, or the weight of its table is refused.
ghost use Rattle.std.specs.Prelude.{◌≡◌, ◌++◌, IfSome, IfNone, OnOk, OnErr, OnSome};
ghost use Rattle.std.specs.Str.{IsUtf8};
ghost use Rattle.note_texts.specs.Notes.{QuotesUtf8, fault_note, note_text, size_note as size_text, table_note as table_text};
ghost use Rattle.note_texts.specs.Refusals.{MatchNote};

use crate::note::Note;
use crate::notes::push_note;
use marked_automaton::SizeFault;
use query_parser::QueryFault;
use span_core::OutOfMemory;
use std::alloc::Global;

/// Why something is refused.
#[derive(Drop)]
pub enum Refusal {
    /// The text of a note, without a line's end.
    Note(Vec<u8>),
    OutOfMemory,
}

impl Refusal {
    /// What this note says.
    pub fn of_note(alloc: Global, note: &Note<'_>) -> Refusal
        ensures { QuotesUtf8 note.now → MatchNote result (note_text note.now) }
    {
        let mut text = Vec::new(alloc);
        match push_note(note, &mut text) {
            Ok(()) => Refusal::Note(text),
            Err(OutOfMemory) => Refusal::OutOfMemory,
        }
    }

    /// A query's text has this fault.
    pub fn of_query(alloc: Global, fault: &QueryFault) -> Refusal
        ensures note { MatchNote result (fault_note fault.now) }
        ensures memory { fault.now ≡ QueryFault.OutOfMemory → result ≡ Refusal.OutOfMemory }
    {
        match query_refusal(fault) {
            Some(note) => Refusal::of_note(alloc, &note),
            None => Refusal::OutOfMemory,
        }
    }

    /// An automaton of a query has this size.
    pub fn of_size(alloc: Global, fault: &SizeFault) -> Refusal
        ensures note { MatchNote result (size_text fault.now) }
        ensures memory { fault.now ≡ SizeFault.OutOfMemory → result ≡ Refusal.OutOfMemory }
    {
        match size_refusal(fault) {
            Some(note) => Refusal::of_note(alloc, &note),
            None => Refusal::OutOfMemory,
        }
    }
}

/// The note of the fault of a query's text; there is none where memory is wanting.
pub fn query_refusal(fault: &QueryFault) -> Option<Note<'_>>
    ensures text { IfSome result (λ note. note_text note ≡ fault_note fault.now) }
    ensures utf8 { IfSome result QuotesUtf8 }
    ensures fault { OnSome result (¬ (fault.now ≡ QueryFault.OutOfMemory)) }
    ensures memory { IfNone result (fault.now ≡ QueryFault.OutOfMemory) }
{
    match fault {
        QueryFault::OutOfMemory => None,
        _ => Some(Note::Query(fault)),
    }
}

/// The note of the size of an automaton; there is none where memory is wanting.
pub fn size_refusal(fault: &SizeFault) -> Option<Note<'_>>
    ensures text { IfSome result (λ note. note_text note ≡ size_text fault.now) }
    ensures utf8 { IfSome result QuotesUtf8 }
    ensures fault { OnSome result (¬ (fault.now ≡ SizeFault.OutOfMemory)) }
    ensures memory { IfNone result (fault.now ≡ SizeFault.OutOfMemory) }
{
    match fault {
        SizeFault::OutOfMemory => None,
        _ => Some(Note::Size(fault)),
    }
}

/// Appends the note of the fault of a query's text, or leaves `out` as it was. Places count bytes from 0.
pub fn query_note(fault: &QueryFault, out: &mut Vec<u8>) -> Result<(), OutOfMemory>
    ensures ok { OnOk result (out.new.items ≡ out.old.items ++ fault_note fault.now) }
    ensures err { OnErr result (out.new.items ≡ out.old.items) }
    ensures utf8 { IsUtf8 (fault_note fault.now) }
{
    push_note(&Note::Query(fault), out)
}

/// Appends the note of a size, or leaves `out` as it was.
pub fn size_note(fault: &SizeFault, out: &mut Vec<u8>) -> Result<(), OutOfMemory>
    ensures ok { OnOk result (out.new.items ≡ out.old.items ++ size_text fault.now) }
    ensures err { OnErr result (out.new.items ≡ out.old.items) }
    ensures utf8 { IsUtf8 (size_text fault.now) }
{
    push_note(&Note::Size(fault), out)
}

/// Appends the note of a table past this limit, or leaves `out` as it was.
pub fn table_note(limit: u64, out: &mut Vec<u8>) -> Result<(), OutOfMemory>
    ensures ok { OnOk result (out.new.items ≡ out.old.items ++ table_text limit) }
    ensures err { OnErr result (out.new.items ≡ out.old.items) }
    ensures utf8 { IsUtf8 (table_text limit) }
{
    push_note(&Note::Table { limit }, out)
}
