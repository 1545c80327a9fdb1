//! Lines of notes.
ghost use Rattle.std.specs.Prelude.{◌≡◌, IfOk};
ghost use Rattle.note_texts.specs.Notes.{line, note_bytes, note_text};

use crate::note::{FixedNote, Note};
use crate::notes::push_note;
use span_core::OutOfMemory;
use std::alloc::Global;

/// The line of a note, with its end.
#[derive(Drop)]
pub enum NoteLine {
    Fixed(FixedNote),
    Made(Vec<u8>),
}

impl NoteLine {
    /// The line of a note. Memory can be wanting only where the note is not always the same.
    pub fn of_note(alloc: Global, note: &Note<'_>) -> Result<NoteLine, OutOfMemory>
        ensures { IfOk result (λ made. note_bytes made ≡ line (note_text note.now)) }
    {
        if let Note::Fixed(fixed) = *note {
            return Ok(NoteLine::Fixed(fixed));
        }
        let mut bytes = Vec::new(alloc);
        push_note(note, &mut bytes)?;
        bytes.push(b'\n')?;
        Ok(NoteLine::Made(bytes))
    }

    /// Its bytes.
    pub fn as_bytes(&self) -> &[u8]
        ensures { result.now ≡ note_bytes self.now }
    {
        match self {
            NoteLine::Fixed(note) => note.as_line().as_bytes(),
            NoteLine::Made(bytes) => bytes,
        }
    }
}
