//! Runs of the program, by words, documents and a standard input in memory.
ghost use Rattle.std.specs.Prelude.{◌≡◌, ◌≤◌, ◌++◌, length, drop, None, Some};
ghost use Rattle.rm_outside.specs.Status.{exit_status_of};
ghost use Rattle.rematch_c.specs.Runs.{DocumentAdded, Ended, RunBegun, WordAdded, outputs};

use crate::held::{Held, number_of};
use crate::slot::Slot;
use memory_run::{DocumentFault, MemoryRun};
use rm_outside::Status;
use span_core::OutOfMemory;
use std::alloc::Global;
use std::marker::Brand;
use std::mem::replace;
use std::sync::ledger::Blank;

/// The number with which a text that is no UTF-8 is refused.
const NO_TEXT: u32 = 10;

/// How many bytes a run wrote.
#[repr(C)]
#[derive(Clone, Copy)]
pub struct Written {
    /// Of its standard output.
    pub rows: usize,
    /// Of its standard error.
    pub notes: usize,
}

/// Puts a run that is given nothing into an empty slot, where there is memory for it.
pub(crate) fn begin_run(alloc: Global, run: &mut Slot) -> Status
    requires empty { run.old.handle.home ≡ None }
    ensures { RunBegun run.new.handle.home (exit_status_of result) }
{
    match Box::new(alloc, Held::Run(MemoryRun::new(alloc))) {
        Ok(owned) => {
            run.put(owned);
            Status::Done
        }
        Err(_) => Status::Memory,
    }
}

/// Gives a run a word.
pub(crate) fn add_word(held: &mut Held, word: &[u8]) -> u32
    ensures { WordAdded (Some held.old) word.now (Some held.new) result }
{
    let Held::Run(run) = held else {
        return number_of(Status::Words);
    };
    let Ok(word) = str::from_utf8(word) else {
        return NO_TEXT;
    };
    match run.add_word(word) {
        Ok(()) => number_of(Status::Done),
        Err(OutOfMemory) => number_of(Status::Memory),
    }
}

/// Gives a run a document.
pub(crate) fn add_document(held: &mut Held, name: &[u8], document: &[u8]) -> u32
    ensures { DocumentAdded (Some held.old) name.now document.now (Some held.new) result }
{
    let Held::Run(run) = held else {
        return number_of(Status::Words);
    };
    let Ok(name) = str::from_utf8(name) else {
        return NO_TEXT;
    };
    match run.add_document(name, document) {
        Ok(()) => number_of(Status::Done),
        Err(DocumentFault::Name) => number_of(Status::Words),
        Err(DocumentFault::OutOfMemory) => number_of(Status::Memory),
    }
}

/// Runs the program on what a run was given, and gives it nothing then.
pub(crate) fn run_program(
    alloc: Global,
    held: &mut Held,
    input: &[u8],
    rows: &mut [u8],
    notes: &mut [u8],
    written: &mut Written,
) -> Status
    requires rows { written.old.rows ≡ 0 }
    requires notes { written.old.notes ≡ 0 }
    ensures { Ended (Some held.old) input.now (Some held.new)
        (outputs rows.old rows.new notes.old notes.new written.new) (exit_status_of result) }
{
    let Held::Run(run) = held else {
        return Status::Words;
    };
    let given = replace(run, MemoryRun::new(alloc));
    let (row_room, note_room) = (rows.len(), notes.len());
    let Ok(ended) = given.run::<Brand>(Blank::new(1), input, row_room, note_room) else {
        return Status::Memory;
    };
    let (row_bytes, note_bytes) = (ended.rows.bytes(), ended.notes.bytes());
    if row_bytes.len() > row_room || note_bytes.len() > note_room {
        return Status::Write;
    }
    put_front(row_bytes, rows);
    put_front(note_bytes, notes);
    written.rows = row_bytes.len();
    written.notes = note_bytes.len();
    ended.status
}

/// Copies all of these bytes to the front.
fn put_front(bytes: &[u8], to: &mut [u8])
    requires { length bytes.now ≤ length to.old }
    ensures { to.new ≡ bytes.now ++ drop (length bytes.now) to.old }
{
    let count = bytes.len();
    to[..count].copy_from_slice(bytes);
}
