//! What a handle owns, and what it is asked.
ghost use Rattle.std.specs.Prelude.{◌≡◌, Some, None, []};
ghost use Rattle.rm_outside.specs.Status.{exit_status_of};
ghost use Rattle.rematch_c.specs.Calls.{Counted, Filled, Holds, Named, Opened, Printed, Resumed, Shared};
ghost use Rattle.rematch_c.specs.Texts.{IsText};

use crate::open_rows::ReadRequest;
use crate::shared_query::out_of_memory;
use crate::{OpenRows, SharedQuery, ShortText, Slot};
use memory_run::MemoryRun;
use rm_outside::Status;
use std::alloc::Global;
use std::marker::Brand;
use std::sync::ledger::Blank;

/// What a handle owns.
#[derive(Drop)]
pub enum Held {
    /// A compiled query.
    Query(SharedQuery),
    /// The rows of a query on a document.
    Rows(OpenRows),
    /// What a run of the program is given.
    Run(MemoryRun),
}

/// The number of a status, which is that of the program's exit status.
pub(crate) fn number_of(status: Status) -> u32
    ensures { result ≡ exit_status_of status }
{
    u32::from(status.exit_status())
}

/// Puts a value into an empty slot, where there is memory for it.
pub(crate) fn hold(alloc: Global, slot: &mut Slot, held: Held, note: &mut ShortText) -> Status
    requires empty { slot.old.handle.home ≡ None }
    ensures { Holds held note.old slot.new.handle.home note.new result }
{
    match Box::new(alloc, held) {
        Ok(owned) => {
            slot.put(owned);
            Status::Done
        }
        Err(_) => out_of_memory(note),
    }
}

/// How many variables the rows of a query have.
pub(crate) fn count_variables(held: &Held, count: &mut usize) -> Status
    ensures { Counted (Some held.now) count.new (exit_status_of result) }
{
    let Held::Query(query) = held else {
        *count = 0;
        return Status::Words;
    };
    *count = query.prepared().vars().len();
    Status::Done
}

/// Says the name of a variable of a query.
pub(crate) fn name_variable(held: &Held, place: usize, name: &mut ShortText) -> Status
    requires silent { IsText name.old [] }
    ensures { Named (Some held.now) place name.new (exit_status_of result) }
{
    let Held::Query(query) = held else {
        return Status::Words;
    };
    let vars = query.prepared().vars();
    if place >= vars.len() {
        return Status::Words;
    }
    name.say(vars.at(place).as_bytes());
    Status::Done
}

/// Gives another slot the same query.
pub(crate) fn share(alloc: Global, held: &Held, other: &mut Slot) -> Status
    requires empty { other.old.handle.home ≡ None }
    ensures { Shared (Some held.now) other.new.handle.home (exit_status_of result) }
{
    let Held::Query(query) = held else {
        return Status::Words;
    };
    let Ok(query) = query.another() else {
        return Status::Memory;
    };
    match Box::new(alloc, Held::Query(query)) {
        Ok(owned) => {
            other.put(owned);
            Status::Done
        }
        Err(_) => Status::Memory,
    }
}

/// Reads a document for a query.
pub(crate) fn open(
    alloc: Global,
    held: &Held,
    asked: &ReadRequest<'_>,
    rows: &mut Slot,
    note: &mut ShortText,
) -> Status
    requires empty { rows.old.handle.home ≡ None }
    requires silent { IsText note.old [] }
    ensures { Opened (Some held.now) asked.now.document.now asked.now.options.now rows.new.handle.home note.new (exit_status_of result) }
{
    let Held::Query(query) = held else {
        return Status::Words;
    };
    match OpenRows::read::<Brand>(alloc, Blank::new(1), query, asked, None, note) {
        Ok(read) => hold(alloc, rows, Held::Rows(read), note),
        Err(status) => status,
    }
}

/// Reads a document for a query, for the rows behind the one whose cursor this is.
pub(crate) fn resume(
    alloc: Global,
    held: &Held,
    asked: &ReadRequest<'_>,
    cursor: &[u8],
    rows: &mut Slot,
    note: &mut ShortText,
) -> Status
    requires empty { rows.old.handle.home ≡ None }
    requires silent { IsText note.old [] }
    ensures { Resumed (Some held.now) asked.now.document.now cursor.now asked.now.options.now
        rows.new.handle.home note.new (exit_status_of result) }
{
    let Held::Query(query) = held else {
        return Status::Words;
    };
    match OpenRows::resume::<Brand>(alloc, Blank::new(1), query, asked, cursor, note) {
        Ok(read) => hold(alloc, rows, Held::Rows(read), note),
        Err(status) => status,
    }
}

/// Prints the cursor of a row, of which these are the numbers.
pub(crate) fn print_cursor(
    alloc: Global,
    held: &Held,
    row: &[u32],
    text: &mut [u8],
    length: &mut usize,
) -> Status
    requires none { length.old ≡ 0 }
    ensures { Printed (Some held.now) row.now text.old text.new length.new (exit_status_of result) }
{
    let Held::Rows(rows) = held else {
        return Status::Words;
    };
    let Some(row) = rows.row_of(row) else {
        return Status::Words;
    };
    let Ok(cursor) = rows.cursor(alloc, &row) else {
        return Status::Memory;
    };
    let count = cursor.len();
    *length = count;
    if count > text.len() {
        return Status::Write;
    }
    text[..count].copy_from_slice(&cursor);
    Status::Done
}

/// Gives the next rows.
pub(crate) fn fill(held: &mut Held, out: &mut [u32], most: usize, given: &mut usize) -> Status
    requires none { given.old ≡ 0 }
    ensures { Filled (Some held.old) (Some held.new) out.old out.new most given.new (exit_status_of result) }
{
    let Held::Rows(rows) = held else {
        return Status::Words;
    };
    let fitting = rows.fitting(out.len(), most);
    if fitting == 0 && most > 0 {
        return Status::Write;
    }
    *given = rows.fill::<Brand>(Blank::new(1), out, fitting);
    Status::Done
}
