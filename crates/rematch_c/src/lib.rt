//! The library for C: queries that are compiled once, and rows as numbers, with handles that own; and runs of the program.
//!
//! A slot is memory of the caller's that holds a handle, or none. What a handle owns, a compiled query or the rows of one on a
//! document, is on the heap, and is freed when the slot is closed. A call that is given a slot which holds nothing, or another
//! kind, refuses with a status. The numbers of the statuses are those of the program's exit statuses.
//!
//! C calls these functions through `library/c/rematch.c`, which refuses null pointers.
#![tactic(auto)]

ghost use Rattle.std.specs.Prelude.{◌≡◌, None};
ghost use Rattle.rematch_c.specs.Calls.{Compiled, Counted, Filled, Named, Opened, Printed, Resumed, Shared};
ghost use Rattle.rematch_c.specs.Runs.{DocumentAdded, Ended, RunBegun, WordAdded, outputs};

pub use handle::Handle;
pub use held::Held;
use held::{hold, number_of};
use open_rows::ReadRequest;
pub use open_rows::{OpenRows, ReadOptions};
use rm_outside::Status;
pub use runs::Written;
pub use shared_query::SharedQuery;
pub use short_text::ShortText;
pub use slot::Slot;
use std::alloc::Global;

mod block;
mod handle;
mod held;
mod numbers;
mod open_rows;
mod runs;
mod shared_query;
mod short_text;
mod slot;

/// Compiles the text of a query. What the slot holds is closed first. Where the text is refused the slot holds nothing, and the
/// note says why.
#[unsafe(no_mangle)]
pub extern "C" fn rematch_c_compile(
    alloc: Global,
    text: &[u8],
    query: &mut Slot,
    note: &mut ShortText,
) -> u32
    ensures { Compiled text.now query.new.handle.home note.new result }
{
    drop(query.take(alloc));
    match shared_query::read(alloc, text, note) {
        Ok(read) => number_of(hold(alloc, query, Held::Query(read), note)),
        Err(status) => number_of(status),
    }
}

/// How many variables the rows of a query have.
#[unsafe(no_mangle)]
pub extern "C" fn rematch_c_variables(alloc: Global, query: &mut Slot, count: &mut usize) -> u32
    ensures kept { query.new.handle.home ≡ query.old.handle.home }
    ensures counted { Counted query.old.handle.home count.new result }
{
    *count = 0;
    let Some(owned) = query.take(alloc) else {
        return number_of(Status::Words);
    };
    let status = held::count_variables(&owned, count);
    query.put(owned);
    number_of(status)
}

/// The name of a variable, by its place in a row, from 0.
#[unsafe(no_mangle)]
pub extern "C" fn rematch_c_variable(
    alloc: Global,
    query: &mut Slot,
    place: usize,
    name: &mut ShortText,
) -> u32
    ensures kept { query.new.handle.home ≡ query.old.handle.home }
    ensures named { Named query.old.handle.home place name.new result }
{
    name.clear();
    let Some(owned) = query.take(alloc) else {
        return number_of(Status::Words);
    };
    let status = held::name_variable(&owned, place, name);
    query.put(owned);
    number_of(status)
}

/// Gives another slot the same compiled query. What the other slot holds is closed first. The query is freed with the last that
/// holds it, rows too.
#[unsafe(no_mangle)]
pub extern "C" fn rematch_c_share(alloc: Global, query: &mut Slot, other: &mut Slot) -> u32
    ensures kept { query.new.handle.home ≡ query.old.handle.home }
    ensures shared { Shared query.old.handle.home other.new.handle.home result }
{
    drop(other.take(alloc));
    let Some(owned) = query.take(alloc) else {
        return number_of(Status::Words);
    };
    let status = held::share(alloc, &owned, other);
    query.put(owned);
    number_of(status)
}

/// Reads a document, and holds its rows. What the slot of the rows holds is closed first. Where the document is refused the slot
/// holds nothing, and the note says why.
#[unsafe(no_mangle)]
pub extern "C" fn rematch_c_open(
    alloc: Global,
    query: &mut Slot,
    document: &[u8],
    options: &ReadOptions,
    rows: &mut Slot,
    note: &mut ShortText,
) -> u32
    ensures kept { query.new.handle.home ≡ query.old.handle.home }
    ensures opened { Opened query.old.handle.home document.now options.now rows.new.handle.home note.new result }
{
    drop(rows.take(alloc));
    note.clear();
    let Some(owned) = query.take(alloc) else {
        return number_of(Status::Words);
    };
    let asked = ReadRequest { document, options };
    let status = held::open(alloc, &owned, &asked, rows, note);
    query.put(owned);
    number_of(status)
}

/// Reads a document, and holds the rows behind the one whose cursor this is. The refusals of the cursor are the program's, in its
/// order: the cursor's text before the document.
#[unsafe(no_mangle)]
pub extern "C" fn rematch_c_resume(
    alloc: Global,
    query: &mut Slot,
    document: &[u8],
    options: &ReadOptions,
    cursor: &[u8],
    rows: &mut Slot,
    note: &mut ShortText,
) -> u32
    ensures kept { query.new.handle.home ≡ query.old.handle.home }
    ensures resumed { Resumed query.old.handle.home document.now cursor.now options.now rows.new.handle.home note.new result }
{
    drop(rows.take(alloc));
    note.clear();
    let Some(owned) = query.take(alloc) else {
        return number_of(Status::Words);
    };
    let asked = ReadRequest { document, options };
    let status = held::resume(alloc, &owned, &asked, cursor, rows, note);
    query.put(owned);
    number_of(status)
}

/// Prints the cursor of a row, which is given by its numbers, into memory of the caller's. `length` says how many bytes it has,
/// also where there is no room for them. Numbers that are those of no row within the document are refused.
#[unsafe(no_mangle)]
pub extern "C" fn rematch_c_cursor(
    alloc: Global,
    rows: &mut Slot,
    row: &[u32],
    text: &mut [u8],
    length: &mut usize,
) -> u32
    ensures kept { rows.new.handle.home ≡ rows.old.handle.home }
    ensures printed { Printed rows.old.handle.home row.now text.old text.new length.new result }
{
    *length = 0;
    let Some(owned) = rows.take(alloc) else {
        return number_of(Status::Words);
    };
    let status = held::print_cursor(alloc, &owned, row, text, length);
    rows.put(owned);
    number_of(status)
}

/// Gives the next rows as numbers, so many at most and as many as there is room for: of each, for each variable, where its span
/// starts and where it ends, or twice 4,294,967,295. `given` says how many; where it is less than both, no row remains.
#[unsafe(no_mangle)]
pub extern "C" fn rematch_c_fill(
    alloc: Global,
    rows: &mut Slot,
    out: &mut [u32],
    most: usize,
    given: &mut usize,
) -> u32
    ensures { Filled rows.old.handle.home rows.new.handle.home out.old out.new most given.new result }
{
    *given = 0;
    let Some(mut owned) = rows.take(alloc) else {
        return number_of(Status::Words);
    };
    let status = held::fill(&mut owned, out, most, given);
    rows.put(owned);
    number_of(status)
}

/// Begins a run of the program, which is given nothing yet. What the slot holds is closed first.
#[unsafe(no_mangle)]
pub extern "C" fn rematch_c_begin_run(alloc: Global, run: &mut Slot) -> u32
    ensures { RunBegun run.new.handle.home result }
{
    drop(run.take(alloc));
    number_of(runs::begin_run(alloc, run))
}

/// Gives a run one more word. A word that is no UTF-8 is refused.
#[unsafe(no_mangle)]
pub extern "C" fn rematch_c_add_word(alloc: Global, run: &mut Slot, word: &[u8]) -> u32
    ensures { WordAdded run.old.handle.home word.now run.new.handle.home result }
{
    let Some(mut owned) = run.take(alloc) else {
        return number_of(Status::Words);
    };
    let number = runs::add_word(&mut owned, word);
    run.put(owned);
    number
}

/// Gives a run a document under its name. A name that is no UTF-8 is refused, and so is `-`, and one that has a document.
#[unsafe(no_mangle)]
pub extern "C" fn rematch_c_add_document(
    alloc: Global,
    run: &mut Slot,
    name: &[u8],
    document: &[u8],
) -> u32
    ensures { DocumentAdded run.old.handle.home name.now document.now run.new.handle.home result }
{
    let Some(mut owned) = run.take(alloc) else {
        return number_of(Status::Words);
    };
    let number = runs::add_document(&mut owned, name, document);
    run.put(owned);
    number
}

/// Runs the program on what was given and on a standard input. The run is given nothing any more then. What the program writes is
/// copied to `rows` and to `notes`, and `written` says how much that is.
#[unsafe(no_mangle)]
pub extern "C" fn rematch_c_run(
    alloc: Global,
    run: &mut Slot,
    input: &[u8],
    rows: &mut [u8],
    notes: &mut [u8],
    written: &mut Written,
) -> u32
    ensures { Ended run.old.handle.home input.now run.new.handle.home (outputs rows.old rows.new notes.old notes.new written.new) result }
{
    *written = Written { rows: 0, notes: 0 };
    let Some(mut owned) = run.take(alloc) else {
        return number_of(Status::Words);
    };
    let status = runs::run_program(alloc, &mut owned, input, rows, notes, written);
    run.put(owned);
    number_of(status)
}

/// Frees what the slot holds, which then holds nothing.
#[unsafe(no_mangle)]
pub extern "C" fn rematch_c_close(alloc: Global, slot: &mut Slot)
    ensures { slot.new.handle.home ≡ None }
{
    drop(slot.take(alloc));
}

#[cfg(test)]
mod tests {
    use super::*;

    fn text() -> ShortText {
        ShortText {
            length: 0,
            bytes: [0; 248],
        }
    }

    /// A query is asked of a document, and closed before its rows.
    #[test]
    fn gives_rows_as_numbers(rt: HostRuntime) {
        let alloc = rt.alloc();
        let (mut query, mut rows) = (Slot::empty(alloc), Slot::empty(alloc));
        let mut note = text();
        assert_eq!(rt;
            rematch_c_compile(alloc, b"/a!x{b}|c/", &mut query, &mut note),
            0
        );
        let options = ReadOptions {
            max_table: 1_000_000,
            filter: false,
        };
        assert_eq!(rt;
            rematch_c_open(alloc, &mut query, b"abc", &options, &mut rows, &mut note),
            0
        );
        rematch_c_close(alloc, &mut query);
        let mut out = [7; 5];
        let mut given = 0;
        assert_eq!(rt;
            rematch_c_fill(alloc, &mut rows, &mut out, 9, &mut given),
            0
        );
        assert_eq!(rt; given, 2);
        assert_eq!(rt; out[0], 1);
        assert_eq!(rt; out[1], 2);
        assert_eq!(rt; out[2], u32::MAX);
        assert_eq!(rt; out[4], 7);
        rematch_c_close(alloc, &mut rows);
    }

    /// A fault has the program's note and status.
    #[test]
    fn refuses_a_text(rt: HostRuntime) {
        let alloc = rt.alloc();
        let mut query = Slot::empty(alloc);
        let mut note = text();
        assert_eq!(rt; rematch_c_compile(alloc, b"/(/", &mut query, &mut note), 3);
        assert_eq!(rt; note.length, 22);
        assert_eq!(rt; &note.bytes[..22], b"query: not closed at 1".as_slice());
    }
}
