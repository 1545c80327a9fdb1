//! Sessions: lines with requests come in, and a line with a reply goes out for each.
//!
//! A session is a query with its tests on a document, whose rows are given a few at a time. What a session answers
//! depends on its own requests alone, but for the number of sessions that may be open at once.
#![tactic(auto)]

ghost use Rattle.std.specs.Prelude.{◌≡◌};
ghost use Rattle.session_server.specs.declared.TheConstants.{MOST_AUTOMATA, MOST_GROWN, MOST_LINE_BYTES, MOST_ROWS_ASKED, MOST_SESSIONS, SESSION_TABLE};

pub use note_texts::{query_note, size_note, table_note};
pub use serving::serve;

mod answering;
mod json_rows;
pub mod laws;
mod replies;
mod requests;
mod serving;
mod session;

/// The most bytes of a line with a request.
pub const MOST_LINE_BYTES: usize = 1_048_576;

/// The most sessions that are open at once.
pub const MOST_SESSIONS: usize = 64;

/// The most bytes that a session's document may grow to.
pub const MOST_GROWN: usize = 16_777_216;

/// The most rows that a request may ask for.
pub const MOST_ROWS_ASKED: u64 = 1000;

/// The greatest weight of the table that a session's document is read with.
pub const SESSION_TABLE: u64 = 1_000_000;

/// The most bytes that the ways and the ends of all sessions' automata take together: 48 a way and 16 an end. Past it the
/// reply to `open` is `memory`.
pub const MOST_AUTOMATA: u64 = 4_294_967_296;

/// The limits, as numbers: a law.
pub fn limits()
    ensures line_bytes { MOST_LINE_BYTES ≡ 1048576 }
    ensures sessions { MOST_SESSIONS ≡ 64 }
    ensures grown { MOST_GROWN ≡ 16777216 }
    ensures rows { MOST_ROWS_ASKED ≡ 1000 }
    ensures table { SESSION_TABLE ≡ 1000000 }
    ensures automata { MOST_AUTOMATA ≡ 4294967296 }
{}
