//! What notes tell.
ghost use Rattle.std.specs.Prelude.{◌≡◌};
ghost use Rattle.note_texts.specs.Notes.{fixed_text, line};

use marked_automaton::SizeFault;
use query_parser::QueryFault;

/// A note that is always the same. Its line needs no memory.
#[derive(Clone, Copy, Debug)]
pub enum FixedNote {
    /// All that was asked for is told.
    End,
    /// The words are no request.
    BadCommandLine,
    /// The query could not be read.
    QueryUnread,
    /// The document could not be read.
    DocumentUnread,
    /// A request could not be read.
    RequestsUnread,
    /// The text of a cursor is none.
    NotACursor,
    /// The cursor is of other variables than the query.
    OtherVariables,
    /// The cursor keeps a span that ends past the document.
    PastTheDocument,
    /// A request came after the last that is answered.
    TooManyRequests,
    /// A put failed.
    WriteFailed,
    /// Memory is wanting.
    OutOfMemory,
}

impl FixedNote {
    /// The note's line, with its end.
    pub fn as_line(self) -> &'static str
        ensures { result.now ≡ line (fixed_text self) }
    {
        match self {
            FixedNote::End => "end\n",
            FixedNote::BadCommandLine => "bad command line\n",
            FixedNote::QueryUnread => "read failed: query\n",
            FixedNote::DocumentUnread => "read failed: document\n",
            FixedNote::RequestsUnread => "read failed: requests\n",
            FixedNote::NotACursor => "cursor: not a cursor\n",
            FixedNote::OtherVariables => "cursor: other variables\n",
            FixedNote::PastTheDocument => "cursor: past the document\n",
            FixedNote::TooManyRequests => "too many requests\n",
            FixedNote::WriteFailed => "write failed\n",
            FixedNote::OutOfMemory => "out of memory\n",
        }
    }
}

/// A note.
#[derive(Clone, Copy)]
pub enum Note<'r> {
    /// One that is always the same.
    Fixed(FixedNote),
    /// More rows remain behind this cursor, or from the word `start` on.
    More { cursor: &'r [u8] },
    /// The query's text has this fault.
    Query(&'r QueryFault),
    /// The query's text has more than `most` bytes.
    QueryTooLong { most: u64 },
    /// The document has more than `most` bytes.
    DocumentTooLong { most: u64 },
    /// A request has more than `most` bytes.
    RequestTooLong { most: u64 },
    /// An automaton of the query has this size.
    Size(&'r SizeFault),
    /// The cursor is of a document of `kept` bytes, and this one has `found`.
    OtherDocument { kept: u32, found: u32 },
    /// A table weighs more than `limit`.
    Table { limit: u64 },
    /// A filter weighs more than `limit`.
    Filter { limit: u64 },
}
