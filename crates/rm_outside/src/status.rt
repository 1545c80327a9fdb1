//! How a run ended.
ghost use Rattle.std.specs.Prelude.{◌≡◌};
ghost use Rattle.rm_outside.specs.Status.{exit_status_of};

/// How a run ended. The exit status 1 is that of no run, and 10 is left to a `main` that cannot
/// have its words from the system.
#[derive(Clone, Copy, Debug, PartialEq, Eq)]
pub enum Status {
    /// 0: all was written.
    Done,
    /// 2: the words of the command line are refused.
    Words,
    /// 3: the query's text is refused.
    Query,
    /// 4: an automaton, a table or a filter passes its limit.
    Size,
    /// 5: the query or the document cannot be read.
    Read,
    /// 6: the document is too long.
    Long,
    /// 7: the cursor is refused.
    Cursor,
    /// 8: the output or the notes cannot be written.
    Write,
    /// 9: memory is wanting.
    Memory,
}

impl Status {
    /// The exit status of the process.
    pub fn exit_status(self) -> u8
        ensures { result ≡ exit_status_of self }
    {
        match self {
            Status::Done => 0,
            Status::Words => 2,
            Status::Query => 3,
            Status::Size => 4,
            Status::Read => 5,
            Status::Long => 6,
            Status::Cursor => 7,
            Status::Write => 8,
            Status::Memory => 9,
        }
    }
}
