//! How a program that checks ends.
use std::process::ExitCode;

/// How a run ends.
#[derive(Clone, Copy)]
pub enum Ending {
    /// All is as it must be.
    Agrees,
    /// Something differs, and was printed.
    Differs,
    /// There is not enough memory.
    OutOfMemory,
    /// A line cannot be printed.
    NotPrinted,
}

impl Ending {
    /// The exit status of the program: 0 where all agrees.
    pub fn exit_code(self) -> ExitCode {
        let status = match self {
            Ending::Agrees => 0,
            Ending::Differs => 1,
            Ending::OutOfMemory => 2,
            Ending::NotPrinted => 3,
        };
        ExitCode::from(status)
    }

    /// Whether all is as it must be, so that the program goes on.
    pub fn agrees(self) -> bool {
        matches!(self, Ending::Agrees)
    }
}
