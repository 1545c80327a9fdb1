//! `rematch`: regular document spanners on a file or on standard input.
//!
//! The words are taken from the system, and the run is that of `whole_program` with the program's tests over the files, the
//! standard input, the standard output for rows or replies, and the standard error for the one note.
#![tactic(auto)]

ghost use Rattle.std.specs.Prelude.{◌≡◌, ◌<◌};

use known_tests::program_tests;
use rm_outside::{Counting, FileShelf, LineInput, NoteSink, OutSink, Status};
use span_core::Steps;
use std::env;
use std::io::ErrorKind;
use std::marker::Brand;
use std::process::ExitCode;
use std::sync::ledger::{Blank, Ledger};
use whole_program::run_all;

/// The exit status where the words cannot be had from the system, and memory is not wanting.
const NO_WORDS: u8 = 10;

fn main(rt: HostRuntime) -> ExitCode {
    let alloc = rt.alloc();
    let args = match env::args(&rt) {
        Ok(args) => args,
        Err(error) => {
            let memory = error.kind() == ErrorKind::OutOfMemory;
            let status = if memory {
                Status::Memory.exit_status()
            } else {
                NO_WORDS
            };
            return ExitCode::from(status);
        }
    };
    let words = match args.skip(1).collect::<Vec<String>>(alloc) {
        Ok(words) => words,
        Err(_) => return ExitCode::from(Status::Memory.exit_status()),
    };
    let status = run_outside::<Brand>(&rt, Blank::new(1), &words);
    ExitCode::from(status.exit_status())
}

/// Runs over the files and the standard streams. Where memory is wanting for the list of tests, or for what is read ahead of the standard input, that is the status.
fn run_outside<L: Ledger>(rt: &HostRuntime, blank: Blank, words: &[String]) -> Status
    requires name { blank.name ≡ L.name }
    requires parts { blank.parts ≡ L.parts }
    requires some { 0 < L.parts }
{
    let tests = match program_tests(rt.alloc()) {
        Ok(tests) => tests,
        Err(_) => return Status::Memory,
    };
    let mut source = match LineInput::new(rt.alloc(), Counting::new(rt.stdin())) {
        Ok(source) => source,
        Err(_) => return Status::Memory,
    };
    let mut steps = Steps::<L>::new(blank);
    let mut shelf = FileShelf::new(rt);
    let mut out = OutSink::new(Counting::new(rt.stdout()));
    let mut notes = NoteSink::new(Counting::new(rt.stderr()));
    run_all(
        rt.alloc(),
        words,
        &tests,
        &mut shelf,
        &mut source,
        &mut out,
        &mut notes,
        &mut steps,
    )
}
