//! Checks the readings of documents against their definition.
//!
//! For each query of a table, each short document over the table's bytes is read by the query's automaton at every set of
//! positions. The words of each reading must be the words that its definition gives, in block order: this program lists
//! them by going through the places one by one, with lists of states and no table, graph or cell. A reading at all
//! positions must have the same words where the document is read in two pieces, wherever it is cut.
//!
//! Then it reads a document that nothing matches, of which one cell alone is kept, and two of equal lines, of which few
//! bytes are read set by set.
//!
//! That all this is so is proved of the crates. What a run shows is what no contract says: that the calls succeed on
//! such inputs.
//!
//! The exit status is 0 where all agree, and else that of the first case that comes: 1 where something differs, 2 where
//! there is not enough memory, 3 where a line cannot be printed.
#![tactic(auto)]

mod chains;
mod checking;
mod definition;
mod fault;
mod idle;
mod pieces;
mod reading;
mod repeated;
mod words;

use chains::chains_are_freed;
use check_cases::{Ending, GROUPS};
use checking::{Tally, check_text};
use fault::Fault;
use idle::cells_after;
use repeated::{kept_of_digits, kept_of_letters};
use std::io;
use std::process::ExitCode;

fn main(rt: HostRuntime) -> ExitCode {
    check_all(&rt).unwrap_or(Ending::NotPrinted).exit_code()
}

/// Checks the queries, and then what is kept in memory.
fn check_all(rt: &HostRuntime) -> io::Result<Ending> {
    let ending = check_queries(rt)?;
    if ending.agrees() {
        return check_memory(rt);
    }
    Ok(ending)
}

/// Checks the queries, on all short documents.
fn check_queries(rt: &HostRuntime) -> io::Result<Ending> {
    let mut total = Tally::none();
    for group in &GROUPS {
        for text in group.texts.lines() {
            match check_text(rt.alloc(), group.bytes, text) {
                Ok(tally) => {
                    println!(rt; "ok {text} readings {}", tally.readings)?;
                    total = total.plus(tally);
                }
                Err(fault) => return ended_by(rt, text, &fault),
            }
        }
    }
    let Tally {
        queries,
        readings,
        pieces,
    } = total;
    println!(rt; "queries {queries} readings {readings} in pieces {pieces}")?;
    Ok(Ending::Agrees)
}

/// Checks that a document that nothing matches takes no room, and what is kept of one of equal lines.
fn check_memory(rt: &HostRuntime) -> io::Result<Ending> {
    println!(rt; "chains are freed {}", chains_are_freed(rt.alloc()))?;
    match cells_after(rt.alloc()) {
        Ok(live) => println!(rt; "live cells {live}")?,
        Err(fault) => return ended_by(rt, "live cells", &fault),
    }
    match kept_of_letters(rt.alloc()) {
        Ok(kept) => println!(rt; "programs {} read set by set {}", kept.programs, kept.anew)?,
        Err(fault) => return ended_by(rt, "programs", &fault),
    }
    match kept_of_digits(rt.alloc()) {
        Ok(kept) => println!(rt; "of digits {} read set by set {}", kept.programs, kept.anew)?,
        Err(fault) => return ended_by(rt, "of digits", &fault),
    }
    Ok(Ending::Agrees)
}

/// Prints the fault of a text, and gives the ending.
fn ended_by(rt: &HostRuntime, text: &str, fault: &Fault) -> io::Result<Ending> {
    if matches!(fault, Fault::OutOfMemory) {
        println!(rt; "out of memory")?;
        return Ok(Ending::OutOfMemory);
    }
    println!(rt; "{text} fails: {fault:?}")?;
    Ok(Ending::Differs)
}
