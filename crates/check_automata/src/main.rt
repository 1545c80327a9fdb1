//! Checks automata over one another, against the plain evaluator and against tables that were worked out by hand.
//!
//! For each query of a table, and each short document over the table's bytes, every row over the query's variables is
//! tried: its word must be accepted by the query's automaton exactly where the row is among the answers that the plain
//! evaluator gives. Then it checks what is made of pairs of automata, the positions that atoms touch, and how many states
//! are spent and lasting, and prints the sizes with which some large queries are compiled or refused.
//!
//! That all this is so is proved of the crates. What a run shows is what no contract says: that the calls succeed on
//! such inputs, and are refused at the limits.
//!
//! `check_automata TEXT` only prints the size with which the query TEXT is compiled or refused, for measurements.
//!
//! The exit status is 0 where all agree, and else that of the first case that comes: 1 where something differs, 2 where
//! there is not enough memory, 3 where a line cannot be printed.
#![tactic(auto)]

mod answers;
mod fault;
mod filter;
mod pairs;
mod rows;
mod sizes;
mod states;

use answers::{Tally, check_text};
use check_cases::{Ending, GROUPS, LARGE, PAIRS};
use fault::Fault;
use filter::{TOUCHING, check_touching};
use pairs::check_pair;
use sizes::{counted_of_text, size_of_text};
use states::{SETTLING, check_settling};
use std::io;
use std::process::ExitCode;

fn main(rt: HostRuntime) -> ExitCode {
    run(&rt).unwrap_or(Ending::NotPrinted).exit_code()
}

/// Prints the size of the query that is given, or checks all tables where none is.
fn run(rt: &HostRuntime) -> io::Result<Ending> {
    let words: Vec<String> = std::env::args(rt)?.skip(1).collect(rt.alloc())?;
    match words.first() {
        Some(text) => print_size(rt, text),
        None => check_all(rt),
    }
}

/// Checks one table after the other, up to the first that fails.
fn check_all(rt: &HostRuntime) -> io::Result<Ending> {
    let mut ending = check_queries(rt)?;
    if ending.agrees() {
        ending = check_pairs(rt)?;
    }
    if ending.agrees() {
        ending = check_touched(rt)?;
    }
    if ending.agrees() {
        ending = check_settled(rt)?;
    }
    if ending.agrees() {
        ending = print_sizes(rt)?;
    }
    Ok(ending)
}

/// Checks the queries, on all short documents.
fn check_queries(rt: &HostRuntime) -> io::Result<Ending> {
    let mut total = Tally::none();
    for group in &GROUPS {
        for text in group.texts.lines() {
            match check_text(rt.alloc(), group.bytes, text) {
                Ok(tally) => {
                    let Tally { rows, answers, .. } = tally;
                    println!(rt; "ok {text} rows {rows} answers {answers}")?;
                    total = total.plus(tally);
                }
                Err(fault) => return ended_by(rt, text, &fault),
            }
        }
    }
    let Tally {
        queries,
        rows,
        answers,
    } = total;
    println!(rt; "queries {queries} rows {rows} answers {answers}")?;
    Ok(Ending::Agrees)
}

/// Checks what is made of the pairs.
fn check_pairs(rt: &HostRuntime) -> io::Result<Ending> {
    for pair in &PAIRS {
        let (first, second) = (pair.first, pair.second);
        match check_pair(rt.alloc(), *pair) {
            Ok(tried) => println!(rt; "ok {first} with {second} tried {tried}")?,
            Err(fault) => return ended_by(rt, first, &fault),
        }
    }
    Ok(Ending::Agrees)
}

/// Checks the positions that atoms touch.
fn check_touched(rt: &HostRuntime) -> io::Result<Ending> {
    for one in &TOUCHING {
        if let Err(fault) = check_touching(rt.alloc(), one) {
            return ended_by(rt, one.text, &fault);
        }
    }
    println!(rt; "touched {}", TOUCHING.len())?;
    Ok(Ending::Agrees)
}

/// Checks how many states are spent and lasting.
fn check_settled(rt: &HostRuntime) -> io::Result<Ending> {
    for one in &SETTLING {
        if let Err(fault) = check_settling(rt.alloc(), one) {
            return ended_by(rt, one.text, &fault);
        }
    }
    println!(rt; "settled {}", SETTLING.len())?;
    Ok(Ending::Agrees)
}

/// Prints the sizes of the large queries.
fn print_sizes(rt: &HostRuntime) -> io::Result<Ending> {
    for text in LARGE.lines() {
        let ending = print_size(rt, text)?;
        if !ending.agrees() {
            return Ok(ending);
        }
    }
    Ok(Ending::Agrees)
}

/// Prints the size of a text's query, and where it is one atom the numbers that are counted of it.
fn print_size(rt: &HostRuntime, text: &str) -> io::Result<Ending> {
    match size_of_text(rt.alloc(), text) {
        Ok(size) => println!(rt; "{text} {size}")?,
        Err(fault) => return ended_by(rt, text, &fault),
    }
    match counted_of_text(rt.alloc(), text) {
        Ok(Some(counted)) => println!(rt;
            "counted: states {} ways {}",
            counted.states, counted.ways
        )?,
        Ok(None) => {}
        Err(fault) => return ended_by(rt, text, &fault),
    }
    Ok(Ending::Agrees)
}

/// Prints the fault of a text, and gives the ending.
fn ended_by(rt: &HostRuntime, text: &str, fault: &Fault) -> io::Result<Ending> {
    if matches!(fault, Fault::OutOfMemory) {
        println!(rt; "out of memory")?;
        return Ok(Ending::OutOfMemory);
    }
    println!(rt; "{text} fails: {fault:?}")?;
    Ok(Ending::Differs)
}
