//! Checks what is read of texts, and what is written, by tables that were worked out by hand.
//!
//! What is read of formulas, over bytes and over characters; the sets of the names of properties, against a walk over all
//! characters; the names of the program's tests; and that a line or a cursor that finds no room is refused, with what was
//! written before it as it was.
//!
//! That all this is so is proved of the crates. What a run shows is what no contract says: that the calls succeed on
//! such inputs.
//!
//! The exit status is 0 where all agree, and else that of the first case that comes: 1 where something differs, 2 where
//! there is not enough memory, 3 where a line cannot be printed.
#![tactic(auto)]

mod formula_texts;
mod formulas;
mod properties;
mod room;

use check_cases::Ending;
use formula_texts::FORMULAS;
use formulas::check_formulas;
use known_tests::program_tests;
use properties::{PROPERTIES, agrees};
use room::all_are_refused;
use span_core::{Name, OutOfMemory};
use std::io;
use std::process::ExitCode;

fn main(rt: HostRuntime) -> ExitCode {
    check_all(&rt).unwrap_or(Ending::NotPrinted).exit_code()
}

/// Checks one table after the other, up to the first that fails.
fn check_all(rt: &HostRuntime) -> io::Result<Ending> {
    let mut ending = check_texts(rt)?;
    if ending.agrees() {
        ending = check_names(rt)?;
    }
    if ending.agrees() {
        ending = check_properties(rt)?;
    }
    if ending.agrees() {
        ending = check_room(rt)?;
    }
    Ok(ending)
}

/// Checks what is read of formulas.
fn check_texts(rt: &HostRuntime) -> io::Result<Ending> {
    for lines in &FORMULAS {
        match check_formulas(rt.alloc(), lines) {
            Ok(checked) => println!(rt; "formulas {checked}")?,
            Err(line) => return differs(rt, line),
        }
    }
    Ok(Ending::Agrees)
}

/// Prints which of three names are names of the program's tests.
fn check_names(rt: &HostRuntime) -> io::Result<Ending> {
    let Ok(tests) = program_tests(rt.alloc()) else {
        return without_memory(rt);
    };
    for text in ["luhn", "upper", "odd"] {
        if let Some(name) = Name::read(text.as_bytes()) {
            println!(rt; "test {text} {:?}", tests.find(&name))?;
        }
    }
    Ok(Ending::Agrees)
}

/// Checks the names of properties.
fn check_properties(rt: &HostRuntime) -> io::Result<Ending> {
    for property in &PROPERTIES {
        match agrees(rt.alloc(), property) {
            Ok(true) => {}
            Ok(false) => return differs(rt, property.name),
            Err(OutOfMemory) => return without_memory(rt),
        }
    }
    println!(rt; "properties {}", PROPERTIES.len())?;
    Ok(Ending::Agrees)
}

/// Checks that what finds no room is refused.
fn check_room(rt: &HostRuntime) -> io::Result<Ending> {
    match all_are_refused(rt.alloc()) {
        Ok(true) => println!(rt; "refused")?,
        Ok(false) => return differs(rt, "without room"),
        Err(OutOfMemory) => return without_memory(rt),
    }
    Ok(Ending::Agrees)
}

fn differs(rt: &HostRuntime, what: &str) -> io::Result<Ending> {
    println!(rt; "{what} fails")?;
    Ok(Ending::Differs)
}

fn without_memory(rt: &HostRuntime) -> io::Result<Ending> {
    println!(rt; "out of memory")?;
    Ok(Ending::OutOfMemory)
}
