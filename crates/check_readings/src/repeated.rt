//! A document of one line over and over, of whose bytes few are read set by set.
ghost use Rattle.std.specs.Prelude.{◌≡◌, ◌^◌, ◌<◌, ◌≤◌, length};

use crate::checking::automaton_of;
use crate::fault::Fault;
use one_pass::Reading;
use span_core::Steps;
use std::alloc::Global;
use std::marker::Brand;
use std::sync::ledger::{Blank, Ledger};

/// The limit of the table's weight.
const LIMIT: u64 = 1_000;

/// How much is kept of layers.
const WORDS: usize = 65_536;

/// How often the line stands in the document.
const LINES: usize = 1_000;

/// What was kept of the document.
#[derive(Clone, Copy)]
pub(crate) struct Kept {
    /// How many programs of layers.
    pub(crate) programs: usize,
    /// How many bytes were read set by set.
    pub(crate) anew: u64,
}

/// What is kept of the alphabet, 1,000 times, where each letter is looked for. Three layers follow one another: before a
/// letter, behind the first, and behind two, which stays; each does the same on all letters, and has one program. Each
/// letter is read set by set once in the last of them, and two before.
pub(crate) fn kept_of_letters(alloc: Global) -> Result<Kept, Fault> {
    kept_of::<Brand>(
        alloc,
        Blank::new(1),
        b"/!x{[a-z]}/",
        b"abcdefghijklmnopqrstuvwxyz",
    )
}

/// What is kept of 32 digits 0 and one of each other digit, 1,000 times, where letters are looked for: the digit 0 alone is
/// read set by set, since no set moves on the others.
pub(crate) fn kept_of_digits(alloc: Global) -> Result<Kept, Fault> {
    kept_of::<Brand>(
        alloc,
        Blank::new(1),
        b"/!x{[a-z]}/",
        b"00000000000000000000000000000000123456789",
    )
}

fn kept_of<L: Ledger>(alloc: Global, blank: Blank, text: &[u8], line: &[u8]) -> Result<Kept, Fault>
    requires name { blank.name ≡ L.name }
    requires parts { blank.parts ≡ L.parts }
    requires some { 0 < L.parts }
    requires few { length line.now ≤ 64 }
{
    let mut steps = Steps::<L>::new(blank);
    let automaton = automaton_of(alloc, text)?;
    let mut document = Vec::new(alloc);
    for _ in 0..LINES {
        document.extend_from_slice(line)?;
    }
    let reading = Reading::begin(alloc, &automaton, LIMIT, WORDS, &mut steps)?;
    let reading = reading.read(&document, &mut steps)?;
    let known = reading.known();
    Ok(Kept {
        programs: known.programs(),
        anew: known.anew(),
    })
}
