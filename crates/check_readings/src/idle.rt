//! A document on which nothing happens.
ghost use Rattle.std.specs.Prelude.{◌≡◌, ◌<◌, ◌≤◌, length};
ghost use Rattle.check_readings.specs.declared.idle.TheConstants.{BYTES};

use crate::checking::automaton_of;
use crate::fault::Fault;
use marked_automaton::Automaton;
use one_pass::Reading;
use span_core::Steps;
use std::alloc::Global;
use std::marker::Brand;
use std::sync::ledger::{Blank, Ledger};

/// The limit of the table's weight.
const LIMIT: u64 = 1_000;

/// How much is kept of layers.
const WORDS: usize = 65_536;

/// How many bytes are read.
const BYTES: usize = 100_000;

/// The number of live cells after 100,000 bytes that match nothing.
pub(crate) fn cells_after(alloc: Global) -> Result<u64, Fault> {
    let automaton = automaton_of(alloc, b"/!x{a}c/")?;
    let mut document = Vec::new(alloc);
    document.resize(BYTES, b'b')?;
    live_cells::<Brand>(alloc, Blank::new(1), &automaton, &document)
}

/// The number of live cells after a document.
fn live_cells<L: Ledger>(
    alloc: Global,
    blank: Blank,
    automaton: &Automaton,
    document: &[u8],
) -> Result<u64, Fault>
    requires name { blank.name ≡ L.name }
    requires parts { blank.parts ≡ L.parts }
    requires some { 0 < L.parts }
    requires few { length document.now ≤ BYTES }
{
    let mut steps = Steps::<L>::new(blank);
    let reading = Reading::begin(alloc, automaton, LIMIT, WORDS, &mut steps)?;
    let reading = reading.read(document, &mut steps)?;
    Ok(reading.lay_down().live())
}
