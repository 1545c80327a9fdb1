//! The words of a reading, listed by its definition.

use crate::words::Block;
use marked_automaton::Automaton;
use span_core::Marks;
use std::alloc::{AllocError, Global};

/// What is read at one place.
#[derive(Clone, Copy)]
enum Place {
    /// The byte at a position that is chosen.
    Byte { at: u32, byte: u8 },
    /// The first position of a gap, at which only idle states stay.
    Gap,
    /// The end of the document.
    End { at: u32 },
}

/// Whether the position is chosen: its bit is set.
fn is_chosen(positions: u32, at: u32) -> bool {
    at < 32 && positions & (1 << at) != 0
}

/// The places of a document, in order.
fn places_of(alloc: Global, document: &[u8], positions: u32) -> Result<Vec<Place>, AllocError> {
    let mut places = Vec::new(alloc);
    let mut in_gap = false;
    let mut at: u32 = 0;
    for byte in document {
        if is_chosen(positions, at) {
            places.push(Place::Byte { at, byte: *byte })?;
            in_gap = false;
        } else if !in_gap {
            places.push(Place::Gap)?;
            in_gap = true;
        }
        at = at.saturating_add(1);
    }
    if !is_chosen(positions, at) && !in_gap {
        places.push(Place::Gap)?;
    }
    places.push(Place::End { at })?;
    Ok(places)
}

/// All words with which the automaton reads the document at the positions whose bits are set, in block order.
pub(crate) fn words_by_definition(
    alloc: Global,
    automaton: &Automaton,
    document: &[u8],
    positions: u32,
) -> Result<Vec<Vec<Block>>, AllocError> {
    let places = places_of(alloc, document, positions)?;
    let mut words = Vec::new(alloc);
    let starts = automaton.starts().to_vec(alloc)?;
    list_words(
        alloc,
        automaton,
        &places,
        &starts,
        &Vec::new(alloc),
        &mut words,
    )?;
    Ok(words)
}

/// Lists the words that begin with `before` and go on at these places from these states.
fn list_words(
    alloc: Global,
    automaton: &Automaton,
    places: &[Place],
    states: &[u32],
    before: &Vec<Block>,
    words: &mut Vec<Vec<Block>>,
) -> Result<(), AllocError> {
    let Some((place, later)) = places.split_first() else {
        return Ok(());
    };
    match *place {
        Place::Gap => {
            let idle = idle_among(alloc, automaton, states)?;
            if !idle.is_empty() {
                list_words(alloc, automaton, later, &idle, before, words)?;
            }
        }
        Place::Byte { at, byte } => {
            for marks in (0..number_of_blocks(automaton)).rev() {
                let next = next_states(alloc, automaton, states, Marks::of(marks), byte)?;
                if !next.is_empty() {
                    let word = with_block(before, at, marks)?;
                    list_words(alloc, automaton, later, &next, &word, words)?;
                }
            }
        }
        Place::End { at } => {
            for marks in (0..number_of_blocks(automaton)).rev() {
                if has_end(automaton, states, Marks::of(marks)) {
                    words.push(with_block(before, at, marks)?)?;
                }
            }
        }
    }
    Ok(())
}

/// The number of blocks over the automaton's variables.
fn number_of_blocks(automaton: &Automaton) -> u64 {
    4u64.saturating_pow(automaton.vars().len() as u32)
}

/// The word with one block more, where that is not empty.
fn with_block(before: &Vec<Block>, at: u32, marks: u64) -> Result<Vec<Block>, AllocError> {
    let mut word = before.clone()?;
    if marks != 0 {
        word.push(Block { at, marks })?;
    }
    Ok(word)
}

/// The states that some way leads to, from one of these with these markers on this byte, ascending.
fn next_states(
    alloc: Global,
    automaton: &Automaton,
    states: &[u32],
    marks: Marks,
    byte: u8,
) -> Result<Vec<u32>, AllocError> {
    let mut next = Vec::new(alloc);
    for to in 0..automaton.states() {
        let leads = automaton.ways().iter().any(|way| {
            way.to == to
                && way.marks == marks
                && way.bytes.contains(byte)
                && states.contains(&way.from)
        });
        if leads {
            next.push(to)?;
        }
    }
    Ok(next)
}

/// Those of the states that are idle, ascending.
fn idle_among(
    alloc: Global,
    automaton: &Automaton,
    states: &[u32],
) -> Result<Vec<u32>, AllocError> {
    let mut idle = Vec::new(alloc);
    for state in 0..automaton.states() {
        if states.contains(&state) && automaton.is_idle(state) {
            idle.push(state)?;
        }
    }
    Ok(idle)
}

/// Whether one of the states has an end with these markers.
fn has_end(automaton: &Automaton, states: &[u32], marks: Marks) -> bool {
    automaton
        .stops()
        .iter()
        .any(|stop| stop.marks == marks && states.contains(&stop.state))
}
