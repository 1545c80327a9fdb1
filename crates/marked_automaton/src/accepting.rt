//! Which states accept what is left of a document, from its end to its start.
ghost use Rattle.std.specs.Prelude.{◌≡◌, ℕ, ◌^◌, ◌<◌, ◌≤◌, ◌↔◌, IsTrue, length, IfOk};
ghost use Rattle.span_core.specs.Block.{block};
ghost use Rattle.span_core.specs.Lists.{Has};
ghost use Rattle.marked_automaton.specs.Accepting.{AcceptsFrom, Gathers, Takes};
ghost use Rattle.marked_automaton.specs.Reach.{IsFlagged};

use crate::{Stop, Way};
use span_core::{Marks, OutOfMemory, Row};
use std::alloc::Global;

/// For each state whether the blocks of the row and the bytes of the document are accepted from it.
pub(crate) fn accepting(
    alloc: Global,
    states: u32,
    ways: &[Way],
    stops: &[Stop],
    row: &Row,
    doc: &[u8],
) -> Result<Vec<bool>, OutOfMemory>
    requires froms { (y : Way) → Has ways.now y → y.from < states }
    requires tos { (y : Way) → Has ways.now y → y.to < states }
    requires stops { (x : Stop) → Has stops.now x → x.state < states }
    ensures len { IfOk result (λ good. length good.items ≡ states) }
    ensures exactly { IfOk result (λ good. (p : ℕ) → IsFlagged good.items p ↔ AcceptsFrom ways.now stops.now doc.now (block row.now) 0 p) }
{
    let mut at = doc.len();
    let mut good = ending(alloc, states, stops, block_at(row, at))?;
    while at > 0 {
        at -= 1;
        good = leading(
            alloc,
            states,
            ways,
            good.as_slice(),
            block_at(row, at),
            doc[at],
        )?;
    }
    Ok(good)
}

/// For each state whether it has an end with these markers.
fn ending(
    alloc: Global,
    states: u32,
    stops: &[Stop],
    marks: Marks,
) -> Result<Vec<bool>, OutOfMemory>
    requires { (x : Stop) → Has stops.now x → x.state < states }
    ensures len { IfOk result (λ good. length good.items ≡ states) }
    ensures exactly { IfOk result (λ good. Gathers (λ (x : Stop). x.marks ≡ marks) (λ (x : Stop). x.state) stops.now good.items) }
{
    let mut good = Vec::new(alloc);
    good.resize(states as usize, false)?;
    for stop in stops {
        if stop.marks.number() == marks.number() {
            good[stop.state as usize] = true;
        }
    }
    Ok(good)
}

/// For each state whether a way leads from it, with these markers and this byte, to a state of `good`.
fn leading(
    alloc: Global,
    states: u32,
    ways: &[Way],
    good: &[bool],
    marks: Marks,
    byte: u8,
) -> Result<Vec<bool>, OutOfMemory>
    requires froms { (y : Way) → Has ways.now y → y.from < states }
    requires tos { (y : Way) → Has ways.now y → y.to < length good.now }
    ensures len { IfOk result (λ before. length before.items ≡ states) }
    ensures exactly { IfOk result (λ before. Gathers (Takes marks byte good.now) (λ (y : Way). y.from) ways.now before.items) }
{
    let mut before = Vec::new(alloc);
    before.resize(states as usize, false)?;
    for way in ways {
        if takes(way, good, marks, byte) {
            before[way.from as usize] = true;
        }
    }
    Ok(before)
}

/// Whether the way takes these markers and this byte to a state of `good`.
fn takes(way: &Way, good: &[bool], marks: Marks, byte: u8) -> bool
    requires { way.now.to < length good.now }
    ensures { IsTrue result ↔ Takes marks byte good.now way.now }
{
    way.marks.number() == marks.number() && way.bytes.contains(byte) && good[way.to as usize]
}

/// Whether one of these states is in `good`.
pub(crate) fn some_good(states: &[u32], good: &[bool]) -> bool
    requires { (p : ℕ) → Has states.now p → p < length good.now }
    ensures { IsTrue result ↔ ((p : ℕ) × Has states.now p × IsFlagged good.now p) }
{
    for state in states {
        if good[*state as usize] {
            return true;
        }
    }
    false
}

/// The row's block at a position, which may lie past all that spans can have.
fn block_at(row: &Row, at: usize) -> Marks
    ensures { result ≡ block row.now at }
{
    match u32::try_from(at) {
        Ok(at) => row.marks_at(at),
        Err(_) => none_past(row, at),
    }
}

/// No marker: no span starts or ends past the greatest position that it can have.
fn none_past(row: &Row, at: usize) -> Marks
    requires { 2 ^ 32 ≤ at }
    ensures { result ≡ block row.now at }
{
    for k in 0..row.len() {
        let _span = row.at(k);
    }
    Marks::none()
}
