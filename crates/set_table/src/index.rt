//! Numbers in blocks of 16, of which only those that are not all 0 take room of their own.
//!
//! A set is asked for few of its 256 bytes: runs that were never written share one block of zeros. A number is found
//! by two loads.
ghost use Rattle.std.specs.Prelude.{◌≡◌, ℕ, ◌+◌, ◌*◌, ◌<◌, ◌≤◌, List, [], length, take, ◌^◌, slice_index, slice_set, OnOk, OnErr, IfOk};
ghost use Rattle.set_table.specs.Answered.{with_places};
ghost use Rattle.set_table.specs.Spread.{IsSpread, spread};

use span_core::OutOfMemory;
use std::alloc::Global;
use std::marker::Model;

/// How many numbers a block has.
const BLOCK: usize = 16;

/// Numbers, seen as their list. Its length is a multiple of 16: each run of 16 of them has a block, and all
/// runs of zeros that were never written share one.
#[derive(Drop)]
pub(crate) struct Index {
    /// For each run its block; block 0 is that of zeros.
    runs: Vec<u32>,
    /// The blocks, one after another.
    numbers: Vec<u32>,
}

impl Model for Index {
    ghost use Rattle.std.specs.Prelude.{ℕ, List};
    ghost use Rattle.set_table.specs.Spread.{IsSpread, spread};

    ghost Value = { List ℕ };

    ghost view = { λ p. spread p.runs.items p.numbers.items };

    ghost invariant = { λ p. IsSpread p.runs.items p.numbers.items };
}

impl Index {
    /// No number.
    pub(crate) fn new(alloc: Global) -> Result<Index, OutOfMemory>
        ensures { IfOk result (λ p. p ≡ []) }
    {
        let mut numbers = Vec::new(alloc);
        numbers.resize(BLOCK, 0)?;
        Ok(Index {
            runs: Vec::new(alloc),
            numbers,
        })
    }

    /// The number at a place.
    pub(crate) fn at(&self, place: usize) -> u32
        requires { place < length self.now }
        ensures { result ≡ slice_index self.now place }
    {
        let block = self.runs[place / BLOCK] as usize;
        self.numbers[BLOCK * block + place % BLOCK]
    }

    /// Appends zeros until there are so many runs of 16. On refusal nothing has changed.
    pub(crate) fn grow(&mut self, runs: usize) -> Result<(), OutOfMemory>
        requires { length self.old ≤ 16 * runs }
        ensures grown { OnOk result (self.new ≡ with_places (16 * runs) self.old) }
        ensures err { OnErr result (self.new ≡ self.old) }
    {
        self.runs.resize(runs, 0)?;
        Ok(())
    }

    /// Writes a number at a place. On refusal nothing has changed.
    pub(crate) fn put(&mut self, place: usize, number: u32) -> Result<(), OutOfMemory>
        requires { place < length self.old }
        ensures put { OnOk result (self.new ≡ slice_set self.old place number) }
        ensures err { OnErr result (self.new ≡ self.old) }
    {
        let block = own_block(&mut self.runs, &mut self.numbers, place / BLOCK)?;
        self.numbers[BLOCK * block + place % BLOCK] = number;
        Ok(())
    }

    /// Keeps the first runs alone, so many as it says.
    pub(crate) fn truncate(&mut self, runs: usize)
        requires { 16 * runs < 2 ^ 64 }
        ensures { self.new ≡ take (16 * runs) self.old }
    {
        self.runs.truncate(runs);
    }
}

/// The block of a run, which has it alone from now on. The numbers stay as they are.
fn own_block(runs: &mut Vec<u32>, numbers: &mut Vec<u32>, run: usize) -> Result<usize, OutOfMemory>
    requires spread { IsSpread runs.old.items numbers.old.items }
    requires run { run < length runs.old.items }
    ensures spread { IsSpread runs.new.items numbers.new.items }
    ensures same { spread runs.new.items numbers.new.items ≡ spread runs.old.items numbers.old.items }
    ensures length { length runs.new.items ≡ length runs.old.items }
    ensures own { IfOk result (λ block. (0 < block) × (slice_index runs.new.items run ≡ block)) }
{
    let block = runs[run];
    if block != 0 {
        return Ok(block as usize);
    }
    let blocks = numbers.len() / BLOCK;
    if blocks > u32::MAX as usize {
        return Err(OutOfMemory);
    }
    numbers.resize(BLOCK * (blocks + 1), 0)?;
    runs[run] = blocks as u32;
    Ok(blocks)
}
