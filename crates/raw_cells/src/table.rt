//! The chunks, with a table of where they begin.
ghost use Rattle.std.specs.Prelude.{◌≡◌, ◌<◌, ◌≤◌, [], ◌∷◌, ◌++◌, length, List, IfOk, OnErr};
ghost use Rattle.raw_cells.specs.Spots.{Spot, Full, Link, AreBare};
ghost use Rattle.raw_cells.specs.Places.{cell, with_cell, IsWithin, HasFull, HasLink};

use crate::block::{Base, base_of, origin_at};
use crate::chunk::{Chunk, largest};
use span_core::OutOfMemory;
use std::alloc::Global;
use std::marker::Model;

/// The most chunks.
pub(crate) const MOST_CHUNKS: usize = 32;

/// At most `MOST_CHUNKS` chunks, seen as the lists of what lies in their cells.
pub(crate) struct Table<T> {
    bases: [Base; 32],
    chunks: Vec<Chunk<T>>,
}

impl<T> Model for Table<T> {
    ghost use Rattle.std.specs.Prelude.{List, map, length, get_or};
    ghost use denote.RawPtr.{null_ptr};
    ghost use Rattle.raw_cells.specs.Spots.{Spot};
    ghost use Rattle.raw_cells.specs.Places.{AreTold};

    ghost Value = { List (List (Spot T)) };

    ghost view = { λ t. map (λ c. c.1) t.chunks.items };

    ghost invariant = { λ t. AreTold (length t.bases) (λ k. (get_or t.bases k (record { first = null_ptr })).first) t.chunks.items };
}

impl<T> Table<T> {
    /// No chunk. It takes no memory.
    pub(crate) fn new(alloc: Global) -> Table<T>
        ensures { result ≡ [] }
    {
        Table {
            bases: [Base::none(); 32],
            chunks: Vec::new(alloc),
        }
    }

    /// The number of chunks.
    pub(crate) fn len(&self) -> usize
        ensures { result ≡ length self.now }
    {
        self.chunks.len()
    }

    /// One chunk more, of at least `least` bare cells and at most `most`. Tells of how many.
    pub(crate) fn add(
        &mut self,
        alloc: Global,
        least: usize,
        most: usize,
    ) -> Result<usize, OutOfMemory>
        requires most { least ≤ most }
        requires few { length self.old < MOST_CHUNKS }
        ensures added { IfOk result (λ count. (c : List (Spot T)) × (self.new ≡ self.old ++ c ∷ []) × (length c ≡ count) × AreBare c × (least ≤ count) × (count ≤ most)) }
        ensures refused { OnErr result (self.new ≡ self.old) }
    {
        let Ok(()) = self.chunks.reserve(1) else {
            return Err(OutOfMemory);
        };
        let chunk = largest(alloc, least, most)?;
        let count = chunk.len();
        self.bases[self.chunks.len()] = base_of(chunk.origin());
        self.chunks.push_reserved(chunk);
        Ok(count)
    }

    /// The value in the cell with this number.
    #[inline]
    pub(crate) fn get(&self, number: u32) -> T
    where
        T: Copy,
        requires { HasFull self.now number }
        ensures { cell self.now number ≡ Full result }
    {
        let chunk = (number % 32) as usize;
        let origin = origin_at(self.bases[chunk]);
        self.chunks[chunk].get(origin, (number / 32) as usize)
    }

    /// Puts a value into the cell.
    #[inline]
    pub(crate) fn store(&mut self, number: u32, value: T)
        requires { IsWithin self.old number }
        ensures { self.new ≡ with_cell self.old number (Full value) }
    {
        let chunk = (number % 32) as usize;
        let origin = origin_at(self.bases[chunk]);
        self.chunks[chunk].store(origin, (number / 32) as usize, value);
    }

    /// Puts a value into the cell, which linked to another, and tells which.
    #[inline]
    pub(crate) fn fill(&mut self, number: u32, value: T) -> u32
        requires { HasLink self.old number }
        ensures link { cell self.old number ≡ Link result }
        ensures cells { self.new ≡ with_cell self.old number (Full value) }
    {
        let chunk = (number % 32) as usize;
        let origin = origin_at(self.bases[chunk]);
        self.chunks[chunk].fill(origin, (number / 32) as usize, value)
    }

    /// Takes the value out of the cell, which links to the cell `next` then.
    #[inline]
    pub(crate) fn vacate(&mut self, number: u32, next: u32) -> T
    where
        T: Copy,
        requires { HasFull self.old number }
        ensures value { cell self.old number ≡ Full result }
        ensures cells { self.new ≡ with_cell self.old number (Link next) }
    {
        let chunk = (number % 32) as usize;
        let origin = origin_at(self.bases[chunk]);
        self.chunks[chunk].vacate(origin, (number / 32) as usize, next)
    }

    /// Gives all memory back.
    pub(crate) fn free(self) {
        let Table {
            bases: _,
            mut chunks,
        } = self;
        while let Some(chunk) = chunks.pop() {
            chunk.free();
        }
        chunks.destroy_empty();
    }
}
