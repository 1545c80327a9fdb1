//! The sets of the next layer, each with the cell that has its words: a sparse set.
//!
//! A list of pairs, and for each set number a place in it that is believed only where the list agrees (Briggs and
//! Torczon 1993). So a set is found with no search, and a layer is emptied by forgetting its length.
ghost use Rattle.std.specs.Prelude.{◌≡◌, ◌≤◌, ◌<◌, ◌+◌, ℕ, [], length, slice_get, Some, OnOk, MatchOption};
ghost use Rattle.output_graph.specs.Forward.{cell_of, set_cell};
ghost use Rattle.output_graph.specs.Graph.{sets_of};
ghost use Rattle.output_graph.specs.Programs.{place_in};
ghost use Rattle.output_graph.specs.Sets.{HasNot};

use node_arena::Cell;
use span_core::OutOfMemory;
use std::alloc::Global;
use std::marker::Model;
use std::mem;

/// A list of distinct sets, each with a cell. A set is found without a search, as in the sparse sets of
/// Briggs and Torczon (ACM Letters on Programming Languages and Systems 2, 1993): `places` has its place,
/// and whatever stands there for a set that is not in the list is no harm, since the list is asked too.
#[derive(Drop)]
pub struct Layer {
    pairs: Vec<(u32, Cell)>,
    places: Vec<usize>,
}

impl Model for Layer {
    ghost use Rattle.std.specs.Prelude.{◌-◌};
    ghost use Rattle.std.specs.Vec.{vec_len, vec_capacity};
    ghost use Rattle.output_graph.specs.Sets.{Sets, IsIndexed};

    ghost Value = { Sets };

    ghost view = { λ l. record { pairs = l.pairs.items; room = vec_capacity l.pairs - vec_len l.pairs; known = vec_len l.places } };

    ghost invariant = { λ l. IsIndexed l.pairs.items l.places.items };
}

impl Layer {
    /// No sets. Takes no memory.
    pub fn new(alloc: Global) -> Layer
        ensures { result.pairs ≡ [] }
    {
        Layer {
            pairs: Vec::new(alloc),
            places: Vec::new(alloc),
        }
    }

    /// Makes room for `n` more sets.
    pub fn reserve(&mut self, n: usize) -> Result<(), OutOfMemory>
        ensures pairs { self.new.pairs ≡ self.old.pairs }
        ensures room { OnOk result (n ≤ self.new.room) }
        ensures known { self.new.known ≡ self.old.known }
    {
        self.pairs.reserve(n)?;
        Ok(())
    }

    /// Makes room for this set's place.
    pub fn cover(&mut self, set: u32) -> Result<(), OutOfMemory>
        ensures pairs { self.new.pairs ≡ self.old.pairs }
        ensures room { self.new.room ≡ self.old.room }
        ensures known { self.old.known ≤ self.new.known }
        ensures covered { OnOk result (set < self.new.known) }
    {
        let wanted = set as usize + 1;
        if self.places.len() < wanted {
            self.places.resize(wanted, 0)?;
        }
        Ok(())
    }

    /// The place of a set, if it is there.
    fn place_of(&self, set: u32) -> Option<usize>
        ensures { MatchOption result (HasNot self.now.pairs set) (λ k. (c : ℕ) × (slice_get self.now.pairs k ≡ Some (set, c))) }
    {
        let set_place = set as usize;
        if self.places.len() <= set_place {
            return None;
        }
        let k = self.places[set_place];
        if self.pairs.len() <= k {
            return None;
        }
        if self.pairs[k].0 != set {
            return None;
        }
        Some(k)
    }

    /// The cell of a set, if it is there.
    pub fn cell_of(&self, set: u32) -> Option<Cell>
        ensures { result ≡ cell_of self.now.pairs set }
    {
        match self.place_of(set) {
            Some(k) => Some(self.pairs[k].1),
            None => None,
        }
    }

    /// The place of a set, or how many there are.
    pub fn place_for(&self, set: u32) -> usize
        ensures { result ≡ place_in (sets_of self.now.pairs) set }
    {
        match self.place_of(set) {
            Some(k) => k,
            None => self.pairs.len(),
        }
    }

    /// The cell of the set of a place, if it is there.
    pub fn cell_at(&self, place: usize) -> Option<Cell>
        ensures { (s : ℕ) → place ≡ place_in (sets_of self.now.pairs) s → result ≡ cell_of self.now.pairs s }
    {
        if place < self.pairs.len() {
            Some(self.pairs[place].1)
        } else {
            None
        }
    }

    /// Gives the set of this place the cell, in place of the one that it has, if any.
    pub fn put_at(&mut self, place: usize, set: u32, cell: Cell)
        requires placed { place ≡ place_in (sets_of self.old.pairs) set }
        requires room { 1 ≤ self.old.room }
        requires covered { set < self.old.known }
        ensures pairs { self.new.pairs ≡ set_cell self.old.pairs set cell }
        ensures room { self.old.room ≤ self.new.room + 1 }
        ensures known { self.new.known ≡ self.old.known }
    {
        if place < self.pairs.len() {
            self.pairs[place] = (set, cell);
        } else {
            self.places[set as usize] = self.pairs.len();
            self.pairs.push_reserved((set, cell));
        }
    }

    /// Gives its sets away, in place of others, and has none.
    pub fn give(&mut self, pairs: &mut Vec<(u32, Cell)>)
        ensures given { pairs.new.items ≡ self.old.pairs }
        ensures none { self.new.pairs ≡ [] }
    {
        mem::swap(&mut self.pairs, pairs);
        self.pairs.clear();
    }
}
