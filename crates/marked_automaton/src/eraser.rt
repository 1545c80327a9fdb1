//! Blocks over other variables.
ghost use Rattle.std.specs.Prelude.{◌≡◌, ℕ, ◌+◌, ◌-◌, ◌*◌, ◌^◌, ◌<◌, ◌≤◌, length, map, All, IfOk, OnOk};
ghost use Rattle.std.specs.Option.{ForSome};
ghost use Rattle.span_core.specs.NameSets.{Ascending};
ghost use Rattle.marked_automaton.specs.Erased.{ArePlaces, digit_at, picked};
ghost use Rattle.marked_automaton.specs.Marks.{remarked_stop, remarked_way};
ghost use Rattle.span_core.specs.declared.TheConstants.{MOST_VARIABLES};

use crate::{Stop, Way};
use span_core::{Marks, OutOfMemory, VarSet};
use std::alloc::{AllocError, Global};

/// Where variables stand in blocks over others.
#[derive(Drop)]
pub(crate) struct Eraser {
    /// How many variables the blocks have.
    all: usize,
    /// For each variable that is kept its number among them; nothing for one that they lack.
    places: Vec<Option<usize>>,
    ghost few: { all ≤ MOST_VARIABLES },
    ghost few_kept: { length places.items ≤ MOST_VARIABLES },
    ghost within: { All (λ place. ForSome place (λ j. j < all)) places.items },
}

impl Eraser {
    /// Keeps these names, of blocks over `names`.
    pub(crate) fn new(alloc: Global, names: &VarSet, keep: &VarSet) -> Result<Eraser, OutOfMemory>
        ensures all { IfOk result (λ e. e.all ≡ length names.now) }
        ensures places { IfOk result (λ e. ArePlaces names.now keep.now e.places.items) }
        ensures ascending { OnOk result (Ascending names.now) }
    {
        let mut places = Vec::new(alloc);
        for k in 0..keep.len() {
            places.push(names.find(keep.at(k)))?;
        }
        Ok(Eraser {
            all: names.len(),
            places,
        })
    }

    /// What is left of a block.
    fn left(&self, marks: Marks) -> Marks
        ensures { result ≡ picked self.now.all self.now.places.items marks }
    {
        let count = self.places.len();
        let mut left = Marks::none();
        for (k, place) in self.places.iter().enumerate() {
            left = with_digit(left, self.digit(marks, *place), k, count);
        }
        left
    }

    /// The markers of the variable at a place, as a digit in base 4.
    fn digit(&self, marks: Marks, place: Option<usize>) -> u64
        requires { ForSome place (λ j. j < self.now.all) }
        ensures value { result ≡ digit_at self.now.all place marks }
        ensures small { result < 4 }
    {
        match place {
            Some(place) => (marks.number() >> (2 * (self.all - (place + 1)))) % 4,
            None => 0,
        }
    }

    /// The ways with what is left of their blocks.
    pub(crate) fn ways(&self, alloc: Global, ways: &[Way]) -> Result<Vec<Way>, AllocError>
        ensures { IfOk result (λ v. v.items ≡ map (remarked_way (picked self.now.all self.now.places.items)) ways.now) }
    {
        ways.iter()
            .map(|way| Way {
                from: way.from,
                marks: self.left(way.marks),
                bytes: way.bytes,
                to: way.to,
            })
            .collect(alloc)
    }

    /// The ends with what is left of their blocks.
    pub(crate) fn stops(&self, alloc: Global, stops: &[Stop]) -> Result<Vec<Stop>, AllocError>
        ensures { IfOk result (λ v. v.items ≡ map (remarked_stop (picked self.now.all self.now.places.items)) stops.now) }
    {
        stops
            .iter()
            .map(|stop| Stop {
                state: stop.state,
                marks: self.left(stop.marks),
            })
            .collect(alloc)
    }
}

/// The markers, and those of variable `k` of `v` that the digit tells: 2 opens it, 1 closes it, 3 does
/// both. The markers before are of variables before it.
fn with_digit(marks: Marks, digit: u64, k: usize, v: usize) -> Marks
    requires variable { k < v }
    requires few { v ≤ MOST_VARIABLES }
    requires digit { digit < 4 }
    requires before { (q : ℕ) × (marks ≡ q * 2 ^ (2 * (v - k))) }
    ensures { result ≡ marks + digit * 2 ^ (2 * (v - (k + 1))) }
{
    match digit {
        0 => marks,
        1 => marks.with(Marks::closing(k, v)),
        2 => marks.with(Marks::opening(k, v)),
        _ => marks.with(Marks::opening(k, v)).with(Marks::closing(k, v)),
    }
}
