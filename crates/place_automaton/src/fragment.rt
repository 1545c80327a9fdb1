//! Parts of a formula whose places are numbered, known by their two sides.
//!
//! Joining two fragments adds a way from each end of the front one through each entry of the back one. A side passes a
//! fragment that fits the empty string, once for each set of markers of such a fit, and takes these with it.
ghost use Rattle.std.specs.Prelude.{◌≡◌, ℕ, ◌+◌, List, [], ◌∷◌, ◌++◌, ◌<◌, ◌≤◌, length, map, IfOk, OnOk, IsTrue, if◌then◌else◌};
ghost use Rattle.span_core.specs.Lists.{AreDistinct, Has};
ghost use Rattle.place_automaton.specs.Sides.{CanCapture, nothing_sides, one_sides, any_sides, cat_sides, opt_sides, cap_sides, JoinAsSums, IsUnmarked, Sides, RowJoins, again_sides, row_sides, row_ways};
ghost use Rattle.marked_automaton.specs.declared.way.Stop.{Stop};
ghost use Rattle.marked_automaton.specs.Automaton.{IsBlockOf};
ghost use Rattle.place_automaton.specs.Atom.{way_after, way_from_first};
ghost use Rattle.marked_automaton.specs.declared.TheConstants.{MOST_STATES};
ghost use Rattle.place_automaton.specs.declared.fragment.Entry.{Entry};
ghost use Rattle.place_automaton.specs.Made.{end_stops, with_stops};
ghost use Rattle.place_automaton.specs.Moves.{sides_moved};
ghost use Rattle.place_automaton.specs.Places.{ways_between};

use crate::joins::{all_entries, all_stops, mark_entries, mark_stops, push_ways};
use crate::moving::{moved_entries, moved_stops};
use crate::null_sets::{
    add_unless_there, copied_sets, either_of, joined_with, mark_each, only_none,
};
use crate::outer::{add_last_stops, before_stops, push_from_before, push_into_after};
use marked_automaton::{Automaton, Stop, Way};
use span_core::{ByteSet, Marks, OutOfMemory};
use std::alloc::Global;
use std::marker::Model;

/// A way into a place from whatever stands before it.
#[derive(Clone, Copy)]
pub struct Entry {
    /// The markers that are passed on the way.
    pub marks: Marks,
    /// The bytes of the place.
    pub bytes: ByteSet,
    /// The place.
    pub to: u32,
}

/// The two sides of a part of a formula, whose places are numbered: the sets of markers with which it fits
/// the empty string, the ways into the places that it begins with, and the places that it ends with.
#[derive(Drop)]
pub(crate) struct Fragment {
    null: Vec<Marks>,
    first: Vec<Entry>,
    last: Vec<Stop>,
}

impl Model for Fragment {
    ghost use Rattle.place_automaton.specs.Sides.{Sides};

    ghost Value = { Sides };

    ghost use Rattle.place_automaton.specs.Codes.{sides_code};

    ghost coded = { sides_code };

    ghost view = { λ p. record { null = p.null.items; first = p.first.items; last = p.last.items } };
}

impl Fragment {
    /// The empty formula.
    pub(crate) fn nothing(alloc: Global) -> Result<Fragment, OutOfMemory>
        ensures { IfOk result (λ p. p ≡ nothing_sides) }
    {
        Ok(Fragment {
            null: only_none(alloc)?,
            first: Vec::new(alloc),
            last: Vec::new(alloc),
        })
    }

    /// One of these bytes, at the place of this number.
    pub(crate) fn one(alloc: Global, bytes: &ByteSet, place: u32) -> Result<Fragment, OutOfMemory>
        ensures { IfOk result (λ p. p ≡ one_sides bytes.now place) }
    {
        let mut first = Vec::new(alloc);
        first.push(Entry {
            marks: Marks::none(),
            bytes: *bytes,
            to: place,
        })?;
        let mut last = Vec::new(alloc);
        last.push(Stop {
            state: place,
            marks: Marks::none(),
        })?;
        Ok(Fragment {
            null: Vec::new(alloc),
            first,
            last,
        })
    }

    /// This and then the rest. The ways between them are added.
    pub(crate) fn cat(
        self,
        alloc: Global,
        rest: Fragment,
        ways: &mut Vec<Way>,
    ) -> Result<Fragment, OutOfMemory>
        requires { JoinAsSums self rest }
        ensures sides { IfOk result (λ p. p ≡ cat_sides self rest) }
        ensures ways { OnOk result (ways.new.items ≡ ways.old.items ++ ways_between self.last rest.first) }
    {
        push_ways(&self.last, &rest.first, ways)?;
        let first = all_entries(self.first, &self.null, rest.first)?;
        let last = all_stops(rest.last, &rest.null, self.last)?;
        let null = joined_with(alloc, self.null, rest.null)?;
        Ok(Fragment { null, first, last })
    }

    /// This and then the rest, or nothing if that may be. The ways between them are added.
    fn before(
        self,
        alloc: Global,
        rest: Fragment,
        optional: bool,
        ways: &mut Vec<Way>,
    ) -> Result<Fragment, OutOfMemory>
        requires { JoinAsSums self rest }
        ensures sides { IfOk result (λ p. p ≡ (if optional then opt_sides (cat_sides self rest) else cat_sides self rest)) }
        ensures ways { OnOk result (ways.new.items ≡ ways.old.items ++ ways_between self.last rest.first) }
    {
        let both = self.cat(alloc, rest, ways)?;
        both.opt_if(optional)
    }

    /// This or nothing.
    pub(crate) fn opt(self) -> Result<Fragment, OutOfMemory>
        ensures { IfOk result (λ p. p ≡ opt_sides self) }
    {
        let mut null = self.null;
        add_unless_there(Marks::none(), &mut null)?;
        Ok(Fragment {
            null,
            first: self.first,
            last: self.last,
        })
    }

    /// This, or nothing if that may be.
    pub(crate) fn opt_if(self, optional: bool) -> Result<Fragment, OutOfMemory>
        ensures { IfOk result (λ p. p ≡ (if optional then opt_sides self else self)) }
    {
        if optional { self.opt() } else { Ok(self) }
    }

    /// Adds the ways from this to itself.
    pub(crate) fn push_again(&self, ways: &mut Vec<Way>) -> Result<(), OutOfMemory>
        requires { JoinAsSums self.now self.now }
        ensures { OnOk result (ways.new.items ≡ ways.old.items ++ ways_between self.now.last self.now.first) }
    {
        push_ways(&self.last, &self.first, ways)
    }

    /// Adds the ways from Before into the first places.
    pub(crate) fn push_firsts(&self, ways: &mut Vec<Way>) -> Result<(), OutOfMemory>
        ensures { OnOk result (ways.new.items ≡ ways.old.items ++ map way_from_first self.now.first) }
    {
        push_from_before(&self.first, ways)
    }

    /// Adds the ways into After, whose number is given: from each last place, and from Before, one for
    /// each set of markers with which the empty string fits.
    pub(crate) fn push_afters(
        &self,
        alloc: Global,
        after: u32,
        ways: &mut Vec<Way>,
    ) -> Result<(), OutOfMemory>
        ensures { OnOk result (ways.new.items ≡ ways.old.items ++ map (way_after after) (end_stops self.now)) }
    {
        push_into_after(&self.last, after, ways)?;
        let stops = before_stops(alloc, &self.null)?;
        push_into_after(&stops, after, ways)
    }

    /// Adds the ends of the last places, and those of Before.
    pub(crate) fn add_stops(
        &self,
        alloc: Global,
        automaton: &mut Automaton,
    ) -> Result<(), OutOfMemory>
        requires state { (x : Stop) → Has (end_stops self.now) x → x.state < automaton.old.graph.states }
        requires marks { (x : Stop) → Has (end_stops self.now) x → IsBlockOf (length automaton.old.names) x.marks }
        ensures names { automaton.new.names ≡ automaton.old.names }
        ensures ok { OnOk result (automaton.new.graph ≡ with_stops (end_stops self.now) automaton.old.graph) }
    {
        add_last_stops(&self.last, automaton)?;
        let stops = before_stops(alloc, &self.null)?;
        add_last_stops(&stops, automaton)
    }

    /// This with other places, whose numbers are greater by so many.
    pub(crate) fn moved(&self, alloc: Global, by: u32) -> Result<Fragment, OutOfMemory>
        requires firsts { (e : Entry) → Has self.now.first e → e.to + by ≤ MOST_STATES }
        requires lasts { (s : Stop) → Has self.now.last s → s.state + by ≤ MOST_STATES }
        ensures { IfOk result (λ p. p ≡ sides_moved by self.now) }
    {
        let first = moved_entries(alloc, &self.first, by)?;
        let last = moved_stops(alloc, &self.last, by)?;
        let null = copied_sets(alloc, &self.null)?;
        Ok(Fragment { null, first, last })
    }

    /// This in a capture, whose markers are these.
    pub(crate) fn captured(self, opening: Marks, closing: Marks) -> Fragment
        requires { CanCapture opening closing self }
        ensures { result ≡ cap_sides opening closing self }
    {
        let mut null = self.null;
        mark_each(opening.with(closing), &mut null);
        let mut first = self.first;
        mark_entries(opening, &mut first);
        let mut last = self.last;
        mark_stops(closing, &mut last);
        Fragment { null, first, last }
    }
}

/// Any of the fragments.
///
/// The sets are joined from the last fragment to the first: those of each are looked up among those behind it.
pub(crate) fn join_arms(
    alloc: Global,
    mut fragments: Vec<Fragment>,
) -> Result<Fragment, OutOfMemory>
    requires { (P : Sides) → Has fragments.items P → AreDistinct P.null }
    ensures { IfOk result (λ p. p ≡ any_sides fragments.items) }
{
    let mut first = Vec::new(alloc);
    let mut last = Vec::new(alloc);
    for fragment in &fragments {
        first.extend_from_slice(&fragment.first)?;
        last.extend_from_slice(&fragment.last)?;
    }
    let mut null = Vec::new(alloc);
    while let Some(fragment) = fragments.pop() {
        null = either_of(fragment.null, null)?;
    }
    Ok(Fragment { null, first, last })
}

/// The fragments one after another and then the rest, where the first so many are required and each other
/// may stand only where all before it do. The ways between them are added.
pub(crate) fn join_row(
    alloc: Global,
    mut fragments: Vec<Fragment>,
    required: usize,
    rest: Fragment,
    ways: &mut Vec<Way>,
) -> Result<Fragment, OutOfMemory>
    requires { RowJoins required fragments.items rest }
    ensures sides { IfOk result (λ p. p ≡ row_sides required fragments.items rest) }
    ensures ways { OnOk result (ways.new.items ≡ ways.old.items ++ row_ways required fragments.items rest) }
{
    let mut row = rest;
    while let Some(fragment) = fragments.pop() {
        let optional = fragments.len() >= required;
        row = fragment.before(alloc, row, optional, ways)?;
    }
    Ok(row)
}

/// The fragments one after another, of which the last may come again and again, and may be left out where
/// none is required. No markers stand in them.
pub(crate) fn join_again(
    alloc: Global,
    mut fragments: Vec<Fragment>,
    required: usize,
    ways: &mut Vec<Way>,
) -> Result<Fragment, OutOfMemory>
    requires { (P : Sides) → Has fragments.items P → IsUnmarked P }
    ensures sides { IfOk result (λ p. (front : List Sides) (last : Sides) → fragments.items ≡ front ++ last ∷ [] →
        p ≡ row_sides required front (again_sides required last)) }
    ensures ways { OnOk result ((front : List Sides) (last : Sides) → fragments.items ≡ front ++ last ∷ []
        → ways.new.items ≡ (ways.old.items ++ ways_between last.last last.first) ++ row_ways required front (again_sides required last)) }
{
    let Some(last) = fragments.pop() else {
        return Fragment::nothing(alloc);
    };
    last.push_again(ways)?;
    let rest = last.opt_if(required == 0)?;
    join_row(alloc, fragments, required, rest, ways)
}
