//! The places of a formula.
//!
//! Parts are placed from left to right, so that places are numbered in the order of the text, and then joined from
//! the last to the first: the sides that grow are then those of the rest, no list is copied at a join of parts that
//! follow one another, and ways come in the order of a definition that nests to the right. A repeated formula is gone through once; its further copies
//! are the first with greater numbers.
ghost use Rattle.std.specs.Prelude.{◌≡◌, ◌↔◌, ◌+◌, ◌-◌, ◌≤◌, IfOk, IsTrue, List, Some, length, take, drop};
ghost use Rattle.spanner_model.specs.Captures.{VarName};
ghost use Rattle.span_core.specs.Lists.{Has, AreDistinct};
ghost use Rattle.spanner_model.specs.Tree.{Tree, one, rep, cat_all, alt_all};
ghost use Rattle.spanner_model.specs.View.{tree_of, trees_of};
ghost use Rattle.spanner_model.specs.WellBuilt.{IsWellBuilt};
ghost use Rattle.marked_automaton.specs.declared.TheConstants.{MOST_STATES};
ghost use Rattle.place_automaton.specs.Counts.{counts_over};
ghost use Rattle.place_automaton.specs.Drafts.{AreNamed, HasPlaced, copies_of, places_of};
ghost use Rattle.place_automaton.specs.Sides.{CanCapture, cap_sides, sides_of};
ghost use Rattle.place_automaton.specs.Moves.{LieBelow, places_moved};
ghost use Rattle.place_automaton.specs.Places.{Places};
ghost use Rattle.spanner_model.specs.Sequential.{HasNoVar, IsSequential};
ghost use Rattle.place_automaton.specs.Words.{opening_of, closing_of};

use crate::fragment::{Fragment, join_again, join_arms, join_row};
use crate::moving::push_moved_ways;
use marked_automaton::Way;
use span_core::{ByteSet, Marks, Name, OutOfMemory, VarSet};
use spanner_model::{Formula, Parts};
use std::alloc::Global;

/// An automaton that is being made.
#[derive(Drop)]
pub(crate) struct Draft {
    /// The number of the next place.
    pub(crate) next: u32,
    /// The ways between places.
    pub(crate) ways: Vec<Way>,
}

/// What placing a formula added to a draft.
#[derive(Clone, Copy)]
struct Added {
    /// The number of the first place.
    first: u32,
    /// How many places there are.
    places: u32,
    /// The index of the first way.
    from: usize,
    /// The index behind the last way.
    end: usize,
}

impl Draft {
    /// What has come since the next place had the one number, and the next way the other index.
    fn added_since(&self, first: u32, from: usize) -> Added
        requires { first ≤ self.now.next }
        ensures first { result.first ≡ first }
        ensures places { first + result.places ≡ self.now.next }
        ensures from { result.from ≡ from }
        ensures end { result.end ≡ length self.now.ways.items }
    {
        Added {
            first,
            places: self.next - first,
            from,
            end: self.ways.len(),
        }
    }

    /// Places a formula once more, whose ends are those of the fragment and which added this. The ends and the
    /// ways are the same, but for the numbers of the places.
    fn place_again(
        &mut self,
        alloc: Global,
        fragment: &Fragment,
        added: &Added,
    ) -> Result<Fragment, OutOfMemory>
        requires behind { added.now.first ≤ self.old.next }
        requires room { self.old.next + added.now.places ≤ MOST_STATES }
        requires order { added.now.from ≤ added.now.end }
        requires within { added.now.end ≤ length self.old.ways.items }
        requires below { LieBelow (added.now.first + added.now.places) fragment.now
            (take (added.now.end - added.now.from) (drop added.now.from self.old.ways.items)) }
        ensures { (P : Places) → fragment.now ≡ sides_of P → added.now.places ≡ P.count
            → take (added.now.end - added.now.from) (drop added.now.from self.old.ways.items) ≡ P.follow
            → IfOk result (HasPlaced (places_moved (self.old.next - added.now.first) P) self.old self.new) }
    {
        let by = self.next - added.first;
        let again = fragment.moved(alloc, by)?;
        push_moved_ways(added.from, added.end, by, &mut self.ways)?;
        self.next += added.places;
        Ok(again)
    }
}

/// Places the formula, and adds the ways between its places.
#[cycle(place)]
pub(crate) fn place(
    alloc: Global,
    vars: &VarSet,
    formula: &Formula,
    draft: &mut Draft,
) -> Result<Fragment, OutOfMemory>
    requires built { IsWellBuilt (tree_of formula.now) }
    requires sequential { IsSequential (tree_of formula.now) }
    requires distinct { AreDistinct vars.now }
    requires named { AreNamed vars.now (tree_of formula.now) }
    requires room { draft.old.next + (counts_over vars.now (tree_of formula.now)).places ≤ MOST_STATES }
    ensures { IfOk result (HasPlaced (places_of vars.now (tree_of formula.now) draft.old.next) draft.old draft.new) }
{
    match formula {
        Formula::Empty => Fragment::nothing(alloc),
        Formula::One(bytes) => place_one(alloc, bytes, draft),
        Formula::Cat(parts) => place_parts(alloc, vars, parts, draft),
        Formula::Alt(arms) => place_arms(alloc, vars, arms, draft),
        Formula::Rep(sub, least, most) => {
            if is_once(*most) {
                return place_once(alloc, vars, sub, *least, draft);
            }
            place_repeat(alloc, vars, sub, *least, *most, draft)
        }
        Formula::Cap(name, sub) => {
            let fragment = place(alloc, vars, sub, draft)?;
            Ok(captured(vars, name, fragment))
        }
    }
}

/// Places one byte.
fn place_one(alloc: Global, bytes: &ByteSet, draft: &mut Draft) -> Result<Fragment, OutOfMemory>
    requires { draft.old.next + 1 ≤ MOST_STATES }
    ensures { (names : List VarName) → IfOk result (HasPlaced (places_of names (one bytes.now) draft.old.next) draft.old draft.new) }
{
    let fragment = Fragment::one(alloc, bytes, draft.next)?;
    draft.next += 1;
    Ok(fragment)
}

/// Places the parts of a concatenation, and joins them.
#[cycle(place)]
fn place_parts(
    alloc: Global,
    vars: &VarSet,
    parts: &Parts,
    draft: &mut Draft,
) -> Result<Fragment, OutOfMemory>
    requires built { (f : Tree) → Has (trees_of parts.now) f → IsWellBuilt f }
    requires sequential { IsSequential (cat_all (trees_of parts.now)) }
    requires distinct { AreDistinct vars.now }
    requires named { AreNamed vars.now (cat_all (trees_of parts.now)) }
    requires room { draft.old.next + (counts_over vars.now (cat_all (trees_of parts.now))).places ≤ MOST_STATES }
    ensures { IfOk result (HasPlaced (places_of vars.now (cat_all (trees_of parts.now)) draft.old.next) draft.old draft.new) }
{
    let mut fragments = Vec::with_capacity(alloc, parts.len())?;
    for k in 0..parts.len() {
        let fragment = place(alloc, vars, parts.at(k), draft)?;
        fragments.push(fragment)?;
    }
    let rest = Fragment::nothing(alloc)?;
    join_row(alloc, fragments, parts.len(), rest, &mut draft.ways)
}

/// Places the arms of an alternation.
#[cycle(place)]
fn place_arms(
    alloc: Global,
    vars: &VarSet,
    arms: &Parts,
    draft: &mut Draft,
) -> Result<Fragment, OutOfMemory>
    requires built { (f : Tree) → Has (trees_of arms.now) f → IsWellBuilt f }
    requires sequential { IsSequential (alt_all (trees_of arms.now)) }
    requires distinct { AreDistinct vars.now }
    requires named { AreNamed vars.now (alt_all (trees_of arms.now)) }
    requires room { draft.old.next + (counts_over vars.now (alt_all (trees_of arms.now))).places ≤ MOST_STATES }
    ensures { IfOk result (HasPlaced (places_of vars.now (alt_all (trees_of arms.now)) draft.old.next) draft.old draft.new) }
{
    let mut fragments = Vec::with_capacity(alloc, arms.len())?;
    for k in 0..arms.len() {
        let fragment = place(alloc, vars, arms.at(k), draft)?;
        fragments.push(fragment)?;
    }
    join_arms(alloc, fragments)
}

/// Places a formula that comes once, or that may be left out where `least` is 0. Captures may stand in it.
#[cycle(place)]
fn place_once(
    alloc: Global,
    vars: &VarSet,
    sub: &Formula,
    least: u16,
    draft: &mut Draft,
) -> Result<Fragment, OutOfMemory>
    requires built { IsWellBuilt (rep (tree_of sub.now) least (Some 1)) }
    requires sequential { IsSequential (tree_of sub.now) }
    requires distinct { AreDistinct vars.now }
    requires named { AreNamed vars.now (tree_of sub.now) }
    requires room { draft.old.next + (counts_over vars.now (rep (tree_of sub.now) least (Some 1))).places ≤ MOST_STATES }
    ensures { IfOk result (HasPlaced (places_of vars.now (rep (tree_of sub.now) least (Some 1)) draft.old.next) draft.old draft.new) }
{
    let fragment = place(alloc, vars, sub, draft)?;
    fragment.opt_if(least == 0)
}

/// Places any other repetition, written out as copies of its formula, in which no capture stands. Where a
/// copy has no place the others add nothing, and are left out.
#[cycle(place)]
fn place_repeat(
    alloc: Global,
    vars: &VarSet,
    sub: &Formula,
    least: u16,
    most: Option<u16>,
    draft: &mut Draft,
) -> Result<Fragment, OutOfMemory>
    requires built { IsWellBuilt (rep (tree_of sub.now) least most) }
    requires sequential { IsSequential (tree_of sub.now) }
    requires bare { HasNoVar (tree_of sub.now) }
    requires distinct { AreDistinct vars.now }
    requires named { AreNamed vars.now (tree_of sub.now) }
    requires room { draft.old.next + (counts_over vars.now (rep (tree_of sub.now) least most)).places ≤ MOST_STATES }
    ensures { IfOk result (HasPlaced (places_of vars.now (rep (tree_of sub.now) least most) draft.old.next) draft.old draft.new) }
{
    let copies = copies_of(least, most);
    if copies == 0 {
        return Fragment::nothing(alloc);
    }
    let (before, from) = (draft.next, draft.ways.len());
    let first = place(alloc, vars, sub, draft)?;
    if draft.next == before {
        return first.opt_if(least == 0);
    }
    let added = draft.added_since(before, from);
    let mut fragments = Vec::with_capacity(alloc, usize::from(copies))?;
    fragments.push(first)?;
    for _copy in 1..copies {
        let fragment = draft.place_again(alloc, &fragments[0], &added)?;
        fragments.push(fragment)?;
    }
    let required = usize::from(least);
    match most {
        Some(_) => {
            let rest = Fragment::nothing(alloc)?;
            join_row(alloc, fragments, required, rest, &mut draft.ways)
        }
        None => join_again(alloc, fragments, required, &mut draft.ways),
    }
}

/// Whether a repetition comes once at most.
pub(crate) fn is_once(most: Option<u16>) -> bool
    ensures { IsTrue result ↔ (most ≡ Some 1) }
{
    match most {
        Some(most) => most == 1,
        None => false,
    }
}

/// How many copies of its formula a repetition is written out as.
pub(crate) fn copies_of(least: u16, most: Option<u16>) -> u16
    ensures { result ≡ copies_of least most }
{
    match most {
        Some(most) => most,
        None => least.max(1),
    }
}

/// The fragment in a capture of this name.
fn captured(vars: &VarSet, name: &Name, fragment: Fragment) -> Fragment
    requires distinct { AreDistinct vars.now }
    requires named { Has vars.now name.now }
    requires marks { CanCapture (opening_of vars.now name.now) (closing_of vars.now name.now) fragment }
    ensures { result ≡ cap_sides (opening_of vars.now name.now) (closing_of vars.now name.now) fragment }
{
    match vars.find(name) {
        Some(k) => {
            let count = vars.len();
            fragment.captured(Marks::opening(k, count), Marks::closing(k, count))
        }
        None => fragment,
    }
}
