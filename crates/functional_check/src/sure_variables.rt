//! Sure variables.
ghost use Rattle.std.specs.Prelude.{◌≡◌, ℕ, ◌<◌, ◌↔◌, List, length, Some};
ghost use Rattle.span_core.specs.declared.TheConstants.{MOST_VARIABLES};
ghost use Rattle.span_core.specs.Lists.{Has, AtMost};
ghost use Rattle.span_core.specs.NameSets.{Ascending};
ghost use Rattle.spanner_model.specs.Tree.{Tree, cat_all, alt_all};
ghost use Rattle.spanner_model.specs.View.{tree_of, trees_of};
ghost use Rattle.spanner_model.specs.Sequential.{HasVar, IsSure};
ghost use Rattle.spanner_model.specs.WellBuilt.{IsWellBuilt};
ghost use Rattle.functional_check.specs.Numbered.{HasNumber, members};

use crate::name_bits::NameBits;
use crate::names::names_of;
use span_core::VarSet;
use spanner_model::{Formula, Parts};

/// The sure variables of a formula: those that each of its fits captures.
///
/// Takes no memory.
pub fn sure(formula: &Formula) -> VarSet
    requires built { IsWellBuilt (tree_of formula.now) }
    requires few { AtMost MOST_VARIABLES (HasVar (tree_of formula.now)) }
    ensures { (x : List ℕ) → Has result x ↔ IsSure (tree_of formula.now) x }
{
    let names = names_of(formula);
    sure_among(formula, &names).listed(&names)
}

/// The sure variables of a formula whose variables are among these names.
///
/// Takes no memory.
#[cycle(sure)]
pub fn sure_among(formula: &Formula, names: &VarSet) -> NameBits
    requires built { IsWellBuilt (tree_of formula.now) }
    requires ascending { Ascending names.now }
    requires among { (x : List ℕ) → HasVar (tree_of formula.now) x → Has names.now x }
    ensures { (x : List ℕ) → Has (members names.now result) x ↔ IsSure (tree_of formula.now) x }
{
    match formula {
        Formula::Empty | Formula::One(_) => NameBits::empty(),
        Formula::Cat(parts) => sure_in_some(parts, names),
        Formula::Alt(arms) => sure_in_all(arms, names),
        Formula::Rep(sub, least, most) => {
            let vars = sure_among(sub, names);
            repeated(vars, *least, *most)
        }
        Formula::Cap(name, sub) => {
            let vars = sure_among(sub, names);
            vars.union(NameBits::of(name, names))
        }
    }
}

/// The sure variables of a concatenation: those of its parts.
#[cycle(sure)]
fn sure_in_some(parts: &Parts, names: &VarSet) -> NameBits
    requires built { (f : Tree) → Has (trees_of parts.now) f → IsWellBuilt f }
    requires ascending { Ascending names.now }
    requires among { (x : List ℕ) → HasVar (cat_all (trees_of parts.now)) x → Has names.now x }
    ensures { (x : List ℕ) → Has (members names.now result) x ↔ IsSure (cat_all (trees_of parts.now)) x }
{
    let mut vars = NameBits::empty();
    for k in 0..parts.len() {
        let part = sure_among(parts.at(k), names);
        vars = vars.union(part);
    }
    vars
}

/// The sure variables of an alternation: those that all its arms share.
#[cycle(sure)]
fn sure_in_all(arms: &Parts, names: &VarSet) -> NameBits
    requires some { 0 < length (trees_of arms.now) }
    requires built { (f : Tree) → Has (trees_of arms.now) f → IsWellBuilt f }
    requires ascending { Ascending names.now }
    requires among { (x : List ℕ) → HasVar (cat_all (trees_of arms.now)) x → Has names.now x }
    ensures { (x : List ℕ) → Has (members names.now result) x ↔ IsSure (alt_all (trees_of arms.now)) x }
{
    let mut vars = sure_among(arms.at(0), names);
    for k in 1..arms.len() {
        let arm = sure_among(arms.at(k), names);
        vars = vars.meet(arm);
    }
    vars
}

/// The sure variables of a repetition, from so many times up to so many, of a formula that has these.
fn repeated(vars: NameBits, least: u16, most: Option<u16>) -> NameBits
    ensures { (k : ℕ) → HasNumber result k ↔ ((least ≡ 1) × (most ≡ Some 1) × HasNumber vars k) }
{
    if least == 1 && matches!(most, Some(1)) {
        vars
    } else {
        NameBits::empty()
    }
}
