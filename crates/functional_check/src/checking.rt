//! The check.
ghost use Rattle.std.specs.Prelude.{◌≡◌, ℕ, ◌↔◌, List, IfOk, IfErr, IsOk};
ghost use Rattle.span_core.specs.declared.TheConstants.{MOST_VARIABLES};
ghost use Rattle.span_core.specs.Lists.{Has, AtMost};
ghost use Rattle.span_core.specs.NameSets.{Ascending};
ghost use Rattle.spanner_model.specs.Tree.{Tree, cat_all, alt_all};
ghost use Rattle.spanner_model.specs.View.{tree_of, trees_of};
ghost use Rattle.spanner_model.specs.Sequential.{HasVar, IsSequential};
ghost use Rattle.spanner_model.specs.WellBuilt.{IsWellBuilt};
ghost use Rattle.functional_check.specs.Faults.{IsFault};
ghost use Rattle.functional_check.specs.Checked.{Checked, IsRepeatOf, IsCaptureOf};

use crate::name_bits::NameBits;
use crate::names::names_of;
use span_core::{Name, VarSet};
use spanner_model::{Formula, Parts};

/// Why a formula is not sequential, with a name that tells it. The numbers of these faults are 1 and 2.
#[derive(Clone, Copy, Debug)]
pub enum CheckFault {
    /// Number 1: the name stands in two parts of a concatenation, or inside a capture of its own.
    BoundTwice { var: Name },
    /// Number 2: the name stands under a repetition whose greatest number is not 1.
    UnderRepeat { var: Name },
}

/// The variables of a sequential formula. Of one that is not, its first fault: the formula's parts come
/// from left to right, each with all that is inside it, and then the formula itself.
///
/// Takes no memory.
pub fn check(formula: &Formula) -> Result<VarSet, CheckFault>
    requires built { IsWellBuilt (tree_of formula.now) }
    requires few { AtMost MOST_VARIABLES (HasVar (tree_of formula.now)) }
    ensures sequential { IsOk result ↔ IsSequential (tree_of formula.now) }
    ensures names { IfOk result (λ vars. (x : List ℕ) → Has vars x ↔ HasVar (tree_of formula.now) x) }
    ensures fault { IfErr result (IsFault (tree_of formula.now)) }
{
    let names = names_of(formula);
    match check_among(formula, &names) {
        Ok(_) => Ok(names),
        Err(fault) => Err(fault),
    }
}

/// The same of a formula whose variables are among these names.
///
/// Takes no memory.
#[cycle(check)]
pub fn check_among(formula: &Formula, names: &VarSet) -> Result<NameBits, CheckFault>
    requires built { IsWellBuilt (tree_of formula.now) }
    requires ascending { Ascending names.now }
    requires among { (x : List ℕ) → HasVar (tree_of formula.now) x → Has names.now x }
    ensures { Checked names.now (tree_of formula.now) result }
{
    match formula {
        Formula::Empty | Formula::One(_) => Ok(NameBits::empty()),
        Formula::Cat(parts) => check_parts(parts, names),
        Formula::Alt(arms) => check_arms(arms, names),
        Formula::Rep(sub, _, most) => {
            let vars = check_among(sub, names)?;
            repeated(vars, *most, names)
        }
        Formula::Cap(name, sub) => {
            let vars = check_among(sub, names)?;
            captured(name, vars, names)
        }
    }
}

/// The variables of a concatenation.
#[cycle(check)]
fn check_parts(parts: &Parts, names: &VarSet) -> Result<NameBits, CheckFault>
    requires built { (f : Tree) → Has (trees_of parts.now) f → IsWellBuilt f }
    requires ascending { Ascending names.now }
    requires among { (x : List ℕ) → HasVar (cat_all (trees_of parts.now)) x → Has names.now x }
    ensures { Checked names.now (cat_all (trees_of parts.now)) result }
{
    let mut vars = NameBits::empty();
    let mut twice = NameBits::empty();
    for k in 0..parts.len() {
        let part = check_among(parts.at(k), names)?;
        twice = twice.union(vars.meet(part));
        vars = vars.union(part);
    }
    match twice.least(names) {
        Some(var) => Err(CheckFault::BoundTwice { var }),
        None => Ok(vars),
    }
}

/// The variables of an alternation.
#[cycle(check)]
fn check_arms(arms: &Parts, names: &VarSet) -> Result<NameBits, CheckFault>
    requires built { (f : Tree) → Has (trees_of arms.now) f → IsWellBuilt f }
    requires ascending { Ascending names.now }
    requires among { (x : List ℕ) → HasVar (cat_all (trees_of arms.now)) x → Has names.now x }
    ensures { Checked names.now (alt_all (trees_of arms.now)) result }
{
    let mut vars = NameBits::empty();
    for k in 0..arms.len() {
        let arm = check_among(arms.at(k), names)?;
        vars = vars.union(arm);
    }
    Ok(vars)
}

/// A repetition, up to so many times, of a formula with these variables.
fn repeated(vars: NameBits, most: Option<u16>, names: &VarSet) -> Result<NameBits, CheckFault>
    ensures { IsRepeatOf names.now vars most result }
{
    if matches!(most, Some(1)) {
        return Ok(vars);
    }
    match vars.least(names) {
        Some(var) => Err(CheckFault::UnderRepeat { var }),
        None => Ok(vars),
    }
}

/// A capture of a formula with these variables.
fn captured(name: &Name, vars: NameBits, names: &VarSet) -> Result<NameBits, CheckFault>
    requires { Has names.now name.now }
    ensures { IsCaptureOf names.now name.now vars result }
{
    if vars.has(name, names) {
        return Err(CheckFault::BoundTwice { var: *name });
    }
    Ok(vars.union(NameBits::of(name, names)))
}
