//! Names in sets, and the names of formulas.
ghost use Rattle.std.specs.Prelude.{◌≡◌, ℕ, ◌↔◌, IsTrue, List};
ghost use Rattle.span_core.specs.declared.TheConstants.{MOST_VARIABLES};
ghost use Rattle.span_core.specs.Lists.{Has, AtMost};
ghost use Rattle.span_core.specs.NameSets.{Ascending};
ghost use Rattle.spanner_model.specs.Gathered.{Adds, HaveRoom};
ghost use Rattle.spanner_model.specs.Sequential.{HasVar};
ghost use Rattle.spanner_model.specs.View.{tree_of};
ghost use Rattle.spanner_model.specs.WellBuilt.{IsWellBuilt};

use span_core::{MOST_VARIABLES, Name, VarSet};
use spanner_model::{Formula, gather};

/// Adds a name.
pub(crate) fn add_one(name: &Name, into: &mut VarSet)
    requires { HaveRoom into.old (λ x. name.now ≡ x) }
    ensures { Adds into.old (λ x. name.now ≡ x) into.new }
{
    prove!(into.len() <= MOST_VARIABLES);
    let added = into.add(*name);
    prove!(added);
}

/// Whether a name is in a set.
pub fn has(names: &VarSet, name: &Name) -> bool
    ensures { IsTrue result ↔ Has names.now name.now }
{
    names.find(name).is_some()
}

/// The names of a formula's captures.
pub(crate) fn names_of(formula: &Formula) -> VarSet
    requires built { IsWellBuilt (tree_of formula.now) }
    requires few { AtMost MOST_VARIABLES (HasVar (tree_of formula.now)) }
    ensures names { (x : List ℕ) → Has result x ↔ HasVar (tree_of formula.now) x }
    ensures ascending { Ascending result }
{
    let mut names = VarSet::empty();
    let all = gather(formula, &mut names);
    prove!(all);
    prove!(names.len() <= MOST_VARIABLES);
    names
}
