//! The variables of a formula.
ghost use Rattle.std.specs.Prelude.{◌≡◌, ◌↔◌, []};
ghost use Rattle.span_core.specs.declared.TheConstants.{MOST_VARIABLES};
ghost use Rattle.span_core.specs.Lists.{AtMost, Has};
ghost use Rattle.span_core.specs.NameSets.{Ascending};
ghost use Rattle.spanner_model.specs.Captures.{VarName};
ghost use Rattle.spanner_model.specs.Sequential.{HasVar};
ghost use Rattle.spanner_model.specs.View.{tree_of};
ghost use Rattle.spanner_model.specs.WellBuilt.{IsWellBuilt};
ghost use Rattle.place_automaton.specs.Variables.{with_vars};

use span_core::{MOST_VARIABLES, VarSet};
use spanner_model::{Formula, gather};

/// The formula's variables.
pub(crate) fn vars_of(formula: &Formula) -> VarSet
    requires built { IsWellBuilt (tree_of formula.now) }
    requires few { AtMost MOST_VARIABLES (HasVar (tree_of formula.now)) }
    ensures { result ≡ with_vars [] (tree_of formula.now) }
{
    gathered(formula)
}

fn gathered(formula: &Formula) -> VarSet
    requires built { IsWellBuilt (tree_of formula.now) }
    requires few { AtMost MOST_VARIABLES (HasVar (tree_of formula.now)) }
    ensures ascending { Ascending result }
    ensures names { (x : VarName) → Has result x ↔ HasVar (tree_of formula.now) x }
{
    let mut vars = VarSet::empty();
    gather(formula, &mut vars);
    prove!(vars.len() <= MOST_VARIABLES);
    vars
}
