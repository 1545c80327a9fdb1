//! Formulas without variables.
ghost use Rattle.std.specs.Prelude.{◌↔◌, IsTrue};
ghost use Rattle.spanner_model.specs.View.{tree_of, trees_of};
ghost use Rattle.spanner_model.specs.Tree.{cat_all};
ghost use Rattle.spanner_model.specs.Sequential.{HasNoVar};

use spanner_model::{Formula, Parts};

/// Whether the formula has no variable.
#[cycle(bare)]
pub fn is_bare(formula: &Formula) -> bool
    ensures { IsTrue result ↔ HasNoVar (tree_of formula.now) }
{
    match formula {
        Formula::Empty | Formula::One(_) => true,
        Formula::Cat(parts) | Formula::Alt(parts) => are_bare(parts),
        Formula::Rep(sub, _, _) => is_bare(sub),
        Formula::Cap(_, _) => false,
    }
}

/// Whether none of the formulas has a variable.
#[cycle(bare)]
pub fn are_bare(parts: &Parts) -> bool
    ensures { IsTrue result ↔ HasNoVar (cat_all (trees_of parts.now)) }
{
    for k in 0..parts.len() {
        if !is_bare(parts.at(k)) {
            return false;
        }
    }
    true
}
