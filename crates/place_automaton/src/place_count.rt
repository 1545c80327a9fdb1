//! How many places a formula has, without a look at its captures.
ghost use Rattle.std.specs.Prelude.{◌≡◌, List};
ghost use Rattle.spanner_model.specs.Captures.{VarName};
ghost use Rattle.span_core.specs.Lists.{Has};
ghost use Rattle.spanner_model.specs.Tree.{Tree, cat_all};
ghost use Rattle.spanner_model.specs.View.{tree_of, trees_of};
ghost use Rattle.spanner_model.specs.WellBuilt.{IsWellBuilt};
ghost use Rattle.place_automaton.specs.Capped.{capped};
ghost use Rattle.place_automaton.specs.Counts.{counts_over};

use crate::placing::copies_of;
use spanner_model::{Formula, Parts};

/// The places of the formula, or 2^64 - 1 where they are more.
#[cycle(places)]
pub(crate) fn count_places(formula: &Formula) -> u64
    requires { IsWellBuilt (tree_of formula.now) }
    ensures { (names : List VarName) → result ≡ capped (counts_over names (tree_of formula.now)).places }
{
    match formula {
        Formula::Empty => 0,
        Formula::One(_) => 1,
        Formula::Cat(parts) => sum_places(parts),
        Formula::Alt(arms) => sum_places(arms),
        Formula::Rep(sub, least, most) => {
            let copies = copies_of(*least, *most);
            u64::from(copies).saturating_mul(count_places(sub))
        }
        Formula::Cap(_, sub) => count_places(sub),
    }
}

/// The places of all these formulas.
#[cycle(places)]
fn sum_places(parts: &Parts) -> u64
    requires { (f : Tree) → Has (trees_of parts.now) f → IsWellBuilt f }
    ensures { (names : List VarName) → result ≡ capped (counts_over names (cat_all (trees_of parts.now))).places }
{
    let mut sum = 0u64;
    for k in 0..parts.len() {
        let places = count_places(parts.at(k));
        sum = sum.saturating_add(places);
    }
    sum
}
