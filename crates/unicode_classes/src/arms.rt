//! Alternations, of which one arm alone stands without a sign.
ghost use Rattle.std.specs.Prelude.{◌≡◌, ◌++◌, [], ◌∷◌, IfOk};
ghost use Rattle.spanner_model.specs.View.{tree_of, trees_of};
ghost use Rattle.unicode_classes.specs.ClassTree.{alternation};
ghost use Rattle.unicode_classes.specs.Arms.{arm_trees, AreProper};

use span_core::OutOfMemory;
use spanner_model::{Formula, Parts};
use std::alloc::Global;

/// Arms of an alternation, in order.
#[derive(Drop)]
pub(crate) enum Arms {
    None,
    One(Formula),
    Several(Parts),
}

/// These arms, and one more at the end.
pub(crate) fn with_arm(alloc: Global, arms: Arms, arm: Formula) -> Result<Arms, OutOfMemory>
    requires { AreProper arms }
    ensures trees { IfOk result (λ new. arm_trees new ≡ arm_trees arms ++ tree_of arm ∷ []) }
    ensures proper { IfOk result (λ new. AreProper new) }
{
    match arms {
        Arms::None => Ok(Arms::One(arm)),
        Arms::One(first) => {
            let both = pair(alloc, first, arm)?;
            Ok(Arms::Several(both))
        }
        Arms::Several(mut parts) => {
            parts.add(arm)?;
            Ok(Arms::Several(parts))
        }
    }
}

/// The one arm, or the alternation of these.
pub(crate) fn alternation_of(alloc: Global, arms: Arms) -> Formula
    requires { AreProper arms }
    ensures { tree_of result ≡ alternation (arm_trees arms) }
{
    match arms {
        Arms::None => Formula::Alt(Parts::new(alloc)),
        Arms::One(formula) => formula,
        Arms::Several(parts) => Formula::Alt(parts),
    }
}

/// The two formulas, in this order.
pub(crate) fn pair(alloc: Global, first: Formula, second: Formula) -> Result<Parts, OutOfMemory>
    ensures { IfOk result (λ parts. trees_of parts ≡ tree_of first ∷ (tree_of second ∷ [])) }
{
    let mut parts = Parts::new(alloc);
    parts.add(first)?;
    parts.add(second)?;
    Ok(parts)
}
