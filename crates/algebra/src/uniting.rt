//! Unions, which are made behind the states of their first part.
ghost use Rattle.std.specs.Prelude.{◌≡◌, ◌+◌, ◌≤◌, IfOk, IfErr, OnOk, List, length, ℕ};
ghost use Rattle.std.specs.Bool.{OnTrue};
ghost use Rattle.span_core.specs.Lists.{Has};
ghost use Rattle.marked_automaton.specs.declared.TheConstants.{MOST_STATES, MOST_WAYS};
ghost use Rattle.marked_automaton.specs.declared.fault.SizeFault.TheVariants.{OutOfMemory as WantOfMemory};
ghost use Rattle.marked_automaton.specs.Faults.{IsSizeFaultOf};
ghost use Rattle.marked_automaton.specs.Reduct.{Reduces};
ghost use Rattle.algebra.specs.Operations.{union_of};
ghost use Rattle.algebra.specs.Uniting.{IsOver};

use crate::moved::{add_part, add_ways};
use marked_automaton::{Automaton, MOST_STATES, MOST_WAYS, SizeFault};
use span_core::{OutOfMemory, VarSet};
use std::alloc::Global;

/// Refuses what is too large for a union.
pub(crate) fn fit_together(a: &Automaton, b: &Automaton) -> Result<(), SizeFault>
    ensures few { OnOk result ((a.now.graph.states + b.now.graph.states ≤ MOST_STATES) ×
        (length a.now.graph.ways + length b.now.graph.ways ≤ MOST_WAYS)) }
    ensures fault { IfErr result (λ e. IsSizeFaultOf (a.now.graph.states + b.now.graph.states)
        (length a.now.graph.ways + length b.now.graph.ways) e) }
{
    let states = a.states() + b.states();
    let ways = a.ways().len() + b.ways().len();
    if states > MOST_STATES {
        return Err(SizeFault::States {
            count: u64::from(states),
        });
    }
    if ways > MOST_WAYS {
        return Err(SizeFault::Ways { count: ways as u64 });
    }
    Ok(())
}

/// Whether the automaton is over these names already, which are its own and maybe more.
pub(crate) fn is_over(automaton: &Automaton, all: &VarSet) -> bool
    requires { (x : List ℕ) → Has automaton.now.names x → Has all.now x }
    ensures { OnTrue result (IsOver all.now automaton.now automaton.now) }
{
    automaton.is_marked();
    automaton.vars().len() == all.len()
}

/// The automaton over these names, which are its own and maybe more. Where it has them all already, nothing
/// is made.
pub(crate) fn over(
    alloc: Global,
    automaton: Automaton,
    all: &VarSet,
) -> Result<Automaton, OutOfMemory>
    requires { (x : List ℕ) → Has automaton.names x → Has all.now x }
    ensures { IfOk result (IsOver all.now automaton) }
{
    if is_over(&automaton, all) {
        return Ok(automaton);
    }
    automaton.erase(alloc, all)
}

/// The union of two automata over the same names, which are not too large together.
pub(crate) fn appended(a: Automaton, b: &Automaton) -> Result<Automaton, SizeFault>
    requires names { a.names ≡ b.now.names }
    requires few { a.graph.states + b.now.graph.states ≤ MOST_STATES }
    requires few_ways { length a.graph.ways + length b.now.graph.ways ≤ MOST_WAYS }
    ensures names { IfOk result (λ u. u.names ≡ a.names) }
    ensures reduct { IfOk result (λ u. Reduces u.graph (union_of a.graph b.now.graph)) }
    ensures fault { IfErr result (λ e. e ≡ WantOfMemory) }
{
    let by = a.states();
    let mut whole = a;
    whole.add_states(b.states())?;
    add_ways(&mut whole, b, by)?;
    add_part(&mut whole, b, by)?;
    Ok(whole)
}
