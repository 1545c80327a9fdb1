//! Union, projection and join.
ghost use Rattle.std.specs.Prelude.{◌≡◌, ℕ, ◌+◌, ◌*◌, ◌<◌, ◌≤◌, IfOk, IfErr, List, OnOk, length};
ghost use Rattle.span_core.specs.declared.TheConstants.{MOST_VARIABLES};
ghost use Rattle.span_core.specs.Lists.{Has};
ghost use Rattle.marked_automaton.specs.declared.TheConstants.{MOST_STATES, MOST_WAYS};
ghost use Rattle.marked_automaton.specs.Faults.{IsSizeFaultOf, IsSizeFaultWithin};
ghost use Rattle.marked_automaton.specs.Marks.{left_of, remarked};
ghost use Rattle.marked_automaton.specs.Reduct.{IsReached, Reduces};
ghost use Rattle.algebra.specs.JoinedMarks.{agree_on, joined};
ghost use Rattle.algebra.specs.JoinedNames.{all_names};
ghost use Rattle.algebra.specs.Joining.{IsJoinFault, IsJoinOf, IsSpentOn, most_steps};
ghost use Rattle.algebra.specs.Operations.{join_of};
ghost use Rattle.algebra.specs.Uniting.{union_over};

use crate::effort::Effort;
use crate::fault::JoinFault;
use crate::joining::{grouped, join_to};
use crate::renaming::names_of_both;
use crate::uniting::{appended, fit_together, is_over, over};
use marked_automaton::{Automaton, SizeFault};
use span_core::{OutOfMemory, VarSet};
use std::alloc::Global;

/// The automaton that accepts what `a` or `b` accepts (Fagin et al. 2015, union of spanners), over the
/// variables of both. A variable that one of them lacks is absent from what that accepts. The states of `b`
/// stand behind those of `a`, and each is idle where it was.
///
/// `States` comes exactly where the numbers of states are together more than `MOST_STATES`, and `Ways`
/// exactly where these are not and the ways are more than `MOST_WAYS`.
pub fn union(alloc: Global, a: &Automaton, b: &Automaton) -> Result<Automaton, SizeFault>
    requires { length (all_names a.now.names b.now.names) ≤ MOST_VARIABLES }
    ensures names { IfOk result (λ u. u.names ≡ all_names a.now.names b.now.names) }
    ensures reduct { IfOk result (λ u. Reduces u.graph (union_over a.now b.now u.names)) }
    ensures few { OnOk result ((a.now.graph.states + b.now.graph.states ≤ MOST_STATES) ×
        (length a.now.graph.ways + length b.now.graph.ways ≤ MOST_WAYS)) }
    ensures fault { IfErr result (λ e. IsSizeFaultOf (a.now.graph.states + b.now.graph.states)
        (length a.now.graph.ways + length b.now.graph.ways) e) }
{
    fit_together(a, b)?;
    unite(alloc, a.copy(alloc)?, b)
}

/// The union of both (Fagin et al. 2015), made in the first: its states, starts, ways and ends stay, and
/// those of `b` are put behind them. It costs what `b` has, and what `a` has where `b` has variables that `a`
/// lacks. Refused exactly as `union` is; on refusal the automaton is given up.
pub fn unite(alloc: Global, a: Automaton, b: &Automaton) -> Result<Automaton, SizeFault>
    requires { length (all_names a.names b.now.names) ≤ MOST_VARIABLES }
    ensures names { IfOk result (λ u. u.names ≡ all_names a.names b.now.names) }
    ensures reduct { IfOk result (λ u. Reduces u.graph (union_over a b.now u.names)) }
    ensures few { OnOk result ((a.graph.states + b.now.graph.states ≤ MOST_STATES) ×
        (length a.graph.ways + length b.now.graph.ways ≤ MOST_WAYS)) }
    ensures fault { IfErr result (λ e. IsSizeFaultOf (a.graph.states + b.now.graph.states)
        (length a.graph.ways + length b.now.graph.ways) e) }
{
    fit_together(&a, b)?;
    let all = names_of_both(a.vars(), b.vars());
    let first = over(alloc, a, &all)?;
    if is_over(b, &all) {
        return appended(first, b);
    }
    let second = b.erase(alloc, &all)?;
    appended(first, &second)
}

/// The automaton that accepts what is left of the words of `a` on the kept variables (projection).
pub fn project(alloc: Global, a: &Automaton, keep: &VarSet) -> Result<Automaton, OutOfMemory>
    requires { (x : List ℕ) → Has keep.now x → Has a.now.names x }
    ensures names { IfOk result (λ p. p.names ≡ keep.now) }
    ensures reduct { IfOk result (λ p. Reduces p.graph (remarked (left_of a.now.names keep.now) a.now.graph)) }
{
    a.is_marked();
    a.erase(alloc, keep)
}

/// The automaton that accepts what words of `a` and of `b`, that agree on the shared variables, are
/// together (natural join). Its states are pairs; two ways go together where their markers agree on the
/// shared variables and their byte sets meet. It has only the pairs that are reached from its starts. A
/// pair is idle exactly where both its states are.
///
/// `States` comes only where the product of the numbers of states is more than `MOST_STATES`, and `Ways`
/// only where the pairs of ways that go together are more than `MOST_WAYS`.
///
/// Nothing bounds the work: `join_within` takes a bound.
pub fn join(alloc: Global, a: &Automaton, b: &Automaton) -> Result<Automaton, SizeFault>
    requires { length (all_names a.now.names b.now.names) ≤ MOST_VARIABLES }
    ensures names { IfOk result (λ j. j.names ≡ all_names a.now.names b.now.names) }
    ensures reduct { IfOk result (λ j. Reduces j.graph
        (join_of (agree_on a.now.names b.now.names j.names) (joined a.now.names b.now.names j.names) a.now.graph b.now.graph)) }
    ensures reached { IfOk result (λ j. (p : ℕ) → p < j.graph.states → IsReached j.graph p) }
    ensures fault { IfErr result (λ e. IsSizeFaultWithin (a.now.graph.states * b.now.graph.states)
        (length (join_of (agree_on a.now.names b.now.names (all_names a.now.names b.now.names)) (joined a.now.names b.now.names (all_names a.now.names b.now.names)) a.now.graph b.now.graph).ways) e) }
{
    join_within(alloc, a, b, &mut Effort::new(u64::MAX))
}

/// The join of `a` and `b`, as `join` makes it, with a bound on the work. Before it tries the ways at a pair
/// of states with each other, it takes from `effort` one step for each two that it tries, one of each state,
/// and one for each way at the two states. Where one of the states has no ways, it takes none. When all pairs are
/// found, it takes one step for each two ends of a pair, and then no step that is left, or more than `MOST_ENDS` ends,
/// is want of memory.
///
/// Where no step is left then, the join is refused: with `States` if the product of the numbers of states is
/// more than `MOST_STATES`, and the count is that product, and else with want of memory, which needs no cause.
/// `Ways`, and `States` for the pairs that it found, come as from `join`.
pub fn join_within(
    alloc: Global,
    a: &Automaton,
    b: &Automaton,
    effort: &mut Effort,
) -> Result<Automaton, SizeFault>
    requires { length (all_names a.now.names b.now.names) ≤ MOST_VARIABLES }
    ensures names { IfOk result (λ j. j.names ≡ all_names a.now.names b.now.names) }
    ensures reduct { IfOk result (λ j. Reduces j.graph
        (join_of (agree_on a.now.names b.now.names j.names) (joined a.now.names b.now.names j.names) a.now.graph b.now.graph)) }
    ensures reached { IfOk result (λ j. (p : ℕ) → p < j.graph.states → IsReached j.graph p) }
    ensures fault { IfErr result (λ e. IsSizeFaultWithin (a.now.graph.states * b.now.graph.states)
        (length (join_of (agree_on a.now.names b.now.names (all_names a.now.names b.now.names)) (joined a.now.names b.now.names (all_names a.now.names b.now.names)) a.now.graph b.now.graph).ways) e) }
    ensures effort { effort.new ≤ effort.old }
{
    match join_with_cause(alloc, a, b, effort) {
        Ok(automaton) => Ok(automaton),
        Err(JoinFault::Size(fault)) => Err(fault),
        Err(JoinFault::Ends { .. } | JoinFault::Spent) => Err(SizeFault::OutOfMemory),
    }
}

/// The join that `join_within` makes. `JoinFault::Ends` comes only where the join has more than `MOST_ENDS` ends: the
/// count that it tells is more than that, and no more than the pairs of ends that go together. `JoinFault::Spent` comes
/// only where the effort had no more steps than three for each pair of ways of the two, and one for each pair of ends.
pub fn join_with_cause(
    alloc: Global,
    a: &Automaton,
    b: &Automaton,
    effort: &mut Effort,
) -> Result<Automaton, JoinFault>
    requires { length (all_names a.now.names b.now.names) ≤ MOST_VARIABLES }
    ensures join { IfOk result (IsJoinOf a.now b.now) }
    ensures fault { IfErr result (IsJoinFault a.now b.now) }
    ensures effort { effort.new ≤ effort.old }
    ensures spent { IfErr result (IsSpentOn effort.old (most_steps a.now b.now)) }
    ensures steps { OnOk result (effort.old ≤ effort.new + most_steps a.now b.now) }
{
    b.is_marked();
    if a.is_grouped() {
        return join_to(alloc, a, b, effort);
    }
    let first = grouped(alloc, a)?;
    join_to(alloc, &first, b, effort)
}
