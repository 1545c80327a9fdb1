//! Joins of automata whose ways are grouped by the states that they lead from.
ghost use Rattle.std.specs.Prelude.{◌+◌, ◌≤◌, length, IfErr, IfOk, OnOk};
ghost use Rattle.span_core.specs.declared.TheConstants.{MOST_VARIABLES};
ghost use Rattle.marked_automaton.specs.Automaton.{AreGrouped};
ghost use Rattle.algebra.specs.JoinedNames.{all_names};
ghost use Rattle.algebra.specs.Joining.{IsGroupedOf, IsJoinFault, IsJoinOf, IsSpentOn, most_steps};

use crate::assembly::assembled;
use crate::effort::Effort;
use crate::fault::JoinFault;
use crate::halves::Operand;
use crate::pairs::searched;
use crate::renaming::names_of_both;
use marked_automaton::Automaton;
use span_core::OutOfMemory;
use std::alloc::Global;

/// The same automaton but for the order of its ways, which is that of the states that they lead from.
pub fn grouped(alloc: Global, a: &Automaton) -> Result<Automaton, OutOfMemory>
    ensures { IfOk result (IsGroupedOf a.now) }
{
    let mut copy = a.copy(alloc)?;
    copy.group_ways(alloc)?;
    a.is_marked();
    copy.is_marked();
    Ok(copy)
}

/// The join, where the ways of the first are grouped.
pub(crate) fn join_to(
    alloc: Global,
    a: &Automaton,
    b: &Automaton,
    effort: &mut Effort,
) -> Result<Automaton, JoinFault>
    requires first { AreGrouped a.now.graph.ways }
    requires few { length (all_names a.now.names b.now.names) ≤ MOST_VARIABLES }
    ensures join { IfOk result (IsJoinOf a.now b.now) }
    ensures fault { IfErr result (IsJoinFault a.now b.now) }
    ensures effort { effort.new ≤ effort.old }
    ensures spent { IfErr result (IsSpentOn effort.old (most_steps a.now b.now)) }
    ensures steps { OnOk result (effort.old ≤ effort.new + most_steps a.now b.now) }
{
    a.is_marked();
    if b.is_grouped() {
        return join_grouped(alloc, a, b, effort);
    }
    let second = grouped(alloc, b)?;
    join_grouped(alloc, a, &second, effort)
}

/// The join, where the ways of both are grouped.
fn join_grouped(
    alloc: Global,
    a: &Automaton,
    b: &Automaton,
    effort: &mut Effort,
) -> Result<Automaton, JoinFault>
    requires first { AreGrouped a.now.graph.ways }
    requires second { AreGrouped b.now.graph.ways }
    requires few { length (all_names a.now.names b.now.names) ≤ MOST_VARIABLES }
    ensures join { IfOk result (IsJoinOf a.now b.now) }
    ensures fault { IfErr result (IsJoinFault a.now b.now) }
    ensures effort { effort.new ≤ effort.old }
    ensures spent { IfErr result (IsSpentOn effort.old (most_steps a.now b.now)) }
    ensures steps { OnOk result (effort.old ≤ effort.new + most_steps a.now b.now) }
{
    a.is_marked();
    b.is_marked();
    let all = names_of_both(a.vars(), b.vars());
    let left = Operand::of(alloc, a, &all, a, true, b)?;
    let right = Operand::of(alloc, b, &all, a, false, a)?;
    let reached = searched(alloc, &left, &right, effort)?;
    assembled(alloc, all, reached, &left, &right, effort)
}
