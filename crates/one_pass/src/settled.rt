//! Which sources of a layer are settled, told by flags of the states.
ghost use Rattle.std.specs.Prelude.{◌≡◌, ◌↔◌, ◌<◌, ◌≤◌, ℕ, length, IfOk, IsTrue};
ghost use Rattle.span_core.specs.Lists.{Has};
ghost use Rattle.marked_automaton.specs.Reach.{IsFlagged};
ghost use Rattle.one_pass.specs.Flags.{AreTold};
ghost use Rattle.one_pass.specs.Passes.{AreGiven};
ghost use Rattle.one_pass.specs.Settling.{IsSettledBy};

use output_graph::OutputGraph;
use set_table::Table;
use span_core::OutOfMemory;
use std::alloc::Global;

/// For each source of the layer whether its set is settled.
pub(crate) fn settled_sources(
    alloc: Global,
    table: &Table<'_>,
    graph: &OutputGraph,
    unspent: &[bool],
    lasting: &[bool],
) -> Result<Vec<bool>, OutOfMemory>
    requires given { AreGiven table.now graph.now }
    requires fresh { graph.now.stepped ≡ 0 }
    requires unspent { table.now.graph.states ≤ length unspent.now }
    requires lasting { table.now.graph.states ≤ length lasting.now }
    ensures len { IfOk result (λ flags. length flags.items ≡ length graph.now.layer) }
    ensures told { IfOk result (λ flags. AreTold (IsSettledBy unspent.now lasting.now) table.now graph.now flags.items) }
{
    let mut flags = Vec::new(alloc);
    for k in 0..graph.layer_len() {
        let set = graph.set_at(k);
        let settled = is_settled(table.members(set), unspent, lasting);
        flags.push(settled)?;
    }
    Ok(flags)
}

/// Whether no member can take marks any more and one stays accepted whatever comes.
fn is_settled(members: &[u32], unspent: &[bool], lasting: &[bool]) -> bool
    requires unspent { (p : ℕ) → Has members.now p → p < length unspent.now }
    requires lasting { (p : ℕ) → Has members.now p → p < length lasting.now }
    ensures { IsTrue result ↔ IsSettledBy unspent.now lasting.now members.now }
{
    !some_good(members, unspent) && some_good(members, lasting)
}

/// Whether one of these states is in `good`.
fn some_good(states: &[u32], good: &[bool]) -> bool
    requires { (p : ℕ) → Has states.now p → p < length good.now }
    ensures { IsTrue result ↔ ((p : ℕ) × Has states.now p × IsFlagged good.now p) }
{
    for state in states {
        if good[*state as usize] {
            return true;
        }
    }
    false
}
