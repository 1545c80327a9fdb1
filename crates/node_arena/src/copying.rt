//! How a copy of cells is made.
ghost use Rattle.std.specs.Prelude.{◌≡◌, ◌≤◌, ◌+◌, ℕ, IsSome, IfSome, OnOk, map as map_list};
ghost use Rattle.std.specs.FinMap as map;
ghost use Rattle.node_arena.specs.declared.TheConstants.{NONE};
ghost use Rattle.node_arena.specs.Cells.{HasCell};
ghost use Rattle.node_arena.specs.Nodes.{IsKept, seen, cells_from};
ghost use Rattle.node_arena.specs.Copying.{copy_in, Covers, HaveSlots, moved_node, AreMoved};

use crate::cell::Cell;
use crate::node::Node;
use crate::numbers::Numbers;
use raw_cells::{Slot, Slots};
use span_core::{OutOfMemory, Steps};
use std::sync::ledger::Ledger;

/// The node with the numbers of the copies.
fn moved(numbers: &Numbers, node: Node) -> Node
    ensures { result ≡ moved_node (copy_in numbers.now) node }
{
    Node {
        from: numbers.copied(node.from),
        also: numbers.copied(node.also),
        older: numbers.copied(node.older),
        newer: numbers.copied(node.newer),
        ..node
    }
}

/// The number of the next older cell.
fn older_than(nodes: &Slots<Node>, cell: u32) -> u32
    requires { IsSome (map.get nodes.now.live cell) }
    ensures { IfSome (map.get nodes.now.live cell) (λ n. result ≡ n.older) }
{
    nodes.get(Slot::of(cell)).older
}

/// Gives each cell a slot of `copies`, and notes its number in `numbers` at the cell's own. At most 1 step for each. It can be
/// refused for want of memory alone.
pub(crate) fn place_cells<L: Ledger>(
    nodes: &Slots<Node>,
    newest: u32,
    live: u64,
    copies: &mut Slots<Node>,
    numbers: &mut Numbers,
    steps: &mut Steps<L>,
) -> Result<(), OutOfMemory>
    requires kept { IsKept nodes.now.live newest live (seen nodes.now.live nodes.now.spare newest live) }
    requires empty { copies.old.live ≡ map.empty }
    requires room { live ≤ copies.old.spare }
    requires covered { (c : ℕ) → IsSome (map.get nodes.now.live c) → Covers numbers.old c }
    requires none { copy_in numbers.old NONE ≡ NONE }
    ensures slots { OnOk result (HaveSlots (copy_in numbers.new) copies.new.live (HasCell (cells_from live nodes.now.live newest))) }
    ensures none { OnOk result (copy_in numbers.new NONE ≡ NONE) }
    ensures steps { steps.new ≤ steps.old + live }
    ensures counted { steps.old ≤ steps.new }
{
    let mut at = newest;
    for _ in 0..live {
        steps.tick();
        let copy = copies.put(nodes.get(Slot::of(at))).number();
        numbers.put(at, copy)?;
        at = older_than(nodes, at);
    }
    Ok(())
}

/// Stores in each copy's slot the cell's node, with the numbers of the copies. 1 step for each.
pub(crate) fn move_nodes<L: Ledger>(
    nodes: &Slots<Node>,
    newest: u32,
    live: u64,
    copies: &mut Slots<Node>,
    numbers: &Numbers,
    steps: &mut Steps<L>,
)
    requires kept { IsKept nodes.now.live newest live (seen nodes.now.live nodes.now.spare newest live) }
    requires slots { HaveSlots (copy_in numbers.now) copies.old.live (HasCell (cells_from live nodes.now.live newest)) }
    ensures slots { HaveSlots (copy_in numbers.now) copies.new.live (HasCell (cells_from live nodes.now.live newest)) }
    ensures moved { AreMoved (copy_in numbers.now) nodes.now.live copies.new.live (HasCell (cells_from live nodes.now.live newest)) }
    ensures steps { steps.new ≡ steps.old + live }
{
    let mut at = newest;
    for _ in 0..live {
        steps.tick();
        let node = moved(numbers, nodes.get(Slot::of(at)));
        copies.set(Slot::of(numbers.copied(at)), node);
        at = older_than(nodes, at);
    }
}

/// Replaces each cell by its copy.
pub(crate) fn replace_cells(numbers: &Numbers, cells: &mut [Cell])
    ensures { cells.new ≡ map_list (copy_in numbers.now) cells.old }
{
    for cell in cells.iter_mut() {
        *cell = Cell::of(numbers.copied(cell.number()));
    }
}
