//! Which nodes of a graph are reached from some of them.
ghost use Rattle.std.specs.Prelude.{◌≡◌, ℕ, ◌<◌, ◌≤◌, ◌↔◌, ◌⊎◌, List, [], length, replicate, false, slice_get, Some, IfOk, OnOk};
ghost use Rattle.span_core.specs.Lists.{Has};
ghost use Rattle.marked_automaton.specs.Inside.{flagged};
ghost use Rattle.marked_automaton.specs.Reach.{AreTargets, Grows, IsFlagged, IsSearch, Reaches};
ghost use Rattle.marked_automaton.specs.Trimmed.{edge_in, edges_in};

use crate::Way;
use span_core::OutOfMemory;
use std::alloc::Global;

/// An edge of a graph whose nodes are numbers.
#[derive(Clone, Copy, Debug)]
pub(crate) struct Edge {
    /// The node that it leads from.
    pub(crate) from: u32,
    /// The node that it leads to.
    pub(crate) to: u32,
}

/// In which direction ways are followed.
#[derive(Clone, Copy, Debug)]
pub(crate) enum Direction {
    /// From where a way begins to where it leads.
    Forward,
    /// From where a way leads to where it begins.
    Back,
}

impl Direction {
    /// The edge that a way is in this direction.
    fn edge(self, way: &Way) -> Edge
        ensures { result ≡ edge_in self way.now }
    {
        match self {
            Direction::Forward => Edge {
                from: way.from,
                to: way.to,
            },
            Direction::Back => Edge {
                from: way.to,
                to: way.from,
            },
        }
    }
}

/// For each node a list of the nodes that edges from it lead to, where the ways are followed in this
/// direction. The time is linear in the nodes and the ways. Only targets are kept, and a list grows by
/// doubling, so the lists take less than eight bytes a way, and a little for each node.
fn targets(
    alloc: Global,
    nodes: u32,
    ways: &[Way],
    direction: Direction,
) -> Result<Vec<Vec<u32>>, OutOfMemory>
    requires { (e : Edge) → Has (edges_in direction ways.now) e → e.from < nodes }
    ensures len { IfOk result (λ targets. length targets.items ≡ nodes) }
    ensures exactly { IfOk result (λ targets. AreTargets (edges_in direction ways.now) targets.items) }
{
    let mut targets = empty_lists(alloc, nodes)?;
    for way in ways {
        let edge = direction.edge(way);
        targets[edge.from as usize].push(edge.to)?;
    }
    Ok(targets)
}

/// So many empty lists.
fn empty_lists(alloc: Global, count: u32) -> Result<Vec<Vec<u32>>, OutOfMemory>
    ensures len { IfOk result (λ lists. length lists.items ≡ count) }
    ensures empty { IfOk result (λ lists. AreTargets [] lists.items) }
{
    let mut lists = Vec::with_capacity(alloc, count as usize)?;
    for _ in 0..count {
        lists.push(Vec::new(alloc))?;
    }
    Ok(lists)
}

/// The nodes that are found, and those of them whose edges are not followed yet.
#[derive(Drop)]
struct Search {
    /// For each node whether it is found.
    found: Vec<bool>,
    waiting: Vec<u32>,
}

/// For each node below `nodes` whether the ways lead to it in this direction from a seed.
///
/// It goes over the ways once, in their order, and is done as soon as all nodes are found, as they soon are
/// in most automata. Else each way from a node that is found is followed once, over lists of targets. So the
/// time is linear in the nodes, the seeds and the ways.
pub(crate) fn reached(
    alloc: Global,
    nodes: u32,
    seeds: &[u32],
    ways: &[Way],
    direction: Direction,
) -> Result<Vec<bool>, OutOfMemory>
    requires seeds { (p : ℕ) → Has seeds.now p → p < nodes }
    requires froms { (y : Way) → Has ways.now y → y.from < nodes }
    requires tos { (y : Way) → Has ways.now y → y.to < nodes }
    ensures len { IfOk result (λ found. length found.items ≡ nodes) }
    ensures exactly { IfOk result (λ found. (p : ℕ) → IsFlagged found.items p ↔ Reaches (edges_in direction ways.now) seeds.now p) }
{
    let mut search = Search::new(alloc, nodes)?;
    search.find_all(seeds)?;
    search.sweep(ways, direction)?;
    if search.waiting.len() >= search.found.len() {
        return Ok(search.found);
    }
    let targets = targets(alloc, nodes, ways, direction)?;
    search.follow_all(targets.as_slice())?;
    Ok(search.found)
}

impl Search {
    /// Nothing is found.
    fn new(alloc: Global, nodes: u32) -> Result<Search, OutOfMemory>
        ensures found { IfOk result (λ s. s.found.items ≡ replicate nodes false) }
        ensures waiting { IfOk result (λ s. s.waiting.items ≡ []) }
    {
        let mut found = Vec::new(alloc);
        found.resize(nodes as usize, false)?;
        Ok(Search {
            found,
            waiting: Vec::new(alloc),
        })
    }

    /// Finds a node.
    fn find(&mut self, node: u32) -> Result<(), OutOfMemory>
        requires { node < length self.old.found.items }
        ensures grows { OnOk result (Grows (λ p. p ≡ node) self.old.found.items self.old.waiting.items
            self.new.found.items self.new.waiting.items) }
        ensures found { OnOk result (IsFlagged self.new.found.items node) }
    {
        if self.found[node as usize] {
            return Ok(());
        }
        self.found[node as usize] = true;
        self.waiting.push(node)?;
        Ok(())
    }

    /// Finds these nodes.
    fn find_all(&mut self, nodes: &[u32]) -> Result<(), OutOfMemory>
        requires { (p : ℕ) → Has nodes.now p → p < length self.old.found.items }
        ensures grows { OnOk result (Grows (Has nodes.now) self.old.found.items self.old.waiting.items
            self.new.found.items self.new.waiting.items) }
        ensures found { OnOk result ((p : ℕ) → Has nodes.now p → IsFlagged self.new.found.items p) }
    {
        for node in nodes {
            self.find(*node)?;
        }
        Ok(())
    }

    /// Follows each way once, in their order, from what is found by then, until all nodes are found.
    fn sweep(&mut self, ways: &[Way], direction: Direction) -> Result<(), OutOfMemory>
        requires { (e : Edge) → Has (edges_in direction ways.now) e →
            (e.from < length self.old.found.items) × (e.to < length self.old.found.items) }
        ensures grows { OnOk result (Grows (Reaches (edges_in direction ways.now) (flagged 0 self.old.found.items))
            self.old.found.items self.old.waiting.items self.new.found.items self.new.waiting.items) }
        ensures swept { OnOk result ((length self.new.found.items ≤ length self.new.waiting.items) ⊎ ((e : Edge) →
            Has (edges_in direction ways.now) e → IsFlagged self.old.found.items e.from → IsFlagged self.new.found.items e.to)) }
    {
        for way in ways {
            if self.waiting.len() >= self.found.len() {
                return Ok(());
            }
            let edge = direction.edge(way);
            if self.found[edge.from as usize] {
                self.find(edge.to)?;
            }
        }
        Ok(())
    }

    /// Follows the edges from all that waits to their targets, until nothing waits.
    fn follow_all(&mut self, targets: &[Vec<u32>]) -> Result<(), OutOfMemory>
        requires nodes { length targets.now ≡ length self.old.found.items }
        requires within { (p : ℕ) (list : _) → slice_get targets.now p ≡ Some list → (q : ℕ) → Has list.items q →
            q < length self.old.found.items }
        requires waiting { (p : ℕ) → Has self.old.waiting.items p → IsFlagged self.old.found.items p }
        ensures len { OnOk result (length self.new.found.items ≡ length self.old.found.items) }
        ensures search { OnOk result ((edges : List Edge) (seeds : List ℕ) → AreTargets edges targets.now →
            IsSearch edges seeds self.old.found.items self.old.waiting.items → IsSearch edges seeds self.new.found.items []) }
    {
        while let Some(node) = self.waiting.pop() {
            self.find_all(targets[node as usize].as_slice())?;
        }
        Ok(())
    }
}
