//! The edges of a source, into the next layer.
//!
//! Edges descend, so the one without markers comes last: where its target has no cell yet the source's own cell is
//! handed on, and nothing is made. What a cell stands for stays in block order because later and lesser blocks are
//! newer.
ghost use Rattle.std.specs.Prelude.{◌≡◌, ◌≤◌, ◌<◌, ◌+◌, ℕ, [], ◌∷◌, length, Some, None, IfSome};
ghost use Rattle.span_core.specs.Lists.{Has};
ghost use Rattle.node_arena.specs.Cells.{HasCell, hold, with_hold, less_hold, new_link};
ghost use Rattle.output_graph.specs.Forward.{cell_of, set_cell};
ghost use Rattle.output_graph.specs.Graph.{sets_of};
ghost use Rattle.output_graph.specs.Programs.{place_in};
ghost use Rattle.output_graph.specs.Source.{Edges};
ghost use Rattle.output_graph.specs.Sound.{CanEnd, HasEnded, IsSpent, edges_of, edges_of_ends};

use crate::layer::Layer;
use node_arena::{Arena, Cell};
use span_core::{Edge, Marks, Steps};
use std::sync::ledger::Ledger;

/// The one set of accepted words, which ends lead to.
pub const ACCEPTED: u32 = 0;

/// Where an edge starts: the cell of its source, and its position.
#[derive(Clone, Copy)]
pub struct Origin {
    pub source: Cell,
    pub at: u32,
}

/// Where an edge leads: a set, and its place in the next layer.
#[derive(Clone, Copy)]
pub struct Target {
    pub set: u32,
    pub place: usize,
}

/// One edge, by a new cell for its target.
pub fn link_edge<L: Ledger>(
    arena: &mut Arena,
    next: &mut Layer,
    origin: Origin,
    marks: Marks,
    target: Target,
    steps: &mut Steps<L>,
) -> Cell
    requires placed { target.place ≡ place_in (sets_of next.old.pairs) target.set }
    requires spare { 1 ≤ arena.old.spare }
    requires room { 1 ≤ next.old.room }
    requires covered { target.set < next.old.known }
    requires from { HasCell arena.old.cells origin.source }
    requires also { IfSome (cell_of next.old.pairs target.set) (λ c. (hold arena.old.holds c ≡ 1) × (c ≡ origin.source → ⊥)) }
    ensures fresh { HasCell arena.old.cells result → ⊥ }
    ensures cells { arena.new.cells ≡ new_link result origin.at marks origin.source (cell_of next.old.pairs target.set) ∷ arena.old.cells }
    ensures holds { arena.new.holds ≡ with_hold (less_hold arena.old.holds (cell_of next.old.pairs target.set)) result 1 }
    ensures next { next.new.pairs ≡ set_cell next.old.pairs target.set result }
    ensures spare { arena.new.spare + 1 ≡ arena.old.spare }
    ensures room { next.old.room ≤ next.new.room + 1 }
    ensures known { next.new.known ≡ next.old.known }
    ensures steps { steps.new ≡ steps.old + 1 }
{
    let also = next.cell_at(target.place);
    let cell = arena.link(origin.at, marks, origin.source, also, steps);
    next.put_at(target.place, target.set, cell);
    cell
}

/// The edge without marks, which is a source's last. The target takes the source's cell, where it has none.
pub fn pass_on<L: Ledger>(
    arena: &mut Arena,
    next: &mut Layer,
    origin: Origin,
    target: Target,
    steps: &mut Steps<L>,
)
    requires placed { target.place ≡ place_in (sets_of next.old.pairs) target.set }
    requires can { CanEnd origin.at origin.source ((0, target.set) ∷ []) arena.old.cells next.old.pairs arena.old.holds }
    requires spare { 1 ≤ arena.old.spare }
    requires room { 1 ≤ next.old.room }
    requires covered { target.set < next.old.known }
    ensures ended { HasEnded origin.at origin.source ((0, target.set) ∷ []) arena.old.cells next.old.pairs
        arena.old.holds arena.new.cells next.new.pairs arena.new.holds }
    ensures spent { IsSpent 1 (length arena.old.cells) (length arena.new.cells) steps.old steps.new }
    ensures counted { steps.old ≤ steps.new }
    ensures next { (c : ℕ) × (next.new.pairs ≡ set_cell next.old.pairs target.set c) }
    ensures spare { arena.old.spare ≤ arena.new.spare + 1 }
    ensures room { next.old.room ≤ next.new.room + 1 }
    ensures known { next.new.known ≡ next.old.known }
{
    match next.cell_at(target.place) {
        None => next.put_at(target.place, target.set, origin.source),
        Some(_) => {
            let source = origin.source;
            let _cell = link_edge(arena, next, origin, Marks::none(), target, steps);
            arena.release(source, steps);
        }
    }
}

/// All edges of a source, whose hold is then given up.
pub fn make_edges<L: Ledger>(
    arena: &mut Arena,
    next: &mut Layer,
    source: Cell,
    at: u32,
    edges: &[Edge],
    steps: &mut Steps<L>,
)
    requires can { CanEnd at source (edges_of edges.now) arena.old.cells next.old.pairs arena.old.holds }
    requires spare { length edges.now ≤ arena.old.spare }
    requires room { length edges.now ≤ next.old.room }
    requires covered { (e : ℕ × ℕ) → Has (edges_of edges.now) e → e.1 < next.old.known }
    ensures ended { HasEnded at source (edges_of edges.now) arena.old.cells next.old.pairs arena.old.holds
        arena.new.cells next.new.pairs arena.new.holds }
    ensures spent { IsSpent (length edges.now) (length arena.old.cells) (length arena.new.cells) steps.old steps.new }
    ensures counted { steps.old ≤ steps.new }
{
    for edge in edges {
        let origin = Origin { source, at };
        let target = Target {
            set: edge.to,
            place: next.place_for(edge.to),
        };
        if edge.marks.is_none() {
            return pass_on(arena, next, origin, target, steps);
        }
        let _cell = link_edge(arena, next, origin, edge.marks, target, steps);
    }
    arena.release(source, steps);
}

/// All ends of a source, whose hold is then given up. They lead to the set 0.
pub fn make_ends<L: Ledger>(
    arena: &mut Arena,
    next: &mut Layer,
    source: Cell,
    at: u32,
    ends: &[Marks],
    steps: &mut Steps<L>,
)
    requires can { CanEnd at source (edges_of_ends ends.now) arena.old.cells next.old.pairs arena.old.holds }
    requires spare { length ends.now ≤ arena.old.spare }
    requires room { length ends.now ≤ next.old.room }
    requires covered { 0 < next.old.known }
    ensures ended { HasEnded at source (edges_of_ends ends.now) arena.old.cells next.old.pairs arena.old.holds
        arena.new.cells next.new.pairs arena.new.holds }
    ensures spent { IsSpent (length ends.now) (length arena.old.cells) (length arena.new.cells) steps.old steps.new }
    ensures counted { steps.old ≤ steps.new }
{
    for marks in ends {
        let origin = Origin { source, at };
        let target = Target {
            set: ACCEPTED,
            place: next.place_for(ACCEPTED),
        };
        if marks.is_none() {
            return pass_on(arena, next, origin, target, steps);
        }
        let _cell = link_edge(arena, next, origin, *marks, target, steps);
    }
    arena.release(source, steps);
}
