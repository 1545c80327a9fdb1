//! The layers of a forward pass.
//!
//! The sources of a layer are stepped one after the other, each by its edges at one position; when all are, the next
//! layer takes the place of this one. Room is made before a source is stepped, so that a refusal changes nothing.
ghost use Rattle.std.specs.Prelude.{◌≡◌, ◌↔◌, ◌≤◌, ◌<◌, ◌+◌, ◌*◌, ℕ, [], ◌∷◌, length, slice_get, Some, OnOk, OnErr, IfOk};
ghost use Rattle.span_core.specs.Lists.{AreDistinct, Has};
ghost use Rattle.node_arena.specs.Cells.{HasCell};
ghost use Rattle.output_graph.specs.Source.{Descend};
ghost use Rattle.output_graph.specs.Graph.{HasWord, sources, targets, sets_of, IsPlace, IsStepped, IsCost, IsReached, AreApart};
ghost use Rattle.output_graph.specs.Sound.{edges_of, edges_of_ends};
ghost use Rattle.output_graph.specs.Loop.{AreListed};
ghost use Rattle.output_graph.specs.Named.{renamed};
ghost use Rattle.output_graph.specs.Planned.{AreRun, AreWithin, MayRun};

use crate::edges::{ACCEPTED, make_edges, make_ends};
use crate::layer::Layer;
use crate::planned::{Planned, room_for, run_planned};
use crate::programs::Programs;
use crate::registers::Registers;
use crate::row_lists::RowLists;
use crate::turning::turn_cells;
use node_arena::Arena;
use span_core::{Edge, Marks, OutOfMemory, Steps};
use std::alloc::Global;
use std::marker::Model;
use std::sync::ledger::Ledger;

/// The words that lead to each set of a layer, and those that lead on from it so far.
#[derive(Drop)]
pub struct OutputGraph {
    arena: Arena,
    registers: Registers,
    next: Layer,
    stepped: usize,
    at: u32,
}

impl Model for OutputGraph {
    ghost use Rattle.output_graph.specs.Graph.{Graph};

    ghost Value = { Graph };

    ghost use Rattle.output_graph.specs.Sound.{IsSound, graph_of};

    ghost view = { λ g. graph_of g.arena.cells g.registers.sources.items g.next.pairs g.stepped g.at };

    ghost invariant = { λ g. IsSound (graph_of g.arena.cells g.registers.sources.items g.next.pairs g.stepped g.at) g.arena.holds };
}

impl OutputGraph {
    /// The layer with this one set, which the empty word leads to. It takes 1 step.
    pub fn start<L: Ledger>(
        alloc: Global,
        set: u32,
        steps: &mut Steps<L>,
    ) -> Result<OutputGraph, OutOfMemory>
        ensures sources { IfOk result (λ g. sources g ≡ record { set = set; words = [] ∷ [] } ∷ []) }
        ensures targets { IfOk result (λ g. g.next ≡ []) }
        ensures begun { IfOk result (λ g. (g.stepped ≡ 0) × (length g.layer ≡ 1) × (length g.cells ≡ 1)) }
        ensures steps { OnOk result (steps.new ≡ steps.old + 1) }
        ensures refused { OnErr result (steps.new ≡ steps.old) }
    {
        let mut arena = Arena::new(alloc);
        let mut sources = Vec::new(alloc);
        let next = Layer::new(alloc);
        arena.reserve(1)?;
        sources.reserve(1)?;
        let root = arena.root(steps);
        sources.push_reserved((set, root));
        Ok(OutputGraph {
            arena,
            registers: Registers::of(sources),
            next,
            stepped: 0,
            at: 0,
        })
    }

    /// A graph with the same sets, in their order, each with the words that it has, and with as many cells. No source of
    /// the layer has been stepped. At most 2 steps for each cell, and 1.
    pub fn copy<L: Ledger>(
        &self,
        alloc: Global,
        steps: &mut Steps<L>,
    ) -> Result<OutputGraph, OutOfMemory>
        requires { self.now.stepped ≡ 0 }
        ensures sources { IfOk result (λ g. sources g ≡ sources self.now) }
        ensures targets { IfOk result (λ g. g.next ≡ []) }
        ensures stepped { IfOk result (λ g. g.stepped ≡ 0) }
        ensures cells { IfOk result (λ g. length g.cells ≡ length self.now.cells) }
        ensures steps { steps.new ≤ steps.old + 2 * length self.now.cells + 1 }
        ensures counted { OnOk result (steps.old < steps.new) }
    {
        let mut cells = self.registers.cells(alloc)?;
        let arena = self.arena.copy(alloc, &mut cells, steps)?;
        let registers = self.registers.with_cells(alloc, &cells)?;
        arena.is_arena();
        Ok(OutputGraph {
            arena,
            registers,
            next: Layer::new(alloc),
            stepped: 0,
            at: 0,
        })
    }

    /// The number of sets in the layer.
    pub fn layer_len(&self) -> usize
        ensures { result ≡ length self.now.layer }
    {
        self.registers.len()
    }

    /// Set `k` of the layer.
    pub fn set_at(&self, k: usize) -> u32
        requires { k < length self.now.layer }
        ensures { slice_get (sets_of self.now.layer) k ≡ Some result }
    {
        self.registers.at(k).0
    }

    /// The number of live cells.
    pub fn live(&self) -> u64
        ensures { result ≡ length self.now.cells }
    {
        self.arena.live()
    }

    /// What is always true of a graph: the sets of a layer are distinct, each of its words has one path, no word
    /// leads to two sets, and the cells are those that are reached from the sets.
    pub fn is_graph(&self)
        ensures sources { AreApart (sources self.now) }
        ensures targets { AreApart (targets self.now) }
        ensures reached { (c : ℕ) → HasCell self.now.cells c ↔ IsReached self.now c }
    {
        self.arena.is_arena();
    }

    /// Goes to the next layer.
    pub fn next_layer(&mut self)
        requires { self.old.stepped ≡ length self.old.layer }
        ensures cells { self.new.cells ≡ self.old.cells }
        ensures layer { self.new.layer ≡ self.old.next }
        ensures next { self.new.next ≡ [] }
        ensures stepped { self.new.stepped ≡ 0 }
        ensures sources { sources self.new ≡ targets self.old }
        ensures targets { targets self.new ≡ [] }
    {
        self.next.give(&mut self.registers.sources);
        self.stepped = 0;
    }

    /// Gives the cells of the layer, in their order, to other sets, as many and distinct.
    pub fn rename(&mut self, sets: &[u32])
        requires distinct { AreDistinct sets.now }
        requires every { length sets.now ≡ length self.old.layer }
        ensures { self.new ≡ renamed sets.now self.old }
    {
        self.registers.rename(sets);
    }

    /// Leads the words of source `k` on by its edges, all at this position, and gives up its hold. An edge adds
    /// one cell at most, and an edge without marks none where its target has no cell yet. After a refusal the
    /// graph is as it was. At most 2 steps for each edge, 2, and 1 for each cell that is given back.
    pub fn step_source<L: Ledger>(
        &mut self,
        k: usize,
        at: u32,
        edges: &[Edge],
        steps: &mut Steps<L>,
    ) -> Result<(), OutOfMemory>
        requires source { k ≡ self.old.stepped }
        requires left { k < length self.old.layer }
        requires place { IsPlace self.old at }
        requires descend { Descend (edges_of edges.now) }
        ensures stepped { OnOk result (IsStepped self.old at (edges_of edges.now) self.new) }
        ensures cost { OnOk result (IsCost (length edges.now) (length self.old.cells) (length self.new.cells) steps.old steps.new) }
        ensures counted { OnOk result (steps.old < steps.new) }
        ensures refused { OnErr result (self.new ≡ self.old) }
        ensures uncounted { OnErr result (steps.new ≡ steps.old) }
    {
        self.arena.is_arena();
        self.arena.reserve(edges.len())?;
        make_room(&mut self.next, edges)?;
        steps.tick();
        let source = self.registers.at(k).1;
        make_edges(&mut self.arena, &mut self.next, source, at, edges, steps);
        self.stepped = k + 1;
        self.at = at;
        Ok(())
    }

    /// Leads the words of every source of the layer on by programs of a pool, one behind another: by each at its position,
    /// and then to the next layer, as `step_source` does for one source after another and `next_layer` behind them. Room is
    /// asked for once for all. The names of the last layer are left for `rename`. After a refusal the graph is as it was. At
    /// most 2 steps for each edge, 2 for each source, and 1 for each cell that is given back.
    pub fn run_programs<L: Ledger>(
        &mut self,
        programs: &Programs,
        planned: &[Planned],
        steps: &mut Steps<L>,
    ) -> Result<(), OutOfMemory>
        requires within { AreWithin (length programs.now) planned.now }
        requires begun { self.old.stepped ≡ 0 }
        requires may { MayRun programs.now planned.now self.old steps.old }
        ensures run { OnOk result (AreRun programs.now planned.now self.old self.new steps.old steps.new) }
        ensures refused { OnErr result (self.new ≡ self.old) }
        ensures uncounted { OnErr result (steps.new ≡ steps.old) }
    {
        let pool = programs.pool();
        let room = room_for(pool, planned)?;
        self.arena.reserve(room)?;
        self.registers.reserve(room)?;
        run_planned(
            &mut self.arena,
            &mut self.registers,
            self.at,
            pool,
            planned,
            steps,
        );
        Ok(())
    }

    /// As `step_source`, by ends, which lead to the set 0.
    pub fn end_source<L: Ledger>(
        &mut self,
        k: usize,
        at: u32,
        ends: &[Marks],
        steps: &mut Steps<L>,
    ) -> Result<(), OutOfMemory>
        requires source { k ≡ self.old.stepped }
        requires left { k < length self.old.layer }
        requires place { IsPlace self.old at }
        requires descend { Descend (edges_of_ends ends.now) }
        ensures stepped { OnOk result (IsStepped self.old at (edges_of_ends ends.now) self.new) }
        ensures cost { OnOk result (IsCost (length ends.now) (length self.old.cells) (length self.new.cells) steps.old steps.new) }
        ensures counted { OnOk result (steps.old < steps.new) }
        ensures refused { OnErr result (self.new ≡ self.old) }
        ensures uncounted { OnErr result (steps.new ≡ steps.old) }
    {
        self.arena.is_arena();
        self.arena.reserve(ends.len())?;
        self.next.reserve(ends.len())?;
        self.next.cover(ACCEPTED)?;
        steps.tick();
        let source = self.registers.at(k).1;
        make_ends(&mut self.arena, &mut self.next, source, at, ends, steps);
        self.stepped = k + 1;
        self.at = at;
        Ok(())
    }

    /// The accepted words, as rows from their beginnings: each once, in block order. All sources have been ended,
    /// so that no set but that of the ends was reached. It takes no memory. At most 2 steps for each cell, and 2.
    pub fn turn<L: Ledger>(self, steps: &mut Steps<L>) -> RowLists
        requires ended { self.stepped ≡ length self.layer }
        requires accepted { (s : ℕ) → Has (sets_of self.next) s → s ≡ 0 }
        ensures listed { AreListed (λ w. HasWord (targets self) 0 w) (length self.cells) result.store result.first }
        ensures steps { steps.new ≤ steps.old + 2 * length self.cells + 2 }
    {
        let OutputGraph {
            arena,
            registers: _,
            next,
            stepped: _,
            at: _,
        } = self;
        arena.is_arena();
        let accept = next.cell_of(ACCEPTED);
        let held = accept;
        turn_cells(arena.close(held, steps), accept, steps)
    }
}

/// Makes room for the targets of these edges.
fn make_room(next: &mut Layer, edges: &[Edge]) -> Result<(), OutOfMemory>
    ensures pairs { next.new.pairs ≡ next.old.pairs }
    ensures room { OnOk result (length edges.now ≤ next.new.room) }
    ensures covered { OnOk result ((e : ℕ × ℕ) → Has (edges_of edges.now) e → e.1 < next.new.known) }
{
    next.reserve(edges.len())?;
    for edge in edges {
        next.cover(edge.to)?;
    }
    Ok(())
}
