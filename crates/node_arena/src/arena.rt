//! Counted link cells.
ghost use Rattle.std.specs.Prelude.{◌≡◌, ◌↔◌, ℕ, ◌+◌, ◌-◌, ◌*◌, ◌<◌, ◌≤◌, [], ◌∷◌, length, IfSome, IfOk, OnOk, OnErr};
ghost use Rattle.std.specs.FinMap as map;
ghost use Rattle.span_core.specs.Lists.{Has};
ghost use Rattle.node_arena.specs.declared.TheConstants.{MOST_HOLDS};
ghost use Rattle.node_arena.specs.Cells.{HasCell, IsArena, IsLive, hold, with_hold, less_hold, root_link, new_link};
ghost use Rattle.node_arena.specs.Release.{Released};
ghost use Rattle.node_arena.specs.Closing.{accepting, first_heads};
ghost use Rattle.node_arena.specs.Copies.{IsCopy};

use crate::NONE;
use crate::cell::{Cell, number_of};
use crate::closing::Closing;
use crate::copying::{move_nodes, place_cells, replace_cells};
use crate::node::{Node, accept_cell, lower, newest_without, raise, set_newer, unlink};
use crate::numbers::Numbers;
use raw_cells::Slots;
use span_core::{Marks, OutOfMemory, Steps};
use std::alloc::Global;
use std::marker::Model;
use std::sync::ledger::Ledger;

/// Link cells with counts, in a list by age. A cell takes 32 bytes, and a free one four more.
///
/// There is room for at most 2^31 - 2^16 cells, fewer than `MOST_CELLS`, and a call for more answers want of memory. A cell is held at
/// most `MOST_HOLDS` times.
#[derive(Drop)]
pub struct Arena {
    nodes: Slots<Node>,
    newest: u32,
    live: u64,
}

impl Model for Arena {
    ghost use Rattle.node_arena.specs.Cells.{Cells, cells_code};

    ghost Value = { Cells };

    ghost coded = { cells_code };

    ghost use Rattle.node_arena.specs.Nodes.{seen, IsKept};

    ghost view = { λ a. seen a.nodes.live a.nodes.spare a.newest a.live };

    ghost invariant = { λ a. IsKept a.nodes.live a.newest a.live (seen a.nodes.live a.nodes.spare a.newest a.live) };
}

impl Arena {
    /// No cells.
    pub fn new(alloc: Global) -> Arena
        ensures cells { result.cells ≡ [] }
        ensures holds { result.holds ≡ map.empty }
        ensures spare { result.spare ≡ 0 }
    {
        Arena {
            nodes: Slots::new(alloc),
            newest: NONE,
            live: 0,
        }
    }

    /// Makes room for `n` cells. It can be refused for want of memory alone.
    pub fn reserve(&mut self, n: usize) -> Result<(), OutOfMemory>
        ensures room { OnOk result (n ≤ self.new.spare) }
        ensures cells { self.new.cells ≡ self.old.cells }
        ensures holds { self.new.holds ≡ self.old.holds }
        ensures spare { self.old.spare ≤ self.new.spare }
    {
        self.nodes.reserve(n)
    }

    /// The number of live cells.
    pub fn live(&self) -> u64
        ensures { result ≡ length self.now.cells }
    {
        self.live
    }

    /// A first cell, which is held once. It takes 1 step.
    pub fn root<L: Ledger>(&mut self, steps: &mut Steps<L>) -> Cell
        requires spare { 1 ≤ self.old.spare }
        requires empty { self.old.cells ≡ [] }
        ensures cells { self.new.cells ≡ root_link result ∷ [] }
        ensures holds { self.new.holds ≡ with_hold self.old.holds result 1 }
        ensures spare { self.new.spare + 1 ≡ self.old.spare }
        ensures steps { steps.new ≡ steps.old + 1 }
    {
        steps.tick();
        let node = Node {
            at: 0,
            marks: Marks::none(),
            from: NONE,
            also: NONE,
            count: 1,
            older: NONE,
            newer: NONE,
        };
        let name = self.nodes.put(node).number();
        self.newest = name;
        self.live = 1;
        Cell::of(name)
    }

    /// A new cell, which is held once. It continues `from`, and takes along `also` with its one hold. It takes 1 step.
    pub fn link<L: Ledger>(
        &mut self,
        at: u32,
        marks: Marks,
        from: Cell,
        also: Option<Cell>,
        steps: &mut Steps<L>,
    ) -> Cell
        requires spare { 1 ≤ self.old.spare }
        requires from_there { HasCell self.old.cells from }
        requires also_ready { IfSome also (λ a. (hold self.old.holds a ≡ 1) × (a ≡ from → ⊥)) }
        ensures fresh { HasCell self.old.cells result → ⊥ }
        ensures cells { self.new.cells ≡ new_link result at marks from also ∷ self.old.cells }
        ensures holds { self.new.holds ≡ with_hold (less_hold self.old.holds also) result 1 }
        ensures spare { self.new.spare + 1 ≡ self.old.spare }
        ensures steps { steps.new ≡ steps.old + 1 }
    {
        steps.tick();
        let newest = self.newest;
        raise(&mut self.nodes, from.number());
        let node = Node {
            at,
            marks,
            from: from.number(),
            also: number_of(also),
            count: 1,
            older: newest,
            newer: NONE,
        };
        let name = self.nodes.put(node).number();
        set_newer(&mut self.nodes, newest, name);
        self.newest = name;
        self.live += 1;
        Cell::of(name)
    }

    /// One hold of the cell more. It takes 1 step.
    pub fn keep<L: Ledger>(&mut self, cell: Cell, steps: &mut Steps<L>)
        requires there { HasCell self.old.cells cell }
        requires few { hold self.old.holds cell < MOST_HOLDS }
        ensures cells { self.new.cells ≡ self.old.cells }
        ensures holds { self.new.holds ≡ with_hold self.old.holds cell (hold self.old.holds cell + 1) }
        ensures spare { self.new.spare ≡ self.old.spare }
        ensures steps { steps.new ≡ steps.old + 1 }
    {
        steps.tick();
        raise(&mut self.nodes, cell.number());
    }

    /// One hold of the cell less. Then exactly the cells that no held cell reaches are freed. It takes 1 step, and at most one more for
    /// each cell that is freed.
    pub fn release<L: Ledger>(&mut self, cell: Cell, steps: &mut Steps<L>)
        requires { 0 < hold self.old.holds cell }
        ensures holds { self.new.holds ≡ with_hold self.old.holds cell (hold self.old.holds cell - 1) }
        ensures run { Released self.new.holds self.old.cells self.new.cells }
        ensures exact { (c : ℕ) → HasCell self.new.cells c ↔ IsLive self.new.holds self.old.cells c }
        ensures spare { self.new.spare + length self.new.cells ≡ self.old.spare + length self.old.cells }
        ensures steps { steps.new + length self.new.cells ≤ steps.old + 1 + length self.old.cells }
        ensures counted { steps.old < steps.new }
    {
        steps.tick();
        let mut pending = lower(&mut self.nodes, cell.number(), NONE);
        while pending != NONE {
            steps.tick();
            let Node {
                at: _,
                marks: _,
                from,
                also,
                count,
                older,
                newer,
            } = unlink(&mut self.nodes, pending);
            self.newest = newest_without(newer, older, self.newest);
            self.live -= 1;
            let next = lower(&mut self.nodes, from, count);
            pending = lower(&mut self.nodes, also, next);
        }
    }

    /// What is always true of an arena; among it, that the holds have no cell that is held 0 times. It does nothing.
    pub fn is_arena(&self)
        ensures { IsArena self.now }
    {
        let _live = self.live;
    }

    /// An arena with a copy of each cell, of the same age and as often held. In `cells` each cell is replaced by its copy. It can be
    /// refused for want of memory alone, and `cells` is then as it was. At most 2 steps for each cell, and 1.
    pub fn copy<L: Ledger>(
        &self,
        alloc: Global,
        cells: &mut Vec<Cell>,
        steps: &mut Steps<L>,
    ) -> Result<Arena, OutOfMemory>
        requires there { (c : ℕ) → Has cells.old.items c → HasCell self.now.cells c }
        ensures copied { IfOk result (λ arena. (copy : ℕ → ℕ) × IsCopy copy self.now arena cells.old.items cells.new.items) }
        ensures refused { OnErr result (cells.new.items ≡ cells.old.items) }
        ensures steps { steps.new ≤ steps.old + 2 * length self.now.cells + 1 }
        ensures counted { steps.old < steps.new }
    {
        steps.tick();
        let mut nodes = Slots::new(alloc);
        nodes.reserve(self.live as usize)?;
        let mut numbers = Numbers::new(alloc, self.live, self.nodes.capacity())?;
        place_cells(
            &self.nodes,
            self.newest,
            self.live,
            &mut nodes,
            &mut numbers,
            steps,
        )?;
        move_nodes(
            &self.nodes,
            self.newest,
            self.live,
            &mut nodes,
            &numbers,
            steps,
        );
        replace_cells(&numbers, cells);
        Ok(Arena {
            nodes,
            newest: numbers.copied(self.newest),
            live: self.live,
        })
    }

    /// The cells with heads: Done for `accept`, Nothing for each other. It takes 1 step.
    pub fn close<L: Ledger>(self, accept: Option<Cell>, steps: &mut Steps<L>) -> Closing
        requires { self.holds ≡ accepting accept }
        ensures cells { result.cells ≡ self.cells }
        ensures heads { result.heads ≡ first_heads accept }
        ensures store { result.store ≡ [] }
        ensures spare { result.spare ≡ self.spare }
        ensures steps { steps.new ≡ steps.old + 1 }
    {
        steps.tick();
        let Arena {
            mut nodes,
            newest,
            live,
        } = self;
        accept_cell(&mut nodes, accept);
        Closing {
            nodes,
            newest,
            left: live,
            last: NONE,
            rows: 0,
        }
    }
}
