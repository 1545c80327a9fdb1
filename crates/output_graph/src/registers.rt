//! The cells of a layer as the registers of a program.
//!
//! A register has a cell, and the name of a set. Programs read and write cells alone, so a name is that of a set of an
//! earlier layer until the layer is named.
ghost use Rattle.std.specs.Prelude.{◌≡◌, ◌⊎◌, ◌≤◌, ◌<◌, ◌+◌, ◌^◌, length, slice_get, take, IfOk, IfSome, OnOk, Some};
ghost use Rattle.std.specs.Vec.{vec_capacity, vec_len};
ghost use Rattle.output_graph.specs.Graph.{sets_of};
ghost use Rattle.output_graph.specs.Named.{named};
ghost use Rattle.output_graph.specs.Running.{cell_at, with_cell};
ghost use Rattle.output_graph.specs.Sets.{paired, cells_in};

use node_arena::Cell;
use span_core::OutOfMemory;
use std::alloc::Global;

/// The sets of a layer, each with its cell. While a program runs a register may have a cell that is let go.
#[derive(Drop)]
pub struct Registers {
    pub(crate) sources: Vec<(u32, Cell)>,
}

impl Registers {
    /// The registers of these sets.
    pub fn of(sources: Vec<(u32, Cell)>) -> Registers
        ensures { result.sources ≡ sources }
    {
        Registers { sources }
    }

    /// The number of sets.
    pub fn len(&self) -> usize
        ensures { result ≡ length self.now.sources.items }
    {
        self.sources.len()
    }

    /// Set `k` with its cell.
    pub fn at(&self, k: usize) -> (u32, Cell)
        requires { k < length self.now.sources.items }
        ensures pair { slice_get self.now.sources.items k ≡ Some result }
        ensures few { length self.now.sources.items < 2 ^ 64 }
    {
        self.sources[k]
    }

    /// The cells of the sets, in their order.
    pub fn cells(&self, alloc: Global) -> Result<Vec<Cell>, OutOfMemory>
        ensures { IfOk result (λ cells. cells.items ≡ cells_in self.now.sources.items) }
    {
        cells_of(alloc, &self.sources)
    }

    /// The same sets with other cells, in their order.
    pub fn with_cells(&self, alloc: Global, cells: &[Cell]) -> Result<Registers, OutOfMemory>
        requires { length cells.now ≡ length self.now.sources.items }
        ensures { IfOk result (λ registers. registers.sources.items ≡ paired self.now.sources.items cells.now) }
    {
        let sources = pairs_of(alloc, &self.sources, cells)?;
        Ok(Registers::of(sources))
    }

    /// Makes room for so many registers more.
    pub(crate) fn reserve(&mut self, more: usize) -> Result<(), OutOfMemory>
        ensures sources { self.new.sources.items ≡ self.old.sources.items }
        ensures room { OnOk result (vec_len self.new.sources + more ≤ vec_capacity self.new.sources) }
    {
        self.sources.reserve(more)?;
        Ok(())
    }

    /// The cell of a register.
    pub(crate) fn cell(&self, register: u32) -> Cell
        requires { register < length self.now.sources.items }
        ensures { slice_get (cells_in self.now.sources.items) register ≡ Some result }
    {
        self.sources[register as usize].1
    }

    /// The cell of a register, if one is named.
    pub(crate) fn cell_of(&self, register: Option<u32>) -> Option<Cell>
        requires { IfSome register (λ r. r < length self.now.sources.items) }
        ensures { result ≡ cell_at self.now.sources.items register }
    {
        match register {
            Some(register) => Some(self.cell(register)),
            None => None,
        }
    }

    /// Gives a register a cell. If it is not there, it is added behind all, and the cell has no set yet.
    pub(crate) fn put(&mut self, register: u32, cell: Cell)
        requires room { vec_len self.old.sources < vec_capacity self.old.sources }
        ensures sources { self.new.sources.items ≡ with_cell self.old.sources.items register cell }
        ensures room { vec_len self.new.sources + vec_capacity self.old.sources ≤ vec_len self.old.sources +
            vec_capacity self.new.sources + 1 }
    {
        let place = register as usize;
        if place < self.sources.len() {
            let name = self.sources[place].0;
            self.sources[place] = (name, cell);
        } else {
            self.sources.push_reserved((0, cell));
        }
    }

    /// Gives the cells, in their order, to other sets.
    pub(crate) fn rename(&mut self, sets: &[u32])
        requires { length sets.now ≡ length self.old.sources.items }
        ensures { self.new.sources.items ≡ named sets.now self.old.sources.items }
    {
        write_names(&mut self.sources, sets);
    }

    /// Leaves a register for each of these sets. Where these are more than there were sets before, they give the names.
    pub(crate) fn settle(&mut self, sets: &[u32], before: usize)
        requires { length sets.now ≤ length self.old.sources.items }
        ensures cells { named sets.now self.new.sources.items ≡ named sets.now self.old.sources.items }
        ensures every { length sets.now ≡ length self.new.sources.items }
        ensures names { (sets_of self.new.sources.items ≡ sets.now) ⊎
            ((length sets.now ≤ before) × (sets_of self.new.sources.items ≡ take (length sets.now) (sets_of self.old.sources.items))) }
        ensures room { vec_len self.new.sources + vec_capacity self.old.sources ≤ vec_len self.old.sources + vec_capacity self.new.sources }
    {
        self.sources.truncate(sets.len());
        if before < sets.len() {
            write_names(&mut self.sources, sets);
        }
    }
}

/// Gives the cells, in their order, to other sets.
fn write_names(sources: &mut Vec<(u32, Cell)>, sets: &[u32])
    requires { length sets.now ≡ length sources.old.items }
    ensures names { sources.new.items ≡ named sets.now sources.old.items }
    ensures len { vec_len sources.new ≡ vec_len sources.old }
    ensures capacity { vec_capacity sources.new ≡ vec_capacity sources.old }
{
    for k in 0..sets.len() {
        let cell = sources[k].1;
        sources[k] = (sets[k], cell);
    }
}

/// The cells of these sets.
fn cells_of(alloc: Global, pairs: &[(u32, Cell)]) -> Result<Vec<Cell>, OutOfMemory>
    ensures { IfOk result (λ cells. cells.items ≡ cells_in pairs.now) }
{
    let mut cells = Vec::new(alloc);
    for pair in pairs {
        cells.push(pair.1)?;
    }
    Ok(cells)
}

/// These sets with these cells.
fn pairs_of(
    alloc: Global,
    pairs: &[(u32, Cell)],
    cells: &[Cell],
) -> Result<Vec<(u32, Cell)>, OutOfMemory>
    requires { length cells.now ≡ length pairs.now }
    ensures { IfOk result (λ made. made.items ≡ paired pairs.now cells.now) }
{
    let mut made = Vec::new(alloc);
    for k in 0..pairs.len() {
        made.push((pairs[k].0, cells[k]))?;
    }
    Ok(made)
}
