//! The numbers of the copies, by those of the cells.
ghost use Rattle.std.specs.Prelude.{◌≡◌, ℕ, ◌<◌, IfOk, OnOk, get_or};
ghost use Rattle.node_arena.specs.declared.TheConstants.{NONE};
ghost use Rattle.node_arena.specs.Copying.{Covers, IsPut, copy_in, mapped_in};

use crate::NONE;
use span_core::OutOfMemory;
use std::alloc::Global;
use std::collections::HashMap;

/// A map is made where there are so many slots for each cell, or more. It then costs about as much as the list.
const SLOTS_FOR_EACH: usize = 64;

/// The number of each cell's copy: in a list with a place for each slot, or in a map, where far fewer cells live than once did. So
/// what a copy costs is bounded by the cells that it copies.
#[derive(Drop)]
pub(crate) enum Numbers {
    Listed(Vec<u32>),
    Mapped(HashMap<u32, u32>),
}

impl Numbers {
    /// No numbers, and room for those of so many cells, whose own numbers are below `slots`.
    pub(crate) fn new(alloc: Global, cells: u64, slots: usize) -> Result<Numbers, OutOfMemory>
        ensures none { IfOk result (λ numbers. (c : ℕ) → copy_in numbers c ≡ NONE) }
        ensures covers { IfOk result (λ numbers. (c : ℕ) → c < slots → Covers numbers c) }
    {
        if cells as usize <= slots / SLOTS_FOR_EACH {
            let mapped = HashMap::with_capacity(alloc, cells as usize)?;
            return Ok(Numbers::Mapped(mapped));
        }
        let mut listed = Vec::new(alloc);
        listed.resize(slots, NONE)?;
        Ok(Numbers::Listed(listed))
    }

    /// The number of the copy of the cell with this number, and `NONE` where it has none.
    pub(crate) fn copied(&self, cell: u32) -> u32
        ensures { result ≡ copy_in self.now cell }
    {
        match self {
            Numbers::Listed(listed) => listed_at(listed, cell),
            Numbers::Mapped(mapped) => mapped_at(mapped, cell),
        }
    }

    /// Notes the number of the cell's copy. A refusal is for want of memory alone.
    pub(crate) fn put(&mut self, cell: u32, copy: u32) -> Result<(), OutOfMemory>
        requires { Covers self.old cell }
        ensures { OnOk result (IsPut self.old self.new cell copy) }
    {
        match self {
            Numbers::Listed(listed) => {
                listed[cell as usize] = copy;
                Ok(())
            }
            Numbers::Mapped(mapped) => match mapped.insert(cell, copy) {
                Ok(_) => Ok(()),
                Err(_) => Err(OutOfMemory),
            },
        }
    }
}

fn listed_at(listed: &[u32], cell: u32) -> u32
    ensures { result ≡ get_or listed.now cell NONE }
{
    match listed.get(cell as usize) {
        Some(copy) => *copy,
        None => NONE,
    }
}

fn mapped_at(mapped: &HashMap<u32, u32>, cell: u32) -> u32
    ensures { result ≡ mapped_in mapped.now cell }
{
    match mapped.get(&cell) {
        Some(copy) => *copy,
        None => NONE,
    }
}
