//! Where sets go on bytes, as far as a table told it: a dense list.
//!
//! What is entered follows from what the table answered, which never changes, so that it may be left out at any time.
ghost use Rattle.std.specs.Prelude.{◌≡◌, ◌<◌};
ghost use Rattle.set_table.specs.Tabled.{Tabled};
ghost use Rattle.segment_filter.specs.Dense.{AreTold, GoesTo, target_told};

use std::alloc::Global;

/// How many bytes there are.
const BYTES: usize = 256;

/// So many sets have entries at most, which take 16 MB.
const MOST_SETS: usize = 32_768;

/// Nothing is known.
pub(crate) const UNKNOWN: u16 = 0;

/// It was asked, and leads nowhere.
const NOWHERE: u16 = 1;

/// The entry of what leads to set 0; those of the other sets come behind it in their order.
const FIRST: u16 = 2;

/// Entries of sets and bytes.
#[derive(Drop)]
pub(crate) struct Told {
    entries: Vec<u16>,
}

impl Told {
    /// Nothing was told. It takes no memory.
    pub(crate) fn new(alloc: Global) -> Told
        ensures { (t : Tabled) → AreTold t result.entries.items }
    {
        Told {
            entries: Vec::new(alloc),
        }
    }

    /// What is entered of a set and a byte.
    #[inline(always)]
    pub(crate) fn entry(&self, set: u32, byte: u8) -> u16
        ensures { (t : Tabled) → AreTold t self.now.entries.items → 0 < result → GoesTo t set byte (target_told result) }
    {
        if self.entries.len() / BYTES <= set as usize {
            return UNKNOWN;
        }
        self.entries[BYTES * set as usize + byte as usize]
    }

    /// Entries for so many sets, where there is memory and they are few enough.
    pub(crate) fn make_room(&mut self, sets: usize)
        ensures { (t : Tabled) → AreTold t self.old.entries.items → AreTold t self.new.entries.items }
    {
        if sets > MOST_SETS || self.entries.len() >= BYTES * sets {
            return;
        }
        let _room = self.entries.resize(BYTES * sets, UNKNOWN);
    }

    /// Enters where a set goes on a byte, where there is room for it.
    pub(crate) fn enter(&mut self, set: u32, byte: u8, to: Option<u32>)
        ensures { (t : Tabled) → AreTold t self.old.entries.items → GoesTo t set byte to → AreTold t self.new.entries.items }
    {
        if self.entries.len() / BYTES <= set as usize {
            return;
        }
        let entry = entry_of(to);
        self.entries[BYTES * set as usize + byte as usize] = entry;
    }
}

/// The set that an entry tells.
#[inline(always)]
#[tactic(auto, using(crate::proofs::DenseLaws::tells, crate::proofs::DenseLaws::tells_none))]
pub(crate) fn target_of(entry: u16) -> Option<u32>
    ensures { result ≡ target_told entry }
{
    if entry < FIRST {
        return None;
    }
    Some(u32::from(entry - FIRST))
}

/// The entry that tells this; nothing is told of a set whose number is too great.
#[tactic(auto, using(crate::proofs::DenseLaws::tells, crate::proofs::DenseLaws::tells_none))]
fn entry_of(to: Option<u32>) -> u16
    ensures { 0 < result → target_told result ≡ to }
{
    let Some(set) = to else {
        return NOWHERE;
    };
    if set as usize >= MOST_SETS {
        return UNKNOWN;
    }
    FIRST + set as u16
}
