//! What C holds.
ghost use Rattle.std.specs.Prelude.{◌≡◌, Option, None, Some, is_some, true};
ghost use Rattle.rematch_c.specs.declared.held.Held.{Held};
ghost use Rattle.rematch_c.specs.Owned.{handle_owns, held_code};

use crate::block::Block;
use crate::held::Held;
use std::alloc::Global;
use std::marker::Model;
use std::ptr::null_mut;

/// A pointer that owns a value on the heap, or none.
#[repr(C)]
#[derive(Drop)]
pub struct Handle {
    at: *mut u8,
    alloc: Global,
    pub ghost home: { Option Held } by { held_code },
}

impl Model for Handle {
    ghost also_owns = { λ h. handle_owns h.alloc h.at h.home };
}

impl Handle {
    /// Owns nothing.
    pub(crate) fn none(alloc: Global) -> Handle
        ensures { result.home ≡ None }
    {
        Handle {
            at: null_mut(),
            alloc,
        }
    }

    /// Owns what the block owned.
    pub(crate) fn of(block: Block<Held, Global>) -> Handle
        ensures { result.home ≡ Some block.value }
    {
        let Block { at, alloc } = block;
        Handle {
            at: at.cast(),
            alloc,
        }
    }

    /// Gives what it owns.
    pub(crate) fn into_block(self) -> Block<Held, Global>
        requires { is_some self.home ≡ true }
        ensures { self.home ≡ Some result.value }
    {
        let Handle { at, alloc } = self;
        Block {
            at: at.cast(),
            alloc,
        }
    }
}
