//! The memory of C's that a handle lies in.
ghost use Rattle.std.specs.Prelude.{◌≡◌, is_some, Option, None, Some, IfSome, IfNone};

use crate::block::Block;
use crate::handle::Handle;
use crate::held::Held;
use std::alloc::Global;
use std::mem::replace;

/// A handle, or none.
#[repr(C)]
#[derive(Drop)]
pub struct Slot {
    pub(crate) handle: Handle,
    held: bool,
    ghost agrees: { held ≡ is_some handle.home },
}

impl Slot {
    /// Holds nothing.
    pub(crate) fn empty(alloc: Global) -> Slot
        ensures { result.handle.home ≡ None }
    {
        Slot {
            handle: Handle::none(alloc),
            held: false,
        }
    }

    /// Takes what is held, and holds nothing then.
    pub(crate) fn take(&mut self, alloc: Global) -> Option<Box<Held, Global>>
        ensures some { IfSome result (λ b. self.old.handle.home ≡ Some b.value) }
        ensures none { IfNone result (self.old.handle.home ≡ None) }
        ensures left { self.new.handle.home ≡ None }
    {
        let was = replace(self, Slot::empty(alloc));
        if was.held {
            Some(was.handle.into_block().into_box())
        } else {
            None
        }
    }

    /// Holds this, where nothing is held.
    pub(crate) fn put(&mut self, owned: Box<Held, Global>)
        requires empty { self.old.handle.home ≡ None }
        ensures { self.new.handle.home ≡ Some owned.value }
    {
        *self = Slot {
            handle: Handle::of(Block::of(owned)),
            held: true,
        };
    }
}
