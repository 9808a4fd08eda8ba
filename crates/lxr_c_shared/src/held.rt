//! A heap that threads share, or a station, in a block of its own, by its address alone, so that a program in C can keep it.
ghost use Rattle.std.specs.Prelude.{◌≡◌, None, Some, IsSome};
ghost use Rattle.std.specs.Borrow.{sem};
ghost use Rattle.lxr_c_shared.specs.Holding.{held_owns, MayHold};

use crate::owned::Owned;
use lxr_c_base::Parts;
use std::alloc::Global;
use std::marker::Model;

/// What is at an address, or nothing. It has no `Drop`, so that nothing is forgotten.
#[repr(C)]
pub struct Held {
    ptr: *mut u8,
    alloc: Global,
    pub ghost value: { MayHold },
}

impl Model for Held {
    ghost also_owns = { λ h. held_owns h.alloc h.ptr h.value };
}

// SAFETY: it owns a heap or a station in a box, or nothing, and none of them names a thread: `holders_cross` ensures it.
unsafe impl Send for Held {}

impl Held {
    ghost use Rattle.lxr_c_shared.specs.Lending.{LendsOwned};

    /// Nothing.
    pub(crate) fn empty(alloc: Global) -> Held
        ensures { result.value ≡ None }
    {
        Held {
            ptr: std::ptr::null_mut(),
            alloc,
        }
    }

    /// Keeps what is in a box.
    pub(crate) fn of_parts(parts: Parts<Owned, Global>) -> Held
        ensures { result.value ≡ Some parts.value }
    {
        let Parts { ptr, alloc } = parts;
        Held {
            ptr: ptr as *mut u8,
            alloc,
        }
    }

    /// Gives the box back, on the condition that there is one.
    pub(crate) fn into_parts(self) -> Parts<Owned, Global>
        requires { IsSome self.value }
        ensures { self.value ≡ Some result.value }
    {
        let Held { ptr, alloc } = self;
        Parts {
            ptr: ptr as *mut Owned,
            alloc,
        }
    }

    /// Lets go of what has nothing.
    pub(crate) fn end(self)
        requires { self.value ≡ None }
    {
        let Held { ptr: _, alloc: _ } = self;
    }

    /// Lends what is there to a call, on the condition that there is something.
    #[inline(always)]
    pub(crate) fn lend(&mut self) -> &mut Owned
        requires { IsSome self.old.value }
        ensures* writes_back { sem 𝓛 (LendsOwned self.entry result) }
        ensures held { self.old.value ≡ Some result.now }
    {
        // SAFETY: what is held is at this address, and whoever has the holder alone has it alone.
        unsafe { &mut *(self.ptr as *mut Owned) }
    }
}
