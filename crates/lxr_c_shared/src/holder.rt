//! What a program in C has for a heap that threads share, or for a station: a struct of two words of its own, which begins as zeros.
ghost use Rattle.std.specs.Prelude.{◌≡◌, ◌<◌, ◌↔◌, None, Some, IsSome, IsTrue};
ghost use Rattle.lxr_c_shared.specs.Holding.{held_of};

use crate::held::Held;
use crate::owned::Owned;
use lxr_c_base::Parts;
use std::alloc::Global;
use std::mem;

/// A heap or a station, or none where the first word is 0. It has no `Drop`, so that nothing is forgotten.
#[repr(C)]
pub struct Holder {
    live: u64,
    pub held: Held,
    ghost empty: { live ≡ 0 → held.value ≡ None },
    ghost full: { 0 < live → IsSome held.value },
}

impl Holder {
    /// Nothing.
    #[inline(always)]
    pub(crate) fn none(alloc: Global) -> Holder
        ensures { result.held.value ≡ None }
    {
        Holder {
            live: 0,
            held: Held::empty(alloc),
        }
    }

    /// Whether there is something: then `held` may be lent to a call.
    #[inline(always)]
    pub(crate) fn is_full(&self) -> bool
        ensures { IsTrue result ↔ IsSome self.now.held.value }
    {
        self.live != 0
    }

    /// Takes out what is there, if something is.
    #[inline(always)]
    pub(crate) fn take(&mut self, alloc: Global) -> Option<Box<Owned, Global>>
        ensures found { self.old.held.value ≡ held_of result }
        ensures emptied { self.new.held.value ≡ None }
    {
        let Holder { live, held } = mem::replace(self, Holder::none(alloc));
        if live == 0 {
            held.end();
            return None;
        }
        Some(held.into_parts().into_box())
    }

    /// Puts something in, on the condition that there is nothing, so that nothing is leaked.
    #[inline(always)]
    pub(crate) fn put(&mut self, owned: Box<Owned, Global>)
        requires { self.old.held.value ≡ None }
        ensures { self.new.held.value ≡ Some owned.value }
    {
        let full = Holder {
            live: 1,
            held: Held::of_parts(Parts::of(owned)),
        };
        let Holder { live: _, held } = mem::replace(self, full);
        held.end();
    }
}
