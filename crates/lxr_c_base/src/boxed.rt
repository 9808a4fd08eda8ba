//! A box in two parts, its address and its allocator, in sight of the module that keeps the address.
ghost use Rattle.std.specs.Prelude.{◌≡◌};
ghost use Rattle.std.specs.Box.Ownership.{box_owns};
ghost use Rattle.std.specs.Mem.{manually_drop_value};

use std::alloc::Allocator;
use std::marker::Model;
use std::mem::ManuallyDrop;

/// The parts of a box. They own what it owned.
pub struct Parts<T, A: Allocator> {
    pub ptr: *mut T,
    pub alloc: A,
    pub ghost value: { T },
}

impl<T, A: Allocator> Model for Parts<T, A> {
    ghost also_owns = { λ p. box_owns (A.dealloc_token p.alloc) T.row p.ptr p.value };
}

impl<T, A: Allocator> Parts<T, A> {
    /// Takes a box apart.
    pub fn of(b: Box<T, A>) -> Parts<T, A>
        ensures { result.value ≡ b.value }
    {
        // SAFETY: the box is read once below, and owned by what is read.
        let kept = unsafe { ManuallyDrop::new_unchecked(b) };
        ManuallyDrop::into_inner(take_apart(kept))
    }

    /// Puts it together again.
    pub fn into_box(self) -> Box<T, A>
        ensures { result.value ≡ self.value }
    {
        let Parts { ptr, alloc } = self;
        unsafe { Box::from_raw(alloc, ptr) }
    }
}

/// Reads a box as its parts.
fn take_apart<T, A: Allocator>(b: ManuallyDrop<Box<T, A>>) -> ManuallyDrop<Parts<T, A>>
    ensures { (manually_drop_value result).value ≡ (manually_drop_value b).value }
{
    let start = &raw const b as *const ManuallyDrop<Parts<T, A>>;
    // SAFETY: a box is laid out as its parts are, owns what they own, and is never dropped.
    unsafe { start.read() }
}
