//! Room for words, taken from an allocator and not written.
ghost use Rattle.std.specs.Prelude.{◌≡◌, ◌*◌, ◌^◌, ◌<◌, replicate, IfOk};
ghost use Rattle.std.specs.Mem.Slots.{slots_items, slots_ptr, slots_len, lease_ptr, lease_len, lease_heap};

use core::slots::{Lease, Slots};
use std::alloc::{AllocError, Allocator};
use std::marker::PhantomData;

/// Empty places for so many words, and the right to free their memory. Each place has 0 for its word, as long as none is
/// put there: no one can read it. It writes nothing, so memory that the system gives page by page is given when a word
/// is put.
pub(crate) fn reserve_words<A: Allocator>(
    alloc: &A,
    count: usize,
) -> Result<(Slots<u64>, Lease<u64, A>), AllocError>
    requires { count * 8 < 2 ^ 63 }
    ensures { IfOk result (λ r. (slots_items r.0 ≡ replicate count 0) × (slots_len r.0 ≡ count) × (lease_ptr r.1 ≡ slots_ptr r.0) × (lease_len r.1 ≡ count) × (lease_heap r.1 ≡ alloc.now)) }
{
    match alloc.allocate(count * size_of::<u64>(), align_of::<u64>()) {
        Ok(block) => {
            let places = block as *mut u64;
            let both = ((places, count), (places, count, PhantomData::<A>));
            // SAFETY: a row is a pointer to its places and their number, and the right to free them is both with a marker.
            // The block is room for so many words, and owned by what is read.
            Ok(unsafe { (&raw const both as *const (Slots<u64>, Lease<u64, A>)).read() })
        }
        Err(refused) => Err(refused),
    }
}
