//! Slices of the next pause's decrements, which a heap does by itself as objects are made, or which are asked for.
ghost use Rattle.std.specs.Prelude.{◌≡◌, ◌<◌, ◌^◌};
ghost use Rattle.lxr_c_heap.specs.Working.{first_slice as is_first_slice, has_more as has_more_by, slice_after as is_slice_after, slice_from as is_slice_from, sooner as is_sooner, turn_of as is_turn_of};

use crate::pacing::lesser;
use lxr_heap::Slice;

/// The bytes of new objects between two slices.
pub const SLICE_BYTES: u64 = 4_096;

/// How many times 64 bytes these are.
pub(crate) const SLICE_PARTS: u32 = 64;

/// The most units that a heap does by itself for each 64 bytes of new objects.
pub const MOST_WORK: u32 = 1_000_000;

/// The bytes of new objects after which the next slice is due, of a heap that does so many units for each 64 bytes, where so many were made.
pub(crate) fn slice_from(work: u32, bytes: u64) -> Option<u64>
    requires { bytes < 2 ^ 63 }
    ensures { result ≡ is_slice_from work bytes }
{
    if work == 0 {
        return None;
    }
    Some(bytes + SLICE_BYTES)
}

/// A slice is due by the limit of a pause at the latest.
pub(crate) fn sooner(slice: Option<u64>, limit: Option<u64>) -> Option<u64>
    ensures { result ≡ is_sooner slice limit }
{
    match (slice, limit) {
        (None, _) => None,
        (Some(slice), None) => Some(slice),
        (Some(slice), Some(limit)) => Some(slice.min(limit)),
    }
}

/// The first slice of some, where so many bytes were made.
pub(crate) fn first_slice(work: u32, bytes: u64, limit: Option<u64>) -> Option<u64>
    requires { bytes < 2 ^ 63 }
    ensures { result ≡ is_first_slice work bytes limit }
{
    sooner(slice_from(work, bytes), limit)
}

/// The next slice after one.
pub(crate) fn slice_after(slice: Slice, next: Option<u64>) -> Option<u64>
    ensures { result ≡ is_slice_after slice next }
{
    match slice {
        Slice::Spent => next,
        Slice::Done | Slice::Held => None,
    }
}

/// Whether slices have more to do after one.
pub(crate) fn has_more(slice: Slice) -> bool
    ensures { result ≡ has_more_by slice }
{
    match slice {
        Slice::Spent => true,
        Slice::Done | Slice::Held => false,
    }
}

/// How many bytes of new objects are made before a slice or a pause is looked for.
pub(crate) fn turn_of(slice: Option<u64>, limit: Option<u64>, brink: Option<u64>) -> u64
    ensures { result ≡ is_turn_of slice limit brink }
{
    match slice {
        None => lesser(limit, brink).unwrap_or(u64::MAX),
        Some(next) => lesser(Some(next), brink).unwrap_or(u64::MAX),
    }
}
