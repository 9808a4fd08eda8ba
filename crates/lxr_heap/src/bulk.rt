//! Words of a body that are read or written in a row.
ghost use Rattle.std.specs.Prelude.{◌≡◌, ◌<◌, List, if◌then◌else◌, length, unwrap_or};
ghost use Rattle.lxr_large_model.specs.History.{LargeItem, large_state};
ghost use Rattle.lxr_heap.specs.declared.bulk.BodyReply.TheVariants as body_reply;
ghost use Rattle.lxr_heap.specs.Bulk.{WritesWords, base_held, bulk_reply, fresh_behind as is_fresh_behind, words_held};
ghost use Rattle.lxr_heap.specs.Holding.{IsHeapOf};

use crate::MUTATOR;
use crate::heap::Heap;
use lxr_direct::name_in;

/// What has come of reading or writing words of a body in a row.
#[derive(Clone, Copy, Debug, PartialEq, Eq)]
pub enum BodyReply {
    /// All of them were read, or written.
    Done,
    /// The base register is nil; nothing changed.
    Bad,
    /// The object has no body, or its body not all of these words; nothing changed.
    Range,
}

impl BodyReply {
    /// The reply by whether the object has all that was named.
    #[inline(always)]
    pub fn of(found: bool) -> BodyReply
        ensures { result ≡ (if found then body_reply.Done else body_reply.Range) }
    {
        if found {
            BodyReply::Done
        } else {
            BodyReply::Range
        }
    }
}

/// Whether a pause is fresh behind words that were written: writing none is no call.
#[inline(always)]
fn fresh_behind(fresh: bool, words: &[u64]) -> bool
    ensures { result ≡ is_fresh_behind fresh words.now }
{
    words.is_empty() && fresh
}

/// Reads words of the body of what `base` holds, from one of an index on, as many as there is room for.
#[inline(always)]
pub(crate) fn read(heap: &Heap, base: u8, index: u32, into: &mut [u64]) -> BodyReply
    requires holds { (h : List LargeItem) × IsHeapOf heap.now h }
    ensures reply { (h : List LargeItem) → IsHeapOf heap.now h → result ≡ bulk_reply (large_state h) (base_held h base) index (length into.old) }
    ensures words { (h : List LargeItem) → IsHeapOf heap.now h → into.new ≡ unwrap_or (words_held (large_state h) (base_held h base) index (length into.old)) into.old }
{
    match name_in(&heap.space, MUTATOR, base) {
        None => BodyReply::Bad,
        Some(name) => BodyReply::of(heap.bodies.read(name, index, into)),
    }
}

/// Writes words over those of the body of what `base` holds, from one of an index on.
#[inline(always)]
pub(crate) fn write(heap: &mut Heap, base: u8, index: u32, from: &[u64]) -> BodyReply
    requires holds { (h : List LargeItem) × IsHeapOf heap.old h }
    requires base { base < heap.old.space.limits.registers }
    ensures { (h : List LargeItem) → IsHeapOf heap.old h → WritesWords heap.old heap.new h base index from.now result }
{
    let Some(name) = name_in(&heap.space, MUTATOR, base) else {
        return BodyReply::Bad;
    };
    if !heap.bodies.write(name, index, from) {
        return BodyReply::Range;
    }
    heap.fresh = fresh_behind(heap.fresh, from);
    BodyReply::Done
}
