//! What a heap tells and no operation asks for: registers, shapes, and how many objects and free blocks there are.
ghost use Rattle.std.specs.Prelude.{◌≡◌, ◌↔◌, ℕ, ◌+◌, ◌<◌, IsTrue, List, None, length};
ghost use Rattle.lxr_layout.specs.declared.TheConstants.{DECREMENT_COUNT};
ghost use Rattle.lxr_graph.specs.State.{register_at};
ghost use Rattle.lxr_image.specs.Spaces.{IsSpace, tables_of};
ghost use Rattle.lxr_blocks.specs.Listing.{listed_frees};
ghost use Rattle.lxr_large_model.specs.Full.{kept_names};
ghost use Rattle.lxr_large_model.specs.declared.LargeOp.TheVariants as large_op;
ghost use Rattle.lxr_large_model.specs.declared.LargeReply.TheVariants as large_reply;
ghost use Rattle.lxr_large_model.specs.History.{LargeItem, large_moment, large_state};
ghost use Rattle.lxr_large_model.specs.Step.{IsLargeReply};
ghost use Rattle.lxr_heap.specs.Holding.{IsHeapOf};
ghost use Rattle.lxr_heap.specs.Looking.{IsLook, IsSmallLook, shape_held};

use crate::MUTATOR;
use crate::acting::got_reply;
use crate::heap::Heap;
use lxr_direct::{get, is_nil as is_nil_in, name_in, object_in, same};
use lxr_graph::{Op, Reply};
use lxr_image::Space;
use lxr_large_model::{LargeOp, LargeReply};
use lxr_layout::{DECREMENT_COUNT, Shape};

/// Whether a register is nil.
#[inline(always)]
pub(crate) fn is_nil(heap: &Heap, register: u8) -> bool
    requires holds { (h : List LargeItem) × IsHeapOf heap.now h }
    ensures { (h : List LargeItem) → IsHeapOf heap.now h → IsTrue result ↔ (register_at (large_state h).small 1 register ≡ None) }
{
    is_nil_in(&heap.space, MUTATOR, register)
}

/// What reading word `index` of the body of what `base` holds is replied.
#[inline(always)]
fn see_word(heap: &Heap, base: u8, index: u32) -> LargeReply
    requires holds { (h : List LargeItem) × IsHeapOf heap.now h }
    ensures { (h : List LargeItem) → IsHeapOf heap.now h → IsLargeReply (large_state h) (large_op.BigGet base index) result }
{
    match name_in(&heap.space, MUTATOR, base) {
        None => LargeReply::Bad,
        Some(name) => got_reply(heap.bodies.word(name, index)),
    }
}

/// What an operation on small objects is replied that only looks.
#[inline(always)]
fn see_small(heap: &Heap, op: Op) -> Reply
    requires holds { (h : List LargeItem) × IsHeapOf heap.now h }
    requires op { IsSmallLook op }
    ensures { (h : List LargeItem) → IsHeapOf heap.now h → IsLargeReply (large_state h) (large_op.Small op) (large_reply.Small result) }
{
    match op {
        Op::Get { base, index } => get(&heap.space, MUTATOR, base, index),
        Op::Same { left, right } => Reply::Same(same(&heap.space, MUTATOR, left, right)),
        _ => unreachable!(),
    }
}

/// What an operation is replied that only looks.
#[inline(always)]
pub(crate) fn see(heap: &Heap, op: LargeOp) -> LargeReply
    requires holds { (h : List LargeItem) × IsHeapOf heap.now h }
    requires op { IsLook op }
    ensures { (h : List LargeItem) → IsHeapOf heap.now h → IsLargeReply (large_state h) op result }
{
    match op {
        LargeOp::Small(op) => LargeReply::Small(see_small(heap, op)),
        LargeOp::BigGet { base, index } => see_word(heap, base, index),
        _ => unreachable!(),
    }
}

/// The shape of what a register holds, and how many blocks its body has.
#[inline(always)]
pub(crate) fn shape(heap: &Heap, base: u8) -> Option<(Shape, u32)>
    requires holds { (h : List LargeItem) × IsHeapOf heap.now h }
    ensures { (h : List LargeItem) → IsHeapOf heap.now h → result ≡ shape_held (large_state h) (register_at (large_state h).small 1 base) }
{
    match object_in(&heap.space, MUTATOR, base) {
        None => None,
        Some((name, shape)) => Some((shape, heap.bodies.blocks_of(name))),
    }
}

/// How many objects were made since the last pause.
#[inline(always)]
pub(crate) fn young(heap: &Heap) -> u32
    requires holds { (h : List LargeItem) × IsHeapOf heap.now h }
    ensures { (h : List LargeItem) → IsHeapOf heap.now h → result ≡ length (large_moment h).made }
{
    heap.made - heap.made_before
}

/// How many objects are kept.
#[inline(always)]
pub(crate) fn live(heap: &Heap) -> u32
    requires holds { (h : List LargeItem) × IsHeapOf heap.now h }
    ensures { (h : List LargeItem) → IsHeapOf heap.now h → result ≡ length (kept_names (large_moment h)) }
{
    heap.left + young(heap)
}

/// How many decrements wait.
pub(crate) fn waiting(space: &Space) -> u64
    requires { IsSpace space.now }
    ensures { result ≡ (tables_of space.now).cursors DECREMENT_COUNT }
{
    space.cursor(DECREMENT_COUNT)
}

/// How many blocks are Free.
pub(crate) fn free_blocks(space: &Space) -> u32
    requires { IsSpace space.now }
    ensures { result ≡ length (listed_frees (tables_of space.now) space.now.limits.blocks) }
{
    space.free_blocks()
}
