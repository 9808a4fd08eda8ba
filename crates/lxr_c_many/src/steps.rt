//! One operation of several, of which it is known what it is replied. Those on fields are on an object that was looked up.
ghost use Rattle.std.specs.Prelude.{◌≡◌, ◌≢◌, ℕ, ◌+◌, ◌<◌, List, false};
ghost use Rattle.lxr_graph.specs.declared.Op.TheVariants as op;
ghost use Rattle.lxr_graph.specs.declared.Reply.TheVariants as reply;
ghost use Rattle.lxr_direct.specs.Known.{IsKnown};
ghost use Rattle.lxr_direct.specs.Recording.{is_unlogged};
ghost use Rattle.lxr_large_model.specs.declared.LargeOp.TheVariants as large_op;
ghost use Rattle.lxr_large_model.specs.declared.LargeReply.TheVariants as large_reply;
ghost use Rattle.lxr_large_model.specs.History.{LargeItem, large_state};
ghost use Rattle.lxr_heap.specs.Acting.{WantsNoPause};
ghost use Rattle.lxr_heap.specs.Holding.{IsHeapOf};
ghost use Rattle.lxr_c_heap.specs.Hosting.{IsServing, Replies, registers_in};
ghost use Rattle.lxr_c_many.specs.Fields.{reference_at, word_at as is_word_at};
ghost use Rattle.lxr_c_many.specs.Steps.{HasWords};

use lxr_c_heap::HostHeap;
use lxr_direct::HeldObject;
use lxr_graph::Op;
use lxr_heap::LargeHeap;
use lxr_large_model::LargeOp;

/// A data word of an object.
#[inline(always)]
pub(crate) fn word_at(heap: &LargeHeap, object: HeldObject, index: u16) -> u64
    requires known { IsKnown heap.now.space 1 object }
    requires index { index < object.base.shape.values }
    ensures { (h : List LargeItem) → IsHeapOf heap.now h → HasWords (large_state h) object.register (index + 1) → result ≡ is_word_at (large_state h) object.register index }
{
    heap.get_in(object, index)
}

/// Writes a data word of an object.
#[inline(always)]
pub(crate) fn put_at(heap: &mut HostHeap, object: HeldObject, index: u16, value: u64)
    requires serving { IsServing heap.old }
    requires base { object.register < registers_in heap.old }
    requires known { IsKnown heap.old.heap.space 1 object }
    requires index { index < object.base.shape.values }
    ensures put { (h : List LargeItem) → IsHeapOf heap.old.heap h → Replies heap.old heap.new h (large_op.Small (op.Put object.register index value)) (large_reply.Small reply.Put) }
    ensures known { IsKnown heap.new.heap.space 1 object }
    ensures registers { registers_in heap.new ≡ registers_in heap.old }
    ensures serving { IsServing heap.new }
{
    heap.heap.put_in(object, index, value);
}

/// Register `dest` gets a reference of an object.
#[inline(always)]
pub(crate) fn load_at(heap: &mut HostHeap, dest: u8, object: HeldObject, index: u16)
    requires serving { IsServing heap.old }
    requires registers { (dest < registers_in heap.old) × (object.register < registers_in heap.old) }
    requires known { IsKnown heap.old.heap.space 1 object }
    requires index { index < object.base.shape.refs }
    ensures loaded { (h : List LargeItem) → IsHeapOf heap.old.heap h
        → Replies heap.old heap.new h (large_op.Small (op.Load dest object.register index)) (large_reply.Small (reply.Loaded (reference_at (large_state h) object.register index))) }
    ensures known { dest ≢ object.register → IsKnown heap.new.heap.space 1 object }
    ensures registers { registers_in heap.new ≡ registers_in heap.old }
    ensures serving { IsServing heap.new }
{
    heap.heap.load_from(dest, object, index);
}

/// Register `dest` becomes nil.
#[inline(always)]
pub(crate) fn nil_at(heap: &mut HostHeap, dest: u8)
    requires serving { IsServing heap.old }
    requires dest { dest < registers_in heap.old }
    ensures cleared { (h : List LargeItem) → IsHeapOf heap.old.heap h → Replies heap.old heap.new h (large_op.Small (op.Nil dest)) (large_reply.Small reply.Cleared) }
    ensures registers { registers_in heap.new ≡ registers_in heap.old }
    ensures serving { IsServing heap.new }
{
    heap.reply(LargeOp::Small(Op::Nil { dest }));
}

/// A reference of an object becomes what `source` holds, on the condition that the log has room for it.
#[inline(always)]
pub(crate) fn store_at(heap: &mut HostHeap, object: HeldObject, index: u16, source: u8)
    requires serving { IsServing heap.old }
    requires registers { (object.register < registers_in heap.old) × (source < registers_in heap.old) }
    requires known { IsKnown heap.old.heap.space 1 object }
    requires index { index < object.base.shape.refs }
    requires ready { ∥ ((h : List LargeItem) × WantsNoPause heap.old.heap h (large_op.Small (op.Store object.register index source))) ∥₁ }
    ensures stored { (h : List LargeItem) → IsHeapOf heap.old.heap h → Replies heap.old heap.new h (large_op.Small (op.Store object.register index source)) (large_reply.Small reply.Stored) }
    ensures known { IsKnown heap.new.heap.space 1 object }
    ensures registers { registers_in heap.new ≡ registers_in heap.old }
    ensures serving { IsServing heap.new }
{
    if !heap.heap.store_to(object, index, source) {
        unreachable!();
    }
}

/// A reference of a new object becomes what `source` holds: there is nothing to record.
#[inline(always)]
pub(crate) fn store_young_at(heap: &mut HostHeap, object: HeldObject, index: u16, source: u8)
    requires serving { IsServing heap.old }
    requires registers { (object.register < registers_in heap.old) × (source < registers_in heap.old) }
    requires known { IsKnown heap.old.heap.space 1 object }
    requires index { index < object.base.shape.refs }
    requires clear { is_unlogged heap.old.heap.space object.base.place index ≡ false }
    ensures stored { (h : List LargeItem) → IsHeapOf heap.old.heap h → Replies heap.old heap.new h (large_op.Small (op.Store object.register index source)) (large_reply.Small reply.Stored) }
    ensures known { IsKnown heap.new.heap.space 1 object }
    ensures unlogged { (i : ℕ) → is_unlogged heap.new.heap.space object.base.place i ≡ is_unlogged heap.old.heap.space object.base.place i }
    ensures registers { registers_in heap.new ≡ registers_in heap.old }
    ensures serving { IsServing heap.new }
{
    heap.heap.store_young(object, index, source);
}
