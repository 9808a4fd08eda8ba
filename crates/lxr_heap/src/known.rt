//! Operations on fields of an object that was looked up: neither its register is looked at again, nor its header.
ghost use Rattle.std.specs.Prelude.{◌≡◌, ◌≢◌, ℕ, ◌<◌, IfSome, List, false, option_map};
ghost use Rattle.lxr_graph.specs.declared.Op.TheVariants as op;
ghost use Rattle.lxr_graph.specs.declared.Reply.TheVariants as reply;
ghost use Rattle.lxr_direct.specs.Known.{IsKnown, referred};
ghost use Rattle.lxr_direct.specs.Recording.{is_unlogged};
ghost use Rattle.lxr_large_model.specs.declared.LargeOp.TheVariants as large_op;
ghost use Rattle.lxr_large_model.specs.declared.LargeReply.TheVariants as large_reply;
ghost use Rattle.lxr_large_model.specs.History.{LargeItem, large_state};
ghost use Rattle.lxr_large_model.specs.Step.{IsLargeReply};
ghost use Rattle.lxr_heap.specs.Acting.{Acts, IsReplied};
ghost use Rattle.lxr_heap.specs.Holding.{IsHeapOf};
ghost use Rattle.lxr_heap.specs.Known.{acted_if, shape_at};

use crate::heap::Heap;
use crate::{LargeHeap, MUTATOR};
use lxr_direct::{HeldObject, get_in, load_from, look_up, put_in, store_to, store_young};

/// The object that a register holds; none where it is nil.
#[inline(always)]
fn find(heap: &Heap, register: u8) -> Option<HeldObject>
    requires holds { (h : List LargeItem) × IsHeapOf heap.now h }
    ensures shape { (h : List LargeItem) → IsHeapOf heap.now h → option_map (λ object. object.base.shape) result ≡ shape_at (large_state h).small register }
    ensures known { IfSome result (λ object. IsKnown heap.now.space 1 object × (object.register ≡ register)) }
{
    look_up(&heap.space, MUTATOR, register)
}

/// Reads data word `index` of an object.
#[inline(always)]
fn read_word(heap: &Heap, object: HeldObject, index: u16) -> u64
    requires holds { (h : List LargeItem) × IsHeapOf heap.now h }
    requires known { IsKnown heap.now.space 1 object }
    requires index { index < object.base.shape.values }
    ensures { (h : List LargeItem) → IsHeapOf heap.now h → IsLargeReply (large_state h) (large_op.Small (op.Get object.register index)) (large_reply.Small (reply.Got result)) }
{
    get_in(&heap.space, object, index)
}

/// Data word `index` of an object becomes `value`.
#[inline(always)]
fn write_word(heap: &mut Heap, object: HeldObject, index: u16, value: u64)
    requires holds { (h : List LargeItem) × IsHeapOf heap.old h }
    requires register { object.register < heap.old.space.limits.registers }
    requires known { IsKnown heap.old.space 1 object }
    requires index { index < object.base.shape.values }
    ensures replied { (h : List LargeItem) → IsHeapOf heap.old h → IsReplied heap.old heap.new h (large_op.Small (op.Put object.register index value)) (large_reply.Small reply.Put) }
    ensures known { IsKnown heap.new.space 1 object }
{
    put_in(&mut heap.space, object, index, value);
    heap.fresh = false;
}

/// Register `dest` gets reference `index` of an object.
#[inline(always)]
fn load_reference(heap: &mut Heap, dest: u8, object: HeldObject, index: u16)
    requires holds { (h : List LargeItem) × IsHeapOf heap.old h }
    requires dest { dest < heap.old.space.limits.registers }
    requires register { object.register < heap.old.space.limits.registers }
    requires known { IsKnown heap.old.space 1 object }
    requires index { index < object.base.shape.refs }
    ensures replied { (h : List LargeItem) → IsHeapOf heap.old h
        → IsReplied heap.old heap.new h (large_op.Small (op.Load dest object.register index)) (large_reply.Small (reply.Loaded (referred (large_state h).small 1 object.register index))) }
    ensures known { dest ≢ object.register → IsKnown heap.new.space 1 object }
{
    load_from(&mut heap.space, MUTATOR, dest, object, index);
    heap.fresh = false;
}

/// Reference `index` of an object becomes what `source` holds. Whether it was stored: not where it has to be recorded and the log is full.
#[inline(always)]
fn store_reference(heap: &mut Heap, object: HeldObject, index: u16, source: u8) -> bool
    requires holds { (h : List LargeItem) × IsHeapOf heap.old h }
    requires register { object.register < heap.old.space.limits.registers }
    requires source { source < heap.old.space.limits.registers }
    requires known { IsKnown heap.old.space 1 object }
    requires index { index < object.base.shape.refs }
    ensures acts { (h : List LargeItem) → IsHeapOf heap.old h → Acts heap.old heap.new h (large_op.Small (op.Store object.register index source)) (acted_if result) }
    ensures known { IsKnown heap.new.space 1 object }
{
    if !store_to(&mut heap.space, MUTATOR, object, index, source) {
        return false;
    }
    heap.fresh = false;
    true
}

/// Reference `index` of an object becomes what `source` holds, where there is nothing to record.
#[inline(always)]
fn store_unlogged(heap: &mut Heap, object: HeldObject, index: u16, source: u8)
    requires holds { (h : List LargeItem) × IsHeapOf heap.old h }
    requires register { object.register < heap.old.space.limits.registers }
    requires source { source < heap.old.space.limits.registers }
    requires known { IsKnown heap.old.space 1 object }
    requires index { index < object.base.shape.refs }
    requires clear { is_unlogged heap.old.space object.base.place index ≡ false }
    ensures replied { (h : List LargeItem) → IsHeapOf heap.old h → IsReplied heap.old heap.new h (large_op.Small (op.Store object.register index source)) (large_reply.Small reply.Stored) }
    ensures known { IsKnown heap.new.space 1 object }
    ensures unlogged { (i : ℕ) → is_unlogged heap.new.space object.base.place i ≡ is_unlogged heap.old.space object.base.place i }
{
    store_young(&mut heap.space, MUTATOR, object, index, source);
    heap.fresh = false;
}

impl LargeHeap {
    /// Looks up the object that a register holds; none where it is nil. What is told stays true until an operation changes the register, or a
    /// pause is made.
    #[inline(always)]
    pub fn look_up(&self, register: u8) -> Option<HeldObject>
        ensures shape { (h : List LargeItem) → IsHeapOf self.now h → option_map (λ object. object.base.shape) result ≡ shape_at (large_state h).small register }
        ensures known { IfSome result (λ object. IsKnown self.now.space 1 object × (object.register ≡ register)) }
    {
        find(&self.heap, register)
    }

    /// Reads data word `index` of an object that was looked up: the reply is that of a `get`, and no history has it.
    #[inline(always)]
    pub fn get_in(&self, object: HeldObject, index: u16) -> u64
        requires known { IsKnown self.now.space 1 object }
        requires index { index < object.base.shape.values }
        ensures { (h : List LargeItem) → IsHeapOf self.now h → IsLargeReply (large_state h) (large_op.Small (op.Get object.register index)) (large_reply.Small (reply.Got result)) }
    {
        read_word(&self.heap, object, index)
    }

    /// Data word `index` of an object that was looked up becomes `value`, as by a `put`.
    #[inline(always)]
    pub fn put_in(&mut self, object: HeldObject, index: u16, value: u64)
        requires register { object.register < self.old.space.limits.registers }
        requires known { IsKnown self.old.space 1 object }
        requires index { index < object.base.shape.values }
        ensures replied { (h : List LargeItem) → IsHeapOf self.old h → IsReplied self.old self.new h (large_op.Small (op.Put object.register index value)) (large_reply.Small reply.Put) }
        ensures known { IsKnown self.new.space 1 object }
    {
        write_word(&mut self.heap, object, index, value);
    }

    /// Register `dest` gets reference `index` of an object that was looked up, as by a `load`.
    #[inline(always)]
    pub fn load_from(&mut self, dest: u8, object: HeldObject, index: u16)
        requires dest { dest < self.old.space.limits.registers }
        requires register { object.register < self.old.space.limits.registers }
        requires known { IsKnown self.old.space 1 object }
        requires index { index < object.base.shape.refs }
        ensures replied { (h : List LargeItem) → IsHeapOf self.old h
            → IsReplied self.old self.new h (large_op.Small (op.Load dest object.register index)) (large_reply.Small (reply.Loaded (referred (large_state h).small 1 object.register index))) }
        ensures known { dest ≢ object.register → IsKnown self.new.space 1 object }
    {
        load_reference(&mut self.heap, dest, object, index);
    }

    /// Reference `index` of an object that was looked up becomes what `source` holds, as by a `store`. Whether it was stored: not where it has to
    /// be recorded and the log is full; then nothing has changed.
    #[inline(always)]
    pub fn store_to(&mut self, object: HeldObject, index: u16, source: u8) -> bool
        requires register { object.register < self.old.space.limits.registers }
        requires source { source < self.old.space.limits.registers }
        requires known { IsKnown self.old.space 1 object }
        requires index { index < object.base.shape.refs }
        ensures acts { (h : List LargeItem) → IsHeapOf self.old h → Acts self.old self.new h (large_op.Small (op.Store object.register index source)) (acted_if result) }
        ensures known { IsKnown self.new.space 1 object }
    {
        store_reference(&mut self.heap, object, index, source)
    }

    /// Reference `index` of an object that was looked up becomes what `source` holds, as by a `store` that has nothing to record: the unlogged bit
    /// of the reference is clear, as those of an object are that was made since the last pause.
    #[inline(always)]
    pub fn store_young(&mut self, object: HeldObject, index: u16, source: u8)
        requires register { object.register < self.old.space.limits.registers }
        requires source { source < self.old.space.limits.registers }
        requires known { IsKnown self.old.space 1 object }
        requires index { index < object.base.shape.refs }
        requires clear { is_unlogged self.old.space object.base.place index ≡ false }
        ensures replied { (h : List LargeItem) → IsHeapOf self.old h → IsReplied self.old self.new h (large_op.Small (op.Store object.register index source)) (large_reply.Small reply.Stored) }
        ensures known { IsKnown self.new.space 1 object }
        ensures unlogged { (i : ℕ) → is_unlogged self.new.space object.base.place i ≡ is_unlogged self.old.space object.base.place i }
    {
        store_unlogged(&mut self.heap, object, index, source);
    }
}
