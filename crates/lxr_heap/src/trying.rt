//! Operations on a field of what a register holds, done where there is such a field: what a program asks most of the time.
ghost use Rattle.std.specs.Prelude.{◌≡◌, ◌<◌, ◌^◌, false, IfNone, IfSome, IsTrue, List};
ghost use Rattle.lxr_graph.specs.declared.Op.TheVariants as op;
ghost use Rattle.lxr_graph.specs.declared.Reply.TheVariants as reply;
ghost use Rattle.lxr_large_model.specs.declared.LargeOp.TheVariants as large_op;
ghost use Rattle.lxr_large_model.specs.declared.LargeReply.TheVariants as large_reply;
ghost use Rattle.lxr_large_model.specs.History.{LargeItem, large_state};
ghost use Rattle.lxr_large_model.specs.Step.{IsLargeReply};
ghost use Rattle.lxr_heap.specs.Holding.{IsHeapOf};
ghost use Rattle.lxr_heap.specs.Trying.{Does, Misses, StaysAside};

use crate::heap::Heap;
use crate::{LargeHeap, MUTATOR};
use lxr_direct::{try_get, try_load, try_put, try_store};

/// Register `dest` gets reference `index` of the object that `base` holds. Whether it did.
#[inline(always)]
fn load(heap: &mut Heap, dest: u8, base: u8, index: u32) -> bool
    requires holds { (h : List LargeItem) × IsHeapOf heap.old h }
    requires dest { dest < heap.old.space.limits.registers }
    requires base { base < heap.old.space.limits.registers }
    ensures done { IsTrue result → Does heap.old heap.new (op.Load dest base index) }
    ensures small { IsTrue result → index < 2 ^ 16 }
    ensures misses { result ≡ false → (h : List LargeItem) → IsHeapOf heap.old h → Misses h (op.Load dest base index) }
    ensures unchanged { result ≡ false → heap.new ≡ heap.old }
{
    if !try_load(&mut heap.space, MUTATOR, dest, base, index) {
        return false;
    }
    heap.fresh = false;
    true
}

/// Data word `index` of the object that `base` holds; none where there is no such word.
#[inline(always)]
fn get(heap: &Heap, base: u8, index: u32) -> Option<u64>
    requires holds { (h : List LargeItem) × IsHeapOf heap.now h }
    ensures got { IfSome result (λ word. (h : List LargeItem) → IsHeapOf heap.now h → IsLargeReply (large_state h) (large_op.Small (op.Get base index)) (large_reply.Small (reply.Got word))) }
    ensures small { IfSome result (λ word. index < 2 ^ 16) }
    ensures misses { IfNone result ((h : List LargeItem) → IsHeapOf heap.now h → Misses h (op.Get base index)) }
{
    match try_get(&heap.space, MUTATOR, base, index) {
        None => None,
        Some(word) => Some(word),
    }
}

/// Data word `index` of the object that `base` holds becomes `value`. Whether it did.
#[inline(always)]
fn put(heap: &mut Heap, base: u8, index: u32, value: u64) -> bool
    requires holds { (h : List LargeItem) × IsHeapOf heap.old h }
    requires base { base < heap.old.space.limits.registers }
    ensures done { IsTrue result → Does heap.old heap.new (op.Put base index value) }
    ensures small { IsTrue result → index < 2 ^ 16 }
    ensures misses { result ≡ false → (h : List LargeItem) → IsHeapOf heap.old h → Misses h (op.Put base index value) }
    ensures unchanged { result ≡ false → heap.new ≡ heap.old }
{
    if !try_put(&mut heap.space, MUTATOR, base, index, value) {
        return false;
    }
    heap.fresh = false;
    true
}

/// Reference `index` of the object that `base` holds becomes what `source` holds, where there is nothing to record. Whether it did.
#[inline(always)]
fn store(heap: &mut Heap, base: u8, index: u32, source: u8) -> bool
    requires holds { (h : List LargeItem) × IsHeapOf heap.old h }
    requires base { base < heap.old.space.limits.registers }
    requires source { source < heap.old.space.limits.registers }
    ensures done { IsTrue result → Does heap.old heap.new (op.Store base index source) }
    ensures small { IsTrue result → index < 2 ^ 16 }
    ensures aside { result ≡ false → (h : List LargeItem) → IsHeapOf heap.old h → StaysAside h base index source }
    ensures unchanged { result ≡ false → heap.new ≡ heap.old }
{
    if !try_store(&mut heap.space, MUTATOR, base, index, source) {
        return false;
    }
    heap.fresh = false;
    true
}

impl LargeHeap {
    /// Register `dest` gets reference `index` of the object that `base` holds. Whether it did: not where there is no such reference; then
    /// nothing has changed.
    #[inline(always)]
    pub fn try_load(&mut self, dest: u8, base: u8, index: u32) -> bool
        requires dest { dest < self.old.space.limits.registers }
        requires base { base < self.old.space.limits.registers }
        ensures done { IsTrue result → Does self.old self.new (op.Load dest base index) }
        ensures small { IsTrue result → index < 2 ^ 16 }
        ensures misses { result ≡ false → (h : List LargeItem) → IsHeapOf self.old h → Misses h (op.Load dest base index) }
        ensures unchanged { result ≡ false → self.new ≡ self.old }
    {
        load(&mut self.heap, dest, base, index)
    }

    /// Data word `index` of the object that `base` holds; none where there is no such word. It only looks, as `see` does.
    #[inline(always)]
    pub fn try_get(&self, base: u8, index: u32) -> Option<u64>
        ensures got { IfSome result (λ word. (h : List LargeItem) → IsHeapOf self.now h → IsLargeReply (large_state h) (large_op.Small (op.Get base index)) (large_reply.Small (reply.Got word))) }
        ensures small { IfSome result (λ word. index < 2 ^ 16) }
        ensures misses { IfNone result ((h : List LargeItem) → IsHeapOf self.now h → Misses h (op.Get base index)) }
    {
        get(&self.heap, base, index)
    }

    /// Data word `index` of the object that `base` holds becomes `value`. Whether it did: not where there is no such word; then nothing has
    /// changed.
    #[inline(always)]
    pub fn try_put(&mut self, base: u8, index: u32, value: u64) -> bool
        requires base { base < self.old.space.limits.registers }
        ensures done { IsTrue result → Does self.old self.new (op.Put base index value) }
        ensures small { IsTrue result → index < 2 ^ 16 }
        ensures misses { result ≡ false → (h : List LargeItem) → IsHeapOf self.old h → Misses h (op.Put base index value) }
        ensures unchanged { result ≡ false → self.new ≡ self.old }
    {
        put(&mut self.heap, base, index, value)
    }
    /// Reference `index` of the object that `base` holds becomes what `source` holds, where there is nothing to record. Whether it did: not where
    /// there is no such reference, nor where what it holds has to be recorded; then nothing has changed.
    #[inline(always)]
    pub fn try_store(&mut self, base: u8, index: u32, source: u8) -> bool
        requires base { base < self.old.space.limits.registers }
        requires source { source < self.old.space.limits.registers }
        ensures done { IsTrue result → Does self.old self.new (op.Store base index source) }
        ensures small { IsTrue result → index < 2 ^ 16 }
        ensures aside { result ≡ false → (h : List LargeItem) → IsHeapOf self.old h → StaysAside h base index source }
        ensures unchanged { result ≡ false → self.new ≡ self.old }
    {
        store(&mut self.heap, base, index, source)
    }
}
