//! A load or a store through a reference of an object that was looked up: what stands between is looked at once, and no register gets it.
ghost use Rattle.std.specs.Prelude.{◌≡◌, ◌≢◌, ◌<◌, ◌⊎◌, false, IsTrue, List};
ghost use Rattle.lxr_direct.specs.Known.{IsKnown};
ghost use Rattle.lxr_direct.specs.Through.{IsInUse, IsUnloggedThrough, LacksThrough};
ghost use Rattle.lxr_large_model.specs.History.{LargeItem};
ghost use Rattle.lxr_heap.specs.Holding.{IsHeapOf};
ghost use Rattle.lxr_heap.specs.Through.{LoadsThrough, StoresThrough};

use crate::heap::Heap;
use crate::{LargeHeap, MUTATOR};
use lxr_direct::{HeldObject, try_load_through, try_store_through};

/// Register `dest` gets reference `index` of what reference `at` of an object refers to. Whether it did.
#[inline(always)]
fn load(heap: &mut Heap, dest: u8, object: HeldObject, at: u16, index: u16, own: u8) -> bool
    requires holds { (h : List LargeItem) × IsHeapOf heap.old h }
    requires dest { dest < heap.old.space.limits.registers }
    requires own { own < heap.old.space.limits.registers }
    requires apart { dest ≢ own }
    requires register { object.register < heap.old.space.limits.registers }
    requires known { IsKnown heap.old.space 1 object }
    ensures loaded { IsTrue result → LoadsThrough heap.old heap.new dest object.register at index own }
    ensures aside { result ≡ false → IsInUse heap.old.space 1 own ⊎ LacksThrough heap.old.space object at index }
    ensures unchanged { result ≡ false → heap.new ≡ heap.old }
{
    if !try_load_through(&mut heap.space, MUTATOR, dest, object, at, index, own) {
        return false;
    }
    heap.fresh = false;
    true
}

/// Reference `index` of what reference `at` of an object refers to becomes what `source` holds, where there is nothing to record. Whether it did.
#[inline(always)]
fn store(heap: &mut Heap, object: HeldObject, at: u16, index: u16, source: u8, own: u8) -> bool
    requires holds { (h : List LargeItem) × IsHeapOf heap.old h }
    requires source { source < heap.old.space.limits.registers }
    requires own { own < heap.old.space.limits.registers }
    requires apart { source ≢ own }
    requires register { object.register < heap.old.space.limits.registers }
    requires known { IsKnown heap.old.space 1 object }
    ensures stored { IsTrue result → StoresThrough heap.old heap.new object.register at index source own }
    ensures aside { result ≡ false → IsInUse heap.old.space 1 own ⊎ LacksThrough heap.old.space object at index ⊎ IsUnloggedThrough heap.old.space object at index }
    ensures unchanged { result ≡ false → heap.new ≡ heap.old }
{
    if !try_store_through(&mut heap.space, MUTATOR, object, at, index, source, own) {
        return false;
    }
    heap.fresh = false;
    true
}

impl LargeHeap {
    /// Register `dest` gets reference `index` of what reference `at` of an object refers to that was looked up: a load of that to the register
    /// `own`, a load from there, and a `nil` of it. Whether it did: not where there is no such reference, nor where `own` isn't nil; then nothing
    /// has changed.
    #[inline(always)]
    pub fn try_load_through(
        &mut self,
        dest: u8,
        object: HeldObject,
        at: u16,
        index: u16,
        own: u8,
    ) -> bool
        requires dest { dest < self.old.space.limits.registers }
        requires own { own < self.old.space.limits.registers }
        requires apart { dest ≢ own }
        requires register { object.register < self.old.space.limits.registers }
        requires known { IsKnown self.old.space 1 object }
        ensures loaded { IsTrue result → LoadsThrough self.old self.new dest object.register at index own }
        ensures aside { result ≡ false → IsInUse self.old.space 1 own ⊎ LacksThrough self.old.space object at index }
        ensures unchanged { result ≡ false → self.new ≡ self.old }
    {
        load(&mut self.heap, dest, object, at, index, own)
    }

    /// Reference `index` of what reference `at` of an object refers to that was looked up becomes what `source` holds: a load of that to the register
    /// `own`, a store to it, and a `nil` of it. Whether it did: not where there is no such reference, or what it holds has to be recorded, nor where
    /// `own` isn't nil; then nothing has changed.
    #[inline(always)]
    pub fn try_store_through(
        &mut self,
        object: HeldObject,
        at: u16,
        index: u16,
        source: u8,
        own: u8,
    ) -> bool
        requires source { source < self.old.space.limits.registers }
        requires own { own < self.old.space.limits.registers }
        requires apart { source ≢ own }
        requires register { object.register < self.old.space.limits.registers }
        requires known { IsKnown self.old.space 1 object }
        ensures stored { IsTrue result → StoresThrough self.old self.new object.register at index source own }
        ensures aside { result ≡ false → IsInUse self.old.space 1 own ⊎ LacksThrough self.old.space object at index ⊎ IsUnloggedThrough self.old.space object at index }
        ensures unchanged { result ≡ false → self.new ≡ self.old }
    {
        store(&mut self.heap, object, at, index, source, own)
    }
}
