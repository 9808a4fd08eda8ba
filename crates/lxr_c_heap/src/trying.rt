//! What a call does first that asks for a field of an object: at once, where there is a heap, with these registers and such a field.
//!
//! Only where it is not done does the call look at what stands against it.
ghost use Rattle.std.specs.Prelude.{◌≡◌, ◌≢◌, ◌<◌, ◌^◌, ◌⊎◌, false, IfNone, IfSome, IsTrue};
ghost use Rattle.lxr_direct.specs.Known.{IsKnown};
ghost use Rattle.lxr_direct.specs.Through.{IsInUse, IsUnloggedThrough, LacksThrough};
ghost use Rattle.lxr_heap.specs.Through.{StoresThrough};
ghost use Rattle.lxr_c_base.specs.Requests as asking;
ghost use Rattle.lxr_c_heap.specs.declared.host.TheConstants.{ENDS};
ghost use Rattle.lxr_c_heap.specs.Calling.{Calls};
ghost use Rattle.lxr_c_heap.specs.Hosting.{IsAtEnd, Replies, Stores, all_registers_in};
ghost use Rattle.lxr_c_heap.specs.Keeping.{registers_kept};
ghost use Rattle.lxr_c_heap.specs.Trying.{Finds, Misses, StaysAside};

use crate::handle::Handle;
use crate::host::{ENDS, HostHeap};
use lxr_c_base::requests::register_of;
use lxr_direct::HeldObject;

impl Handle {
    /// Register `dest` gets reference `index` of the object that `base` holds. Whether it did.
    #[inline(always)]
    pub fn try_load(&mut self, dest: u32, base: u32, index: u32) -> bool
        ensures done { IsTrue result → Calls Replies self.old.block.value self.new.block.value (asking.load (registers_kept self.old.block.value) dest base index) 0 }
        ensures misses { result ≡ false → index < 2 ^ 16 → Misses self.old.block.value (asking.load (registers_kept self.old.block.value) dest base index) }
        ensures unchanged { result ≡ false → self.new.block.value ≡ self.old.block.value }
    {
        let registers = self.registers();
        match register_of(registers, dest) {
            Err(_) => false,
            Ok(dest) => match register_of(registers, base) {
                Err(_) => false,
                Ok(base) => self.block.lend().heap.try_load(dest, base, index),
            },
        }
    }

    /// Data word `index` of the object that `base` holds; none where there is no such word.
    #[inline(always)]
    pub fn try_get(&mut self, base: u32, index: u32) -> Option<u64>
        ensures got { IfSome result (Finds self.old.block.value (asking.get (registers_kept self.old.block.value) base index)) }
        ensures misses { IfNone result (index < 2 ^ 16 → Misses self.old.block.value (asking.get (registers_kept self.old.block.value) base index)) }
        ensures unchanged { self.new.block.value ≡ self.old.block.value }
    {
        match register_of(self.registers(), base) {
            Err(_) => None,
            Ok(base) => self.block.lend().heap.try_get(base, index),
        }
    }

    /// Data word `index` of the object that `base` holds becomes `value`. Whether it did.
    #[inline(always)]
    pub fn try_put(&mut self, base: u32, index: u32, value: u64) -> bool
        ensures done { IsTrue result → Calls Replies self.old.block.value self.new.block.value (asking.put (registers_kept self.old.block.value) base index value) 0 }
        ensures misses { result ≡ false → index < 2 ^ 16 → Misses self.old.block.value (asking.put (registers_kept self.old.block.value) base index value) }
        ensures unchanged { result ≡ false → self.new.block.value ≡ self.old.block.value }
    {
        match register_of(self.registers(), base) {
            Err(_) => false,
            Ok(base) => self.block.lend().heap.try_put(base, index, value),
        }
    }
    /// Reference `index` of the object that `base` holds becomes what `source` holds, where there is nothing to do before it. Whether it did.
    #[inline(always)]
    pub fn try_store(&mut self, base: u32, index: u32, source: u32) -> bool
        ensures done { IsTrue result → Calls Stores self.old.block.value self.new.block.value (asking.store (registers_kept self.old.block.value) base index source) 0 }
        ensures aside { result ≡ false → index < 2 ^ 16 → StaysAside self.old.block.value (asking.store (registers_kept self.old.block.value) base index source) }
        ensures unchanged { result ≡ false → self.new.block.value ≡ self.old.block.value }
    {
        let registers = self.registers();
        match register_of(registers, base) {
            Err(_) => false,
            Ok(base) => match register_of(registers, source) {
                Err(_) => false,
                Ok(source) => self.block.lend().try_store(base, index, source),
            },
        }
    }
}

impl HostHeap {
    /// Reference `index` of what reference `at` of an object refers to that was looked up becomes what `source` holds, by way of the register `own`,
    /// where nothing stands against it: the heap isn't at an end, there is such a reference, nothing has to be recorded, and `own` is nil. Whether it
    /// did.
    #[inline(always)]
    pub fn try_store_through(
        &mut self,
        object: HeldObject,
        at: u16,
        index: u16,
        source: u8,
        own: u8,
    ) -> bool
        requires source { source < all_registers_in self.old }
        requires own { own < all_registers_in self.old }
        requires apart { source ≢ own }
        requires register { object.register < all_registers_in self.old }
        requires known { IsKnown self.old.heap.space 1 object }
        ensures early { IsTrue result → ¬ IsAtEnd ENDS self.old }
        ensures stored { IsTrue result → StoresThrough self.old.heap self.new.heap object.register at index source own }
        ensures rest { self.new ≡ record self.old { heap = self.new.heap } }
        ensures aside { result ≡ false → IsAtEnd ENDS self.old ⊎ IsInUse self.old.heap.space 1 own ⊎ LacksThrough self.old.heap.space object at index ⊎ IsUnloggedThrough self.old.heap.space object at index }
        ensures unchanged { result ≡ false → self.new ≡ self.old }
    {
        if self.is_at_end(ENDS) {
            return false;
        }
        self.heap.try_store_through(object, at, index, source, own)
    }
}
