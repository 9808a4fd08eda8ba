//! One operation of a call, and what it comes to.
ghost use Rattle.std.specs.Prelude.{◌≡◌, ◌≢◌, ◌<◌, [], ◌∷◌, IsTrue, false};
ghost use Rattle.lxr_direct.specs.Known.{IsKnown};
ghost use Rattle.lxr_layout.specs.Objects.{FitsShape};
ghost use Rattle.lxr_c_base.specs.declared.codes.Code.TheVariants.{Done};
ghost use Rattle.lxr_c_heap.specs.Hosting.{IsServing, all_registers_in};
ghost use Rattle.lxr_c_arrays.specs.Operations.{load_of, move_of, new_of, nil_of, put_of, store_of};
ghost use Rattle.lxr_c_arrays.specs.Running.{InPlan, InTurn, SameRegisters};

use lxr_c_base::{Code, code_of};
use lxr_c_heap::HostHeap;
use lxr_direct::HeldObject;
use lxr_graph::Op;
use lxr_large_model::LargeOp;
use lxr_layout::Shape;

/// Register `dest` gets a new object of this shape.
#[inline(always)]
pub(crate) fn make(heap: &mut HostHeap, dest: u8, shape: Shape) -> Code
    requires serving { IsServing heap.old }
    requires dest { dest < all_registers_in heap.old }
    requires fits { FitsShape shape }
    ensures runs { InTurn heap.old (new_of dest shape.refs shape.values ∷ []) heap.new result }
    ensures same { SameRegisters heap.old heap.new }
    ensures serving { IsServing heap.new }
{
    code_of(heap.make(LargeOp::Small(Op::New { dest, shape })))
}

/// Register `dest` gets a reference of what `base` holds, where it is there. Whether it did.
#[inline(always)]
pub(crate) fn try_load(heap: &mut HostHeap, dest: u8, base: u8, index: u16) -> bool
    requires serving { IsServing heap.old }
    requires registers { (dest < all_registers_in heap.old) × (base < all_registers_in heap.old) }
    ensures runs { IsTrue result → InTurn heap.old (load_of dest base index ∷ []) heap.new Done }
    ensures unchanged { result ≡ false → heap.new ≡ heap.old }
    ensures same { SameRegisters heap.old heap.new }
    ensures serving { IsServing heap.new }
{
    heap.heap.try_load(dest, base, u32::from(index))
}

/// Register `dest` gets a reference of what `base` holds.
#[inline(always)]
pub(crate) fn load(heap: &mut HostHeap, dest: u8, base: u8, index: u16) -> Code
    requires serving { IsServing heap.old }
    requires registers { (dest < all_registers_in heap.old) × (base < all_registers_in heap.old) }
    ensures runs { InTurn heap.old (load_of dest base index ∷ []) heap.new result }
    ensures same { SameRegisters heap.old heap.new }
    ensures serving { IsServing heap.new }
{
    if try_load(heap, dest, base, index) {
        return Code::Done;
    }
    load_aside(heap, dest, base, index)
}

/// What `load` does where something may stand against it.
#[cold]
#[inline(never)]
fn load_aside(heap: &mut HostHeap, dest: u8, base: u8, index: u16) -> Code
    requires serving { IsServing heap.old }
    requires registers { (dest < all_registers_in heap.old) × (base < all_registers_in heap.old) }
    ensures runs { InTurn heap.old (load_of dest base index ∷ []) heap.new result }
    ensures same { SameRegisters heap.old heap.new }
    ensures serving { IsServing heap.new }
{
    code_of(heap.reply(LargeOp::Small(Op::Load { dest, base, index })))
}

/// Register `dest` gets a reference of what a reference of an object refers to that was looked up, by way of the register `own`, where it is there and
/// `own` is nil. Whether it did.
#[inline(always)]
pub(crate) fn try_load_through(
    heap: &mut HostHeap,
    dest: u8,
    object: HeldObject,
    at: u16,
    index: u16,
    own: u8,
) -> bool
    requires serving { IsServing heap.old }
    requires registers { (dest < all_registers_in heap.old) × (object.register < all_registers_in heap.old) × (own < all_registers_in heap.old) }
    requires apart { dest ≢ own }
    requires known { IsKnown heap.old.heap.space 1 object }
    ensures plan { IsTrue result → InPlan heap.old (record { steps = load_of own object.register at ∷ load_of dest own index ∷ []; last = nil_of own ∷ [] }) heap.new Done }
    ensures unchanged { result ≡ false → heap.new ≡ heap.old }
    ensures same { SameRegisters heap.old heap.new }
    ensures serving { IsServing heap.new }
{
    heap.heap.try_load_through(dest, object, at, index, own)
}

/// A reference of what `base` holds becomes what `source` holds, where nothing stands against it. Whether it did.
#[inline(always)]
pub(crate) fn try_store(heap: &mut HostHeap, base: u8, index: u16, source: u8) -> bool
    requires serving { IsServing heap.old }
    requires registers { (base < all_registers_in heap.old) × (source < all_registers_in heap.old) }
    ensures runs { IsTrue result → InTurn heap.old (store_of base index source ∷ []) heap.new Done }
    ensures unchanged { result ≡ false → heap.new ≡ heap.old }
    ensures same { SameRegisters heap.old heap.new }
    ensures serving { IsServing heap.new }
{
    heap.try_store(base, u32::from(index), source)
}

/// A reference of what a reference of an object refers to that was looked up becomes what `source` holds, by way of the register `own`, where nothing
/// stands against it and `own` is nil. Whether it did.
#[inline(always)]
pub(crate) fn try_store_through(
    heap: &mut HostHeap,
    object: HeldObject,
    at: u16,
    index: u16,
    source: u8,
    own: u8,
) -> bool
    requires serving { IsServing heap.old }
    requires registers { (source < all_registers_in heap.old) × (object.register < all_registers_in heap.old) × (own < all_registers_in heap.old) }
    requires apart { source ≢ own }
    requires known { IsKnown heap.old.heap.space 1 object }
    ensures plan { IsTrue result → InPlan heap.old (record { steps = load_of own object.register at ∷ store_of own index source ∷ []; last = nil_of own ∷ [] }) heap.new Done }
    ensures unchanged { result ≡ false → heap.new ≡ heap.old }
    ensures same { SameRegisters heap.old heap.new }
    ensures serving { IsServing heap.new }
{
    heap.try_store_through(object, at, index, source, own)
}

/// A reference of what `base` holds becomes what `source` holds.
#[inline(always)]
pub(crate) fn store(heap: &mut HostHeap, base: u8, index: u16, source: u8) -> Code
    requires serving { IsServing heap.old }
    requires registers { (base < all_registers_in heap.old) × (source < all_registers_in heap.old) }
    ensures runs { InTurn heap.old (store_of base index source ∷ []) heap.new result }
    ensures same { SameRegisters heap.old heap.new }
    ensures serving { IsServing heap.new }
{
    if try_store(heap, base, index, source) {
        return Code::Done;
    }
    store_aside(heap, base, index, source)
}

/// What `store` does where something may stand against it.
#[cold]
#[inline(never)]
fn store_aside(heap: &mut HostHeap, base: u8, index: u16, source: u8) -> Code
    requires serving { IsServing heap.old }
    requires registers { (base < all_registers_in heap.old) × (source < all_registers_in heap.old) }
    ensures runs { InTurn heap.old (store_of base index source ∷ []) heap.new result }
    ensures same { SameRegisters heap.old heap.new }
    ensures serving { IsServing heap.new }
{
    code_of(heap.store(LargeOp::Small(Op::Store {
        base,
        index,
        source,
    })))
}

/// A data word of what `base` holds becomes `value`.
#[inline(always)]
pub(crate) fn put(heap: &mut HostHeap, base: u8, index: u16, value: u64) -> Code
    requires serving { IsServing heap.old }
    requires base { base < all_registers_in heap.old }
    ensures runs { InTurn heap.old (put_of base index value ∷ []) heap.new result }
    ensures same { SameRegisters heap.old heap.new }
    ensures serving { IsServing heap.new }
{
    code_of(heap.reply(LargeOp::Small(Op::Put { base, index, value })))
}

/// Register `dest` gets what `source` holds.
#[inline(always)]
pub(crate) fn copy(heap: &mut HostHeap, dest: u8, source: u8) -> Code
    requires serving { IsServing heap.old }
    requires registers { (dest < all_registers_in heap.old) × (source < all_registers_in heap.old) }
    ensures runs { InTurn heap.old (move_of dest source ∷ []) heap.new result }
    ensures same { SameRegisters heap.old heap.new }
    ensures serving { IsServing heap.new }
{
    code_of(heap.reply(LargeOp::Small(Op::Move { dest, source })))
}

/// Register `dest` becomes nil.
#[inline(always)]
pub(crate) fn nil(heap: &mut HostHeap, dest: u8)
    requires serving { IsServing heap.old }
    requires dest { dest < all_registers_in heap.old }
    ensures runs { InTurn heap.old (nil_of dest ∷ []) heap.new Done }
    ensures same { SameRegisters heap.old heap.new }
    ensures serving { IsServing heap.new }
{
    heap.reply(LargeOp::Small(Op::Nil { dest }));
}
