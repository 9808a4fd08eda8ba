//! References of an object in a row.
ghost use Rattle.std.specs.Prelude.{◌≡◌, ◌+◌, ◌<◌, ◌≤◌, ◌^◌, IsTrue, List, length};
ghost use Rattle.lxr_direct.specs.Known.{IsKnown};
ghost use Rattle.lxr_large_model.specs.History.{LargeItem, large_state};
ghost use Rattle.lxr_heap.specs.Holding.{IsHeapOf};
ghost use Rattle.lxr_c_heap.specs.Hosting.{IsHostOf, IsServing, registers_in};
ghost use Rattle.lxr_c_heap.specs.Keeping.{registers_kept};
ghost use Rattle.lxr_c_many.specs.Calling.{Does, LoadsReferences, StoresReferences};
ghost use Rattle.lxr_c_many.specs.Fields as fields;
ghost use Rattle.lxr_c_many.specs.Fields.{are_registers, leave_base, load_of, store_of};
ghost use Rattle.lxr_c_many.specs.Following.{Follows, newest_first};
ghost use Rattle.lxr_c_many.specs.Steps.{MayBeStored};

use crate::fields::{base_of_loads, base_of_stores, find_references};
use crate::log::pause_for_stores;
use crate::steps::{load_at, store_at};
use lxr_c_base::Code;
use lxr_c_heap::{Handle, HostHeap};
use lxr_direct::HeldObject;
use lxr_heap::BodyReply;

/// Loads references of an object.
#[inline(always)]
fn load_all(heap: &mut HostHeap, object: HeldObject, first: u16, targets: &[u32])
    requires serving { IsServing heap.old }
    requires base { object.register < registers_in heap.old }
    requires known { IsKnown heap.old.heap.space 1 object }
    requires there { first + length targets.now ≤ object.base.shape.refs }
    requires few { first + length targets.now < 2 ^ 16 }
    requires targets { IsTrue (are_registers (registers_in heap.old) targets.now) }
    requires apart { IsTrue (leave_base object.register targets.now) }
    ensures follows { (h : List LargeItem) → IsHeapOf heap.old.heap h → Follows heap.old h heap.new (newest_first (load_of (large_state h) object.register) first targets.now) }
    ensures registers { registers_in heap.new ≡ registers_in heap.old }
    ensures serving { IsServing heap.new }
{
    for (i, target) in targets.iter().enumerate() {
        load_at(heap, *target as u8, object, first + i as u16);
    }
}

/// Stores to references of an object, on the condition that the log has room for what this records.
#[inline(always)]
fn store_all(heap: &mut HostHeap, object: HeldObject, first: u16, sources: &[u32])
    requires serving { IsServing heap.old }
    requires base { object.register < registers_in heap.old }
    requires known { IsKnown heap.old.heap.space 1 object }
    requires there { first + length sources.now ≤ object.base.shape.refs }
    requires few { first + length sources.now < 2 ^ 16 }
    requires sources { IsTrue (are_registers (registers_in heap.old) sources.now) }
    requires ready { ∥ ((h : List LargeItem) × IsHeapOf heap.old.heap h × MayBeStored heap.old.heap h object.register first (length sources.now)) ∥₁ }
    ensures follows { (h : List LargeItem) → IsHeapOf heap.old.heap h → MayBeStored heap.old.heap h object.register first (length sources.now)
        → Follows heap.old h heap.new (newest_first (store_of object.register) first sources.now) }
    ensures registers { registers_in heap.new ≡ registers_in heap.old }
    ensures serving { IsServing heap.new }
{
    for (i, source) in sources.iter().enumerate() {
        store_at(heap, object, first + i as u16, *source as u8);
    }
}

/// Loads references of what `base` holds, from `first` on: all of them or none.
#[inline(always)]
fn load(heap: &mut HostHeap, base: u8, first: u32, targets: &[u32]) -> BodyReply
    requires serving { IsServing heap.old }
    requires base { base < registers_in heap.old }
    requires targets { IsTrue (are_registers (registers_in heap.old) targets.now) }
    requires apart { IsTrue (leave_base base targets.now) }
    ensures loads { (h : List LargeItem) → IsHeapOf heap.old.heap h → LoadsReferences first targets.now heap.old heap.new h base result }
    ensures registers { registers_in heap.new ≡ registers_in heap.old }
    ensures serving { IsServing heap.new }
{
    match find_references(&heap.heap, base, first, targets.len()) {
        Ok(object) => {
            load_all(heap, object, first as u16, targets);
            BodyReply::Done
        }
        Err(refused) => refused,
    }
}

/// Stores to references of what `base` holds, which has them, where the log has room for what this records. A pause may have been made since
/// the object was looked up.
#[inline(always)]
fn store_behind(heap: &mut HostHeap, base: u8, first: u16, sources: &[u32])
    requires serving { IsServing heap.old }
    requires base { base < registers_in heap.old }
    requires few { first + length sources.now < 2 ^ 16 }
    requires sources { IsTrue (are_registers (registers_in heap.old) sources.now) }
    requires ready { ∥ ((h : List LargeItem) × IsHeapOf heap.old.heap h × MayBeStored heap.old.heap h base first (length sources.now)) ∥₁ }
    ensures follows { (h : List LargeItem) → IsHeapOf heap.old.heap h → MayBeStored heap.old.heap h base first (length sources.now)
        → Follows heap.old h heap.new (newest_first (store_of base) first sources.now) }
    ensures registers { registers_in heap.new ≡ registers_in heap.old }
    ensures serving { IsServing heap.new }
{
    match heap.heap.look_up(base) {
        Some(object) => store_all(heap, object, first, sources),
        None => unreachable!(),
    }
}

/// Stores to references of what `base` holds, from `first` on: all of them or none. A pause is made before them where the log has no room.
#[inline(always)]
fn store(heap: &mut HostHeap, base: u8, first: u32, sources: &[u32]) -> BodyReply
    requires serving { IsServing heap.old }
    requires base { base < registers_in heap.old }
    requires sources { IsTrue (are_registers (registers_in heap.old) sources.now) }
    ensures stores { (h : List LargeItem) → IsHostOf heap.old h → StoresReferences first sources.now heap.old heap.new h base result }
    ensures registers { registers_in heap.new ≡ registers_in heap.old }
    ensures serving { IsServing heap.new }
{
    match find_references(&heap.heap, base, first, sources.len()) {
        Ok(_) => {
            if sources.is_empty() {
                return BodyReply::Done;
            }
            pause_for_stores(heap, base, first as u16, sources.len() as u16);
            store_behind(heap, base, first as u16, sources);
            BodyReply::Done
        }
        Err(refused) => refused,
    }
}

/// Registers get references of the object that `base` holds, from `first` on: all of them or none.
pub fn load_many(
    handle: &mut Handle,
    base: u32,
    first: u32,
    targets: &[u32],
) -> Result<BodyReply, Code>
    ensures { Does (LoadsReferences first targets.now) handle.old.block.value handle.new.block.value (fields.base_of_loads (registers_kept handle.old.block.value) base targets.now) result }
{
    handle.found()?;
    let base = base_of_loads(handle.registers(), base, targets)?;
    Ok(load(handle.block.lend(), base, first, targets))
}

/// References of the object that `base` holds, from `first` on, become what registers hold: all of them or none.
pub fn store_many(
    handle: &mut Handle,
    base: u32,
    first: u32,
    sources: &[u32],
) -> Result<BodyReply, Code>
    ensures { Does (StoresReferences first sources.now) handle.old.block.value handle.new.block.value (fields.base_of_stores (registers_kept handle.old.block.value) base sources.now) result }
{
    handle.found()?;
    let base = base_of_stores(handle.registers(), base, sources)?;
    Ok(store(handle.block.lend(), base, first, sources))
}
