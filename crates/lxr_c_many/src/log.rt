//! What stores in a row have to record, and the pause that they need where the log has no room for it.
ghost use Rattle.std.specs.Prelude.{◌≡◌, ◌+◌, ◌*◌, ◌<◌, ◌≤◌, ◌^◌, ◌↔◌, IsTrue, List};
ghost use Rattle.lxr_layout.specs.declared.TheConstants.{WORDS_IN_BLOCK};
ghost use Rattle.lxr_layout.specs.Places.{IsPlace, field_word as is_field_word};
ghost use Rattle.lxr_image.specs.Spaces.{IsSpace, tables_of};
ghost use Rattle.lxr_large_model.specs.History.{LargeItem, large_state};
ghost use Rattle.lxr_heap.specs.Holding.{IsHeapOf};
ghost use Rattle.lxr_blocks.specs.Masks.{one_if};
ghost use Rattle.lxr_c_heap.specs.Hosting.{IsHostOf, IsServing, registers_in};
ghost use Rattle.lxr_c_many.specs.Recording.{LogIsShort, unlogged_bits};
ghost use Rattle.lxr_c_many.specs.Steps.{HasReferences, PausesForStores};

use lxr_c_heap::{ENDS, HostHeap};
use lxr_heap::LargeHeap;
use lxr_image::Space;
use lxr_layout::{Place, field_word};

/// How many records the log may have.
#[inline(always)]
fn most_logged(space: &Space) -> u64
    ensures { result ≡ space.now.limits.threads * space.now.limits.log }
{
    u64::from(space.limits.threads) * u64::from(space.limits.log)
}

/// One for a reference that has to be recorded before it is stored to, and none for another.
fn one_if_unlogged(space: &Space, at: u32) -> u32
    requires space { IsSpace space.now }
    requires at { at < WORDS_IN_BLOCK * space.now.limits.blocks }
    ensures { result ≡ one_if ((tables_of space.now).unlogged at) }
{
    if space.has_unlogged(at) { 1 } else { 0 }
}

/// How many of these references of an object have to be recorded before they are stored to.
fn count_to_record(space: &Space, place: Place, first: u16, count: u16) -> u32
    requires space { IsSpace space.now }
    requires place { IsPlace place }
    requires few { first + count < 2 ^ 16 }
    requires inside { is_field_word place.0 (first + count) ≤ WORDS_IN_BLOCK * space.now.limits.blocks }
    ensures { result ≡ unlogged_bits (tables_of space.now).unlogged place.0 first count }
{
    let mut found = 0;
    for i in 0..count {
        found += one_if_unlogged(space, field_word(place, first + i));
    }
    found
}

/// Whether the log has no room for what stores to these references record, where it has none for a record of each.
#[cold]
#[inline(never)]
fn finds_log_short(heap: &LargeHeap, base: u8, first: u16, count: u16) -> bool
    requires few { first + count < 2 ^ 16 }
    requires there { ∥ ((h : List LargeItem) × IsHeapOf heap.now h × HasReferences (large_state h) base (first + count)) ∥₁ }
    ensures { (h : List LargeItem) → IsHeapOf heap.now h → HasReferences (large_state h) base (first + count) → IsTrue result ↔ LogIsShort heap.now h base first count }
{
    let space = heap.space();
    let place = space.registers.at(usize::from(base));
    let wanted = u64::from(count_to_record(space, place, first, count));
    most_logged(space) < space.logged.len() as u64 + wanted
}

/// Whether the log has no room for what stores to these references record.
#[inline(always)]
fn log_is_short(heap: &LargeHeap, base: u8, first: u16, count: u16) -> bool
    requires few { first + count < 2 ^ 16 }
    requires there { ∥ ((h : List LargeItem) × IsHeapOf heap.now h × HasReferences (large_state h) base (first + count)) ∥₁ }
    ensures { (h : List LargeItem) → IsHeapOf heap.now h → HasReferences (large_state h) base (first + count) → IsTrue result ↔ LogIsShort heap.now h base first count }
{
    let space = heap.space();
    let logged = space.logged.len() as u64;
    if logged + u64::from(count) <= most_logged(space) {
        return false;
    }
    finds_log_short(heap, base, first, count)
}

/// Settles before stores to these references, and makes a plain pause where the log has no room for what they record.
#[inline(always)]
pub(crate) fn pause_for_stores(heap: &mut HostHeap, base: u8, first: u16, count: u16)
    requires serving { IsServing heap.old }
    requires few { first + count < 2 ^ 16 }
    requires there { (h : List LargeItem) → IsHostOf heap.old h → HasReferences (large_state h) base (first + count) }
    ensures pauses { (h : List LargeItem) → IsHostOf heap.old h → PausesForStores base first count heap.old heap.new h }
    ensures registers { registers_in heap.new ≡ registers_in heap.old }
    ensures serving { IsServing heap.new }
{
    heap.settle(ENDS);
    if !log_is_short(&heap.heap, base, first, count) {
        return;
    }
    heap.pause(false);
}
