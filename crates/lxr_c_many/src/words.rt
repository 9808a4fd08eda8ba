//! Data words of an object in a row.
ghost use Rattle.std.specs.Prelude.{◌≡◌, ◌+◌, ◌<◌, ◌≤◌, ◌^◌, List, OnErr, length, unwrap_or};
ghost use Rattle.lxr_direct.specs.Known.{IsKnown};
ghost use Rattle.lxr_large_model.specs.History.{LargeItem, large_state};
ghost use Rattle.lxr_heap.specs.Bulk.{words_from};
ghost use Rattle.lxr_heap.specs.Holding.{IsHeapOf};
ghost use Rattle.lxr_c_base.specs.Requests.{register_of as is_register_of};
ghost use Rattle.lxr_c_heap.specs.Hosting.{IsServing, registers_in};
ghost use Rattle.lxr_c_heap.specs.Keeping.{registers_kept};
ghost use Rattle.lxr_c_heap.specs.Looking.{Looks};
ghost use Rattle.lxr_c_many.specs.Calling.{Does, PutsWords, SeesFields};
ghost use Rattle.lxr_c_many.specs.Fields.{comes_to, put_of, words_in};
ghost use Rattle.lxr_c_many.specs.Following.{Follows, newest_first};
ghost use Rattle.lxr_c_many.specs.Steps.{HasWords};

use crate::fields::find_words;
use crate::steps::{put_at, word_at};
use lxr_c_base::Code;
use lxr_c_base::requests::register_of;
use lxr_c_heap::{Handle, HostHeap};
use lxr_direct::HeldObject;
use lxr_heap::{BodyReply, LargeHeap};

/// Reads data words of an object.
#[inline(always)]
fn read_all(heap: &LargeHeap, object: HeldObject, first: u16, words: &mut [u64])
    requires known { IsKnown heap.now.space 1 object }
    requires there { first + length words.old ≤ object.base.shape.values }
    requires few { first + length words.old < 2 ^ 16 }
    ensures { (h : List LargeItem) → IsHeapOf heap.now h → HasWords (large_state h) object.register (first + length words.old)
        → words.new ≡ unwrap_or (words_from (words_in (large_state h) object.register) first (length words.old)) words.old }
{
    for (i, word) in words.iter_mut().enumerate() {
        *word = word_at(heap, object, first + i as u16);
    }
}

/// Writes data words of an object.
#[inline(always)]
pub(crate) fn write_all(heap: &mut HostHeap, object: HeldObject, first: u16, words: &[u64])
    requires serving { IsServing heap.old }
    requires base { object.register < registers_in heap.old }
    requires known { IsKnown heap.old.heap.space 1 object }
    requires there { first + length words.now ≤ object.base.shape.values }
    requires few { first + length words.now < 2 ^ 16 }
    ensures follows { (h : List LargeItem) → IsHeapOf heap.old.heap h → Follows heap.old h heap.new (newest_first (put_of object.register) first words.now) }
    ensures registers { registers_in heap.new ≡ registers_in heap.old }
    ensures serving { IsServing heap.new }
{
    for (i, word) in words.iter().enumerate() {
        put_at(heap, object, first + i as u16, *word);
    }
}

/// Reads data words of what `base` holds, from `first` on, as many as there is room for: all of them or none.
#[inline(always)]
pub fn read(heap: &LargeHeap, base: u8, first: u32, words: &mut [u64]) -> BodyReply
    requires holds { ∥ ((h : List LargeItem) × IsHeapOf heap.now h) ∥₁ }
    ensures { (h : List LargeItem) → IsHeapOf heap.now h
        → (result ≡ comes_to (words_in (large_state h) base) first (length words.old)) × (words.new ≡ unwrap_or (words_from (words_in (large_state h) base) first (length words.old)) words.old) }
{
    match find_words(heap, base, first, words.len()) {
        Ok(object) => {
            read_all(heap, object, first as u16, words);
            BodyReply::Done
        }
        Err(refused) => refused,
    }
}

/// Writes over data words of what `base` holds, from `first` on: all of them or none.
#[inline(always)]
pub fn write(heap: &mut HostHeap, base: u8, first: u32, words: &[u64]) -> BodyReply
    requires serving { IsServing heap.old }
    requires base { base < registers_in heap.old }
    ensures writes { (h : List LargeItem) → IsHeapOf heap.old.heap h → PutsWords first words.now heap.old heap.new h base result }
    ensures registers { registers_in heap.new ≡ registers_in heap.old }
    ensures serving { IsServing heap.new }
{
    match find_words(&heap.heap, base, first, words.len()) {
        Ok(object) => {
            write_all(heap, object, first as u16, words);
            BodyReply::Done
        }
        Err(refused) => refused,
    }
}

/// Reads data words of the object that `base` holds, from `first` on, as many as there is room for: all of them or none.
pub fn get_many(
    handle: &mut Handle,
    base: u32,
    first: u32,
    words: &mut [u64],
) -> Result<BodyReply, Code>
    ensures reads { Looks (SeesFields first words.old words.new) handle.old.block.value handle.new.block.value (is_register_of (registers_kept handle.old.block.value) base) result }
    ensures kept { OnErr result (words.new ≡ words.old) }
{
    handle.found()?;
    let base = register_of(handle.registers(), base)?;
    Ok(read(&handle.block.lend().heap, base, first, words))
}

/// Writes over data words of the object that `base` holds, from `first` on: all of them or none.
pub fn put_many(
    handle: &mut Handle,
    base: u32,
    first: u32,
    words: &[u64],
) -> Result<BodyReply, Code>
    ensures { Does (PutsWords first words.now) handle.old.block.value handle.new.block.value (is_register_of (registers_kept handle.old.block.value) base) result }
{
    handle.found()?;
    let base = register_of(handle.registers(), base)?;
    Ok(write(handle.block.lend(), base, first, words))
}
