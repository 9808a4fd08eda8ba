//! One operation on a heap.
ghost use Rattle.std.specs.Prelude.{◌≡◌, ◌-◌, ◌^◌, ◌<◌, ◌≤◌, List, if◌then◌else◌};
ghost use Rattle.lxr_graph.specs.Step.{IsFormedFor};
ghost use Rattle.lxr_direct.specs.Operating.{IsOfFirstVersion};
ghost use Rattle.lxr_large_model.specs.declared.Acted.TheVariants as acted;
ghost use Rattle.lxr_large_model.specs.declared.LargeOp.TheVariants as large_op;
ghost use Rattle.lxr_large_model.specs.declared.LargeReply.TheVariants as large_reply;
ghost use Rattle.lxr_large_model.specs.declared.TheConstants.{MOST_BODY_BLOCKS};
ghost use Rattle.lxr_large_model.specs.History.{LargeItem};
ghost use Rattle.lxr_large_model.specs.Step.{got};
ghost use Rattle.lxr_heap.specs.Acting.{Acts, MayBeCalled};
ghost use Rattle.lxr_heap.specs.Holding.{IsHeapOf, made_with as is_made_with};

use crate::MUTATOR;
use crate::heap::Heap;
use lxr_direct::{Operated, name_in, operate};
use lxr_graph::{Op, Reply};
use lxr_large_model::{Acted, LargeOp, LargeReply};
use lxr_layout::{Name, Shape};
use lxr_placing::serve;

/// The shape of the handle of a large object.
const HANDLE: Shape = Shape { refs: 0, values: 0 };

/// What comes of an operation that finds no place: it is refused where a fresh pause stands before it, and else it asks for one.
#[inline(always)]
fn refused(fresh: bool, full: LargeReply) -> Acted
    ensures { result ≡ (if fresh then acted.Replied full else acted.Room) }
{
    if fresh {
        Acted::Replied(full)
    } else {
        Acted::Room
    }
}

/// How many objects were made, with the one of which a reply tells.
#[inline(always)]
fn made_with(made: u32, reply: Reply) -> u32
    requires { made < 2 ^ 32 - 1 }
    ensures { result ≡ is_made_with made reply }
{
    match reply {
        Reply::New(_) => made + 1,
        _ => made,
    }
}

/// Does an operation on the object graph.
#[inline(always)]
fn act_small(heap: &mut Heap, op: Op) -> Acted
    requires holds { (h : List LargeItem) × IsHeapOf heap.old h }
    requires made { heap.old.made < 2 ^ 32 - 1 }
    requires op { IsFormedFor heap.old.space.limits.registers op × IsOfFirstVersion op }
    ensures { (h : List LargeItem) → IsHeapOf heap.old h → Acts heap.old heap.new h (large_op.Small op) result }
{
    match operate(&mut heap.space, MUTATOR, heap.made + 1, op) {
        Operated::Replied(reply) => {
            heap.made = made_with(heap.made, reply);
            heap.fresh = false;
            Acted::Replied(LargeReply::Small(reply))
        }
        Operated::NoRoom => refused(heap.fresh, LargeReply::Small(Reply::Full)),
        Operated::LogFull => Acted::Log,
    }
}

/// Register `dest` gets a new large object, whose body has so many blocks.
#[inline(never)]
fn make_large(heap: &mut Heap, dest: u8, blocks: u32) -> Acted
    requires holds { (h : List LargeItem) × IsHeapOf heap.old h }
    requires made { heap.old.made < 2 ^ 32 - 1 }
    requires dest { dest < heap.old.space.limits.registers }
    requires blocks { (1 ≤ blocks) × (blocks ≤ MOST_BODY_BLOCKS) }
    ensures { (h : List LargeItem) → IsHeapOf heap.old h → Acts heap.old heap.new h (large_op.Big dest blocks) result }
{
    let Some(first) = heap.bodies.free_run(blocks) else {
        return refused(heap.fresh, LargeReply::Full);
    };
    let name = Name {
        thread: MUTATOR,
        serial: heap.made + 1,
    };
    match serve(&mut heap.space, name, dest, HANDLE) {
        None => refused(heap.fresh, LargeReply::Full),
        Some(_) => {
            heap.bodies.place(name, first, blocks);
            heap.made += 1;
            heap.fresh = false;
            Acted::Replied(LargeReply::Big(name))
        }
    }
}

/// The reply of a write, by whether the object has a body with such a word.
#[inline(always)]
fn put_reply(found: bool) -> LargeReply
    ensures { result ≡ (if found then large_reply.Put else large_reply.Range) }
{
    if found {
        LargeReply::Put
    } else {
        LargeReply::Range
    }
}

/// The reply of a read, by the word that was found.
#[inline(always)]
pub(crate) fn got_reply(word: Option<u64>) -> LargeReply
    ensures { result ≡ got word }
{
    match word {
        None => LargeReply::Range,
        Some(word) => LargeReply::Got(word),
    }
}

/// Word `index` of the body of what `base` holds becomes `value`.
#[inline(always)]
fn put_word(heap: &mut Heap, base: u8, index: u32, value: u64) -> LargeReply
    requires holds { (h : List LargeItem) × IsHeapOf heap.old h }
    requires base { base < heap.old.space.limits.registers }
    ensures { (h : List LargeItem) → IsHeapOf heap.old h → Acts heap.old heap.new h (large_op.BigPut base index value) (acted.Replied result) }
{
    heap.fresh = false;
    match name_in(&heap.space, MUTATOR, base) {
        None => LargeReply::Bad,
        Some(name) => put_reply(heap.bodies.set_word(name, index, value)),
    }
}

/// Reads word `index` of the body of what `base` holds.
#[inline(always)]
fn get_word(heap: &mut Heap, base: u8, index: u32) -> LargeReply
    requires holds { (h : List LargeItem) × IsHeapOf heap.old h }
    requires base { base < heap.old.space.limits.registers }
    ensures { (h : List LargeItem) → IsHeapOf heap.old h → Acts heap.old heap.new h (large_op.BigGet base index) (acted.Replied result) }
{
    heap.fresh = false;
    match name_in(&heap.space, MUTATOR, base) {
        None => LargeReply::Bad,
        Some(name) => got_reply(heap.bodies.word(name, index)),
    }
}

/// Does one operation.
#[inline(always)]
pub(crate) fn act(heap: &mut Heap, op: LargeOp) -> Acted
    requires holds { (h : List LargeItem) × IsHeapOf heap.old h }
    requires made { heap.old.made < 2 ^ 32 - 1 }
    requires op { MayBeCalled heap.old.space.limits.registers op }
    ensures { (h : List LargeItem) → IsHeapOf heap.old h → Acts heap.old heap.new h op result }
{
    match op {
        LargeOp::Small(op) => act_small(heap, op),
        LargeOp::Big { dest, blocks } => make_large(heap, dest, blocks),
        LargeOp::BigPut { base, index, value } => {
            Acted::Replied(put_word(heap, base, index, value))
        }
        LargeOp::BigGet { base, index } => Acted::Replied(get_word(heap, base, index)),
    }
}
