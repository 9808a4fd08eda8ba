//! What an entry of a list of operations asks for, done as the call of its name does it: a load, a store, a get and a put are tried first.
//!
//! Its numbers were looked at before, with those of all entries.
ghost use Rattle.std.specs.Prelude.{◌≡◌};
ghost use Rattle.lxr_c_heap.specs.Hosting.{IsServing, registers_in};
ghost use Rattle.lxr_c_many.specs.Applying.{Asks, PerformsAt, with_told};

use crate::applying::{Told, flag, perform, told_by};
use crate::asked::{Operation, asked_of};
use lxr_c_base::Code;
use lxr_c_heap::HostHeap;
use lxr_graph::Op;
use lxr_large_model::LargeOp;
use lxr_layout::Shape;

/// Writes the word that an operation tells into its entry, and gives its code.
#[inline(always)]
fn tell(entry: &mut Operation, told: Told) -> Code
    ensures told { entry.new ≡ with_told entry.old told }
    ensures code { result ≡ told.code }
{
    if let Some(word) = told.word {
        entry.word = word;
    }
    told.code
}

/// Does what an entry asks for where a try didn't: what stands against it is looked at.
#[cold]
#[inline(never)]
fn perform_aside(heap: &mut HostHeap, entry: &mut Operation) -> Code
    requires serving { IsServing heap.old }
    requires asks { Asks (registers_in heap.old) entry.old }
    ensures performs { PerformsAt heap.old entry.old heap.new entry.new result }
    ensures registers { registers_in heap.new ≡ registers_in heap.old }
    ensures serving { IsServing heap.new }
{
    match asked_of(heap.named, *entry) {
        Err(_) => unreachable!(),
        Ok(asked) => tell(entry, perform(heap, asked)),
    }
}

/// Makes an object. It has a place of its own in the code, since it is longer than the others together.
#[inline(never)]
fn new_at(heap: &mut HostHeap, entry: &mut Operation) -> Code
    requires serving { IsServing heap.old }
    requires asks { Asks (registers_in heap.old) entry.old }
    requires op { entry.old.op ≡ 0 }
    ensures performs { PerformsAt heap.old entry.old heap.new entry.new result }
    ensures registers { registers_in heap.new ≡ registers_in heap.old }
    ensures serving { IsServing heap.new }
{
    let shape = Shape {
        refs: entry.b as u16,
        values: entry.c as u16,
    };
    let dest = entry.a as u8;
    tell(
        entry,
        told_by(heap.make(LargeOp::Small(Op::New { dest, shape }))),
    )
}

/// Loads a reference.
#[inline(always)]
fn load_at(heap: &mut HostHeap, entry: &mut Operation) -> Code
    requires serving { IsServing heap.old }
    requires asks { Asks (registers_in heap.old) entry.old }
    requires op { entry.old.op ≡ 1 }
    ensures performs { PerformsAt heap.old entry.old heap.new entry.new result }
    ensures registers { registers_in heap.new ≡ registers_in heap.old }
    ensures serving { IsServing heap.new }
{
    if heap.heap.try_load(entry.a as u8, entry.b as u8, entry.c) {
        return Code::Done;
    }
    perform_aside(heap, entry)
}

/// Stores a reference.
#[inline(always)]
fn store_at(heap: &mut HostHeap, entry: &mut Operation) -> Code
    requires serving { IsServing heap.old }
    requires asks { Asks (registers_in heap.old) entry.old }
    requires op { entry.old.op ≡ 2 }
    ensures performs { PerformsAt heap.old entry.old heap.new entry.new result }
    ensures registers { registers_in heap.new ≡ registers_in heap.old }
    ensures serving { IsServing heap.new }
{
    if heap.try_store(entry.a as u8, entry.b, entry.c as u8) {
        return Code::Done;
    }
    perform_aside(heap, entry)
}

/// Reads a data word.
#[inline(always)]
fn get_at(heap: &mut HostHeap, entry: &mut Operation) -> Code
    requires serving { IsServing heap.old }
    requires asks { Asks (registers_in heap.old) entry.old }
    requires op { entry.old.op ≡ 3 }
    ensures performs { PerformsAt heap.old entry.old heap.new entry.new result }
    ensures registers { registers_in heap.new ≡ registers_in heap.old }
    ensures serving { IsServing heap.new }
{
    match heap.heap.try_get(entry.a as u8, entry.b) {
        None => perform_aside(heap, entry),
        Some(found) => {
            entry.word = found;
            Code::Done
        }
    }
}

/// Writes a data word.
#[inline(always)]
fn put_at(heap: &mut HostHeap, entry: &mut Operation) -> Code
    requires serving { IsServing heap.old }
    requires asks { Asks (registers_in heap.old) entry.old }
    requires op { entry.old.op ≡ 4 }
    ensures performs { PerformsAt heap.old entry.old heap.new entry.new result }
    ensures registers { registers_in heap.new ≡ registers_in heap.old }
    ensures serving { IsServing heap.new }
{
    if heap.heap.try_put(entry.a as u8, entry.b, entry.word) {
        return Code::Done;
    }
    perform_aside(heap, entry)
}

/// Tells whether two registers hold the same.
#[inline(always)]
fn same_at(heap: &mut HostHeap, entry: &mut Operation) -> Code
    requires serving { IsServing heap.old }
    requires asks { Asks (registers_in heap.old) entry.old }
    requires op { entry.old.op ≡ 5 }
    ensures performs { PerformsAt heap.old entry.old heap.new entry.new result }
    ensures registers { registers_in heap.new ≡ registers_in heap.old }
    ensures serving { IsServing heap.new }
{
    let left = entry.a as u8;
    let right = entry.b as u8;
    tell(
        entry,
        told_by(heap.heap.see(LargeOp::Small(Op::Same { left, right }))),
    )
}

/// Moves what a register holds to another.
#[inline(always)]
fn move_at(heap: &mut HostHeap, entry: &mut Operation) -> Code
    requires serving { IsServing heap.old }
    requires asks { Asks (registers_in heap.old) entry.old }
    requires op { entry.old.op ≡ 6 }
    ensures performs { PerformsAt heap.old entry.old heap.new entry.new result }
    ensures registers { registers_in heap.new ≡ registers_in heap.old }
    ensures serving { IsServing heap.new }
{
    let dest = entry.a as u8;
    let source = entry.b as u8;
    tell(
        entry,
        told_by(heap.reply(LargeOp::Small(Op::Move { dest, source }))),
    )
}

/// Makes a register nil.
#[inline(always)]
fn nil_at(heap: &mut HostHeap, entry: &mut Operation) -> Code
    requires serving { IsServing heap.old }
    requires asks { Asks (registers_in heap.old) entry.old }
    requires op { entry.old.op ≡ 7 }
    ensures performs { PerformsAt heap.old entry.old heap.new entry.new result }
    ensures registers { registers_in heap.new ≡ registers_in heap.old }
    ensures serving { IsServing heap.new }
{
    let dest = entry.a as u8;
    tell(entry, told_by(heap.reply(LargeOp::Small(Op::Nil { dest }))))
}

/// Tells whether a register is nil.
#[inline(always)]
fn is_nil_at(heap: &mut HostHeap, entry: &mut Operation) -> Code
    requires serving { IsServing heap.old }
    requires asks { Asks (registers_in heap.old) entry.old }
    requires op { entry.old.op ≡ 8 }
    ensures performs { PerformsAt heap.old entry.old heap.new entry.new result }
    ensures registers { registers_in heap.new ≡ registers_in heap.old }
    ensures serving { IsServing heap.new }
{
    entry.word = flag(heap.heap.is_nil(entry.a as u8));
    Code::Done
}

/// Does what an entry asks for, and writes the word that this tells into it.
#[inline(always)]
pub(crate) fn perform_at(heap: &mut HostHeap, entry: &mut Operation) -> Code
    requires serving { IsServing heap.old }
    requires asks { Asks (registers_in heap.old) entry.old }
    ensures performs { PerformsAt heap.old entry.old heap.new entry.new result }
    ensures registers { registers_in heap.new ≡ registers_in heap.old }
    ensures serving { IsServing heap.new }
{
    match entry.op {
        0 => new_at(heap, entry),
        1 => load_at(heap, entry),
        2 => store_at(heap, entry),
        3 => get_at(heap, entry),
        4 => put_at(heap, entry),
        5 => same_at(heap, entry),
        6 => move_at(heap, entry),
        7 => nil_at(heap, entry),
        8 => is_nil_at(heap, entry),
        _ => unreachable!(),
    }
}
