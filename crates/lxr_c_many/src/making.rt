//! A new object with all that it holds.
ghost use Rattle.std.specs.Prelude.{◌≡◌, ℕ, ◌<◌, ◌≤◌, ◌^◌, ◌++◌, false, IfOk, IsTrue, List, length};
ghost use Rattle.lxr_layout.specs.declared.TheConstants.{REGISTERS};
ghost use Rattle.lxr_direct.specs.Known.{IsKnown};
ghost use Rattle.lxr_direct.specs.Recording.{is_unlogged};
ghost use Rattle.lxr_large_model.specs.History.{LargeItem};
ghost use Rattle.lxr_heap.specs.Holding.{IsHeapOf};
ghost use Rattle.lxr_c_heap.specs.Hosting.{IsHostOf, IsServing, registers_in};
ghost use Rattle.lxr_c_heap.specs.Keeping.{registers_kept};
ghost use Rattle.lxr_c_many.specs.Calling.{Does};
ghost use Rattle.lxr_c_many.specs.Fields.{are_registers, put_of, store_of};
ghost use Rattle.lxr_c_many.specs.Following.{Follows, newest_first};
ghost use Rattle.lxr_c_many.specs.Making as making;
ghost use Rattle.lxr_c_many.specs.Making.{IsWanted, MakesWith};
ghost use Rattle.lxr_c_many.specs.Steps.{HoldsYoung};

use crate::steps::store_young_at;
use crate::words::write_all;
use lxr_c_base::Code;
use lxr_c_base::requests::{fields_of, register_of};
use lxr_c_heap::{Handle, HostHeap};
use lxr_direct::HeldObject;
use lxr_graph::{Op, Reply};
use lxr_large_model::{LargeOp, LargeReply};
use lxr_layout::Shape;

/// What is wanted of a new object: its register and its shape.
#[derive(Clone, Copy, Debug, PartialEq, Eq)]
pub struct Wanted {
    pub dest: u8,
    pub shape: Shape,
}

/// Whether these are registers other than `dest`.
fn are_sources(registers: u16, dest: u32, sources: &[u32]) -> bool
    ensures { result ≡ making.are_sources registers dest sources.now }
{
    let registers = u32::from(registers);
    sources
        .iter()
        .all(|source| *source < registers && *source != dest)
}

/// The object that is wanted in `dest`, with a reference for each of the sources and these data words.
fn object_of(registers: u16, dest: u32, sources: &[u32], words: &[u64]) -> Result<Wanted, Code>
    requires { registers ≤ REGISTERS }
    ensures { result ≡ making.object_of registers dest sources.now words.now }
{
    let dest = register_of(registers, dest)?;
    let refs = fields_of(sources.len())?;
    let values = fields_of(words.len())?;
    Ok(Wanted {
        dest,
        shape: Shape { refs, values },
    })
}

/// The object that is wanted, or what is wrong with the numbers.
fn wanted_of(registers: u16, dest: u32, sources: &[u32], words: &[u64]) -> Result<Wanted, Code>
    requires { registers ≤ REGISTERS }
    ensures wanted { result ≡ making.wanted_of registers dest sources.now words.now }
    ensures fits { IfOk result (IsWanted registers sources.now words.now) }
{
    if !are_sources(registers, dest, sources) {
        return Err(Code::Register);
    }
    object_of(registers, dest, sources, words)
}

/// Whether a reply tells of an object that was made.
fn makes_one(reply: LargeReply) -> bool
    ensures { result ≡ making.makes_one reply }
{
    match reply {
        LargeReply::Small(Reply::New(_)) => true,
        _ => false,
    }
}

/// Stores to the references of a new object, in order.
#[inline(always)]
fn store_new(heap: &mut HostHeap, object: HeldObject, sources: &[u32])
    requires serving { IsServing heap.old }
    requires base { object.register < registers_in heap.old }
    requires known { IsKnown heap.old.heap.space 1 object }
    requires there { length sources.now ≤ object.base.shape.refs }
    requires few { length sources.now < 2 ^ 16 }
    requires sources { IsTrue (are_registers (registers_in heap.old) sources.now) }
    requires clear { (i : ℕ) → i < length sources.now → is_unlogged heap.old.heap.space object.base.place i ≡ false }
    ensures follows { (h : List LargeItem) → IsHeapOf heap.old.heap h → Follows heap.old h heap.new (newest_first (store_of object.register) 0 sources.now) }
    ensures known { IsKnown heap.new.heap.space 1 object }
    ensures registers { registers_in heap.new ≡ registers_in heap.old }
    ensures serving { IsServing heap.new }
{
    for (i, source) in sources.iter().enumerate() {
        store_young_at(heap, object, i as u16, *source as u8);
    }
}

/// Stores to the references of the new object that `dest` holds, and then writes its data words.
#[inline(always)]
fn fill(heap: &mut HostHeap, dest: u8, sources: &[u32], words: &[u64])
    requires serving { IsServing heap.old }
    requires dest { dest < registers_in heap.old }
    requires few { (length sources.now < 2 ^ 16) × (length words.now < 2 ^ 16) }
    requires sources { IsTrue (are_registers (registers_in heap.old) sources.now) }
    requires young { ∥ ((h : List LargeItem) × IsHeapOf heap.old.heap h × HoldsYoung h dest (length sources.now) (length words.now)) ∥₁ }
    ensures follows { (h : List LargeItem) → IsHeapOf heap.old.heap h → Follows heap.old h heap.new (newest_first (put_of dest) 0 words.now ++ newest_first (store_of dest) 0 sources.now) }
    ensures registers { registers_in heap.new ≡ registers_in heap.old }
    ensures serving { IsServing heap.new }
{
    match heap.heap.look_up(dest) {
        Some(object) => {
            store_new(heap, object, sources);
            write_all(heap, object, 0, words);
        }
        None => unreachable!(),
    }
}

/// Makes an object and fills it.
fn make(heap: &mut HostHeap, wanted: Wanted, sources: &[u32], words: &[u64]) -> LargeReply
    requires serving { IsServing heap.old }
    requires wanted { IsWanted (registers_in heap.old) sources.now words.now wanted }
    ensures makes { (h : List LargeItem) → IsHostOf heap.old h → MakesWith sources.now words.now heap.old heap.new h wanted result }
    ensures registers { registers_in heap.new ≡ registers_in heap.old }
    ensures serving { IsServing heap.new }
{
    let Wanted { dest, shape } = wanted;
    let reply = heap.make(LargeOp::Small(Op::New { dest, shape }));
    if !makes_one(reply) {
        return reply;
    }
    fill(heap, dest, sources, words);
    reply
}

/// Register `dest` gets a new object: its references are what the sources hold, and its data words are these.
pub fn new_with(
    handle: &mut Handle,
    dest: u32,
    sources: &[u32],
    words: &[u64],
) -> Result<LargeReply, Code>
    ensures { Does (MakesWith sources.now words.now) handle.old.block.value handle.new.block.value (making.wanted_of (registers_kept handle.old.block.value) dest sources.now words.now) result }
{
    handle.found()?;
    let wanted = wanted_of(handle.registers(), dest, sources, words)?;
    Ok(make(handle.block.lend(), wanted, sources, words))
}
