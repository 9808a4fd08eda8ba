//! An object that is made for so many words.
ghost use Rattle.std.specs.Prelude.{◌≡◌, ◌≤◌, IfOk, List};
ghost use Rattle.lxr_layout.specs.declared.TheConstants.{REGISTERS};
ghost use Rattle.lxr_large_model.specs.History.{LargeItem};
ghost use Rattle.lxr_c_base.specs.Requests.{IsMaking};
ghost use Rattle.lxr_c_heap.specs.Hosting.{IsHostOf, IsServing, registers_in};
ghost use Rattle.lxr_c_heap.specs.Keeping.{registers_kept};
ghost use Rattle.lxr_c_many.specs.Calling.{Does};
ghost use Rattle.lxr_c_words.specs.Making.{HasPlaceFor, MakesWords, body_made as is_body_made, words_wanted as is_words_wanted};

use lxr_c_base::{Code, requests};
use lxr_c_heap::{Handle, HostHeap};
use lxr_large_model::{LargeOp, LargeReply};
use lxr_layout::{MOST_FIELDS, WORDS_IN_BLOCK};

/// The object that is wanted in `dest` for so many words, or what is wrong with the numbers.
#[tactic(auto, using(crate::proofs::PlaceLemmas::place_big, crate::proofs::PlaceLemmas::place_new))]
fn words_wanted(registers: u16, dest: u32, length: u32) -> Result<LargeOp, Code>
    requires { registers ≤ REGISTERS }
    ensures wanted { result ≡ is_words_wanted registers dest length }
    ensures may { IfOk result (IsMaking registers) }
    ensures place { IfOk result (HasPlaceFor length) }
{
    if length <= u32::from(MOST_FIELDS) {
        return requests::new(registers, dest, 0, length);
    }
    requests::big(registers, dest, length / WORDS_IN_BLOCK + 1)
}

/// The register that holds a new object with a body, where an operation made one.
#[inline(always)]
fn body_made(op: LargeOp, reply: LargeReply) -> Option<u8>
    ensures { result ≡ is_body_made op reply }
{
    match reply {
        LargeReply::Big(_) => match op {
            LargeOp::Big { dest, blocks: _ } => Some(dest),
            _ => None,
        },
        _ => None,
    }
}

/// Makes an object for so many words.
fn make(heap: &mut HostHeap, op: LargeOp, length: u32) -> LargeReply
    requires serving { IsServing heap.old }
    requires op { IsMaking (registers_in heap.old) op }
    requires place { HasPlaceFor length op }
    ensures makes { (h : List LargeItem) → IsHostOf heap.old h → MakesWords length heap.old heap.new h op result }
    ensures registers { registers_in heap.new ≡ registers_in heap.old }
    ensures serving { IsServing heap.new }
{
    let reply = heap.make(op);
    let Some(dest) = body_made(op, reply) else {
        return reply;
    };
    heap.reply(LargeOp::BigPut {
        base: dest,
        index: 0,
        value: u64::from(length),
    });
    reply
}

/// Register `dest` gets a new object of so many words, which are 0: at most 524,287.
pub fn new(handle: &mut Handle, dest: u32, length: u32) -> Result<LargeReply, Code>
    ensures { Does (MakesWords length) handle.old.block.value handle.new.block.value (is_words_wanted (registers_kept handle.old.block.value) dest length) result }
{
    handle.found()?;
    let op = words_wanted(handle.registers(), dest, length)?;
    Ok(make(handle.block.lend(), op, length))
}
