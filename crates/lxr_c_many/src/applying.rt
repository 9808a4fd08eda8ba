//! A list of operations, done in turn.
ghost use Rattle.std.specs.Prelude.{◌≡◌, Some, Ok, List};
ghost use Rattle.lxr_large_model.specs.History.{LargeItem};
ghost use Rattle.lxr_c_base.specs.Codes.{flag as is_flag};
ghost use Rattle.lxr_c_heap.specs.Hosting.{IsHostOf, IsServing, all_registers_in, registers_in};
ghost use Rattle.lxr_c_many.specs.declared.applying.Told.{Told as ToldOf};
ghost use Rattle.lxr_c_many.specs.Applying as applying;
ghost use Rattle.lxr_c_many.specs.Applying.{AllAsk, Applies, AppliesAll, MayBeAsked, Performs, all_told};

use crate::asked::{Asked, Operation, look_over};
use crate::entries::perform_at;
use lxr_c_base::{Code, code_of};
use lxr_c_heap::{Handle, HostHeap};
use lxr_graph::Reply;
use lxr_large_model::LargeReply;

/// What an operation came to: its code, and the word that it tells, if it does.
#[derive(Clone, Copy, Debug, PartialEq, Eq)]
pub struct Told {
    pub code: Code,
    pub word: Option<u64>,
}

/// What a list of operations came to: the code of the last one that was done, and how many were done with success.
#[derive(Clone, Copy, Debug, PartialEq, Eq)]
pub struct Applied {
    pub code: Code,
    pub done: usize,
}

/// A test as a word.
#[inline(always)]
pub(crate) fn flag(test: bool) -> u64
    ensures { result ≡ is_flag test }
{
    if test { 1 } else { 0 }
}

/// The word that a reply tells, if it does.
#[inline(always)]
pub fn word_of(reply: LargeReply) -> Option<u64>
    ensures { result ≡ applying.word_of reply }
{
    match reply {
        LargeReply::Small(Reply::Got(word)) => Some(word),
        LargeReply::Small(Reply::Same(same)) => Some(flag(same)),
        _ => None,
    }
}

/// What a reply tells.
#[inline(always)]
pub(crate) fn told_by(reply: LargeReply) -> Told
    ensures { result ≡ applying.told_by reply }
{
    Told {
        code: code_of(reply),
        word: word_of(reply),
    }
}

/// Does what is asked for, as the call of its name does it. Registers of the library's own may be asked for too.
#[inline(always)]
pub fn perform(heap: &mut HostHeap, asked: Asked) -> Told
    requires serving { IsServing heap.old }
    requires asked { MayBeAsked (all_registers_in heap.old) asked }
    ensures performs { (h : List LargeItem) → IsHostOf heap.old h → (k : List LargeItem) × Performs heap.old h asked heap.new k result }
    ensures registers { registers_in heap.new ≡ registers_in heap.old }
    ensures all { all_registers_in heap.new ≡ all_registers_in heap.old }
    ensures serving { IsServing heap.new }
{
    match asked {
        Asked::Make(op) => told_by(heap.make(op)),
        Asked::Store(op) => told_by(heap.store(op)),
        Asked::Reply(op) => told_by(heap.reply(op)),
        Asked::See(op) => told_by(heap.heap.see(op)),
        Asked::IsNil(register) => Told {
            code: Code::Done,
            word: Some(flag(heap.heap.is_nil(register))),
        },
    }
}

/// Does what entries ask for in turn, up to the first that isn't done with success.
fn perform_all(heap: &mut HostHeap, entries: &mut [Operation]) -> Applied
    requires serving { IsServing heap.old }
    requires ask { AllAsk (registers_in heap.old) entries.old (Ok tt) }
    ensures applies { (told : List ToldOf) × (entries.new ≡ all_told entries.old told)
        × ((h : List LargeItem) → IsHostOf heap.old h → (k : List LargeItem) × Applies heap.old h entries.old heap.new k told result) }
    ensures registers { registers_in heap.new ≡ registers_in heap.old }
    ensures serving { IsServing heap.new }
{
    for i in 0..entries.len() {
        match perform_at(heap, &mut entries[i]) {
            Code::Done => {}
            code => return Applied { code, done: i },
        }
    }
    Applied {
        code: Code::Done,
        done: entries.len(),
    }
}

/// Does operations in turn, up to the first that isn't done with success. Where the numbers of one don't fit, none is done.
pub fn apply(handle: &mut Handle, entries: &mut [Operation]) -> Result<Applied, Code>
    ensures { AppliesAll handle.old.block.value handle.new.block.value entries.old entries.new result }
{
    handle.found()?;
    look_over(handle.registers(), entries)?;
    Ok(perform_all(handle.block.lend(), entries))
}
