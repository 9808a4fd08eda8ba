//! Playing a script with large objects on a heap that is called directly.
//!
//! Its operations are done one by one. One that finds no room is done again after a pause that collects, and one that finds the log full behind a
//! plain one; behind one that asks for a pause stands that pause, and after the end of the script one that collects. The reports are printed as
//! they come, and then the replies.
#![tactic(auto)]

ghost use Rattle.std.specs.Prelude.{◌≡◌, ℕ, ◌≤◌, IfErr, IfOk, OnErr};
ghost use Rattle.lxr_text_stream.specs.Streams.{Rose};
ghost use Rattle.lxr_large_text.specs.Limits.{IsLargeScript};
ghost use Rattle.lxr_large_run.specs.Played.{IsCutOff, IsPlayed, IsReady};
ghost use Rattle.lxr_large_run.specs.Playing.{large_terms};

mod playing;

use lxr_base::Listed;
use lxr_heap::{LargeHeap, Sizes};
use lxr_image::Space;
use lxr_large_model::LargeReply;
use lxr_large_text::{LargeOperations, print_large};
use lxr_text_script::SCRIPT_REGISTERS;
use lxr_text_stream::{Sink, WriteError};
use playing::play_all;
use std::alloc::{AllocError, Global};

/// How many overwritten references the heap of a script records between two pauses at most.
const SCRIPT_LOG: u32 = 1_024;

/// A script that is to be played, with its heap and the room for its replies: all memory that playing takes.
#[derive(Drop)]
pub struct LargeRun {
    heap: LargeHeap,
    operations: LargeOperations,
    replies: Listed<LargeReply>,
}

/// Takes all memory that it takes to play a script on a heap of so many blocks, and so many for bodies.
pub fn open_large(
    alloc: Global,
    blocks: u32,
    bodies: u32,
    operations: LargeOperations,
) -> Result<LargeRun, AllocError>
    requires blocks { (1 ≤ blocks) × (blocks ≤ 1024) }
    requires bodies { (1 ≤ bodies) × (bodies ≤ 1024) }
    requires script { IsLargeScript operations.items }
    ensures ready { IfOk result (λ run. IsReady run blocks bodies) }
    ensures script { IfOk result (λ run. run.operations ≡ operations) }
{
    let sizes = Sizes {
        blocks,
        bodies,
        registers: SCRIPT_REGISTERS,
        log: SCRIPT_LOG,
    };
    let heap = LargeHeap::open(alloc, sizes)?;
    let replies = Listed::with_room(alloc, operations.len() + 1)?;
    Ok(LargeRun {
        heap,
        operations,
        replies,
    })
}

/// Plays the script, and prints the reports of the pauses as they come, with counts where these are wanted, and then the replies. The space of
/// the objects that is left; where printing failed, a prefix of the text is written.
pub fn play_large<O: Sink>(run: LargeRun, counts: bool, output: &mut O) -> Result<Space, WriteError>
    requires ready { (blocks : ℕ) × (bodies : ℕ) × IsReady run blocks bodies }
    ensures done { IfOk result (λ space. (blocks bodies : ℕ) → IsReady run blocks bodies
        → IsPlayed (record { terms = large_terms blocks bodies; counts = counts; operations = run.operations.items; written = O.written output.old }) (O.written output.new) space) }
    ensures cut_off { OnErr result ((blocks bodies : ℕ) → IsReady run blocks bodies
        → IsCutOff (record { terms = large_terms blocks bodies; counts = counts; operations = run.operations.items; written = O.written output.old }) (O.written output.new)) }
    ensures faults { O.faults output.old ≤ O.faults output.new }
    ensures cause { result ≡ Err WriteError.Fault → Rose (O.faults output.old) (O.faults output.new) }
{
    let LargeRun {
        heap,
        operations,
        replies,
    } = run;
    let mut heap = heap;
    let mut replies = replies;
    play_all(
        &mut heap,
        operations.as_slice(),
        &mut replies,
        counts,
        output,
    )?;
    print_large(operations.as_slice(), replies.as_slice(), output)?;
    Ok(heap.into_space())
}
