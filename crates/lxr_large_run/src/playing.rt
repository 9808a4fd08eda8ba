//! The operations of a script, one by one, with the pauses before and behind them.
ghost use Rattle.std.specs.Prelude.{◌≡◌, ℕ, ◌+◌, ◌-◌, ◌^◌, ◌<◌, ◌≤◌, [], ◌∷◌, List, IfOk, OnErr, OnOk, length};
ghost use Rattle.lxr_graph.specs.History.{HasToldNames, report_of};
ghost use Rattle.lxr_text_script.specs.declared.TheConstants.{SCRIPT_REGISTERS};
ghost use Rattle.lxr_text_print.specs.Reports.{report_text};
ghost use Rattle.lxr_text_stream.specs.Streams.{Appends, AppendsFront, Rose};
ghost use Rattle.lxr_large_model.specs.declared.LargeOp.{LargeOp as LargeOpOf};
ghost use Rattle.lxr_large_model.specs.History.{LargeItem};
ghost use Rattle.lxr_large_text.specs.Limits.{IsLargeScript};
ghost use Rattle.lxr_heap.specs.Acting.{IsReplied, MayBeCalled, WantsNoPause, WantsPause};
ghost use Rattle.lxr_heap.specs.Holding.{IsHeapOf};
ghost use Rattle.lxr_heap.specs.Pausing.{PausesHeap};
ghost use Rattle.lxr_large_text.specs.Histories.{with_end};
ghost use Rattle.lxr_large_run.specs.Asking as asking;
ghost use Rattle.lxr_large_run.specs.Playing.{HasCome, IsCutEarly, IsPlaying, LargeTask, SomeIsPlaying, SomeWantsPause, TellsPrinted};

use lxr_base::Listed;
use lxr_graph::Op;
use lxr_heap::LargeHeap;
use lxr_large_model::{Acted, LargeOp, LargeReply};
use lxr_text_print::print_pause;
use lxr_text_stream::{Sink, WriteError};

/// Makes a pause, and lists the names of its report. No counts are told.
fn pause_and_list(heap: &mut LargeHeap, collect: bool)
    requires number { heap.old.space.pauses + 1 < 2 ^ 32 }
    ensures pauses { (h : List LargeItem) → IsHeapOf heap.old h → PausesHeap heap.old heap.new h collect }
    ensures names { (h : List LargeItem) → IsHeapOf heap.old h → HasToldNames heap.new.space.report }
    ensures untold { (h : List LargeItem) → IsHeapOf heap.old h → heap.new.space.report.told.items ≡ [] }
{
    heap.pause(collect);
    heap.tell_names();
}

/// Makes a pause, lists the names of its report, and tells its counts where they are asked for and it collects.
fn pause_and_tell(heap: &mut LargeHeap, collect: bool, counts: bool)
    requires number { heap.old.space.pauses + 1 < 2 ^ 32 }
    ensures pauses { (h : List LargeItem) → IsHeapOf heap.old h → PausesHeap heap.old heap.new h collect }
    ensures names { (h : List LargeItem) → IsHeapOf heap.old h → HasToldNames heap.new.space.report }
    ensures told { (h : List LargeItem) → IsHeapOf heap.old h → TellsPrinted counts heap.new.space.report }
{
    pause_and_list(heap, collect);
    if counts && collect {
        heap.tell_counts();
    }
}

/// Makes a pause and prints its report. After an error a prefix of the report is written.
fn pause<O: Sink>(
    heap: &mut LargeHeap,
    collect: bool,
    counts: bool,
    output: &mut O,
) -> Result<(), WriteError>
    requires holds { (h : List LargeItem) × IsHeapOf heap.old h }
    requires number { heap.old.space.pauses + 1 < 2 ^ 32 }
    ensures pauses { (h : List LargeItem) → IsHeapOf heap.old h → PausesHeap heap.old heap.new h collect }
    ensures told { (h : List LargeItem) → IsHeapOf heap.old h → TellsPrinted counts heap.new.space.report }
    ensures ok { OnOk result (Appends (O.written output.old) (O.written output.new) (report_text counts (report_of heap.new.space.report))) }
    ensures err { OnErr result (AppendsFront (O.written output.old) (O.written output.new) (report_text counts (report_of heap.new.space.report))) }
    ensures faults { O.faults output.old ≤ O.faults output.new }
    ensures cause { result ≡ Err WriteError.Fault → Rose (O.faults output.old) (O.faults output.new) }
{
    pause_and_tell(heap, collect, counts);
    print_pause(heap.report(), counts, output)
}

/// Does an operation that wants no pause before it.
fn act_behind(heap: &mut LargeHeap, op: LargeOp) -> LargeReply
    requires made { heap.old.made < 2 ^ 32 - 1 }
    requires op { MayBeCalled heap.old.space.limits.registers op }
    requires ready { (h : List LargeItem) × WantsNoPause heap.old h op }
    ensures { (h : List LargeItem) → WantsNoPause heap.old h op → IsReplied heap.old heap.new h op result }
{
    match heap.act(op) {
        Acted::Replied(reply) => reply,
        Acted::Room | Acted::Log => unreachable!(),
    }
}

/// Makes a pause that an operation wants, prints its report, and does the operation behind it.
fn act_after_pause<O: Sink>(
    heap: &mut LargeHeap,
    op: LargeOp,
    collect: bool,
    replies: &Listed<LargeReply>,
    counts: bool,
    output: &mut O,
) -> Result<LargeReply, WriteError>
    requires op { MayBeCalled SCRIPT_REGISTERS op }
    requires wants { SomeWantsPause counts op collect heap.old (O.written output.old) replies.now.items }
    ensures ok { IfOk result (λ reply. (task : LargeTask) → task.counts ≡ counts → (rest : List LargeOpOf) (h : List LargeItem) → IsPlaying task (op ∷ rest) heap.old (O.written output.old) replies.now.items h
        → WantsPause heap.old h op collect → (k : List LargeItem) × HasCome task op rest reply heap.new (O.written output.new) replies.now.items k) }
    ensures err { OnErr result ((task : LargeTask) → task.counts ≡ counts → (rest : List LargeOpOf) (h : List LargeItem) → IsPlaying task (op ∷ rest) heap.old (O.written output.old) replies.now.items h
        → WantsPause heap.old h op collect → IsCutEarly task (O.written output.new)) }
    ensures faults { O.faults output.old ≤ O.faults output.new }
    ensures cause { result ≡ Err WriteError.Fault → Rose (O.faults output.old) (O.faults output.new) }
{
    pause(heap, collect, counts, output)?;
    Ok(act_behind(heap, op))
}

/// Does an operation: after a pause that collects where it finds no room without one, and behind a plain one where it finds the log full.
fn act<O: Sink>(
    heap: &mut LargeHeap,
    op: LargeOp,
    replies: &Listed<LargeReply>,
    counts: bool,
    output: &mut O,
) -> Result<LargeReply, WriteError>
    requires op { MayBeCalled SCRIPT_REGISTERS op }
    requires playing { SomeIsPlaying counts op heap.old (O.written output.old) replies.now.items }
    ensures ok { IfOk result (λ reply. (task : LargeTask) → task.counts ≡ counts → (rest : List LargeOpOf) (h : List LargeItem) → IsPlaying task (op ∷ rest) heap.old (O.written output.old) replies.now.items h
        → (k : List LargeItem) × HasCome task op rest reply heap.new (O.written output.new) replies.now.items k) }
    ensures err { OnErr result ((task : LargeTask) → task.counts ≡ counts → (rest : List LargeOpOf) (h : List LargeItem) → IsPlaying task (op ∷ rest) heap.old (O.written output.old) replies.now.items h
        → IsCutEarly task (O.written output.new)) }
    ensures faults { O.faults output.old ≤ O.faults output.new }
    ensures cause { result ≡ Err WriteError.Fault → Rose (O.faults output.old) (O.faults output.new) }
{
    match heap.act(op) {
        Acted::Replied(reply) => Ok(reply),
        Acted::Room => act_after_pause(heap, op, true, replies, counts, output),
        Acted::Log => act_after_pause(heap, op, false, replies, counts, output),
    }
}

/// Whether an operation asks for a pause, and whether that collects.
fn asked_by(op: LargeOp) -> Option<bool>
    ensures { result ≡ asking.asked_by op }
{
    match op {
        LargeOp::Small(Op::Pause) => Some(false),
        LargeOp::Small(Op::Collect | Op::End) => Some(true),
        _ => None,
    }
}

/// Plays one operation: does it, keeps its reply, and makes the pause that it asks for.
fn play_one<O: Sink>(
    heap: &mut LargeHeap,
    op: LargeOp,
    replies: &mut Listed<LargeReply>,
    counts: bool,
    output: &mut O,
) -> Result<(), WriteError>
    requires op { MayBeCalled SCRIPT_REGISTERS op }
    requires room { length replies.old.items < replies.old.room }
    requires playing { SomeIsPlaying counts op heap.old (O.written output.old) replies.old.items }
    ensures ok { OnOk result ((task : LargeTask) → task.counts ≡ counts → (rest : List LargeOpOf) (h : List LargeItem) → IsPlaying task (op ∷ rest) heap.old (O.written output.old) replies.old.items h
        → (k : List LargeItem) × IsPlaying task rest heap.new (O.written output.new) replies.new.items k) }
    ensures kept { OnOk result ((replies.new.room ≡ replies.old.room) × (length replies.new.items ≡ length replies.old.items + 1)) }
    ensures err { OnErr result ((task : LargeTask) → task.counts ≡ counts → (rest : List LargeOpOf) (h : List LargeItem) → IsPlaying task (op ∷ rest) heap.old (O.written output.old) replies.old.items h
        → IsCutEarly task (O.written output.new)) }
    ensures faults { O.faults output.old ≤ O.faults output.new }
    ensures cause { result ≡ Err WriteError.Fault → Rose (O.faults output.old) (O.faults output.new) }
{
    let reply = act(heap, op, replies, counts, output)?;
    replies.push(reply);
    match asked_by(op) {
        None => Ok(()),
        Some(collect) => pause(heap, collect, counts, output),
    }
}

/// Plays the operations of a script and its end, and prints the reports of the pauses.
pub(crate) fn play_all<O: Sink>(
    heap: &mut LargeHeap,
    operations: &[LargeOp],
    replies: &mut Listed<LargeReply>,
    counts: bool,
    output: &mut O,
) -> Result<(), WriteError>
    requires script { IsLargeScript operations.now }
    requires room { length operations.now + 1 ≤ replies.old.room }
    requires none { replies.old.items ≡ [] }
    requires playing { (task : LargeTask) × (task.counts ≡ counts) × (task.operations ≡ operations.now) × IsPlaying task (with_end operations.now) heap.old (O.written output.old) [] [] }
    ensures ok { OnOk result ((task : LargeTask) → task.counts ≡ counts → task.operations ≡ operations.now → IsPlaying task (with_end operations.now) heap.old (O.written output.old) [] []
        → (k : List LargeItem) × IsPlaying task [] heap.new (O.written output.new) replies.new.items k) }
    ensures err { OnErr result ((task : LargeTask) → task.counts ≡ counts → task.operations ≡ operations.now → IsPlaying task (with_end operations.now) heap.old (O.written output.old) [] []
        → IsCutEarly task (O.written output.new)) }
    ensures faults { O.faults output.old ≤ O.faults output.new }
    ensures cause { result ≡ Err WriteError.Fault → Rose (O.faults output.old) (O.faults output.new) }
{
    for i in 0..operations.len() {
        play_one(heap, operations[i], replies, counts, output)?;
    }
    play_one(heap, LargeOp::Small(Op::End), replies, counts, output)
}
