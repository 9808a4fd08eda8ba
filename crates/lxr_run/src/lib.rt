//! The top call: from the words of a command line and the bytes of a script to the replies of its threads; and the public calls
//! and types of a run.
//!
//! The threads of a script go on in epochs, on threads of the machine or, replayed, as a generator draws which of them makes the next
//! step. Between two epochs stands a pause, which reclaims by reference counts. The contract of [`lxr`] speaks of the model alone: the
//! text that was written is that of one legal history of the script, and the space is what that history leaves. One clause alone,
//! `replayed`, speaks of steps: with the option `replay` the history is the one that its generator draws.
//!
//! A script with large objects is that of one thread, and is played by the calls of a [`LargeHeap`], in which nothing runs beside the
//! caller. A finished output is judged by the graph alone, with no heap.
//!
//! While a trace runs, tracers work beside mutators and decrementers. [`one_pause`] makes a pause of the kind that its [`Ask`] and
//! its [`Pace`] lead to: a plain one, one that begins or ends a trace, or one that collects.
#![tactic(auto)]

ghost use Rattle.std.specs.Prelude.{◌≡◌, ◌⊎◌, ℕ, [], List, map};
ghost use Rattle.lxr_case.specs.Reading.{IsCaseOf};
ghost use Rattle.lxr_case.specs.declared.Case.{Case as CaseOf};
ghost use Rattle.lxr_text_script.specs.declared.fault.ScriptFault.{ScriptFault};
ghost use Rattle.lxr_text_stream.specs.Streams.{TakesSome};
ghost use Rattle.lxr_words.specs.Options.{reading_of as words_read};
ghost use Rattle.lxr_words.specs.declared.Options.{Options as OptionsOf};
ghost use Rattle.lxr_run.specs.Codes.{code_of};
ghost use Rattle.lxr_run.specs.Outcome.{ComesOrFails, HasEnded};
ghost use Rattle.lxr_run.specs.Replayed.{IsReplayed};
ghost use Rattle.lxr_run.specs.Runs.{run_of, stream, watcher};
ghost use Rattle.lxr_run.specs.Script.{AsksForThreads, AsksToJudge, AsksToRead, IsNoScriptFor};

mod attempt;
mod judging;
mod refusal;
mod script;

use attempt::{Stop, attempt};
pub use lxr_heap::LargeHeap;
use lxr_image::Space;
pub use lxr_one_pause::{Ask, Pace, one_pause};
pub use lxr_run_replay::{order_epoch, replay_epoch};
pub use lxr_run_threads::run_epoch;
pub use lxr_serve::{Served, serve_waiting};
pub use lxr_sights::{Gate, Open, Seen, Unseen, Watch};
use lxr_text_stream::{Sink, Source};
pub use lxr_words::{Command, Options, WordError, WordFault, read_words};
pub use refusal::{Refusal, tell};
use std::alloc::Global;
use std::sync::Wait;
use std::thread::Threads;

/// How a run ended.
#[derive(Clone, Copy, Debug, PartialEq, Eq)]
pub enum Status {
    /// The text was written whole.
    Done,
    /// The words of the command line aren't a command with its options.
    Words,
    /// The input is no script, or no case.
    Script,
    /// Reading failed.
    ReadFault,
    /// Writing failed.
    WriteFault,
    /// Memory ran out.
    Memory,
}

impl Status {
    /// The program's exit status.
    pub fn code(self) -> u8
        ensures { result ≡ code_of self }
    {
        match self {
            Status::Done => 0,
            Status::Words => 1,
            Status::Script => 2,
            Status::ReadFault => 3,
            Status::WriteFault => 4,
            Status::Memory => 5,
        }
    }
}

/// Does what the words of a command line ask for: runs a script in `space`, prints to `output` what its command tells of it, and tells a
/// refusal in one line on `errors`.
///
/// The work is done in this order: the words; the input and its script, or for `load` the script that its seed makes; the opening of
/// the space and of its threads with all the memory that they take; the epochs with their pauses; and what is printed last. `run`
/// prints the reports of the pauses as they come and then the replies, thread by thread; `map` these and the heap; `order` these and in
/// which order calls and pauses stood; `load` nine sums.
/// `large` plays a script with large objects on a heap of one thread, and prints as `run` does; there are no epochs, neither the gate nor
/// the watch is called, and where it isn't done it leaves no space. `judge` reads a case, prints the verdict on it in one line, and leaves
/// no space. Without the option `replay` epochs run on threads of the machine, which `rt` starts; with `stand` any of them lets any actor
/// go on, and the run ends where the calls of the channel between them do. With `replay` a generator draws who makes each
/// step, and the same words and input lead to the same output. The gate is called before each operation, and the watch looks at the
/// space right before and right after each pause.
///
/// At each status but those of success and of a fault of the output, one line on `errors` says why, and nothing else is written there.
/// Where `errors` fails or wants memory at that line, the status is that of a fault of writing or of memory. Want of memory is the one
/// outcome that no clause ties to a cause.
pub fn lxr<R: Threads + Wait + Sync, I: Source, O: Sink, E: Sink, G: Gate, W: Watch>(
    rt: &R,
    alloc: Global,
    words: &[&str],
    input: &mut I,
    output: &mut O,
    errors: &mut E,
    gate: &G,
    watch: &mut W,
    space: &mut Space,
) -> Status
    requires { space.old.words ≡ [] }
    // What each status says.
    ensures ended { HasEnded (run_of (map (λ word. word.now) words.now) (stream I.left I.faults input.old input.new) (stream O.written O.faults output.old output.new) (watcher W.seen watch.old watch.new) space.new) (stream E.written E.faults errors.old errors.new) result }

    // Where threads run, the history whose text was written is one that epochs and pauses made; with `--replay`, the one that its generator draws.
    ensures replayed { result ≡ Status.Done → AsksForThreads (map (λ word. word.now) words.now) → IsReplayed (run_of (map (λ word. word.now) words.now) (stream I.left I.faults input.old input.new) (stream O.written O.faults output.old output.new) (watcher W.seen watch.old watch.new) space.new) }

    // Wrong words, wrong scripts and wrong cases are refused, each of them.
    ensures words { (wrong : WordFault) → words_read (map (λ word. word.now) words.now) ≡ Err wrong → ComesOrFails Status.Words (stream E.written E.faults errors.old errors.new) result }
    ensures script { (options : OptionsOf) (bytes : List ℕ) (wrong : ScriptFault) → words_read (map (λ word. word.now) words.now) ≡ Ok options → I.left input.old ≡ Some bytes → IsNoScriptFor options.command bytes wrong
        → (result ≡ Status.ReadFault) ⊎ ComesOrFails Status.Script (stream E.written E.faults errors.old errors.new) result }
    ensures cases { (bytes : List ℕ) → AsksToJudge (map (λ word. word.now) words.now) → I.left input.old ≡ Some bytes → ((case : CaseOf) → ¬ IsCaseOf bytes case)
        → (result ≡ Status.ReadFault) ⊎ ComesOrFails Status.Script (stream E.written E.faults errors.old errors.new) result }

    // What is read is read from the front, and nothing where the words are refused or ask for a script that is made.
    ensures taken { TakesSome (I.left input.old) (I.left input.new) }
    ensures unread { ¬ AsksToRead (map (λ word. word.now) words.now) → input.new ≡ input.old }
{
    match attempt(rt, alloc, words, input, output, gate, watch, space) {
        Ok(()) => Status::Done,
        Err(Stop::Output) => Status::WriteFault,
        Err(Stop::Refused(refusal)) => tell(refusal, errors),
    }
}
