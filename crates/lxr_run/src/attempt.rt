//! What is done from the words to the end, but for the line that tells why it was refused.
ghost use Rattle.std.specs.Prelude.{◌≡◌, [], IfErr, OnOk, map};
ghost use Rattle.lxr_text_stream.specs.Streams.{TakesSome};
ghost use Rattle.lxr_run.specs.Outcome.{HasStopped, IsDone};
ghost use Rattle.lxr_run.specs.Replayed.{IsReplayed};
ghost use Rattle.lxr_run.specs.Runs.{run_of, stream, watcher};
ghost use Rattle.lxr_run.specs.Script.{AsksForThreads, AsksToRead};

use crate::judging::{print_verdict, verdict_on};
use crate::refusal::Refusal;
use crate::script::{AnyScript, script_for};
use lxr_image::Space;
use lxr_large_run::{open_large, play_large};
use lxr_run_loop::{open, run_and_print};
use lxr_sights::{Gate, Watch};
use lxr_text_stream::{Sink, Source, WriteError};
use lxr_words::{WordError, read_words};
use std::alloc::{AllocError, Global};
use std::sync::Wait;
use std::thread::Threads;

/// Why a run wasn't done.
#[derive(Clone, Copy, Debug, PartialEq, Eq)]
pub(crate) enum Stop {
    /// It was refused, which is told.
    Refused(Refusal),
    /// The output failed, and nothing is told.
    Output,
}

impl From<Refusal> for Stop {
    ghost use Rattle.lxr_run.specs.declared.attempt.Stop.TheVariants.{Refused};

    ghost from_gives = { λ why stop. stop ≡ Refused why };

    fn from(why: Refusal) -> Stop {
        Stop::Refused(why)
    }
}

impl From<WordError> for Stop {
    ghost use Rattle.lxr_run.specs.Causes.{refusal_of_words};
    ghost use Rattle.lxr_run.specs.declared.attempt.Stop.TheVariants.{Refused};

    ghost from_gives = { λ error stop. stop ≡ Refused (refusal_of_words error) };

    fn from(error: WordError) -> Stop {
        match error {
            WordError::Fault(fault) => Stop::Refused(Refusal::Words(fault)),
            WordError::Memory => Stop::Refused(Refusal::Memory),
        }
    }
}

impl From<AllocError> for Stop {
    ghost use Rattle.lxr_run.specs.declared.attempt.Stop.TheVariants.{Refused};
    ghost use Rattle.lxr_run.specs.declared.refusal.Refusal.TheVariants.{Memory};

    ghost from_gives = { λ _ stop. stop ≡ Refused Memory };

    fn from(_: AllocError) -> Stop {
        Stop::Refused(Refusal::Memory)
    }
}

impl From<WriteError> for Stop {
    ghost use Rattle.lxr_run.specs.Causes.{stop_of_write};

    ghost from_gives = { λ error stop. stop ≡ stop_of_write error };

    fn from(error: WriteError) -> Stop {
        match error {
            WriteError::Fault => Stop::Output,
            WriteError::Memory => Stop::Refused(Refusal::Memory),
        }
    }
}

/// Reads the words and then the script, opens a space for it and runs or plays it in that; or reads a case and judges it. Tells nothing of
/// a refusal.
pub(crate) fn attempt<R: Threads + Wait + Sync, I: Source, O: Sink, G: Gate, W: Watch>(
    rt: &R,
    alloc: Global,
    words: &[&str],
    input: &mut I,
    output: &mut O,
    gate: &G,
    watch: &mut W,
    space: &mut Space,
) -> Result<(), Stop>
    requires { space.old.words ≡ [] }
    ensures done { OnOk result (IsDone (run_of (map (λ word. word.now) words.now) (stream I.left I.faults input.old input.new) (stream O.written O.faults output.old output.new) (watcher W.seen watch.old watch.new) space.new)) }
    ensures replayed { OnOk result (AsksForThreads (map (λ word. word.now) words.now) → IsReplayed (run_of (map (λ word. word.now) words.now) (stream I.left I.faults input.old input.new) (stream O.written O.faults output.old output.new) (watcher W.seen watch.old watch.new) space.new)) }
    ensures stopped { IfErr result (λ why. HasStopped why (run_of (map (λ word. word.now) words.now) (stream I.left I.faults input.old input.new) (stream O.written O.faults output.old output.new) (watcher W.seen watch.old watch.new) space.new)) }
    ensures taken { TakesSome (I.left input.old) (I.left input.new) }
    ensures unread { ¬ AsksToRead (map (λ word. word.now) words.now) → input.new ≡ input.old }
{
    let options = read_words(alloc, words)?;
    let script = script_for(alloc, options, input)?;
    match script {
        AnyScript::Threads(lists) => {
            let actors = open(alloc, space, options, lists)?;
            run_and_print(rt, alloc, space, actors, options, gate, watch, output)?;
            Ok(())
        }
        AnyScript::Large(operations) => {
            let run = open_large(alloc, options.blocks, options.bodies, operations)?;
            *space = play_large(run, options.counts, output)?;
            Ok(())
        }
        AnyScript::Case(case) => {
            let verdict = verdict_on(alloc, &case, options)?;
            print_verdict(verdict, output)?;
            Ok(())
        }
    }
}
