//! The loop over epochs.
ghost use Rattle.std.specs.Prelude.{◌≡◌, ◌≤◌, [], IfErr, IfOk, OnErr, OnOk, length};
ghost use Rattle.lxr_actor.specs.Run.{core_of};
ghost use Rattle.lxr_run_replay.specs.Replaying.{CanBeReplayed};
ghost use Rattle.lxr_text_stream.specs.Streams.{Rose};
ghost use Rattle.lxr_words.specs.Ranges.{AreInRange};
ghost use Rattle.lxr_run_threads.specs.Running.{CanRun, HasRun};
ghost use Rattle.lxr_run_loop.specs.Tasks.{RunTask};
ghost use Rattle.lxr_rounds_invariant.specs.LoopInvariant.{pace_of};
ghost use Rattle.lxr_run_history.specs.Run.{plan_of};
ghost use Rattle.lxr_run_loop.specs.Drawing.{GoesOnInOrder, ReplaysInOrder};
ghost use Rattle.lxr_run_loop.specs.Progress.{CanRunEpoch, HasMadeRound, IsComplete, IsStoppedUnderWay, IsUnderWay, RunsEpoch, SomeIsUnderWay};

use crate::course::Course;
use crate::order::Order;
use lxr_core::{AnyActor, close_epoch, open_epoch};
use lxr_image::Space;
use lxr_one_pause::Pace;
use lxr_placing::ToList;
use lxr_rounds::follow_epoch;
use lxr_run_threads::run_epoch;
use lxr_sights::{Gate, Watch};
use lxr_text_stream::{Sink, WriteError};
use lxr_words::Options;
use std::alloc::{AllocError, Global};
use std::mem;
use std::sync::Wait;
use std::thread::Threads;

/// Lets all threads go on until each is through with the epoch: by the draws of the generator where there is one, which goes on with
/// them, and else on threads of the machine. Afterwards the space is at a safepoint before a pause. Where memory runs out, the space
/// and the actors are gone.
fn make_epoch<R: Threads + Wait + Sync, G: Gate>(
    rt: &R,
    alloc: Global,
    space: &mut Space,
    actors: &mut Vec<AnyActor>,
    generator: &mut Option<u64>,
    order: &mut Order,
    options: &Options,
    gate: &G,
) -> Result<(), AllocError>
    requires range { AreInRange options.now }
    requires may { CanRunEpoch options.now space.old actors.old.items }
    ensures ok { OnOk result (RunsEpoch options.now space.old actors.old.items generator.old order.old space.new actors.new.items generator.new order.new) }
    ensures err { OnErr result (space.new.words ≡ []) }
{
    open_epoch(space, actors);
    go_on(rt, alloc, space, actors, generator, order, options, gate)?;
    close_epoch(space, actors);
    Ok(())
}

/// Lets the actors of an opened epoch make their steps, until all mutators are through with it and all actors rest. Where memory
/// runs out, the space and the actors are gone.
fn go_on<R: Threads + Wait + Sync, G: Gate>(
    rt: &R,
    alloc: Global,
    space: &mut Space,
    actors: &mut Vec<AnyActor>,
    generator: &mut Option<u64>,
    order: &mut Order,
    options: &Options,
    gate: &G,
) -> Result<(), AllocError>
    requires may { CanRun options.now space.old actors.old.items }
    ensures ok { OnOk result (GoesOnInOrder space.old space.new actors.old.items actors.new.items generator.old generator.new order.old order.new) }
    ensures err { OnErr result (space.new.words ≡ []) }
{
    match generator {
        Some(x) => go_on_by_draws(alloc, space, actors, x, order, gate),
        None => {
            order.give_up();
            go_on_in_threads(rt, alloc, space, actors, options, gate)
        }
    }
}

/// Replays an epoch, and notes its calls. Where memory for these runs out, the space is gone.
fn go_on_by_draws<G: Gate>(
    alloc: Global,
    space: &mut Space,
    actors: &mut [AnyActor],
    x: &mut u64,
    order: &mut Order,
    gate: &G,
) -> Result<(), AllocError>
    requires few { length actors.old ≤ 32 }
    requires replayable { CanBeReplayed (core_of space.old.words actors.old) }
    ensures ok { OnOk result (ReplaysInOrder space.old space.new actors.old actors.new x.old x.new order.old order.new) }
    ensures err { OnErr result (space.new.words ≡ []) }
{
    match order.replay(alloc, space, actors, x, gate) {
        Ok(()) => Ok(()),
        Err(error) => {
            *space = Space::empty(alloc);
            Err(error)
        }
    }
}

/// Moves the space and the actors to the threads of an epoch, and back. Where memory runs out, they are gone.
fn go_on_in_threads<R: Threads + Wait + Sync, G: Gate>(
    rt: &R,
    alloc: Global,
    space: &mut Space,
    actors: &mut Vec<AnyActor>,
    options: &Options,
    gate: &G,
) -> Result<(), AllocError>
    requires may { CanRun options.now space.old actors.old.items }
    ensures ok { OnOk result (HasRun space.old space.new actors.old.items actors.new.items) }
    ensures err { OnErr result (space.new.words ≡ []) }
{
    let whole = mem::replace(space, Space::empty(alloc));
    let all = mem::replace(actors, Vec::new(alloc));
    let (whole, all) = run_epoch(rt, alloc, whole, all, options, gate)?;
    *space = whole;
    *actors = all;
    Ok(())
}

/// One round: an epoch and the pause behind it. Where not all threads have ended then, waiting `new`s are served or refused,
/// with more pauses where they need room, and the next epoch is prepared. Whether all have.
fn make_round<R: Threads + Wait + Sync, G: Gate, W: Watch, O: Sink>(
    rt: &R,
    alloc: Global,
    space: &mut Space,
    actors: &mut Vec<AnyActor>,
    course: &mut Course,
    options: Options,
    gate: &G,
    watch: &mut W,
    output: &mut O,
) -> Result<bool, WriteError>
    requires range { AreInRange options }
    requires under_way { SomeIsUnderWay options space.old (O.written output.old) (W.seen watch.old) actors.old.items course.old }
    ensures ok { IfOk result (λ ended. (task : RunTask) → task.options ≡ options → IsUnderWay task space.old (O.written output.old) (W.seen watch.old) actors.old.items course.old
        → HasMadeRound task space.new (O.written output.new) (W.seen watch.new) actors.old.items actors.new.items course.new ended) }
    ensures err { IfErr result (λ why. IsStoppedUnderWay why options space.old (O.written output.old) (W.seen watch.old) actors.old.items course.old space.new (O.written output.new) (W.seen watch.new)) }
    ensures faults { O.faults output.old ≤ O.faults output.new }
    ensures cause { result ≡ Err WriteError.Fault → Rose (O.faults output.old) (O.faults output.new) }
{
    let Ok(()) = make_epoch(
        rt,
        alloc,
        space,
        actors,
        &mut course.generator,
        &mut course.order,
        &options,
        gate,
    ) else {
        return Err(WriteError::Memory);
    };
    let mut teller = course.take_teller(options);
    let mut to_list = ToList::All;
    let followed = follow_epoch(
        space,
        actors,
        pace_of(options),
        false,
        &mut to_list,
        watch,
        &mut teller,
        output,
    );
    course.put_teller(teller);
    followed
}

/// When traces begin and end in a run with these options.
fn pace_of(options: Options) -> Pace
    ensures { result ≡ pace_of (plan_of options) }
{
    Pace {
        trace: options.trace,
        within: options.within,
    }
}

/// Runs the threads in a space that was just opened, epoch after epoch with a pause behind each, until all have ended.
pub(crate) fn run_threads<R: Threads + Wait + Sync, G: Gate, W: Watch, O: Sink>(
    rt: &R,
    alloc: Global,
    space: &mut Space,
    actors: &mut Vec<AnyActor>,
    course: &mut Course,
    options: Options,
    gate: &G,
    watch: &mut W,
    output: &mut O,
) -> Result<(), WriteError>
    requires range { AreInRange options }
    requires under_way { SomeIsUnderWay options space.old (O.written output.old) (W.seen watch.old) actors.old.items course.old }
    ensures ok { OnOk result ((task : RunTask) → task.options ≡ options → IsUnderWay task space.old (O.written output.old) (W.seen watch.old) actors.old.items course.old
        → IsComplete task space.new (O.written output.new) (W.seen watch.new) actors.new.items course.new) }
    ensures err { IfErr result (λ why. IsStoppedUnderWay why options space.old (O.written output.old) (W.seen watch.old) actors.old.items course.old space.new (O.written output.new) (W.seen watch.new)) }
    ensures faults { O.faults output.old ≤ O.faults output.new }
    ensures cause { result ≡ Err WriteError.Fault → Rose (O.faults output.old) (O.faults output.new) }
{
    let mut ended = false;
    while !ended {
        ended = make_round(
            rt, alloc, space, actors, course, options, gate, watch, output,
        )?;
    }
    Ok(())
}
