//! An epoch on running threads.
//!
//! The words of the space become one atomic table, on which each actor steps by a pass. Threads' passes are dealt to workers,
//! thread t's to worker (t - 1) modulo how many there are, and each worker gets one decrementer and one tracer. In one round
//! a worker calls the gate and makes one turn for each of its mutators that isn't finished, and then one turn for each of its
//! helpers that has something to do. Every worker makes one round, and further ones until its mutators are finished.
//!
//! Helpers share their work by hints, which are stolen: a helper with more than one place spares one, and one that has found
//! nothing is offered a place that another has spared. No claim rests on a hint; what is left is found by bits, in the pause.
//!
//! With the option `stand` no passes are dealt: all go through one channel, from which any worker takes the next, and helpers share nothing.
//!
//! `run_epoch` is the whole. Its parts are public for whoever measures helpers alone: dealing passes, a worker's rounds, and gathering.
#![tactic(auto)]

ghost use Rattle.std.specs.Prelude.{◌≡◌, All, IfOk, vec_len};
ghost use Rattle.lxr_core.specs.Actors.{mutators_in};
ghost use Rattle.lxr_run_replay.specs.Replaying.{CanBeReplayed};
ghost use Rattle.lxr_sights.specs.Gates.{HavePassed};
ghost use Rattle.lxr_run_threads.specs.Dealing.{numbers_from, numbers_of};
ghost use Rattle.lxr_run_threads.specs.Running.{CanRun, HasRun, HaveHelpers, OpenedEpochsCanRun};
ghost use Rattle.lxr_run_threads.specs.Working.{HaveWorked, IsPassOf};

mod dealing;
mod helping;
mod standing;
mod workers;

use crate::standing::let_standing_work;
use crate::workers::let_dealt_work;
pub use dealing::{Dealing, Hand};
pub use helping::{Hints, make_hints};
use lxr_core::AnyActor;
use lxr_image::Space;
use lxr_shared::{Pass, close_shared, open_shared};
use lxr_shared_passes::PassTable;
use lxr_sights::Gate;
use lxr_words::Options;
use std::alloc::{AllocError, Global};
use std::sync::Wait;
use std::thread::Threads;
pub use workers::work;

/// Runs an epoch, between its opening and its closing, on as many threads of the machine as there are workers. With the option `stand` any of
/// them lets any pass go on, as long as there is memory for that; else each has passes of its own. Where a thread can't be started its work is
/// done by the caller. Mutators gain replies to operations alone that the gate has let pass. At a refusal the space and the actors are gone.
pub fn run_epoch<R: Threads + Wait + Sync, G: Gate>(
    rt: &R,
    alloc: Global,
    space: Space,
    actors: Vec<AnyActor>,
    options: &Options,
    gate: &G,
) -> Result<(Space, Vec<AnyActor>), AllocError>
    requires { CanRun options.now space actors.items }
    ensures run { IfOk result (λ r. HasRun space r.0 actors.items r.1.items) }
    ensures passed { IfOk result (λ r. HavePassed (G.passed gate.now) (mutators_in actors.items) (mutators_in r.1.items)) }
{
    let (epoch, passes) = open_shared(alloc, space, actors)?;
    let passes = let_all_work(rt, alloc, epoch.table(), passes, options, gate)?;
    Ok(close_shared(epoch, passes))
}

/// Lets all passes of an epoch work until each is through with it.
fn let_all_work<R: Threads + Wait + Sync, G: Gate>(
    rt: &R,
    alloc: Global,
    table: &PassTable<AnyActor>,
    passes: Vec<Pass>,
    options: &Options,
    gate: &G,
) -> Result<Vec<Pass>, AllocError>
    requires can { CanBeReplayed table.now.opening }
    requires passes { All (IsPassOf table.now) passes.items }
    requires order { numbers_of passes.items ≡ numbers_from 0 (vec_len passes) }
    requires helpers { HaveHelpers options.now (vec_len passes) }
    ensures { IfOk result (λ after. HaveWorked table.now (G.passed gate.now) passes.items after.items) }
{
    if !options.stand {
        return let_dealt_work(rt, alloc, table, passes, options.workers, gate);
    }
    match let_standing_work(rt, alloc, table, passes, options, gate) {
        Ok(passes) => Ok(passes),
        Err(passes) => let_dealt_work(rt, alloc, table, passes, options.workers, gate),
    }
}

/// An epoch that was opened, and whose actors have as many helpers of each kind as there are workers, can run, and so can be replayed.
pub fn opened_epochs_can_run()
    ensures { OpenedEpochsCanRun }
{}
