//! Calls whose actors always fit: repeaters need word 0.
ghost use Rattle.std.specs.Prelude.{◌<◌, length, IfOk};
ghost use Rattle.lxr_actor.specs.Run.{core_of};
ghost use Rattle.test_threads.specs.Repeating.{repeating};
ghost use Rattle.test_threads.specs.Serving.{Ran};

use crate::repeater::Repeater;
use crate::run::run_passes;
use lxr_tables::PlainWords;
use std::alloc::{AllocError, Global};
use std::thread::Threads;

/// Runs an epoch of repeaters.
pub fn run_repeaters<R: Threads + Sync>(
    rt: &R,
    alloc: Global,
    words: PlainWords,
    actors: Vec<Repeater>,
    threads: usize,
    rounds: usize,
) -> Result<(PlainWords, Vec<Repeater>), AllocError>
    requires threads { 0 < threads }
    requires words { 0 < length words }
    ensures { IfOk result (λ r. Ran repeating rounds (core_of words actors.items) r.0 r.1.items) }
{
    run_passes(rt, alloc, words, actors, threads, rounds)
}
