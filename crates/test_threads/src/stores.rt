//! Stores of many threads to one reference: storers as passes over one atomic table.
ghost use Rattle.std.specs.Prelude.{◌≡◌, ◌<◌, IfOk, length};
ghost use Rattle.lxr_actor.specs.Run.{core_of};
ghost use Rattle.lxr_barrier.specs.Storers.{storer_machine};
ghost use Rattle.lxr_barrier.specs.Unlogged.{HaveWords};
ghost use Rattle.test_threads.specs.Serving.{Ran};

use crate::run::run_passes;
use lxr_barrier::Storer;
use lxr_tables::PlainWords;
use std::alloc::{AllocError, Global};
use std::thread::Threads;

/// Runs an epoch of storers in at most so many threads. Each storer does its store, which is its one unit.
pub fn run_storers<R: Threads + Sync>(
    rt: &R,
    alloc: Global,
    words: PlainWords,
    storers: Vec<Storer>,
    threads: usize,
) -> Result<(PlainWords, Vec<Storer>), AllocError>
    requires threads { 0 < threads }
    requires words { 0 < length words }
    requires have { HaveWords words storers.items }
    ensures { IfOk result (λ r. Ran storer_machine 1 (core_of words storers.items) r.0 r.1.items) }
{
    run_passes(rt, alloc, words, storers, threads, 1)
}

#[cfg(test)]
mod tests;
