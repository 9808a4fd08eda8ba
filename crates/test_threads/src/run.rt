//! Passes in threads: each gets so many turns.
ghost use Rattle.std.specs.Prelude.{◌≡◌, ◌<◌, length, map, All, IfOk};
ghost use Rattle.lxr_actor.specs.Run.{core_of, AlwaysFits};
ghost use Rattle.lxr_shared_passes.specs.Passing.{IsSamePass};
ghost use Rattle.test_threads.specs.Serving.{IsServed, Ran};

use lxr_actor::Actor;
use lxr_shared_passes::{ActorPass, PassTable, close_passes, open_passes};
use lxr_tables::PlainWords;
use std::alloc::{AllocError, Global};
use std::thread;
use std::thread::Threads;

/// Runs an epoch in at most so many threads. Each actor is finished at the end or has done at least so many steps.
pub fn run_passes<A: Actor + Drop + Send + Sync, R: Threads + Sync>(
    rt: &R,
    alloc: Global,
    words: PlainWords,
    actors: Vec<A>,
    threads: usize,
    rounds: usize,
) -> Result<(PlainWords, Vec<A>), AllocError>
    requires threads { 0 < threads }
    requires words { 0 < length words }
    requires fits { AlwaysFits A.machine (core_of words actors.items) }
    ensures { IfOk result (λ r. Ran A.machine rounds (core_of words actors.items) r.0 r.1.items) }
{
    let (epoch, mut passes) = open_passes(alloc, words, actors)?;
    all_turns(rt, &epoch, passes.as_mut_slice(), threads, rounds);
    Ok(close_passes(epoch, passes))
}

/// Gives each pass so many turns.
fn all_turns<A: Actor + Send + Sync, R: Threads + Sync>(
    rt: &R,
    epoch: &PassTable<A>,
    passes: &mut [ActorPass<A>],
    threads: usize,
    rounds: usize,
)
    requires threads { 0 < threads }
    requires epoch { All (λ p. p.epoch ≡ epoch.now.id) passes.old }
    ensures epoch { All (λ p. p.epoch ≡ epoch.now.id) passes.new }
    ensures numbers { map (λ p. p.number) passes.new ≡ map (λ p. p.number) passes.old }
    ensures served { All (λ p. IsServed A.machine rounds p) passes.new }
{
    thread::for_each_mut(
        rt,
        passes,
        threads,
        &|_, pass: &mut ActorPass<A>|
            requires { pass.old.epoch ≡ epoch.now.id }
            ensures { (pass.new.epoch ≡ pass.old.epoch) × (pass.new.number ≡ pass.old.number) × IsServed A.machine rounds pass.new }
        { turns(epoch, pass, rounds) },
    );
}

/// Gives one pass so many turns.
fn turns<A: Actor>(epoch: &PassTable<A>, pass: &mut ActorPass<A>, rounds: usize)
    requires { pass.old.epoch ≡ epoch.now.id }
    ensures pass { IsSamePass pass.old pass.new }
    ensures served { IsServed A.machine rounds pass.new }
{
    for _round in 0..rounds {
        pass.turn(epoch);
    }
}
