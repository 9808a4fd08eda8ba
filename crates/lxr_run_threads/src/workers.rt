//! Workers: each lets its mutators and its helpers take turns.
ghost use Rattle.std.specs.Prelude.{◌≡◌, ℕ, ◌+◌, ◌*◌, ◌≤◌, List, IfOk, IsSome, false, map, All, vec_len};
ghost use Rattle.std.specs.Thread.{IsSync};
ghost use Rattle.lxr_actor.specs.Run.{one_if};
ghost use Rattle.lxr_core.specs.Actors.{any_machine};
ghost use Rattle.lxr_shared_passes.specs.Passing.{Turned};
ghost use Rattle.lxr_shared.specs.Ends.{GoesOnByEnd};
ghost use Rattle.lxr_run_replay.specs.Replaying.{CanBeReplayed};
ghost use Rattle.lxr_run_threads.specs.Dealing.{numbers_from, numbers_of};
ghost use Rattle.lxr_run_threads.specs.Keeping.{KeepsOthers};
ghost use Rattle.lxr_run_threads.specs.Working.{HasPassed, HasServed, HaveWorked, IsDoneOf, IsPassOf, goes_on, is_finished, is_helper, work_in, work_of};

use crate::dealing::{Dealing, Hand};
use crate::helping::{Hints, let_help, make_hints};
use lxr_actor::Actor;
use lxr_core::AnyActor;
use lxr_run_replay::call_gate;
use lxr_shared::Pass;
use lxr_shared_passes::PassTable;
use lxr_sights::Gate;
use std::alloc::{AllocError, Global};
use std::thread;
use std::thread::Threads;

/// How many helpers each worker has. Their passes stand before those of its mutators.
const HELPERS: usize = 2;

/// Lets all passes of an epoch work, dealt to as many workers.
pub(crate) fn let_dealt_work<R: Threads + Sync, G: Gate>(
    rt: &R,
    alloc: Global,
    table: &PassTable<AnyActor>,
    mut passes: Vec<Pass>,
    workers: u8,
    gate: &G,
) -> Result<Vec<Pass>, AllocError>
    requires can { CanBeReplayed table.now.opening }
    requires passes { All (IsPassOf table.now) passes.items }
    requires order { numbers_of passes.items ≡ numbers_from 0 (vec_len passes) }
    requires workers { (1 ≤ workers) × (workers ≤ 8) }
    requires helpers { 2 * workers ≤ vec_len passes }
    ensures { IfOk result (λ after. HaveWorked table.now (G.passed gate.now) passes.items after.items) }
{
    let hints = make_hints(alloc, workers)?;
    let count = passes.len();
    let workers = usize::from(workers);
    let dealing = Dealing {
        mutators: count - 2 * workers,
        workers,
    };
    let mut hands = dealing.deal(alloc, &mut passes, hints)?;
    let_work(rt, table, hands.as_mut_slice(), gate);
    dealing.gather(hands.as_mut_slice(), count, &mut passes);
    Ok(passes)
}

/// Lets each worker work, the last one on this thread and each other on a thread that is started from this one, where one can be
/// started.
///
/// A thread that another one starts as soon as it runs may be left on its maker's processor for the whole of an epoch.
#[cycle(hands)]
fn let_work<R: Threads + Sync, G: Gate>(
    rt: &R,
    table: &PassTable<AnyActor>,
    hands: &mut [Hand],
    gate: &G,
)
    requires can { CanBeReplayed table.now.opening }
    requires passes { All (λ hand. All (IsPassOf table.now) hand.passes.items) hands.old }
    ensures passes { All (λ hand. All (IsDoneOf table.now) hand.passes.items) hands.new }
    ensures passed { All (λ hand. All (HasPassed (G.passed gate.now)) hand.passes.items) hands.old → All (λ hand. All (HasPassed (G.passed gate.now)) hand.passes.items) hands.new }
    ensures numbers { map (λ hand. numbers_of hand.passes.items) hands.new ≡ map (λ hand. numbers_of hand.passes.items) hands.old }
{
    let Some((hand, others)) = hands.split_first_mut() else {
        return;
    };
    if others.is_empty() {
        work(table, &mut hand.passes, &mut hand.hints, gate);
    } else {
        let_both_work(rt, table, gate, hand, others);
    }
}

/// Lets one worker work on a thread of its own, and the others from this one.
#[cycle(hands)]
fn let_both_work<R: Threads + Sync, G: Gate>(
    rt: &R,
    table: &PassTable<AnyActor>,
    gate: &G,
    hand: &mut Hand,
    others: &mut [Hand],
)
    requires can { CanBeReplayed table.now.opening }
    requires pass { All (IsPassOf table.now) hand.old.passes.items }
    requires passes { All (λ hand. All (IsPassOf table.now) hand.passes.items) others.old }
    ensures pass { All (IsDoneOf table.now) hand.new.passes.items }
    ensures passes { All (λ hand. All (IsDoneOf table.now) hand.passes.items) others.new }
    ensures passed { All (HasPassed (G.passed gate.now)) hand.old.passes.items → All (HasPassed (G.passed gate.now)) hand.new.passes.items }
    ensures all_passed { All (λ hand. All (HasPassed (G.passed gate.now)) hand.passes.items) others.old → All (λ hand. All (HasPassed (G.passed gate.now)) hand.passes.items) others.new }
    ensures number { numbers_of hand.new.passes.items ≡ numbers_of hand.old.passes.items }
    ensures numbers { map (λ hand. numbers_of hand.passes.items) others.new ≡ map (λ hand. numbers_of hand.passes.items) others.old }
{
    thread::join_mut(
        rt,
        &mut ||
            requires { CanBeReplayed table.now.opening × All (IsPassOf table.now) hand.now.passes.items }
            ensures { All (IsDoneOf table.entry.now) hand.exit.now.passes.items × (numbers_of hand.exit.now.passes.items ≡ numbers_of hand.entry.now.passes.items) × (All (HasPassed (G.passed gate.entry.now)) hand.entry.now.passes.items → All (HasPassed (G.passed gate.entry.now)) hand.exit.now.passes.items) }
        { work(table, &mut hand.passes, &mut hand.hints, gate) },
        &mut ||
            requires { IsSync R.row × CanBeReplayed table.now.opening × All (λ hand. All (IsPassOf table.now) hand.passes.items) others.now }
            ensures { All (λ hand. All (IsDoneOf table.entry.now) hand.passes.items) others.exit.now × (map (λ hand. numbers_of hand.passes.items) others.exit.now ≡ map (λ hand. numbers_of hand.passes.items) others.entry.now) × (All (λ hand. All (HasPassed (G.passed gate.entry.now)) hand.passes.items) others.entry.now → All (λ hand. All (HasPassed (G.passed gate.entry.now)) hand.passes.items) others.exit.now) }
        { let_work(rt, table, others, gate) },
    );
}

/// Makes rounds with the passes of a worker, until no mutator among them goes on: one round, where there is none. Each pass has served
/// then, and is still a pass of the table with the number that it had. Mutators gain replies to operations alone that the gate let pass.
pub fn work<G: Gate>(
    table: &PassTable<AnyActor>,
    passes: &mut Vec<Pass>,
    hints: &mut Hints,
    gate: &G,
)
    requires can { CanBeReplayed table.now.opening }
    requires passes { All (IsPassOf table.now) passes.old.items }
    ensures done { All (IsDoneOf table.now) passes.new.items }
    ensures passed { All (HasPassed (G.passed gate.now)) passes.old.items → All (HasPassed (G.passed gate.now)) passes.new.items }
    ensures numbers { numbers_of passes.new.items ≡ numbers_of passes.old.items }
{
    let mut some_go_on = true;
    while some_go_on {
        some_go_on = make_round(table, passes.as_mut_slice(), hints, gate);
        if some_go_on {
            let_mutators_go_on(table, passes.as_mut_slice(), hints.let_go_by(), gate);
        }
    }
}

/// Makes so many rounds of mutators alone, while no helper has anything to do.
#[inline(always)]
fn let_mutators_go_on<G: Gate>(
    table: &PassTable<AnyActor>,
    passes: &mut [Pass],
    rounds: u32,
    gate: &G,
)
    requires can { CanBeReplayed table.now.opening }
    requires passes { All (IsPassOf table.now) passes.old }
    ensures passes { All (IsPassOf table.now) passes.new }
    ensures numbers { numbers_of passes.new ≡ numbers_of passes.old }
    ensures passed { All (HasPassed (G.passed gate.now)) passes.old → All (HasPassed (G.passed gate.now)) passes.new }
    ensures nearer { work_in passes.new ≤ work_in passes.old }
{
    for _ in 0..rounds {
        let_mutators_turn(table, passes, gate);
    }
}

/// Lets each mutator take its part in a round, from the last to the first of the passes behind those of the helpers.
#[inline(always)]
fn let_mutators_turn<G: Gate>(table: &PassTable<AnyActor>, passes: &mut [Pass], gate: &G)
    requires can { CanBeReplayed table.now.opening }
    requires passes { All (IsPassOf table.now) passes.old }
    ensures passes { All (IsPassOf table.now) passes.new }
    ensures numbers { numbers_of passes.new ≡ numbers_of passes.old }
    ensures passed { All (HasPassed (G.passed gate.now)) passes.old → All (HasPassed (G.passed gate.now)) passes.new }
    ensures nearer { work_in passes.new ≤ work_in passes.old }
{
    let mut left = passes.len();
    while left > HELPERS {
        left -= 1;
        take_mutator_turn(table, &mut passes[left], gate);
    }
}

/// A mutator's part in a round; a helper has none in this one.
#[inline(always)]
fn take_mutator_turn<G: Gate>(table: &PassTable<AnyActor>, pass: &mut Pass, gate: &G)
    requires can { CanBeReplayed table.now.opening }
    requires pass { IsPassOf table.now pass.old }
    ensures pass { IsPassOf table.now pass.new }
    ensures number { pass.new.number ≡ pass.old.number }
    ensures passed { HasPassed (G.passed gate.now) pass.old → HasPassed (G.passed gate.now) pass.new }
    ensures nearer { work_of pass.new.actor ≤ work_of pass.old.actor }
{
    if pass.actor().mutator().is_some() {
        let_mutate(table, pass, gate);
    }
}

/// Lets each pass take its part in a round, from the last to the first: mutators come first. Whether some mutator goes on.
#[inline(always)]
fn make_round<G: Gate>(
    table: &PassTable<AnyActor>,
    passes: &mut [Pass],
    hints: &mut Hints,
    gate: &G,
) -> bool
    requires can { CanBeReplayed table.now.opening }
    requires passes { All (IsPassOf table.now) passes.old }
    ensures passes { All (IsPassOf table.now) passes.new }
    ensures numbers { numbers_of passes.new ≡ numbers_of passes.old }
    ensures done { result ≡ false → All (λ pass. HasServed pass.actor) passes.new }
    ensures passed { All (HasPassed (G.passed gate.now)) passes.old → All (HasPassed (G.passed gate.now)) passes.new }
    ensures nearer { work_in passes.new + one_if result ≤ work_in passes.old }
{
    let mut some_go_on = false;
    let mut left = passes.len();
    while left > 0 {
        left -= 1;
        if take_turn(table, &mut passes[left], hints, gate) {
            some_go_on = true;
        }
    }
    some_go_on
}

/// A pass's part in a round: a turn of a mutator that isn't finished, or of a helper that has something to do. Whether its mutator goes on.
#[inline(always)]
#[tactic(auto, using(crate::proofs::HelpLemmas::helpers_have_none))]
fn take_turn<G: Gate>(
    table: &PassTable<AnyActor>,
    pass: &mut Pass,
    hints: &mut Hints,
    gate: &G,
) -> bool
    requires can { CanBeReplayed table.now.opening }
    requires pass { IsPassOf table.now pass.old }
    ensures pass { IsPassOf table.now pass.new }
    ensures number { pass.new.number ≡ pass.old.number }
    ensures done { result ≡ false → HasServed pass.new.actor }
    ensures passed { HasPassed (G.passed gate.now) pass.old → HasPassed (G.passed gate.now) pass.new }
    ensures nearer { work_of pass.new.actor + one_if result ≤ work_of pass.old.actor }
    ensures others { KeepsOthers pass.old.actor hints.old hints.new }
{
    match pass.actor() {
        AnyActor::Mutator(_) => let_mutate(table, pass, gate),
        AnyActor::Decrementer(_) => {
            let_help(table, pass, &mut hints.decrementers);
            false
        }
        AnyActor::Tracer(_) => {
            let_help(table, pass, &mut hints.tracers);
            false
        }
    }
}

/// One turn of a mutator, with a call of the gate before its operation; none where it is finished. Whether it goes on.
#[inline(always)]
fn let_mutate<G: Gate>(table: &PassTable<AnyActor>, pass: &mut Pass, gate: &G) -> bool
    requires can { CanBeReplayed table.now.opening }
    requires pass { IsPassOf table.now pass.old }
    requires mutator { is_helper pass.old.actor ≡ false }
    ensures pass { IsPassOf table.now pass.new }
    ensures number { pass.new.number ≡ pass.old.number }
    ensures done { result ≡ false → HasServed pass.new.actor }
    ensures passed { HasPassed (G.passed gate.now) pass.old → HasPassed (G.passed gate.now) pass.new }
    ensures nearer { work_of pass.new.actor + one_if result ≤ work_of pass.old.actor }
{
    if is_finished(pass.actor()) {
        return false;
    }
    call_gate(pass.actor(), gate);
    mutate(table, pass)
}

/// One turn of a mutator, whose operation was let pass. Whether it goes on: after a unit it does exactly where that ended with `OpDone`.
#[inline(always)]
pub(crate) fn mutate(table: &PassTable<AnyActor>, pass: &mut Pass) -> bool
    requires can { CanBeReplayed table.now.opening }
    requires pass { IsPassOf table.now pass.old }
    requires mutator { is_helper pass.old.actor ≡ false }
    ensures pass { IsPassOf table.now pass.new }
    ensures number { pass.new.number ≡ pass.old.number }
    ensures mutator { is_helper pass.new.actor ≡ false }
    ensures unit { (olds : List ℕ) × Turned any_machine pass.old olds pass.new }
    ensures answer { result ≡ goes_on pass.new.actor }
    ensures further { IsSome (any_machine.action pass.old.actor) → GoesOnByEnd pass.new.actor }
    ensures done { result ≡ false → HasServed pass.new.actor }
    ensures nearer { work_of pass.new.actor + one_if result ≤ work_of pass.old.actor }
{
    pass.turn_at(table);
    goes_on(pass.actor())
}

/// Whether the actor is a mutator with a further unit before it in this epoch.
#[inline(always)]
fn goes_on(actor: &AnyActor) -> bool
    ensures { result ≡ goes_on actor.now }
{
    actor
        .mutator()
        .is_some_and(|mutator| mutator.next().is_some())
}

/// Whether it is a mutator with none.
#[inline(always)]
fn is_finished(actor: &AnyActor) -> bool
    ensures { result ≡ is_finished actor.now }
{
    actor
        .mutator()
        .is_some_and(|mutator| mutator.next().is_none())
}
