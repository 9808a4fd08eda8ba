//! Helpers that share their work: what one worker's helper can spare, another's that has found nothing takes up.
//!
//! Decrementers share with decrementers, and tracers with tracers. What is shared are hints: a place that is lost on the way
//! loses no work, since the pause does what the bits of the space show.
//!
//! A helper with nothing to do costs a round next to nothing: it looks for a hint as soon as it runs out of work, and after a
//! look in vain again only some rounds later.
ghost use Rattle.std.specs.Prelude.{◌≡◌, ℕ, ◌+◌, ◌-◌, ◌≤◌, List, IfOk, Some, cond, is_some, min, nat_eq, true, vec_len};
ghost use Rattle.lxr_core.specs.Actors.{any_machine};
ghost use Rattle.lxr_shared_passes.specs.Passing.{Turned};
ghost use Rattle.lxr_shared.specs.Ends.{end_of};
ghost use Rattle.lxr_run_replay.specs.Replaying.{CanBeReplayed};
ghost use Rattle.lxr_run_threads.specs.Helping.{Shares, TakesHint, given, places_in, takes_in, wait_after};
ghost use Rattle.lxr_run_threads.specs.Working.{HasServed, IsPassOf, is_helper};

use lxr_actor::Actor;
use lxr_core::AnyActor;
use lxr_decrement::Decrementer;
use lxr_hints::{AnyPlace, Hinter, Shared, hinters_under};
use lxr_layout::Place;
use lxr_shared::{Pass, Turn};
use lxr_shared_passes::PassTable;
use lxr_trace::Tracer;
use std::alloc::{AllocError, Global};
use std::marker::Model;

/// How many rounds a helper lets go by after it has looked for a hint in vain.
const ROUNDS_BETWEEN_LOOKS: u32 = 16;

/// What the helpers of one worker share by, one decrementer and one tracer.
#[derive(Drop)]
pub struct Hints {
    pub decrementers: Exchange<Decrementer>,
    pub tracers: Exchange<Tracer>,
}

impl Hints {
    /// How many rounds go by before a helper with nothing to do looks for a hint, where both have nothing to do. They are over then.
    #[inline(always)]
    pub(crate) fn let_go_by(&mut self) -> u32
        ensures rounds { result ≡ min self.old.decrementers.wait self.old.tracers.wait }
        ensures over { (self.new.decrementers.wait ≡ self.old.decrementers.wait - result) × (self.new.tracers.wait ≡ self.old.tracers.wait - result) }
    {
        let rounds = self.decrementers.wait.min(self.tracers.wait);
        self.decrementers.wait -= rounds;
        self.tracers.wait -= rounds;
        rounds
    }
}

/// Where a helper of this kind gives hints and finds those of its like.
#[derive(Drop)]
pub struct Exchange<K> {
    hinter: Hinter<Shared<AnyPlace<K>>>,
    /// How many rounds the helper still lets go by before it looks for a hint.
    wait: u32,
}

impl<K> Model for Exchange<K> {
    ghost use Rattle.lxr_run_threads.specs.Helping.{Exchanging};

    ghost Value = { Exchanging };

    ghost view = { λ e. record { pushes = e.hinter.pushes; wait = e.wait } };
}

impl<K> Exchange<K> {
    /// One whose helper looks for a hint as soon as it has nothing to do.
    fn new(hinter: Hinter<Shared<AnyPlace<K>>>) -> Exchange<K>
        ensures { result ≡ record { pushes = hinter.pushes; wait = 0 } }
    {
        Exchange { hinter, wait: 0 }
    }

    /// Whether a helper with nothing to do looks for a hint in this round. Where it doesn't, its next look comes nearer by a round.
    #[inline(always)]
    fn looks(&mut self) -> bool
        ensures answer { result ≡ nat_eq self.old.wait 0 }
        ensures nearer { self.new.wait ≡ self.old.wait - 1 }
        ensures pushes { self.new.pushes ≡ self.old.pushes }
    {
        if self.wait == 0 {
            return true;
        }
        self.wait -= 1;
        false
    }

    /// Takes a place that some helper has given, if it finds one; else the next look is some rounds away. Which place it answers no clause says.
    fn take(&mut self) -> Option<Place>
        ensures wait { self.new.wait ≡ wait_after (is_some result) }
        ensures pushes { self.new.pushes ≡ self.old.pushes }
    {
        let found = self.hinter.take();
        self.wait = match found {
            Some(_) => 0,
            None => ROUNDS_BETWEEN_LOOKS,
        };
        found
    }

    /// Whether it takes in a further place.
    fn takes_in(&self) -> bool
        ensures { result ≡ takes_in self.now.pushes }
    {
        self.hinter.takes_in()
    }

    /// Puts in a place for all helpers of the kind to take. One that isn't taken in is dropped.
    fn push(&mut self, place: Place)
        ensures pushes { self.new.pushes ≡ cond (takes_in self.old.pushes) (self.old.pushes + 1) self.old.pushes }
        ensures wait { self.new.wait ≡ self.old.wait }
    {
        self.hinter.push(place);
    }
}

/// What so many workers have to share by: the decrementers of all are in one set, and the tracers in another. It takes the memory for all
/// that is shared in an epoch.
pub fn make_hints(alloc: Global, workers: u8) -> Result<Vec<Hints>, AllocError>
    requires { (1 ≤ workers) × (workers ≤ 8) }
    ensures { IfOk result (λ hints. vec_len hints ≡ workers) }
{
    let mut for_decrementers = hinters_under::<AnyPlace<Decrementer>>(alloc, workers)?;
    let mut for_tracers = hinters_under::<AnyPlace<Tracer>>(alloc, workers)?;
    let mut hints = Vec::with_capacity(alloc, usize::from(workers))?;
    while let Some(decrementers) = for_decrementers.pop() {
        let Some(tracers) = for_tracers.pop() else {
            unreachable!()
        };
        hints.push_reserved(Hints {
            decrementers: Exchange::new(decrementers),
            tracers: Exchange::new(tracers),
        });
    }
    Ok(hints)
}

/// A helper's part in a round: a turn, unless it has nothing to do and doesn't look for a hint in this round.
#[inline(always)]
pub fn let_help<K>(table: &PassTable<AnyActor>, pass: &mut Pass, exchange: &mut Exchange<K>)
    requires can { CanBeReplayed table.now.opening }
    requires pass { IsPassOf table.now pass.old }
    requires helper { is_helper pass.old.actor ≡ true }
    ensures pass { IsPassOf table.now pass.new }
    ensures number { pass.new.number ≡ pass.old.number }
    ensures helper { is_helper pass.new.actor ≡ true }
    ensures served { HasServed pass.new.actor }
{
    if pass.actor().next().is_some() || exchange.looks() {
        help(table, pass, exchange);
    }
}

/// A turn of a helper with what it shares. Before it, a helper that has found nothing is offered a place that some helper has spared, so that no
/// epoch ends with an offer that was taken and not worked on; after it, a helper that has more than one place spares one. That the place which is
/// offered is one that was taken as a hint no clause says.
fn help<K>(table: &PassTable<AnyActor>, pass: &mut Pass, exchange: &mut Exchange<K>)
    requires can { CanBeReplayed table.now.opening }
    requires pass { IsPassOf table.now pass.old }
    requires helper { is_helper pass.old.actor ≡ true }
    ensures pass { IsPassOf table.now pass.new }
    ensures number { pass.new.number ≡ pass.old.number }
    ensures helper { is_helper pass.new.actor ≡ true }
    ensures served { HasServed pass.new.actor }
    ensures shares { Shares pass.old exchange.old pass.new exchange.new }
{
    take_hint(table, pass, exchange);
    make_turn(table, pass);
    give_hint(table, pass, exchange);
}

/// One turn of a helper of any kind, and how it ended.
pub(crate) fn make_turn(table: &PassTable<AnyActor>, pass: &mut Pass) -> Turn
    requires can { CanBeReplayed table.now.opening }
    requires pass { IsPassOf table.now pass.old }
    requires helper { is_helper pass.old.actor ≡ true }
    ensures pass { IsPassOf table.now pass.new }
    ensures number { pass.new.number ≡ pass.old.number }
    ensures helper { is_helper pass.new.actor ≡ true }
    ensures served { HasServed pass.new.actor }
    ensures turns { (olds : List ℕ) × Turned any_machine pass.old olds pass.new }
    ensures end { Some result ≡ end_of pass.new.actor }
{
    pass.turn_at(table)
}

/// Offers a helper that has no further step a place that was spared, if there is one. No clause says that the place which is offered is the one that was taken.
fn take_hint<K>(table: &PassTable<AnyActor>, pass: &mut Pass, exchange: &mut Exchange<K>)
    requires pass { IsPassOf table.now pass.old }
    requires helper { is_helper pass.old.actor ≡ true }
    ensures pass { IsPassOf table.now pass.new }
    ensures number { pass.new.number ≡ pass.old.number }
    ensures helper { is_helper pass.new.actor ≡ true }
    ensures takes { TakesHint (any_machine.action pass.old.actor) pass.old.actor exchange.old pass.new.actor exchange.new }
{
    if pass.actor().next().is_some() {
        return;
    }
    if let Some(place) = exchange.take() {
        pass.offer_at(table, place);
    }
}

/// Gives a place of a helper's pocket, where it has more than one and the exchange takes it in.
fn give_hint<K>(table: &PassTable<AnyActor>, pass: &mut Pass, exchange: &mut Exchange<K>)
    requires pass { IsPassOf table.now pass.old }
    requires helper { is_helper pass.old.actor ≡ true }
    requires served { HasServed pass.old.actor }
    ensures pass { IsPassOf table.now pass.new }
    ensures number { pass.new.number ≡ pass.old.number }
    ensures helper { is_helper pass.new.actor ≡ true }
    ensures served { HasServed pass.new.actor }
    ensures given { (pass.new.actor, exchange.new.pushes) ≡ given pass.old.actor exchange.old.pushes }
{
    if places_of(pass.actor()) < 2 || !exchange.takes_in() {
        return;
    }
    if let Some(place) = pass.surplus_at(table) {
        exchange.push(place);
    }
}

/// How many places an actor has in its pocket. A mutator has none.
#[inline(always)]
fn places_of(actor: &AnyActor) -> usize
    ensures { result ≡ places_in actor.now }
{
    match actor {
        AnyActor::Mutator(_) => 0,
        AnyActor::Decrementer(decrementer) => decrementer.places(),
        AnyActor::Tracer(tracer) => tracer.places(),
    }
}
