//! An epoch that runs, as its owner has it.
ghost use Rattle.std.specs.Prelude.{◌≡◌, ◌⊎◌, ◌<◌, ◌≤◌, [], IfErr, IfOk, IfSome, None, Some, length, map, option_map, slice_get, slice_set, vec_len, vec_capacity};
ghost use Rattle.std.specs.Arc.{arc_value};
ghost use Rattle.lxr_core_invariant.specs.EpochStates.{Beginning};
ghost use Rattle.lxr_actor.specs.Run.{AlwaysFits, core_of};
ghost use Rattle.lxr_image.specs.Settled.{KnowsWords};
ghost use Rattle.lxr_core.specs.Actors.{any_machine};
ghost use Rattle.lxr_core.specs.Closing.{AreResting};
ghost use Rattle.lxr_core.specs.Collecting.{actor_given_up};
ghost use Rattle.lxr_core.specs.Opening.{Begins};
ghost use Rattle.lxr_shared.specs.Ends.{HaveEnds};
ghost use Rattle.lxr_shared.specs.Sharing.{sharing};
ghost use Rattle.lxr_stations.specs.Gathering.{AreAll, AreGathered, HaveEndedFrom, HoldGivenUp, IsUnclosed, IsUnwanted, IsWantedByAll, actors_in};
ghost use Rattle.lxr_stations.specs.Homes.{GoesOnFrom, IsAbsent, IsPassAt};
ghost use Rattle.lxr_stations.specs.Running.{BeganWith, ClosesEach, ClosesLive, IsRunning};
ghost use Rattle.lxr_stations.specs.declared.station.Arrival.{Arrival};
ghost use Rattle.lxr_stations.specs.Arriving.{AreArrivalsOf, HasComeHome, IsHandedIn};
ghost use Rattle.lxr_stations.specs.Wanting.{IsPauseWanted};
ghost use Rattle.lxr_stations.specs.Stations.{IsNotOut, IsStationOf, Stationed, housed_in, table_of};

use crate::homes::{Absence, Homes};
use crate::shared::Shared;
use crate::station::{Arrival, NotOut, Station};
use crate::wanted::is_pause_wanted;
use lxr_core::{AnyActor, close_epoch, open_epoch};
use lxr_image::Space;
use lxr_shared::{Aside, Epoch, Pass, close_shared, open_shared};
use std::alloc::{AllocError, Global};
use std::marker::Model;
use std::sync::Arc;

/// An epoch that runs: each pass is at home or is out with a thread.
#[derive(Drop)]
pub struct Live {
    shared: Arc<Shared, Global>,
    aside: Aside,
    /// Emptied; closing uses its room.
    passes: Vec<Pass>,
}

/// Why an epoch is not closed.
#[derive(Clone, Copy, Debug, PartialEq, Eq)]
pub enum NotClosed {
    /// The pass of this number is neither handed in nor at home.
    Away(usize),
    /// All are there, and no pause is wanted.
    NotWanted,
    /// All are there, and a pause is wanted, but some thread still has a share of the epoch, and so the means to take one out.
    Shared,
}

/// An epoch that is not closed: it goes on, and each pass that was at home is at home.
#[derive(Drop)]
pub struct Unclosed {
    /// The epoch.
    pub live: Live,
    /// Why it is not closed.
    pub why: NotClosed,
}

impl Model for Live {
    ghost use Rattle.std.specs.Prelude.{◌≡◌, ◌≤◌, [], length, vec_capacity};
    ghost use Rattle.std.specs.Arc.{arc_value};
    ghost use Rattle.lxr_image.specs.Settled.{KnowsWords};
    ghost use Rattle.lxr_shared.specs.Sharing.{sharing};
    ghost use Rattle.lxr_stations.specs.Stations.{Lived, table_of};

    ghost Value = { Lived };

    ghost view = { λ l. record { epoch = sharing (table_of (arc_value l.shared)) l.aside; homes = (arc_value l.shared).homes } };

    ghost invariant = { λ l. (l.passes.items ≡ []) × (length (arc_value l.shared).opening.actors ≤ vec_capacity l.passes) × (length (arc_value l.shared).opening.actors ≤ l.aside.room) × KnowsWords l.aside.rest.settled (arc_value l.shared).opening.words };
}

impl Live {
    /// Opens an epoch, and brings the pass of each actor home. After a refusal, space and actors are gone.
    pub fn open(
        alloc: Global,
        mut space: Space,
        mut actors: Vec<AnyActor>,
    ) -> Result<Live, AllocError>
        requires { (b : Beginning) × Begins b space actors.items }
        ensures runs { IfOk result (λ live. (b : Beginning) → Begins b space actors.items → IsRunning b live.epoch) }
        ensures actors { IfOk result (λ live. BeganWith actors.items live.epoch) }
    {
        open_epoch(&mut space, &mut actors);
        let live = share(alloc, space, actors)?;
        Ok(live)
    }

    /// Lets the pass of a number out of its home, with a share of the epoch.
    pub fn let_out(&self, number: usize) -> Result<Station, NotOut>
        ensures station { IfOk result (λ station. IsStationOf (housed_in self.now) number station) }
        ensures none { IfErr result (λ why. IsNotOut (length self.now.epoch.opening.actors) number why) }
    {
        Station::leave(&self.shared, number)
    }

    /// Closes the epoch, where a pause is wanted, each pass is at home or that of a station which is handed in at the place of its number, and no thread
    /// has a share of the epoch any more. Else it goes on as it was, each pass that was handed in and taken is at home, and the answer says why. It takes
    /// no memory.
    pub fn close(self, arrivals: &mut [Option<Arrival>]) -> Result<(Space, Vec<AnyActor>), Unclosed>
        requires running { (b : Beginning) × IsRunning b self.epoch }
        requires handed { AreArrivalsOf (housed_in self) arrivals.old }
        ensures closed { IfOk result (λ left. (b : Beginning) (running : IsRunning b self.epoch) → ClosesLive b self.epoch running arrivals.old left.0 left.1.items) }
        ensures handed { IfOk result (λ left. HoldGivenUp arrivals.old left.1.items) }
        ensures kept { IfErr result (λ unclosed. unclosed.live ≡ self) }
        ensures why { IfErr result (λ unclosed. IsUnclosed (length self.epoch.opening.actors) 0 arrivals.old unclosed.why) }
        ensures unended { IfErr result (λ unclosed. unclosed.why ≡ NotClosed.NotWanted → ¬ HaveEndedFrom (length self.epoch.opening.actors) 0 arrivals.old) }
        ensures wanted { IfErr result (λ unclosed. unclosed.why ≡ NotClosed.Shared → IsWantedByAll (housed_in self) 0 arrivals.old []) }
    {
        let Live {
            shared,
            aside,
            mut passes,
        } = self;
        let mut last = None;
        match gather(shared, 0, &mut passes, arrivals, &mut last) {
            Ok(()) => Ok(finish(last.unwrap(), aside, passes)),
            Err((shared, why)) => Err(Unclosed {
                live: Live {
                    shared,
                    aside,
                    passes,
                },
                why,
            }),
        }
    }
}

/// Shares the words of a space, and brings the pass of each actor home. After a refusal, space and actors are gone.
fn share(alloc: Global, space: Space, actors: Vec<AnyActor>) -> Result<Live, AllocError>
    requires words { 0 < length space.words }
    requires resting { AreResting actors.items }
    requires ends { HaveEnds actors.items }
    requires fits { AlwaysFits any_machine (core_of space.words actors.items) }
    ensures { IfOk result (λ live. (live.epoch.opening ≡ core_of space.words actors.items) × (live.epoch.space ≡ space)) }
{
    let passes = Vec::with_capacity(alloc, actors.len())?;
    let (epoch, dealt) = open_shared(alloc, space, actors)?;
    let (table, aside) = epoch.into_parts();
    let homes = Homes::new(alloc, &table, dealt)?;
    let shared = Arc::new(alloc, Shared::of(table, homes))?;
    Ok(Live {
        shared,
        aside,
        passes,
    })
}

/// Closes an epoch of whose passes all are in hand, and whose last share is.
fn finish(last: Shared, aside: Aside, passes: Vec<Pass>) -> (Space, Vec<AnyActor>)
    requires room { length last.opening.actors ≤ aside.room }
    requires knows { KnowsWords aside.rest.settled last.opening.words }
    requires all { AreAll last passes.items }
    requires running { (b : Beginning) × IsRunning b (sharing (table_of last) aside) }
    ensures closes { ClosesEach (sharing (table_of last) aside) passes.items result.0 result.1.items }
    ensures actors { result.1.items ≡ map actor_given_up (actors_in passes.items) }
{
    let epoch = Epoch::from_parts(last.into_table(), aside);
    let (mut space, mut actors) = close_shared(epoch, passes);
    close_epoch(&mut space, &mut actors);
    (space, actors)
}

/// Takes what arrives in the place of a number out of it, if something does.
fn take_arrival(arrivals: &mut [Option<Arrival>], number: usize) -> Option<Arrival>
    ensures some { IfSome result (λ x. slice_get arrivals.old number ≡ Some (Some x)) }
    ensures each { (x : Arrival) → slice_get arrivals.old number ≡ Some (Some x) → result ≡ Some x }
    ensures left { arrivals.new ≡ slice_set arrivals.old number None }
{
    if number < arrivals.len() {
        arrivals[number].take()
    } else {
        None
    }
}

/// The pass of a number: that of the station in its place, which is taken out of it, or else the one that is at home, if it is there. Where a homecoming is
/// in its place, the pass that is at home goes on from the one that was brought.
fn take_pass(
    shared: &Shared,
    number: usize,
    arrivals: &mut [Option<Arrival>],
) -> Option<(Pass, Absence)>
    requires number { number < length shared.now.opening.actors }
    requires handed { AreArrivalsOf shared.now arrivals.old }
    ensures pass { IfSome result (λ taken. IsPassAt (table_of shared.now) number taken.0) }
    ensures absence { IfSome result (λ taken. IsAbsent shared.now.homes number taken.0 taken.1) }
    ensures handed { (s : Stationed) → IsHandedIn arrivals.old number s → option_map (λ taken. taken.0) result ≡ Some s.pass }
    ensures come_home { IfSome result (λ taken. (s : Stationed) → HasComeHome arrivals.old number s → GoesOnFrom s.pass taken.0) }
    ensures left { arrivals.new ≡ slice_set arrivals.old number None }
{
    match take_arrival(arrivals, number) {
        Some(Arrival::Out(station)) => Some(station.into_pass()),
        Some(Arrival::Home(homecoming)) => shared.take_behind(number, homecoming),
        None => shared.take(number),
    }
}

/// Takes what the threads shared out of its last share, where a pause is wanted by all passes of the epoch.
#[inline(never)]
fn unshare(
    shared: Arc<Shared, Global>,
    passes: &[Pass],
    last: &mut Option<Shared>,
) -> Result<(), (Arc<Shared, Global>, NotClosed)>
    ensures last { IfOk result (λ _. (last.new ≡ Some (arc_value shared)) × IsPauseWanted (actors_in passes.now)) }
    ensures kept { IfErr result (λ kept. kept.0 ≡ shared) }
    ensures why { IfErr result (λ kept. (kept.1 ≡ NotClosed.NotWanted × ¬ IsPauseWanted (actors_in passes.now)) ⊎ (kept.1 ≡ NotClosed.Shared × IsPauseWanted (actors_in passes.now))) }
{
    if !is_pause_wanted(passes) {
        return Err((shared, NotClosed::NotWanted));
    }
    match Arc::try_unwrap(shared) {
        Ok(unshared) => {
            *last = Some(unshared);
            Ok(())
        }
        Err(shared) => Err((shared, NotClosed::Shared)),
    }
}

/// Takes all passes from this number on, behind those that were taken, each from the station in its place or else out of its home, and what the threads
/// shared out of its last share, which goes to `last`: it is large, so no call hands it on. Where some pass is in neither, or there are further shares,
/// all that it took are at home.
fn gather(
    shared: Arc<Shared, Global>,
    number: usize,
    passes: &mut Vec<Pass>,
    arrivals: &mut [Option<Arrival>],
    last: &mut Option<Shared>,
) -> Result<(), (Arc<Shared, Global>, NotClosed)>
    requires number { number ≤ length (arc_value shared).opening.actors }
    requires taken { vec_len passes.old ≡ number }
    requires room { length (arc_value shared).opening.actors ≤ vec_capacity passes.old }
    requires handed { AreArrivalsOf (arc_value shared) arrivals.old }
    ensures all { IfOk result (λ _. (last.new ≡ Some (arc_value shared)) × AreGathered (arc_value shared) number arrivals.old passes.old.items passes.new.items) }
    ensures none { IfErr result (λ kept. (kept.0 ≡ shared) × (passes.new.items ≡ passes.old.items)) }
    ensures why { IfErr result (λ kept. IsUnclosed (length (arc_value shared).opening.actors) number arrivals.old kept.1) }
    ensures unwanted { IfErr result (λ kept. kept.1 ≡ NotClosed.NotWanted → IsUnwanted (length (arc_value shared).opening.actors) number arrivals.old passes.old.items) }
    ensures wanted { IfErr result (λ kept. kept.1 ≡ NotClosed.Shared → IsWantedByAll (arc_value shared) number arrivals.old passes.old.items) }
    ensures room { vec_capacity passes.new ≡ vec_capacity passes.old }
{
    if number >= shared.count() {
        return unshare(shared, passes, last);
    }
    let Some((pass, absence)) = take_pass(&shared, number, arrivals) else {
        return Err((shared, NotClosed::Away(number)));
    };
    passes.push_reserved(pass);
    match gather(shared, number + 1, passes, arrivals, last) {
        Ok(()) => {
            absence.let_go();
            Ok(())
        }
        Err((shared, why)) => {
            let Some(pass) = passes.pop() else {
                unreachable!()
            };
            drop(shared.bring(pass, absence));
            Err((shared, why))
        }
    }
}
