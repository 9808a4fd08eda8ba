//! A heap that threads of a host share.
ghost use Rattle.std.specs.Prelude.{◌≡◌, ℕ, false, true, [], ◌<◌, ◌↔◌, IfErr, IfOk, IfSome, IsSome, List, None, length, option_map};
ghost use Rattle.lxr_graph.specs.History.{Item, report_of};
ghost use Rattle.lxr_model.specs.Belongs.{Script};
ghost use Rattle.lxr_model.specs.Moments.{moment};
ghost use Rattle.lxr_invariant.specs.AbstractState.{AbstractState};
ghost use Rattle.lxr_one_pause.specs.Telling.{TellsWanted};
ghost use Rattle.lxr_rounds_history.specs.Left.{last_report};
ghost use Rattle.lxr_rounds_invariant.specs.LoopInvariant.{HasRunEpoch};
ghost use Rattle.lxr_shared_heap.specs.Heaps.{ComesToRest, DoneIsTold, HasListed, HeapsHaveHistories, IsAtRest, IsBetween, IsHeapOf, IsKept, IsOpened, IsPassOf, MutatorsComeFirst, MutatorsHaveLimits, OpenIsTold, Pauses, PausesWith, Resumes, StationsTellHistories, free_at, most_asked, most_asked_with, paused_for, space_at};
ghost use Rattle.lxr_core.specs.Actors.{mutators_in, script_of};
ghost use Rattle.lxr_stations.specs.Living.{AreLive};
ghost use Rattle.lxr_shared_heap.specs.Renewing.{ends_with_renewal};
ghost use Rattle.lxr_shared_heap.specs.Resting.{HasMadeEpoch};
ghost use Rattle.lxr_shared_heap.specs.Settings.{AreSettings, run_of};
ghost use Rattle.lxr_stations.specs.Arriving.{AreArrivalsOf, Tells};
ghost use Rattle.lxr_stations.specs.Stations.{Stationed, housed_in};
ghost use Rattle.lxr_shared_heap.specs.Telling.{EndByNewest};
ghost use Rattle.lxr_shared_heap.specs.Trimming.{Trims};

use crate::making::new_heap;
use crate::packed::Packed;
use crate::pausing::rest;
use crate::renewing::{renew_where_due, some_waits};
use crate::settings::Settings;
use crate::trimming::Trimmed;
use lxr_core::AnyActor;
use lxr_graph::Report;
use lxr_image::Space;
use lxr_placing::ToList;
use lxr_sights::{Unseen, Watch};
use lxr_stations::{Arrival, Live, NotClosed, NotOut, Station, Unclosed};
use std::alloc::Global;
use std::marker::Model;
use std::mem;

/// Why a heap is not opened.
#[derive(Clone, Copy, Debug, PartialEq, Eq)]
pub enum Refused {
    /// A number of the settings is out of its range.
    Settings,
    /// There is not enough memory.
    Memory,
}

/// What has come of the wish to go on with the next epoch.
#[derive(Clone, Copy, Debug, PartialEq, Eq)]
pub enum Resumed {
    /// The next epoch is open, and all passes are at home.
    Open,
    /// An epoch was open before. Nothing has changed.
    Within,
    /// All mutators have ended. Nothing has changed.
    Ended,
    /// The heap was lost before. Nothing has changed.
    Lost,
    /// There was not enough memory for an epoch, and the heap is lost.
    Memory,
}

/// What has come of the wish for a pause. But for `Made`, nothing has changed.
#[derive(Clone, Copy, Debug, PartialEq, Eq)]
pub enum Paused {
    /// It was made, and what waited for it is answered.
    Made,
    /// No pause is wanted: no mutator is held up or has asked for one, and not all have ended.
    NotWanted,
    /// The pass of this number is neither handed in nor at home.
    Away(usize),
    /// All are there, but a thread that brought one home has not yet let go of its share of the epoch.
    Shared,
    /// No epoch is open.
    NotRunning,
    /// All mutators have ended, and the last pause is made.
    Ended,
    /// The heap is lost, since memory ran out as an epoch was to be opened.
    Lost,
}

/// Where a heap stands.
#[derive(Drop)]
pub(crate) enum Stage {
    /// Between two epochs.
    Between {
        space: Packed,
        actors: Vec<AnyActor>,
    },
    /// Within an epoch.
    Within(Live),
    /// All mutators have ended, and the last pause is made.
    Ended {
        space: Packed,
        actors: Vec<AnyActor>,
    },
    /// Memory ran out as an epoch was to be opened.
    Lost,
}

/// A heap with mutators that threads of a host share. It is opened between two epochs.
#[derive(Drop)]
pub struct Heap {
    settings: Settings,
    stage: Stage,
    to_list: ToList,
}

impl Model for Heap {
    ghost use Rattle.std.specs.Prelude.{List};
    ghost use Rattle.lxr_graph.specs.History.{Item};
    ghost use Rattle.lxr_model.specs.Belongs.{Script};
    ghost use Rattle.lxr_shared_heap.specs.Heaps.{Heaped, IsHeapOf};

    ghost Value = { Heaped };

    ghost view = { λ x. record { settings = x.settings; stage = x.stage; to_list = x.to_list } };

    ghost invariant = { λ x. (script : Script) × (h : List Item) × IsHeapOf script h (record { settings = x.settings; stage = x.stage; to_list = x.to_list }) };
}

impl Heap {
    /// A heap with these settings, which has the world alone. It stands before its first epoch.
    pub fn open(alloc: Global, settings: Settings) -> Result<Heap, Refused>
        ensures opened { IfOk result (λ heap. IsOpened settings heap) }
        ensures range { (result ≡ Err Refused.Settings) ↔ ¬ AreSettings settings }
    {
        if !settings.are_in_range() {
            return Err(Refused::Settings);
        }
        match new_heap(alloc, settings) {
            Ok((space, actors)) => Ok(Heap {
                settings,
                stage: Stage::Between {
                    space: Packed::of(space),
                    actors,
                },
                to_list: settings.to_list(),
            }),
            Err(_) => Err(Refused::Memory),
        }
    }

    /// What it was opened with.
    pub fn settings(&self) -> Settings
        ensures { result ≡ self.now.settings }
    {
        self.settings
    }

    /// Opens the next epoch, where none is open. All passes are at home then.
    pub fn resume(&mut self, alloc: Global) -> Resumed
        ensures { Resumes result self.old self.new }
    {
        let stage = mem::replace(&mut self.stage, Stage::Lost);
        let (stage, resumed) = stage.resumed(alloc);
        self.stage = stage;
        resumed
    }

    /// Lets a pass out of its home: mutators have the numbers from 0 on, decrementers those behind them, and tracers the last ones.
    pub fn let_out(&self, number: usize) -> Result<Station, NotOut>
        ensures station { IfOk result (λ station. IsPassOf self.now.stage number station) }
        ensures none { IfErr result (λ why. IsKept self.now number why) }
    {
        match &self.stage {
            Stage::Within(live) => live.let_out(number),
            Stage::Between { .. } => Err(NotOut::NotRunning),
            Stage::Ended { .. } => Err(NotOut::Ended),
            Stage::Lost => Err(NotOut::Lost),
        }
    }

    /// Ends the epoch with a pause, where one is wanted and all passes are at home. A pause is wanted where some mutator is held up, has asked for
    /// one by a `pause` or a `collect` in this epoch, or all have ended. It collects where `collect` was called since the last pause, and where
    /// all have ended; then it is the last. Else each `new` that waits is served behind it, or refused; those that find no room before a
    /// collecting pause have further pauses, which collect. It takes no memory and waits for nobody.
    ///
    /// Then runs of free lines are listed for the next epoch, all or, in a heap of more than 1,024 blocks, at most as many as the settings say, from
    /// the block on at which the last listing ended and round the heap, and all free blocks.
    ///
    /// At its end it gives each object that is left a new name, where some mutator has been ordered more than half of what it can be, and so that
    /// a heap lives for ever though names have serials of 32 bits: behind a pause that drained its decrements and for which no `new` waited, where no
    /// trace runs and no mutator has ended.
    ///
    /// Within an epoch `Away`, `Shared` and `NotWanted` tell of what threads may change at once, and no clause says that they come only where it is
    /// so.
    ///
    /// The scheme is that of LXR (Zhao, Blackburn and McKinley, 2022).
    pub fn pause(&mut self) -> Paused
        ensures { Pauses false result self.old self.new }
    {
        self.pause_watched(&mut Unseen)
    }

    /// As `pause`, which begins a trace too, where `trace` of the settings is 0: unless it collects, or one runs.
    pub fn pause_and_trace(&mut self) -> Paused
        ensures { Pauses true result self.old self.new }
    {
        self.pause_by(&mut [], true, &mut Unseen)
    }

    /// As `pause`, with a watch that looks at the space right before and right after each pause, where a host finds the report of each. No clause
    /// speaks of what the watch sees.
    pub fn pause_watched<W: Watch>(&mut self, watch: &mut W) -> Paused
        ensures { Pauses false result self.old self.new }
    {
        self.pause_by(&mut [], false, watch)
    }

    /// As `pause`, with what threads hand in, the k-th place for the pass of number k: its station, or the homecoming of one; a place may be empty,
    /// and the list may be short. Each is to be of the epoch that is open, which one owner of the heap knows, and nobody behind a lock. The pass of
    /// a station that is handed in needn't be at home. The history in which each station told what it answered, or had answered when it came home,
    /// is a beginning of the pause's, which so has the replies of all. One is handed in for each number. That a station goes on from a homecoming
    /// of its number no clause says, and where no pause is made the homecomings are gone. Where none is made passes which were handed in, or were
    /// at home, are at home, which no clause says either.
    ///
    /// `Away` is answered of no pass whose station is handed in, and `NotWanted` not where one of them is of a mutator that is held up or has
    /// asked, nor where all are handed in and all mutators have ended. `Shared` is answered only where by all passes, those of the stations among
    /// them, a pause is wanted.
    pub fn pause_with(&mut self, mut arrivals: Vec<Option<Arrival>>) -> Paused
        requires { (number : ℕ) (s : Stationed) → Tells arrivals.items number s → IsPassOf self.old.stage number s }
        ensures { PausesWith false arrivals.items result self.old self.new }
    {
        self.pause_by(&mut arrivals, false, &mut Unseen)
    }

    /// The pause with what is handed in, which a watch looks at, and which is to begin a trace or not.
    fn pause_by<W: Watch>(
        &mut self,
        arrivals: &mut [Option<Arrival>],
        begins: bool,
        watch: &mut W,
    ) -> Paused
        requires { (number : ℕ) (s : Stationed) → Tells arrivals.old number s → IsPassOf self.old.stage number s }
        ensures { PausesWith begins arrivals.old result self.old self.new }
    {
        let stage = mem::replace(&mut self.stage, Stage::Lost);
        let (stage, paused) = stage.paused(
            arrivals,
            self.settings,
            begins,
            &mut self.to_list,
            watch,
        );
        self.stage = stage;
        paused
    }

    /// Makes the words of the first Free block from one on 0, between two epochs, and answers which block that is. So all of them are 0 once it was
    /// called with 0, and with the next number until no block is left; a page of memory that is 0 may then go back to the system, which gives zeros
    /// where it is read again. Nothing else changes, and no history has it: no object lies in a Free block, nothing of it is drawn between epochs, and
    /// a new object writes each of its words.
    pub fn trim_next(&mut self, alloc: Global, from: u32) -> Trimmed
        ensures { Trims from result self.old self.new }
    {
        let stage = mem::replace(&mut self.stage, Stage::Lost);
        let (stage, trimmed) = stage.trimmed(alloc, from);
        self.stage = stage;
        trimmed
    }

    /// The address of the first word of the heap's blocks, for a heap between two epochs: block 0 begins there, and each further one 32 KB after the
    /// one before it. It stays for as long as the heap is open. No clause can say that it is this address.
    pub fn first_word(&mut self, alloc: Global) -> Option<*const u64>
        ensures between { IsSome result → IsBetween self.old.stage }
        ensures kept { self.new ≡ self.old }
    {
        let stage = mem::replace(&mut self.stage, Stage::Lost);
        let (stage, first) = stage.first_word(alloc);
        self.stage = stage;
        first
    }

    /// The report of the last pause: some exactly where no epoch is open, the heap is not lost, and a pause was made.
    /// Its counts are listed where names were renewed behind it, under the old names, and else they are for proofs alone.
    pub fn report(&self) -> Option<&Report>
        ensures some { (script : Script) (h : List Item) → IsHeapOf script h self.now → IsSome result ↔ (IsAtRest self.now.stage × (0 < (last_report h).number)) }
        ensures last { (script : Script) (h : List Item) → IsHeapOf script h self.now → IfSome result (λ report. report_of report.now ≡ last_report h) }
        ensures told { (script : Script) (h : List Item) → IsHeapOf script h self.now → IfSome result (λ report. TellsWanted (ends_with_renewal h) report.now) }
    {
        report_in(self.stage.at_rest()?)
    }

    /// How many pauses were made since names were renewed last: some exactly where no epoch is open and the heap is not lost.
    pub fn pauses(&self) -> Option<u32>
        ensures some { IsSome result ↔ IsAtRest self.now.stage }
        ensures number { (script : Script) (h : List Item) → IsHeapOf script h self.now → IfSome result (λ number. number ≡ (moment (length script) h).number) }
    {
        Some(self.stage.at_rest()?.pauses())
    }

    /// How many blocks are without objects: some exactly where `pauses` is.
    pub fn free_blocks(&self) -> Option<u32>
        ensures { result ≡ free_at self.now.stage }
    {
        Some(self.stage.at_rest()?.free_blocks())
    }

    /// How many operations the mutator has been ordered since names were renewed last that has been ordered most, where each of a mutator after the
    /// sixteenth counts sixteen times: some exactly where `pauses` is. At a pause after which names can be renewed, they are where it is more than
    /// half of 67,108,864, which is what one of the first sixteen can be ordered.
    #[tactic(auto, using(crate::proofs::AskedLemmas::asked_with))]
    pub fn asked_most(&self) -> Option<u64>
        ensures some { IsSome result ↔ IsAtRest self.now.stage }
        ensures most { (script : Script) (h : List Item) → IsHeapOf script h self.now → IfSome result (λ most. most ≡ most_asked script) }
    {
        match &self.stage {
            Stage::Between { space: _, actors } => Some(most_ordered(actors, 16)),
            Stage::Within(_) => None,
            Stage::Ended { space: _, actors } => Some(most_ordered(actors, 16)),
            Stage::Lost => None,
        }
    }
}

impl Stage {
    /// The space of a heap at rest.
    fn at_rest(&self) -> Option<&Packed>
        ensures { option_map (λ space. space.now) result ≡ space_at self.now }
    {
        match self {
            Stage::Between { space, actors: _ } => Some(space),
            Stage::Within(_) => None,
            Stage::Ended { space, actors: _ } => Some(space),
            Stage::Lost => None,
        }
    }

    /// The next epoch is opened, where none is open.
    fn resumed(self, alloc: Global) -> (Stage, Resumed)
        requires { (settings : Settings) × (to_list : ToList) × (script : Script) × (h : List Item) × IsHeapOf script h (record { settings = settings; stage = self; to_list = to_list }) }
        ensures { (settings : Settings) (to_list : ToList) → Resumes result.1 (record { settings = settings; stage = self; to_list = to_list }) (record { settings = settings; stage = result.0; to_list = to_list }) }
    {
        match self {
            Stage::Between { space, actors } => match Live::open(
                alloc,
                space.into_space(alloc),
                actors,
            ) {
                Ok(live) => (Stage::Within(live), Resumed::Open),
                Err(_) => (Stage::Lost, Resumed::Memory),
            },
            Stage::Within(live) => (Stage::Within(live), Resumed::Within),
            Stage::Ended { space, actors } => (Stage::Ended { space, actors }, Resumed::Ended),
            Stage::Lost => (Stage::Lost, Resumed::Lost),
        }
    }

    /// The epoch that is open ends with a pause.
    fn paused<W: Watch>(
        self,
        arrivals: &mut [Option<Arrival>],
        settings: Settings,
        begins: bool,
        to_list: &mut ToList,
        watch: &mut W,
    ) -> (Stage, Paused)
        requires heap { (script : Script) × (h : List Item) × IsHeapOf script h (record { settings = settings; stage = self; to_list = to_list.old }) }
        requires handed { (number : ℕ) (s : Stationed) → Tells arrivals.old number s → IsPassOf self number s }
        ensures { PausesWith begins arrivals.old result.1 (record { settings = settings; stage = self; to_list = to_list.old }) (record { settings = settings; stage = result.0; to_list = to_list.new }) }
    {
        match self {
            Stage::Between { space, actors } => {
                (Stage::Between { space, actors }, Paused::NotRunning)
            }
            Stage::Within(live) => close_and_pause(
                live, arrivals, settings, begins, to_list, watch,
            ),
            Stage::Ended { space, actors } => (Stage::Ended { space, actors }, Paused::Ended),
            Stage::Lost => (Stage::Lost, Paused::Lost),
        }
    }
}

/// Ends an epoch with a pause, where one is wanted and each pass is handed in or at home.
fn close_and_pause<W: Watch>(
    live: Live,
    arrivals: &mut [Option<Arrival>],
    settings: Settings,
    begins: bool,
    to_list: &mut ToList,
    watch: &mut W,
) -> (Stage, Paused)
    requires heap { (script : Script) × (h : List Item) × IsHeapOf script h (record { settings = settings; stage = Stage.Within live; to_list = to_list.old }) }
    requires handed { AreArrivalsOf (housed_in live) arrivals.old }
    ensures { PausesWith begins arrivals.old result.1 (record { settings = settings; stage = Stage.Within live; to_list = to_list.old }) (record { settings = settings; stage = result.0; to_list = to_list.new }) }
{
    match live.close(arrivals) {
        Ok((space, actors)) => (
            pause_behind(space, actors, settings, begins, to_list, watch),
            Paused::Made,
        ),
        Err(Unclosed { live, why }) => (Stage::Within(live), paused_for(why)),
    }
}

/// Makes the pause behind an epoch, and answers what waits. Where the heap stands then.
fn pause_behind<W: Watch>(
    mut space: Space,
    mut actors: Vec<AnyActor>,
    settings: Settings,
    begins: bool,
    to_list: &mut ToList,
    watch: &mut W,
) -> Stage
    requires settings { AreSettings settings }
    requires made { HasMadeEpoch settings space actors.items }
    requires live { AreLive (mutators_in actors.items) }
    ensures lists { HasListed to_list.old result to_list.new }
    ensures rests { (script : Script) (before : List AnyActor) (calls : List Item) (g : AbstractState) → HasRunEpoch (run_of settings script) space None before actors.items calls g → EndByNewest calls (mutators_in actors.items) → ComesToRest begins settings script calls (mutators_in actors.items) result }
{
    let idle = !some_waits(&actors);
    if rest(&mut space, &mut actors, settings, begins, to_list, watch) {
        Stage::Ended {
            space: Packed::of(space),
            actors,
        }
    } else {
        renew_where_due(&mut space, &mut actors, idle);
        Stage::Between {
            space: Packed::of(space),
            actors,
        }
    }
}

/// The answer where an epoch is not closed.
fn paused_for(why: NotClosed) -> Paused
    ensures { result ≡ paused_for why }
{
    match why {
        NotClosed::Away(number) => Paused::Away(number),
        NotClosed::NotWanted => Paused::NotWanted,
        NotClosed::Shared => Paused::Shared,
    }
}

/// The report of a space's last pause, if there was one.
fn report_in(space: &Packed) -> Option<&Report>
    ensures some { IsSome result ↔ (0 < space.now.report.number) }
    ensures report { IfSome result (λ report. report.now ≡ space.now.report) }
{
    let report = space.report();
    if report.number == 0 {
        None
    } else {
        Some(report)
    }
}

/// What a heap stands for is a legal history, which belongs to what its mutators were asked for since names were last renewed.
pub fn heaps_have_histories()
    ensures { HeapsHaveHistories }
{}

/// What the station of a mutator shows at any time is so in the history behind the events that its pass saw, which goes on from the heap's by calls
/// alone.
pub fn stations_tell_histories()
    ensures { StationsTellHistories }
{}

/// Mutators have the first numbers.
pub fn mutators_come_first()
    ensures { MutatorsComeFirst }
{}

/// The station of a mutator may name as many registers as its heap's settings say, and has room for as many operations as one of its number may be
/// ordered.
pub fn mutators_have_limits()
    ensures { MutatorsHaveLimits }
{}

/// What a station answers to an operation is so in that history: the operation is its thread's newest call, and the reply is that of the model's step
/// at its place.
pub fn answers_are_told()
    ensures done { DoneIsTold }
    ensures open { OpenIsTold }
{}

/// How many operations the mutator has been ordered that has been ordered most, where so many of the first sixteen are left: each of a later one
/// counts sixteen times.
fn most_ordered(actors: &[AnyActor], first: u32) -> u64
    ensures { result ≡ most_asked_with first (script_of (mutators_in actors.now)) }
{
    match actors.split_first() {
        None => 0,
        Some((actor, rest)) => match actor.mutator() {
            None => most_ordered(rest, first),
            Some(mutator) => {
                let ordered = u64::from(mutator.ordered());
                let counted = if first > 0 { ordered } else { 16 * ordered };
                counted.max(most_ordered(rest, first.saturating_sub(1)))
            }
        },
    }
}
