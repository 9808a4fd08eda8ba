//! A pass that is out with a thread of the host.
ghost use Rattle.std.specs.Prelude.{◌≡◌, ◌⊎◌, ℕ, ◌≤◌, ◌↔◌, IfErr, IfOk, IsTrue, List, None, Some, false, length, true};
ghost use Rattle.std.specs.Arc.{arc_value};
ghost use Rattle.lxr_layout.specs.declared.TheConstants.{REGISTERS};
ghost use Rattle.lxr_core.specs.Actors.{any_machine};
ghost use Rattle.lxr_shared.specs.Ends.{IsNextOf, end_of};
ghost use Rattle.lxr_shared_passes.specs.Passing.{Turned};
ghost use Rattle.lxr_stations.specs.Homes.{IsAbsent};
ghost use Rattle.lxr_stations.specs.Stations.{Ends, HasAnswered, HasGoneOn, HasNoMore, HasTurned, Helps, IsNoOrder, IsNotOut, IsOpen, IsSameStation, IsStationOf, StaysPassOf, found_work, is_mutator, newest_of, registers_of, replied};
ghost use Rattle.lxr_stations.specs.Wanting.{HasEnded, IsHeldUp};

use crate::homes::{Absence, Homecoming};
use crate::share::{NoShare, another_share};
use crate::shared::Shared;
use crate::wanted::{has_ended, is_held_up};
use lxr_actor::Actor;
use lxr_core::AnyActor;
use lxr_decrement::DecEnd;
use lxr_graph::{Op, Reply};
use lxr_layout::REGISTERS;
use lxr_shared::{Pass, Turn};
use lxr_trace::TraceEnd;
use std::alloc::Global;
use std::marker::Model;
use std::sync::Arc;

/// What has come of an operation.
#[derive(Clone, Copy, Debug, PartialEq, Eq)]
pub enum Answer {
    /// It is done, with this reply. Where the heap tells no names, that of a `load` or a `swap` that found an object names `UNNAMED` of
    /// `lxr_mutator`.
    Done(Reply),
    /// It was taken up, and waits for a pause. Behind that `go_on` goes on with it, unless the pause has answered it: then its reply
    /// stands among the actor's.
    Waits,
    /// It was not taken up: the mutator does nothing more before a pause.
    Pause,
    /// It was not taken up: the thread has done its end.
    Ended,
    /// It was not taken up: it is none that may be asked for, or another one is still open, or there is no room for a further one, or the
    /// actor is a helper.
    Refused,
}

/// Why a pass is not let out of its home.
#[derive(Clone, Copy, Debug, PartialEq, Eq)]
pub enum NotOut {
    /// No epoch is open, and the next one may be.
    NotRunning,
    /// All mutators have ended, and the last pause is made.
    Ended,
    /// The heap is lost, since memory ran out as an epoch was to be opened.
    Lost,
    /// There is no actor of this number.
    NoSuch,
    /// The pass is not at home: some thread has it.
    Away,
    /// There are too many stations: a share of the epoch was asked for, and their count is full.
    Memory(NoShare),
}

/// The pass of an actor, which one thread has, with its share of the epoch. Dropping it brings the pass home.
pub struct Station {
    shared: Arc<Shared, Global>,
    pass: Pass,
    absence: Absence,
}

/// What is handed in to a pause for the pass of a number.
#[derive(Drop)]
pub enum Arrival {
    /// The station that has the pass.
    Out(Station),
    /// The homecoming of a station. Its pass has been at home since, or some thread has it again.
    Home(Homecoming),
}

impl Model for Station {
    ghost use Rattle.std.specs.Arc.{arc_value};
    ghost use Rattle.lxr_stations.specs.Stations.{IsOut, Stationed};

    ghost Value = { Stationed };

    ghost view = { λ s. record { pass = s.pass; homes = (arc_value s.shared).homes } };

    ghost invariant = { λ s. IsOut (arc_value s.shared) s.absence s.pass };
}

impl Station {
    /// Takes the pass of a number out of its home.
    pub(crate) fn leave(shared: &Arc<Shared, Global>, number: usize) -> Result<Station, NotOut>
        ensures station { IfOk result (λ station. IsStationOf (arc_value shared.now) number station) }
        ensures none { IfErr result (λ why. IsNotOut (length (arc_value shared.now).opening.actors) number why) }
    {
        if number >= shared.count() {
            return Err(NotOut::NoSuch);
        }
        let shared = match another_share(shared) {
            Ok(share) => share,
            Err(refused) => return Err(NotOut::Memory(refused)),
        };
        match shared.take(number) {
            Some((pass, absence)) => Ok(Station {
                shared,
                pass,
                absence,
            }),
            None => Err(NotOut::Away),
        }
    }

    /// Brings the pass home, and lets go of the share of the epoch. What it answers tells which pass that was, and can be handed in to a pause.
    pub fn come_home(self) -> Homecoming
        ensures { result ≡ Some self }
    {
        let Station {
            shared,
            pass,
            absence,
        } = self;
        shared.bring(pass, absence)
    }

    /// The pass, with its absence. It lets go of the share of the epoch.
    pub(crate) fn into_pass(self) -> (Pass, Absence)
        ensures pass { result.0 ≡ self.pass }
        ensures absence { IsAbsent self.homes self.pass.number self.pass result.1 }
    {
        let Station {
            shared: _,
            pass,
            absence,
        } = self;
        (pass, absence)
    }

    /// The number of the actor, counted from 0.
    pub fn number(&self) -> usize
        ensures { result ≡ self.now.pass.number }
    {
        self.absence.number()
    }

    /// The actor.
    #[inline(always)]
    pub(crate) fn actor(&self) -> &AnyActor
        ensures { result.now ≡ self.now.pass.actor }
    {
        self.pass.actor()
    }

    /// Whether it is a mutator; else it is a helper.
    #[inline(always)]
    pub fn is_mutator(&self) -> bool
        ensures { result ≡ is_mutator self.now.pass.actor }
    {
        self.actor().mutator().is_some()
    }

    /// How many registers its mutator may name. A helper has none, and refuses each operation: of its station all 256 are told.
    #[inline(always)]
    pub fn registers(&self) -> u16
        ensures count { result ≡ registers_of self.now.pass.actor }
        ensures few { result ≤ REGISTERS }
    {
        match self.actor().mutator() {
            Some(mutator) => {
                mutator.operation();
                mutator.width()
            }
            None => REGISTERS as u16,
        }
    }

    /// Whether an operation that was ordered has no reply yet.
    #[inline(always)]
    pub fn is_open(&self) -> bool
        ensures open { IsTrue result ↔ IsOpen self.now.pass.actor }
        ensures no_more { HasNoMore self.now.pass.actor }
    {
        match self.actor().mutator() {
            Some(mutator) => {
                mutator.operation();
                mutator.is_open()
            }
            None => false,
        }
    }

    /// The newest reply of a mutator, if it shows one. None before the first, and for a helper; and where names were renewed since that and its last unit
    /// ended without a reply, or with its turn.
    #[inline(always)]
    pub fn newest(&self) -> Option<Reply>
        ensures { result ≡ newest_of self.now.pass.actor }
    {
        self.actor().mutator()?.newest()
    }

    /// How many operations of a mutator are done since names were renewed, its end among them; 0 for a helper.
    #[inline(always)]
    pub fn done(&self) -> u32
        ensures { result ≡ length (replied self.now.pass.actor) }
    {
        match self.actor().mutator() {
            Some(mutator) => mutator.operation(),
            None => 0,
        }
    }

    /// Whether the thread of a mutator has done its end.
    #[inline(always)]
    pub fn has_ended(&self) -> bool
        ensures { IsTrue result ↔ HasEnded self.now.pass.actor }
    {
        has_ended(self.actor())
    }

    /// Whether a mutator does nothing more before a pause, or the space says that one is wanted. It is one load, and a thread that has no
    /// operation to order asks it to know when to come home. That the space says so may be over at once, and no clause speaks of it.
    #[inline(always)]
    pub fn wants_pause(&self) -> bool
        ensures held_up { IsHeldUp self.now.pass.actor → IsTrue result }
        ensures no_wish { (is_mutator self.now.pass.actor ≡ false) ⊎ HasEnded self.now.pass.actor → result ≡ false }
    {
        let Some(mutator) = self.actor().mutator() else {
            return false;
        };
        match mutator.next() {
            Some(action) => self.shared.table().look(action.word as usize) == Some(1),
            None => !self.has_ended(),
        }
    }

    /// Orders an operation and does it, by single atomic steps. It takes no memory and waits for nobody.
    #[inline(always)]
    pub fn operate(&mut self, op: Op) -> Answer
        ensures pass { IsSameStation self.old self.new }
        ensures stays { StaysPassOf self.old self.new }
        ensures answer { HasAnswered self.old.pass op result self.new.pass }
    {
        self.is_open();
        if !self.pass.order_at(self.shared.table(), op) {
            return why_not(self.actor());
        }
        match self.carry_out(op) {
            Some(reply) => Answer::Done(reply),
            None => Answer::Waits,
        }
    }

    /// Goes on with the operation that was just ordered, by a unit. Where the caller knows the operation, the code is made for it alone.
    #[inline(always)]
    fn carry_out(&mut self, op: Op) -> Option<Reply>
        requires open { IsOpen self.old.pass.actor }
        requires op { IsNextOf self.old.pass.actor op }
        ensures pass { IsSameStation self.old self.new }
        ensures stays { StaysPassOf self.old self.new }
        ensures reply { HasGoneOn self.old.pass result self.new.pass }
    {
        let done = self.done();
        self.unit_of(op);
        if self.done() == done {
            None
        } else {
            self.newest()
        }
    }

    /// Goes on with the operation that was ordered and has no reply yet, and answers with the reply once it is done. None where it waits
    /// for a pause, or where no operation is open.
    #[inline(always)]
    pub fn go_on(&mut self) -> Option<Reply>
        ensures pass { IsSameStation self.old self.new }
        ensures stays { StaysPassOf self.old self.new }
        ensures reply { HasGoneOn self.old.pass result self.new.pass }
    {
        if self.is_open() { self.advance() } else { None }
    }

    /// Goes on with the operation that is open, by a unit.
    #[inline(always)]
    fn advance(&mut self) -> Option<Reply>
        requires { IsOpen self.old.pass.actor }
        ensures pass { IsSameStation self.old self.new }
        ensures stays { StaysPassOf self.old self.new }
        ensures reply { HasGoneOn self.old.pass result self.new.pass }
    {
        let done = self.done();
        self.unit();
        if self.done() == done {
            None
        } else {
            self.newest()
        }
    }

    /// Does the end of a mutator's thread, which takes no order any more. Whether it is done: not where an operation is open, where a pause is
    /// wanted first, and by a helper.
    pub fn end(&mut self) -> bool
        ensures pass { IsSameStation self.old self.new }
        ensures stays { StaysPassOf self.old self.new }
        ensures ended { Ends self.old.pass result self.new.pass }
    {
        if !self.is_mutator() || self.is_open() {
            return self.has_ended();
        }
        self.turn();
        self.has_ended()
    }

    /// Does up to so many units of a helper, as long as it finds work. Whether it found some in each. A mutator does nothing, and finds none.
    pub fn help(&mut self, units: u32) -> bool
        ensures pass { IsSameStation self.old self.new }
        ensures stays { StaysPassOf self.old self.new }
        ensures units { Helps units self.old.pass result self.new.pass }
    {
        if self.is_mutator() {
            return false;
        }
        for _ in 0..units {
            if !self.help_once() {
                return false;
            }
        }
        true
    }

    /// Does one unit. Whether it found work, as a unit of a helper may.
    fn help_once(&mut self) -> bool
        ensures pass { IsSameStation self.old self.new }
        ensures stays { StaysPassOf self.old self.new }
        ensures unit { HasTurned self.old.pass self.new.pass }
        ensures found { result ≡ found_work (end_of self.new.pass.actor) }
    {
        found_work(self.turn())
    }

    /// Does one unit of a mutator whose next operation is this one.
    #[inline(always)]
    fn unit_of(&mut self, op: Op)
        requires { IsNextOf self.old.pass.actor op }
        ensures pass { IsSameStation self.old self.new }
        ensures stays { StaysPassOf self.old self.new }
        ensures unit { (olds : List ℕ) × (length olds ≤ any_machine.left self.old.pass.actor) × Turned any_machine self.old.pass olds self.new.pass }
    {
        self.pass.carry_out_at(self.shared.table(), op);
    }

    /// Does one unit of the actor, out of line: so what orders an operation is small enough to be inlined where the operation is known.
    #[inline(never)]
    fn unit(&mut self)
        ensures pass { IsSameStation self.old self.new }
        ensures stays { StaysPassOf self.old self.new }
        ensures unit { (olds : List ℕ) × (length olds ≤ any_machine.left self.old.pass.actor) × Turned any_machine self.old.pass olds self.new.pass }
    {
        self.turn();
    }

    /// Does one unit of the actor, whatever its kind, and answers how it ended. A mutator that has done all that it was ordered does its
    /// end, and takes no order any more.
    #[inline(always)]
    fn turn(&mut self) -> Turn
        ensures pass { IsSameStation self.old self.new }
        ensures stays { StaysPassOf self.old self.new }
        ensures unit { (olds : List ℕ) × (length olds ≤ any_machine.left self.old.pass.actor) × Turned any_machine self.old.pass olds self.new.pass }
        ensures end { Some result ≡ end_of self.new.pass.actor }
        ensures rests { any_machine.rests self.new.pass.actor ≡ true }
    {
        self.pass.turn_at(self.shared.table())
    }
}

/// Why an actor takes no order: by where it stands, or for what was ordered.
fn why_not(actor: &AnyActor) -> Answer
    ensures { IsNoOrder actor.now result }
{
    if has_ended(actor) {
        Answer::Ended
    } else if is_held_up(actor) {
        Answer::Pause
    } else {
        Answer::Refused
    }
}

/// Whether a unit found work.
fn found_work(turn: Turn) -> bool
    ensures { result ≡ found_work (Some turn) }
{
    match turn {
        Turn::Mutator(_) => false,
        Turn::Decrementer(end) => matches!(end, DecEnd::Worked),
        Turn::Tracer(end) => !matches!(end, TraceEnd::Nothing),
    }
}

impl Drop for Station {
    fn drop(self) {
        drop(self.come_home());
    }
}
