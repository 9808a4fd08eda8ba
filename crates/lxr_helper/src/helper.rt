//! Helpers: machines that work from a pocket of places, one unit after another.
ghost use Rattle.std.specs.Prelude.{◌≡◌, IfOk, length};
ghost use Rattle.lxr_layout.specs.Spaces.{AreLimits};
ghost use Rattle.lxr_helper.specs.Helpers.{IsHelper, again, begun, first, is_finished};

use crate::phases::{Phase, Unit};
use crate::pocket::Pocket;
use crate::states::HelperState;
use crate::words::is_in_heap;
use lxr_actor::{Action, Actor};
use lxr_graph::Op;
use lxr_layout::{Limits, Place, regions};
use std::alloc::{AllocError, Global};
use std::marker::Model;

/// A helper, as a machine. What it does in a unit is told by its phases.
///
/// Its pocket gives out last what it took in first: the last place that was offered, or put in by a step, is the first to be
/// worked on or given up.
///
/// It is finished for the epoch, and has no next step, exactly where it rests, its last unit found nothing to do, and its
/// pocket is empty. A place that is offered to it and taken makes it go on, and so does `start_again`.
#[derive(Drop)]
pub struct Helper<P: Phase<E>, E: Copy> {
    state: HelperState<P, E>,
}

impl<P: Phase<E>, E: Copy> Model for Helper<P, E> {
    ghost use Rattle.lxr_helper.specs.declared.states.HelperState.{HelperState};
    ghost use Rattle.lxr_helper.specs.Helpers.{IsHelper};

    ghost Value = { HelperState P E };

    ghost view = { λ h. h.state };

    ghost invariant = { λ h. IsHelper P.work h.state };
}

impl<P: Phase<E>, E: Copy> Helper<P, E> {
    /// A helper in a space of these limits. It rests, its pocket is empty, and it has no end yet. It takes the memory for its
    /// pocket.
    pub fn new(alloc: Global, limits: Limits) -> Result<Helper<P, E>, AllocError>
        requires { AreLimits limits }
        ensures { IfOk result (λ h. h ≡ first P.work limits) }
    {
        let pocket = Pocket::new(alloc)?;
        Ok(Helper {
            state: HelperState {
                regions: regions(limits),
                pocket,
                phase: P::resting(),
                end: None,
            },
        })
    }

    /// How its last unit ended; none before the first of the epoch.
    pub fn ended(&self) -> Option<E>
        ensures end { result ≡ self.now.end }
        // What holds of each helper.
        ensures sound { IsHelper P.work self.now }
    {
        self.state.end
    }

    /// How many places its pocket has.
    #[inline(always)]
    pub fn places(&self) -> usize
        ensures { result ≡ length self.now.pocket.items }
    {
        self.state.pocket.len()
    }

    /// A new epoch begins: its pocket is emptied, and it has no end yet, so it isn't finished.
    pub fn start_again(&mut self)
        ensures { self.new ≡ again P.work self.old }
    {
        self.state.pocket.clear();
        self.state.phase = P::resting();
        self.state.end = None;
    }

    /// Begins a unit, unless one is in progress.
    #[inline(always)]
    fn begin(&mut self)
        ensures begun { self.new ≡ begun P.work self.old }
        // What holds of each helper.
        ensures sound { IsHelper P.work self.old }
    {
        if self.state.phase.rests() {
            self.state.look_on();
        }
    }

    /// The phase of its next step, if it isn't finished.
    #[inline(always)]
    fn phase_begun(&self) -> P
        ensures phase { result ≡ (begun P.work self.now).phase }
        // What holds of each helper.
        ensures sound { IsHelper P.work self.now }
    {
        if self.state.phase.rests() {
            P::question(self.state.pocket.last())
        } else {
            self.state.phase
        }
    }

    /// Whether it is finished for the epoch.
    #[inline(always)]
    fn is_finished(&self) -> bool
        ensures { result ≡ is_finished P.work self.now }
    {
        let found_nothing = match self.state.end {
            Some(how) => P::is_nothing(how),
            None => false,
        };
        self.state.phase.rests() && found_nothing && self.state.pocket.is_empty()
    }
}

impl<P: Unit<E>, E: Copy> Actor for Helper<P, E> {
    ghost use Rattle.lxr_helper.specs.Helpers.{helper_machine};

    ghost machine = { helper_machine P.work };

    #[inline(always)]
    fn next(&self) -> Option<Action> {
        if self.is_finished() {
            return None;
        }
        self.phase_begun().action(&self.state.regions)
    }

    #[inline(always)]
    fn take(&mut self, old: u64) {
        self.begin();
        P::see(&mut self.state, old);
    }

    #[inline(always)]
    fn resting(&self) -> bool {
        self.state.phase.rests()
    }

    fn offer(&mut self, place: Place) -> bool {
        if !is_in_heap(&self.state.regions, u64::from(place.0)) || !self.state.pocket.has_room() {
            return false;
        }
        self.state.pocket.keep(place);
        true
    }

    fn surplus(&mut self) -> Option<Place> {
        self.state.pocket.take()
    }

    fn order(&mut self, _op: Op) -> bool {
        false
    }
}
