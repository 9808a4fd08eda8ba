//! The work of helpers, by the phases of their units.
ghost use Rattle.std.specs.Prelude.{◌≡◌, ◌&&◌, ◌≤◌, if◌then◌else◌};
ghost use Rattle.lxr_helper.specs.Helpers.{Work, after_in, ends, goes_to, led, tries_next};
ghost use Rattle.lxr_helper.specs.HelperLaws.{IsLawful};
ghost use Rattle.lxr_helper.specs.Indexes.{HaveIndexes};
ghost use Rattle.lxr_helper.specs.Words.{has_bit};

use crate::states::HelperState;
use crate::words::has_bit;
use lxr_actor::Action;
use lxr_layout::{Place, Regions};

/// Where a helper's unit is: which step is next, with what the unit has learned. A unit ends in one of the ways of type `E`.
pub trait Phase<E: Copy>: Copy {
    /// The work of such helpers.
    ghost work: { Work Self E };

    /// The phase between units.
    fn resting() -> Self
        ensures { result ≡ work.resting };

    /// Whether it is the phase between units.
    fn rests(&self) -> bool
        ensures { result ≡ work.rests self.now };

    /// What a unit begins with: a place that was taken out of the pocket, or what it turns to where there was none.
    fn question(place: Option<Place>) -> Self
        ensures { result ≡ work.question place };

    /// Whether a unit that ended so found nothing to do.
    fn is_nothing(end: E) -> bool
        ensures { result ≡ work.is_nothing end };

    /// The action of the phase; at rest there is none until a unit begins.
    fn action(&self, regions: &Regions) -> Option<Action>
        requires indexes { HaveIndexes regions.now }
        requires may { work.may regions.now self.now }
        ensures { result ≡ work.action regions.now self.now };

    /// The work keeps to the rules.
    ghost lawful: { IsLawful work };
}

/// How a helper's units go on.
pub trait Unit<E: Copy>: Phase<E> {
    /// Goes on after the step of its phase was done on a word that was `old`.
    fn see(helper: &mut HelperState<Self, E>, old: u64)
        requires indexes { HaveIndexes helper.old.regions }
        requires may { Self.work.may helper.old.regions helper.old.phase }
        ensures { helper.new ≡ after_in Self.work helper.old helper.old.phase old };
}

impl<P: Phase<E>, E: Copy> HelperState<P, E> {
    /// Goes on to another phase.
    #[inline(always)]
    pub fn go_on(&mut self, phase: P)
        ensures { self.new ≡ led P.work self.old (goes_to phase) }
    {
        self.phase = phase;
    }

    /// The unit is through.
    #[inline(always)]
    pub fn stop(&mut self, how: E)
        ensures { self.new ≡ led P.work self.old (ends how) }
    {
        self.phase = P::resting();
        self.end = Some(how);
    }

    /// Goes on with the pocket's last place, which it takes out, or with what it turns to where the pocket is empty.
    #[inline(always)]
    pub fn look_on(&mut self)
        ensures { self.new ≡ led P.work self.old tries_next }
    {
        self.phase = P::question(self.pocket.take());
    }

    /// The start bit of a place was loaded: where it is set and the place is wanted, it is to be claimed.
    #[inline(always)]
    pub fn see_start(&mut self, place: Place, wanted: bool, word: u64, claims: P)
        requires { 1 ≤ place.0 }
        ensures { self.new ≡ led P.work self.old (if wanted && has_bit place word then goes_to claims else tries_next) }
    {
        if wanted && has_bit(place, word) {
            self.go_on(claims);
        } else {
            self.look_on();
        }
    }

    /// The bit that claims a place was set: the object is its own where the bit was clear.
    #[inline(always)]
    pub fn see_claim(&mut self, place: Place, word: u64, reads: P)
        requires { 1 ≤ place.0 }
        ensures { self.new ≡ led P.work self.old (if has_bit place word then tries_next else goes_to reads) }
    {
        if has_bit(place, word) {
            self.look_on();
        } else {
            self.go_on(reads);
        }
    }
}
