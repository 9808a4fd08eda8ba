//! A hinter: a deque of hints, and the ways to those of the others.
ghost use Rattle.std.specs.Prelude.{◌≡◌, ◌+◌, cond, nat_lt};
ghost use Rattle.lxr_layout.specs.declared.Place.{Place};
ghost use Rattle.lxr_hints.specs.Taking.{IsPut, IsTaken, TriesEach};

use crate::deques::Deques;
use crate::shared::Shared;
use lxr_layout::Place;
use std::marker::Model;

/// How many places a hinter takes in between its making and its end. Its deque is made for so many.
pub const HINTS: usize = 1024;

/// One worker's part in a set of hinters. Contracts see its deques, and how many pushes on it were answered true.
#[derive(Drop)]
pub struct Hinter<D: Deques = Shared> {
    pub(crate) deques: D,
    pub(crate) pushes: usize,
}

impl<D: Deques> Model for Hinter<D> {
    ghost use Rattle.std.specs.Prelude.{◌≤◌};
    ghost use Rattle.lxr_hints.specs.Taking.{Hinting};
    ghost use Rattle.lxr_hints.specs.declared.hinter.TheConstants.{HINTS};

    ghost Value = { Hinting D };

    ghost view = { λ h. record { deques = h.deques; pushes = h.pushes } };

    ghost invariant = { λ h. D.holds h.deques × (D.pushed h.deques ≤ h.pushes) × (h.pushes ≤ HINTS) };
}

impl<D: Deques> Hinter<D> {
    /// Whether a push would be answered true.
    pub fn takes_in(&self) -> bool
        ensures { result ≡ nat_lt self.now.pushes HINTS }
    {
        self.pushes < HINTS
    }

    /// Puts a place on its deque, for itself and the others to take. It answers false exactly where 1,024 pushes on this hinter
    /// were answered true already; the place is dropped then. It takes no memory.
    pub fn push(&mut self, place: Place) -> bool
        requires { D.joins place }
        ensures answer { result ≡ nat_lt self.old.pushes HINTS }
        ensures counted { self.new.pushes ≡ cond result (self.old.pushes + 1) self.old.pushes }
        ensures put { IsPut D.put self.old.deques place result self.new.deques }
    {
        if self.pushes >= HINTS {
            return false;
        }
        self.deques.push(place);
        self.pushes += 1;
        true
    }

    /// Takes a place from its own deque, and where that is empty makes one try at each other.
    pub fn take(&mut self) -> Option<Place>
        ensures taken { IsTaken D.popped D.stolen (D.others self.old.deques) self.old.deques result self.new.deques }
        ensures pushes { self.new.pushes ≡ self.old.pushes }
    {
        let own = self.deques.pop();
        if own.is_some() {
            return own;
        }
        steal(&mut self.deques)
    }
}

/// Tries each of the others once, until one gives a place.
fn steal<D: Deques>(deques: &mut D) -> Option<Place>
    requires holds { D.holds deques.old }
    ensures tries { TriesEach D.stolen (D.others deques.old) deques.old result deques.new }
    ensures holds { D.holds deques.new }
    ensures pushed { D.pushed deques.new ≡ D.pushed deques.old }
{
    for number in 0..deques.others() {
        let stolen = deques.steal(number);
        if stolen.is_some() {
            return stolen;
        }
    }
    None
}
