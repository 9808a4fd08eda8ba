//! The deques that a hinter works on.
//!
//! What a call did at one of them is told by a relation that no other clause gives out. So a body over any deques that ensures such
//! a relation has made the call, between the very states that the relation names: that a deque was found empty is no fact that could be
//! known from elsewhere.
ghost use Rattle.std.specs.Prelude.{ℕ, ◌≡◌, ◌+◌, ◌≤◌, ◌<◌, Option};
ghost use Rattle.lxr_layout.specs.declared.Place.{Place};

use crate::hinter::HINTS;
use lxr_layout::Place;

/// A deque of one's own, and those of the others, by numbers from 0.
pub trait Deques {
    // They are in order.
    ghost holds: { Self → Type 0 };

    // How many pushes its own has taken at most, and how many others there are.
    ghost pushed: { Self → ℕ };

    ghost others: { Self → ℕ };

    // Its own may be given this place.
    ghost joins: { Place → Type 0 };

    // This place was put on its own deque.
    ghost put: { Self → Place → Self → Type 0 };

    // A look at its own deque gave this place, or none.
    ghost popped: { Self → Option Place → Self → Type 0 };

    // A try at the deque of the other of this number gave this place, or none.
    ghost stolen: { Self → ℕ → Option Place → Self → Type 0 };

    /// How many others there are.
    fn others(&self) -> usize
        requires { holds self.now }
        ensures { result ≡ others self.now };

    /// Puts a place on its own deque.
    fn push(&mut self, place: Place)
        requires holds { holds self.old }
        requires joins { joins place }
        requires room { pushed self.old < HINTS }
        ensures put { put self.old place self.new }
        ensures holds { holds self.new }
        ensures pushed { pushed self.new ≡ pushed self.old + 1 }
        ensures others { others self.new ≡ others self.old };

    /// Looks for a place on its own deque.
    fn pop(&mut self) -> Option<Place>
        requires holds { holds self.old }
        ensures popped { popped self.old result self.new }
        ensures holds { holds self.new }
        ensures pushed { pushed self.new ≤ pushed self.old }
        ensures others { others self.new ≡ others self.old };

    /// Makes one try at the deque of another.
    fn steal(&mut self, number: usize) -> Option<Place>
        requires holds { holds self.old }
        requires number { number < others self.old }
        ensures stolen { stolen self.old number result self.new }
        ensures holds { holds self.new }
        ensures pushed { pushed self.new ≡ pushed self.old }
        ensures others { others self.new ≡ others self.old };
}
