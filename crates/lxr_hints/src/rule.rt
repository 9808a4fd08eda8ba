//! What a caller can know of hints that others take too.
//!
//! A rule speaks of the places that a deque holds at any one moment. Calls are proved for every rule. So a place that is taken was
//! pushed, since a rule may say that each place on a deque was. Where the own deque was found empty, the rule held of no places: a body that is
//! proved for every rule knows that from a look at a deque alone. That a deque was looked at is told by what the call did there (`Deques`).
ghost use Rattle.std.specs.Prelude.{List};
ghost use Rattle.lxr_layout.specs.declared.Place.{Place};

use crossbeam_deque::protocol::{Outcome, Protocol};
use lxr_layout::Place;
use std::collections::LinkedList;
use std::marker::PhantomData;

/// What holds of the places on a deque whenever it is looked at, and what is known from that.
pub trait HintRule {
    // Of all places on one deque, the next one to leave first.
    ghost holds: { List Place → Type 0 };

    // Of a place that is taken.
    ghost taken: { Place → Type 0 };
}

/// The rule that asks nothing and tells nothing, for hints of a kind: whoever has hinters of two kinds can't mistake one for the other.
pub struct AnyPlace<K = ()> {
    kind: PhantomData<K>,
}

impl<K> HintRule for AnyPlace<K> {
    ghost use Rattle.std.specs.Prelude.{⊤};

    ghost holds = { λ places. ⊤ };

    ghost taken = { λ place. ⊤ };
}

/// What a pass has done at its deque: the places that it put there, and those that it got. No value of it is made.
pub struct Journal {
    pub put: LinkedList<Place>,
    pub got: LinkedList<Place>,
}

/// The rule as the protocol of a deque. Each pass keeps its journal, which only a push and a place that is taken add to.
pub(crate) struct Ruled<H> {
    rule: PhantomData<H>,
}

impl<H: HintRule> Protocol<Place, Journal> for Ruled<H> {
    ghost use Rattle.lxr_hints.specs.Journals.{no_entries};

    ghost holds = { λ places _. H.holds places };

    ghost first = { no_entries };

    ghost guest = { no_entries };
}

/// What a push tells: its place is put.
pub(crate) struct Put;

impl Outcome<Place, Journal> for Put {
    ghost use Rattle.std.specs.Prelude.{◌≡◌};
    ghost use Rattle.lxr_hints.specs.Journals.{with_put};

    ghost then = { λ before places after. after ≡ with_put before places };
}

/// What a steal tells that gave a place: it is got, and the rule says something of it.
pub(crate) struct Got<H> {
    rule: PhantomData<H>,
}

impl<H: HintRule> Outcome<Place, Journal> for Got<H> {
    ghost use Rattle.std.specs.Prelude.{◌≡◌, All};
    ghost use Rattle.lxr_hints.specs.Journals.{with_got};

    ghost then = { λ before places after. (after ≡ with_got before places) × All H.taken places };
}

/// What a pop tells: of a place that it gave what a steal tells, and where the deque was found empty, that the rule held of no places.
pub(crate) struct Popped<H> {
    rule: PhantomData<H>,
}

impl<H: HintRule> Outcome<Place, Journal> for Popped<H> {
    ghost use Rattle.std.specs.Prelude.{◌≡◌, [], All};
    ghost use Rattle.lxr_hints.specs.Journals.{with_got};

    ghost then = { λ before places after. (after ≡ with_got before places) × All H.taken places };

    ghost empty = { λ _. H.holds [] };
}
