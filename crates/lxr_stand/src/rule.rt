//! The rule of the channel that values are relayed through.
//!
//! A pass is out with the places of the values that its thread has taken and not sent back, whether it has them in hand or has finished
//! them. So each place is in the channel or out with one pass, each once. Tokens bound how often values are taken: a value pays one for
//! each turn that it can still take, and a take spends one.
ghost use Rattle.std.specs.Prelude.{ℕ, Bool, List};

use crossbeam_channel::protocol::{Join, Lesson, Outcome, Protocol, Split};
use std::collections::LinkedList;
use std::marker::{Brand, PhantomData};

/// The parts of the right to know where all values are: one for each thread there may be, and one for the caller.
pub(crate) const PARTS: u64 = 9;

/// A value that goes from thread to thread, with its place in the list that is relayed.
#[derive(Drop)]
pub struct Baton<T> {
    pub place: usize,
    pub value: T,
}

/// What a pass knows: its parts, the places that it has out, its tokens, and how many values it has taken. No value of it is made.
pub struct Holding {
    pub parts: u64,
    pub out: LinkedList<u64>,
    pub tokens: u64,
    pub taken: u64,
}

/// What values a channel is for, and what the turns of their work mean. Each relay picks it.
pub trait Race<T> {
    ghost fits: { T → Type 0 };

    ghost made: { T → T → Bool → Type 0 };

    ghost left: { T → ℕ };

    ghost values: { List T };
}

impl<T> Race<T> for Brand {
    ghost use Rattle.std.specs.Prelude.{[]};

    ghost fits = { λ _. Unit {0} };

    ghost made = { λ _ _ _. Unit {0} };

    ghost left = { λ _. 0 };

    ghost values = { [] };
}

/// The rule.
pub struct Kept<J> {
    race: PhantomData<J>,
}

impl<T, J: Race<T>> Protocol<Baton<T>, Holding> for Kept<J> {
    ghost use Rattle.lxr_stand.specs.Relaying.{IsKept, all_out};

    ghost holds = { IsKept J.fits J.made J.left J.values };

    ghost first = { all_out J.left J.values };
}

/// What a take tells, and what it learns where it finds nothing.
pub(crate) struct Taken<J> {
    race: PhantomData<J>,
}

impl<T, J: Race<T>> Outcome<Baton<T>, Holding> for Taken<J> {
    ghost use Rattle.lxr_stand.specs.Relaying.{HasTaken};

    ghost then = { HasTaken J.fits J.made J.left J.values };
}

impl<T, J: Race<T>> Lesson<Baton<T>, Holding> for Taken<J> {
    ghost use Rattle.lxr_stand.specs.Relaying.{KnowsAll};

    ghost fact = { KnowsAll J.fits J.made J.left J.values };
}

/// What a send tells; it learns nothing.
pub(crate) struct Sent<J> {
    race: PhantomData<J>,
}

impl<T, J: Race<T>> Outcome<Baton<T>, Holding> for Sent<J> {
    ghost use Rattle.std.specs.Prelude.{◌≡◌};
    ghost use Rattle.lxr_stand.specs.Relaying.{with_sent};

    ghost then = { λ v b w. w ≡ with_sent J.left v b };
}

impl<T, J: Race<T>> Lesson<Baton<T>, Holding> for Sent<J> {
    ghost fact = { λ v items. Unit {0} };
}

/// A pass gives one part to a new one, which has nothing out.
pub(crate) struct OnePart;

impl Split<Holding> for OnePart {
    ghost use Rattle.lxr_stand.specs.Relaying.{empty_hands, without_parts};

    ghost left = { without_parts 1 };

    ghost right = { λ v. empty_hands };
}

/// A pass takes in another.
pub(crate) struct Together;

impl Join<Holding> for Together {
    ghost use Rattle.lxr_stand.specs.Relaying.{spent, together};

    ghost both = { together };

    ghost spent = { spent };
}
