//! The channel that values are relayed through, and what each call of it does.
ghost use Rattle.crossbeam_channel.specs.Ends.{receives_on, sends_on};
ghost use Rattle.std.specs.Prelude.{◌≡◌};

use crate::rule::{Baton, Holding, Kept, OnePart, Race, Sent, Taken, Together};
use crossbeam_channel::{Pass, RuledReceiver, RuledSender, bounded_with};
use std::alloc::{AllocError, Global};
use std::sync::Wait;

/// The right of one thread to call the channel, and what it knows of it.
pub(crate) type Runner<T> = Pass<Baton<T>, Holding>;

/// A channel that values are relayed through, as threads call it, under the rule of a race.
pub(crate) trait Channel<T> {
    ghost use Rattle.std.specs.Prelude.{◌≡◌, ◌<◌, ◌≤◌, Bool, IfNone, IfSome, List, MatchResult, ℕ, length};
    ghost use Rattle.crossbeam_channel.specs.Claims.{Pass, view};
    ghost use Rattle.lxr_stand.specs.declared.rule.Baton.{Baton};
    ghost use Rattle.lxr_stand.specs.declared.rule.Holding.{Holding};
    ghost use Rattle.lxr_stand.specs.declared.rule.TheConstants.{PARTS};
    ghost use Rattle.lxr_stand.specs.Relaying.{HasTaken, IsIn, IsOnItsWay, below, empty_hands, price, together, weigh, with_sent, without_parts};

    /// What its race is.
    ghost fits: { T → Type 0 };

    ghost made: { T → T → Bool → Type 0 };

    ghost left: { T → ℕ };

    ghost values: { List T };

    /// The pass is one of the channel's.
    ghost seats: { Self → Pass (Baton T) Holding → Type 0 };

    /// A pass for a further thread, with one of the parts of this one, which keeps one.
    fn part(&self, pass: &mut Runner<T>) -> Runner<T>
        requires at { seats self.now pass.old }
        requires parts { 1 < (view pass.old).parts }
        ensures at { seats self.now pass.new }
        ensures rest { view pass.new ≡ without_parts 1 (view pass.old) }
        ensures other { seats self.now result }
        ensures empty { view result ≡ empty_hands };

    /// Takes in the pass of a thread that has ended.
    fn join(&self, pass: &mut Runner<T>, other: Runner<T>)
        requires at { seats self.now pass.old }
        requires other { seats self.now other }
        requires parts { 0 < (view pass.old).parts }
        ensures at { seats self.now pass.new }
        ensures both { view pass.new ≡ together (view pass.old) (view other) };

    /// Sends a value that is out, and is on its way. One that isn't taken comes back, and nothing has changed.
    fn send<R: Wait>(&self, rt: &R, pass: &mut Runner<T>, baton: Baton<T>) -> Result<(), Baton<T>>
        requires at { seats self.now pass.old }
        requires out { IsIn baton.place (view pass.old).out }
        requires way { IsOnItsWay fits made values baton }
        requires paid { price left baton.value ≤ (view pass.old).tokens }
        ensures at { seats self.now pass.new }
        ensures sent { MatchResult result (λ _. view pass.new ≡ with_sent left (view pass.old) baton) (λ back. (back ≡ baton) × (view pass.new ≡ view pass.old)) };

    /// Takes the value that has waited longest. Where none is there, whoever has all parts has all values out.
    fn take<R: Wait>(&self, rt: &R, pass: &mut Runner<T>) -> Option<Baton<T>>
        requires at { seats self.now pass.old }
        requires parts { 0 < (view pass.old).parts }
        ensures at { seats self.now pass.new }
        ensures taken { IfSome result (λ baton. HasTaken fits made left values (view pass.old) baton (view pass.new)) }
        ensures none { IfNone result (view pass.new ≡ view pass.old) }
        ensures all { IfNone result ((view pass.old).parts ≡ PARTS → (weight : ℕ → ℕ) → weigh weight (view pass.old).out ≡ weigh weight (below (length values))) };
}

/// Both ends of the channel, which threads share.
#[derive(Drop)]
pub struct Line<T: Drop, J: Race<T>> {
    sender: RuledSender<Baton<T>, Holding, Kept<J>>,
    receiver: RuledReceiver<Baton<T>, Holding, Kept<J>>,
    ghost joined: { receives_on receiver ≡ sends_on sender },
}

impl<T: Drop, J: Race<T>> Line<T, J> {
    ghost use Rattle.std.specs.Prelude.{◌<◌, IfOk};
    ghost use Rattle.crossbeam_channel.specs.Claims.{view};
    ghost use Rattle.lxr_stand.specs.Relaying.{all_out};
    ghost use Rattle.lxr_stand.specs.Working.{IsAt};

    /// A channel with room for so many values, and a pass that has all of them out.
    pub(crate) fn open(alloc: Global, count: usize) -> Result<(Line<T, J>, Runner<T>), AllocError>
        requires { 0 < count }
        ensures at { IfOk result (λ r. IsAt r.0 r.1) }
        ensures out { IfOk result (λ r. view r.1 ≡ all_out J.left J.values) }
    {
        let (sender, receiver, pass) = bounded_with(alloc, count)?;
        Ok((Line { sender, receiver }, pass))
    }
}

impl<T: Drop, J: Race<T>> Channel<T> for Line<T, J> {
    ghost use Rattle.std.specs.Prelude.{◌≡◌, ◌<◌, ◌≤◌, IfNone, IfSome, MatchResult, ℕ, length};
    ghost use Rattle.crossbeam_channel.specs.Claims.{view};
    ghost use Rattle.lxr_stand.specs.Relaying.{HasTaken, IsIn, IsOnItsWay, below, empty_hands, price, together, weigh, with_sent, without_parts};
    ghost use Rattle.lxr_stand.specs.declared.rule.TheConstants.{PARTS};
    ghost use Rattle.lxr_stand.specs.Working.{IsAt};

    ghost fits = { J.fits };

    ghost made = { J.made };

    ghost left = { J.left };

    ghost values = { J.values };

    ghost seats = { IsAt };

    fn part(&self, pass: &mut Runner<T>) -> Runner<T>
        requires at { IsAt self.now pass.old }
        requires parts { 1 < (view pass.old).parts }
        ensures at { IsAt self.now pass.new }
        ensures rest { view pass.new ≡ without_parts 1 (view pass.old) }
        ensures other { IsAt self.now result }
        ensures empty { view result ≡ empty_hands }
    {
        self.sender.another::<OnePart>(pass)
    }

    fn join(&self, pass: &mut Runner<T>, other: Runner<T>)
        requires at { IsAt self.now pass.old }
        requires other { IsAt self.now other }
        requires parts { 0 < (view pass.old).parts }
        ensures at { IsAt self.now pass.new }
        ensures both { view pass.new ≡ together (view pass.old) (view other) }
    {
        self.sender.absorb::<Together>(pass, other);
    }

    fn send<R: Wait>(&self, rt: &R, pass: &mut Runner<T>, baton: Baton<T>) -> Result<(), Baton<T>>
        requires at { IsAt self.now pass.old }
        requires out { IsIn baton.place (view pass.old).out }
        requires way { IsOnItsWay J.fits J.made J.values baton }
        requires paid { price J.left baton.value ≤ (view pass.old).tokens }
        ensures at { IsAt self.now pass.new }
        ensures sent { MatchResult result (λ _. view pass.new ≡ with_sent J.left (view pass.old) baton) (λ back. (back ≡ baton) × (view pass.new ≡ view pass.old)) }
    {
        self.sender
            .try_send_as::<Sent<J>, R>(rt, pass, baton)
            .map_err(|error| error.into_inner())
    }

    fn take<R: Wait>(&self, rt: &R, pass: &mut Runner<T>) -> Option<Baton<T>>
        requires at { IsAt self.now pass.old }
        requires parts { 0 < (view pass.old).parts }
        ensures at { IsAt self.now pass.new }
        ensures taken { IfSome result (λ baton. HasTaken J.fits J.made J.left J.values (view pass.old) baton (view pass.new)) }
        ensures none { IfNone result (view pass.new ≡ view pass.old) }
        ensures all { IfNone result ((view pass.old).parts ≡ PARTS → (weight : ℕ → ℕ) → weigh weight (view pass.old).out ≡ weigh weight (below (length J.values))) }
    {
        self.receiver.try_recv_as::<Taken<J>, R>(rt, pass).ok()
    }
}
