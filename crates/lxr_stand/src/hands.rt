//! What a thread does: it takes a value, lets it take one turn, and sends it back or keeps it as finished.
ghost use Rattle.std.specs.Prelude.{◌≡◌, ◌≤◌, IfNone, IfSome};
ghost use Rattle.crossbeam_channel.specs.Claims.{view};
ghost use Rattle.lxr_stand.specs.Relaying.{IsFinished, IsIn, IsOnItsWay, price};
ghost use Rattle.lxr_stand.specs.Turning.{Finishes};
ghost use Rattle.lxr_stand.specs.Working.{HasLetGo, IsHand, IsRaceOf};

use crate::Turns;
use crate::line::{Channel, Runner};
use crate::rule::Baton;
use std::sync::Wait;

/// A thread's pass, and the values that it has finished, with room for all.
#[derive(Drop)]
pub struct Hand<T> {
    pub(crate) pass: Runner<T>,
    pub(crate) finished: Vec<Baton<T>>,
}

/// Lets a value take turns until one answers true.
pub(crate) fn finish<T, W: Turns<T>>(work: &W, value: &mut T)
    requires { W.fits work.now value.old }
    ensures { Finishes (W.made work.now) value.old value.new }
{
    loop {
        if work.turn(value) {
            return;
        }
    }
}

/// Lets a value take a turn, and sends it back, unless the turn answered true: then it is finished, and comes back. Where it isn't sent,
/// it takes a further turn.
fn carry<R: Wait, T: Drop, W: Turns<T>, L: Channel<T>>(
    rt: &R,
    line: &L,
    work: &W,
    pass: &mut Runner<T>,
    mut baton: Baton<T>,
) -> Option<Baton<T>>
    requires race { IsRaceOf L.fits L.made L.left (W.fits work.now) (W.made work.now) (W.left work.now) }
    requires at { L.seats line.now pass.old }
    requires out { IsIn baton.place (view pass.old).out }
    requires way { IsOnItsWay L.fits L.made L.values baton }
    requires paid { L.left baton.value ≤ (view pass.old).tokens }
    ensures at { L.seats line.now pass.new }
    ensures sent { IfNone result (HasLetGo baton.place (view pass.old) (view pass.new)) }
    ensures finished { IfSome result (λ done. (done.place ≡ baton.place) × IsFinished L.made L.values done × (view pass.new ≡ view pass.old)) }
{
    loop {
        if work.turn(&mut baton.value) {
            return Some(baton);
        }
        match line.send(rt, pass, baton) {
            Ok(()) => return None,
            Err(back) => baton = back,
        }
    }
}

/// Serves until it finds no value.
pub(crate) fn serve<R: Wait, T: Drop, W: Turns<T>, L: Channel<T>>(
    rt: &R,
    line: &L,
    work: &W,
    hand: &mut Hand<T>,
)
    requires race { IsRaceOf L.fits L.made L.left (W.fits work.now) (W.made work.now) (W.left work.now) }
    requires hand { IsHand L.made L.values (L.seats line.now) hand.old }
    ensures { IsHand L.made L.values (L.seats line.now) hand.new }
{
    while let Some(baton) = line.take(rt, &mut hand.pass) {
        if let Some(done) = carry(rt, line, work, &mut hand.pass, baton) {
            hand.finished.push_reserved(done);
        }
    }
}
