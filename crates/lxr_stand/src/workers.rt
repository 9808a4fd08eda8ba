//! Workers: hands that serve, each on a thread of its own.
ghost use Rattle.std.specs.Prelude.{All};
ghost use Rattle.std.specs.Thread.{IsSync};
ghost use Rattle.lxr_stand.specs.Working.{IsHand, IsRaceOf};

use crate::Turns;
use crate::hands::{Hand, serve};
use crate::line::Channel;
use std::sync::Wait;
use std::thread;
use std::thread::Threads;

/// Lets each hand serve, the last one on this thread and each other on a thread that is started from this one, where one can be started.
#[cycle(standing)]
pub(crate) fn let_serve<
    R: Threads + Wait + Sync,
    T: Send + Drop,
    W: Turns<T>,
    L: Channel<T> + Sync,
>(rt: &R, line: &L, work: &W, hands: &mut [Hand<T>])
    requires race { IsRaceOf L.fits L.made L.left (W.fits work.now) (W.made work.now) (W.left work.now) }
    requires hands { All (IsHand L.made L.values (L.seats line.now)) hands.old }
    ensures { All (IsHand L.made L.values (L.seats line.now)) hands.new }
{
    let Some((hand, others)) = hands.split_first_mut() else {
        return;
    };
    if others.is_empty() {
        serve(rt, line, work, hand);
    } else {
        let_both_serve(rt, line, work, hand, others);
    }
}

/// Lets one hand serve on a thread of its own, and the others from this one.
#[cycle(standing)]
fn let_both_serve<R: Threads + Wait + Sync, T: Send + Drop, W: Turns<T>, L: Channel<T> + Sync>(
    rt: &R,
    line: &L,
    work: &W,
    hand: &mut Hand<T>,
    others: &mut [Hand<T>],
)
    requires race { IsRaceOf L.fits L.made L.left (W.fits work.now) (W.made work.now) (W.left work.now) }
    requires hand { IsHand L.made L.values (L.seats line.now) hand.old }
    requires hands { All (IsHand L.made L.values (L.seats line.now)) others.old }
    ensures hand { IsHand L.made L.values (L.seats line.now) hand.new }
    ensures hands { All (IsHand L.made L.values (L.seats line.now)) others.new }
{
    thread::join_mut(
        rt,
        &mut ||
            requires { IsRaceOf L.fits L.made L.left (W.fits work.now) (W.made work.now) (W.left work.now) × IsHand L.made L.values (L.seats line.now) hand.now }
            ensures { IsHand L.made L.values (L.seats line.entry.now) hand.exit.now }
        { serve(rt, line, work, hand) },
        &mut ||
            requires { IsSync R.row × IsSync W.row × IsSync L.row × IsRaceOf L.fits L.made L.left (W.fits work.now) (W.made work.now) (W.left work.now) × All (IsHand L.made L.values (L.seats line.now)) others.now }
            ensures { All (IsHand L.made L.values (L.seats line.entry.now)) others.exit.now }
        { let_serve(rt, line, work, others) },
    );
}
