//! Standing threads: a list of values is relayed among threads until each value is finished.
//!
//! All values lie in one channel. A thread takes the one that has waited longest, lets it take one turn, and sends it back, or keeps it
//! where the turn was its last. So any thread serves any value, and each value is with one thread at a time. A thread ends where it found
//! the channel empty; when all have ended, the caller finishes what is left.
//!
//! The channel has a rule (`rule`), which says where each value is and what it has become; each send and each take keeps it.
#![tactic(auto)]

ghost use Rattle.std.specs.Prelude.{◌≡◌, ℕ, ◌<◌, ◌≤◌, Bool, false, All, IfOk, IsOk, MatchResult, [], length, vec_len};
ghost use Rattle.crossbeam_channel.specs.Claims.{view};
ghost use Rattle.lxr_stand.specs.Relaying.{all_out, below, without_parts};
ghost use Rattle.lxr_stand.specs.Turning.{HasRelayed};
ghost use Rattle.lxr_stand.specs.Working.{IsAt, IsHand, IsKeeper, IsRaceOf};

mod hands;
mod keeper;
mod line;
mod rule;
mod workers;

use crate::hands::Hand;
use crate::keeper::{Keeper, deal_hands, drain, empty_slots, gather, list, send_all};
use crate::line::Line;
use crate::rule::Race;
use crate::workers::let_serve;
use std::alloc::{AllocError, Global};
use std::marker::Brand;
use std::sync::Wait;
use std::thread::Threads;

/// Work that values take turns at.
pub trait Turns<T>: Sync {
    /// The value can take a turn.
    ghost fits: { Self → T → Type 0 };

    /// What a turn made of a value, and what it answered.
    ghost made: { Self → T → T → Bool → Type 0 };

    /// A bound on the turns that a value takes before one answers true.
    ghost left: { Self → T → ℕ };

    /// Lets a value take one turn. Whether it is finished.
    fn turn(&self, value: &mut T) -> bool
        requires { fits self.now value.old }
        ensures made { made self.now value.old value.new result }
        ensures fits { result ≡ false → fits self.now value.new }
        ensures left { result ≡ false → left self.now value.new < left self.now value.old };
}

/// Values that weren't relayed for want of memory. They are as they were, and in their order.
#[derive(Drop)]
pub struct Refused<T> {
    pub values: Vec<T>,
}

/// Relays values among so many threads until each is finished: it has taken turns up to the first that answered true, whichever threads
/// served it, and stands where it stood. Where a thread can't be started, its work is done by the caller. All memory is taken before the
/// first turn.
pub fn relay<R: Threads + Wait + Sync, T: Send + Drop, W: Turns<T>>(
    rt: &R,
    alloc: Global,
    values: Vec<T>,
    workers: u8,
    work: &W,
) -> Result<Vec<T>, Refused<T>>
    requires workers { (1 ≤ workers) × (workers ≤ 8) }
    requires few { length values.items ≤ 64 }
    requires fit { All (W.fits work.now) values.items }
    ensures relayed { MatchResult result (λ after. HasRelayed (W.made work.now) values.items after.items) (λ refused. refused.values.items ≡ values.items) }
    ensures empty { values.items ≡ [] → IsOk result }
{
    if values.is_empty() {
        return Ok(values);
    }
    relay_over::<Brand, R, T, W>(rt, alloc, values, workers, work)
}

/// Relays values, of which there are some, in a race that is over these values and whose turns are those of the work.
fn relay_over<J: Race<T> + Send + Sync, R: Threads + Wait + Sync, T: Send + Drop, W: Turns<T>>(
    rt: &R,
    alloc: Global,
    mut values: Vec<T>,
    workers: u8,
    work: &W,
) -> Result<Vec<T>, Refused<T>>
    requires race { IsRaceOf J.fits J.made J.left (W.fits work.now) (W.made work.now) (W.left work.now) }
    requires values { values.items ≡ J.values }
    requires fit { All J.fits J.values }
    requires some { 0 < length J.values }
    requires workers { workers ≤ 8 }
    ensures { MatchResult result (λ after. HasRelayed J.made J.values after.items) (λ refused. refused.values.items ≡ values.items) }
{
    let Ok((line, mut keeper, mut hands)) = prepare::<J, T>(alloc, values.len(), workers) else {
        return Err(Refused { values });
    };
    send_all(rt, &line, work, &mut keeper, &mut values);
    let_serve(rt, &line, work, hands.as_mut_slice());
    gather(&line, &mut keeper, hands);
    drain(rt, &line, work, &mut keeper);
    list(keeper.slots, &mut values);
    Ok(values)
}

/// All that a relay takes memory for: the channel, the caller's slots, and a hand for each thread.
fn prepare<J: Race<T>, T: Send + Drop>(
    alloc: Global,
    count: usize,
    workers: u8,
) -> Result<(Line<T, J>, Keeper<T>, Vec<Hand<T>>), AllocError>
    requires count { (0 < count) × (count ≡ length J.values) }
    requires workers { workers ≤ 8 }
    ensures keeper { IfOk result (λ r. IsKeeper J.made J.values (IsAt r.0) (below (length J.values)) r.1) }
    ensures rest { IfOk result (λ r. view r.1.pass ≡ without_parts workers (all_out J.left J.values)) }
    ensures hands { IfOk result (λ r. All (IsHand J.made J.values (IsAt r.0)) r.2.items) }
    ensures many { IfOk result (λ r. vec_len r.2 ≡ workers) }
{
    let (line, mut pass) = Line::open(alloc, count)?;
    let hands = deal_hands(alloc, &line, &mut pass, workers, count)?;
    let slots = empty_slots(alloc, count)?;
    Ok((line, Keeper { pass, slots }, hands))
}
