//! The caller: it sends all values, and when the threads have ended, it finishes what is left and puts each value in its place.
ghost use Rattle.std.specs.Prelude.{◌≡◌, ◌+◌, ◌<◌, ◌≤◌, All, IfOk, IsSome, None, Some, [], length, map, slice_set, vec_capacity, vec_len};
ghost use Rattle.crossbeam_channel.specs.Claims.{view};
ghost use Rattle.lxr_stand.specs.declared.rule.TheConstants.{PARTS};
ghost use Rattle.lxr_stand.specs.Relaying.{below, most_taken, without_parts};
ghost use Rattle.lxr_stand.specs.Turning.{Finishes};
ghost use Rattle.lxr_stand.specs.Working.{HasKept, IsHand, IsKeeper, IsRaceOf};

use crate::Turns;
use crate::hands::{Hand, finish};
use crate::line::{Channel, Runner};
use crate::rule::Baton;
use std::alloc::{AllocError, Global};
use std::sync::Wait;

/// The caller's pass, and a slot for each value.
#[derive(Drop)]
pub struct Keeper<T> {
    pub(crate) pass: Runner<T>,
    pub(crate) slots: Vec<Option<T>>,
}

/// So many empty slots.
pub(crate) fn empty_slots<T: Drop>(
    alloc: Global,
    count: usize,
) -> Result<Vec<Option<T>>, AllocError>
    ensures many { IfOk result (λ slots. length slots.items ≡ count) }
    ensures empty { IfOk result (λ slots. All (λ slot. slot ≡ None) slots.items) }
{
    let mut slots = Vec::with_capacity(alloc, count)?;
    for _ in 0..count {
        slots.push_reserved(None);
    }
    Ok(slots)
}

/// A hand for each thread, with one part of this pass and room for so many values.
pub(crate) fn deal_hands<T: Drop, L: Channel<T>>(
    alloc: Global,
    line: &L,
    pass: &mut Runner<T>,
    workers: u8,
    count: usize,
) -> Result<Vec<Hand<T>>, AllocError>
    requires at { L.seats line.now pass.old }
    requires parts { workers < (view pass.old).parts }
    requires count { length L.values ≤ count }
    ensures hands { IfOk result (λ hands. All (IsHand L.made L.values (L.seats line.now)) hands.items) }
    ensures many { IfOk result (λ hands. vec_len hands ≡ workers) }
    ensures at { L.seats line.now pass.new }
    ensures rest { IfOk result (λ _. view pass.new ≡ without_parts workers (view pass.old)) }
{
    let mut hands = Vec::with_capacity(alloc, usize::from(workers))?;
    for _ in 0..workers {
        let finished = Vec::with_capacity(alloc, count)?;
        hands.push_reserved(Hand {
            pass: line.part(pass),
            finished,
        });
    }
    Ok(hands)
}

/// Puts a finished value in its slot.
fn keep<T: Drop>(slots: &mut Vec<Option<T>>, baton: Baton<T>)
    requires { baton.place < length slots.old.items }
    ensures { slots.new.items ≡ slice_set slots.old.items baton.place (Some baton.value) }
{
    slots[baton.place] = Some(baton.value);
}

/// Finishes a value, and puts it in its slot.
fn finish_here<T: Drop, W: Turns<T>>(work: &W, slots: &mut Vec<Option<T>>, mut baton: Baton<T>)
    requires fit { W.fits work.now baton.value }
    requires place { baton.place < length slots.old.items }
    ensures { HasKept (Finishes (W.made work.now) baton.value) baton.place slots.old.items slots.new.items }
{
    finish(work, &mut baton.value);
    keep(slots, baton);
}

/// Sends all values, the last first. One that comes back is finished here.
pub(crate) fn send_all<R: Wait, T: Drop, W: Turns<T>, L: Channel<T>>(
    rt: &R,
    line: &L,
    work: &W,
    keeper: &mut Keeper<T>,
    values: &mut Vec<T>,
)
    requires race { IsRaceOf L.fits L.made L.left (W.fits work.now) (W.made work.now) (W.left work.now) }
    requires keeper { IsKeeper L.made L.values (L.seats line.now) (below (length L.values)) keeper.old }
    requires values { values.old.items ≡ L.values }
    requires fit { All L.fits L.values }
    requires out { ((view keeper.old.pass).out ≡ below (length L.values)) × ((view keeper.old.pass).tokens ≡ most_taken L.left L.values) }
    ensures keeper { IsKeeper L.made L.values (L.seats line.now) [] keeper.new }
    ensures parts { (view keeper.new.pass).parts ≡ (view keeper.old.pass).parts }
    ensures values { values.new.items ≡ [] }
    ensures room { vec_capacity values.new ≡ vec_capacity values.old }
{
    while let Some(value) = values.pop() {
        let baton = Baton {
            place: values.len(),
            value,
        };
        if let Err(back) = line.send(rt, &mut keeper.pass, baton) {
            finish_here(work, &mut keeper.slots, back);
        }
    }
}

/// Takes in the passes of the threads, which have ended, and puts what they finished in its slots.
pub(crate) fn gather<T: Drop, L: Channel<T>>(
    line: &L,
    keeper: &mut Keeper<T>,
    mut hands: Vec<Hand<T>>,
)
    requires keeper { IsKeeper L.made L.values (L.seats line.now) [] keeper.old }
    requires hands { All (IsHand L.made L.values (L.seats line.now)) hands.items }
    requires parts { 0 < (view keeper.old.pass).parts }
    ensures keeper { IsKeeper L.made L.values (L.seats line.now) [] keeper.new }
    ensures parts { (view keeper.new.pass).parts ≡ (view keeper.old.pass).parts + vec_len hands }
{
    while let Some(hand) = hands.pop() {
        take_in(line, keeper, hand);
    }
}

/// Takes in one of them.
fn take_in<T: Drop, L: Channel<T>>(line: &L, keeper: &mut Keeper<T>, hand: Hand<T>)
    requires keeper { IsKeeper L.made L.values (L.seats line.now) [] keeper.old }
    requires hand { IsHand L.made L.values (L.seats line.now) hand }
    requires parts { 0 < (view keeper.old.pass).parts }
    ensures keeper { IsKeeper L.made L.values (L.seats line.now) [] keeper.new }
    ensures parts { (view keeper.new.pass).parts ≡ (view keeper.old.pass).parts + 1 }
{
    let Hand { pass, mut finished } = hand;
    line.join(&mut keeper.pass, pass);
    while let Some(baton) = finished.pop() {
        keep(&mut keeper.slots, baton);
    }
}

/// Takes what is left in the channel, and finishes it. Each value stands in its slot then.
pub(crate) fn drain<R: Wait, T: Drop, W: Turns<T>, L: Channel<T>>(
    rt: &R,
    line: &L,
    work: &W,
    keeper: &mut Keeper<T>,
)
    requires race { IsRaceOf L.fits L.made L.left (W.fits work.now) (W.made work.now) (W.left work.now) }
    requires keeper { IsKeeper L.made L.values (L.seats line.now) [] keeper.old }
    requires parts { (view keeper.old.pass).parts ≡ PARTS }
    ensures keeper { IsKeeper L.made L.values (L.seats line.now) [] keeper.new }
    ensures full { All IsSome keeper.new.slots.items }
{
    while let Some(baton) = line.take(rt, &mut keeper.pass) {
        finish_here(work, &mut keeper.slots, baton);
    }
}

/// Lists what stands in the slots. It takes no memory.
pub(crate) fn list<T: Drop>(slots: Vec<Option<T>>, values: &mut Vec<T>)
    requires full { All IsSome slots.items }
    requires room { (values.old.items ≡ []) × (length slots.items ≤ vec_capacity values.old) }
    ensures { map Some values.new.items ≡ slots.items }
{
    for slot in slots {
        let Some(value) = slot else { unreachable!() };
        values.push_reserved(value);
    }
}
