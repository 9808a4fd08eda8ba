//! A pause with what is handed in to it, stations that go to other threads, and the last pause.
ghost use Rattle.std.specs.Prelude.{ℕ, List, [], ◌∷◌, Some, IfSome};
ghost use Rattle.lxr_stations.specs.Arriving.{Tells};
ghost use Rattle.lxr_shared_heap.specs.Heaps.{IsPassOf};
ghost use Rattle.lxr_stations.specs.Stations.{Stationed};

use lxr_graph::{Op, Reply};
use lxr_shared_heap::{
    Answer, Arrival, Heap, NotOut, Paused, RUNS_LISTED, Resumed, Settings, Station,
};
use std::alloc::{AllocError, Global};
use std::test::Fail;
use std::thread;
use std::thread::Threads;

const SETTINGS: Settings = Settings {
    blocks: 64,
    mutators: 8,
    helpers: 1,
    log: 64,
    remember: 64,
    registers: 16,
    evacuate: 8,
    every: 100,
    trace: 2,
    within: 2,
    runs: RUNS_LISTED,
    names: true,
};

const NIL: Op = Op::Nil { dest: 1 };

/// A heap in its first epoch. It lacks nothing but memory.
fn begin(alloc: Global) -> Result<Heap, AllocError> {
    match Heap::open(alloc, SETTINGS) {
        Ok(heap) => go_on(alloc, heap),
        Err(_) => Err(AllocError),
    }
}

/// The heap in the next epoch.
fn go_on(alloc: Global, mut heap: Heap) -> Result<Heap, AllocError> {
    if resume(alloc, &mut heap) == Resumed::Open {
        return Ok(heap);
    }
    end(heap);
    Err(AllocError)
}

/// What has come of the wish to go on.
fn resume(alloc: Global, heap: &mut Heap) -> Resumed {
    heap.resume(alloc)
}

/// Lets go of a heap. All tests do so here, since each place where that is done is proved by itself.
fn end(_heap: Heap) {}

/// How the pass of mutator 0 is handed in to a pause.
#[derive(Clone, Copy)]
enum Way {
    /// Its station is.
    Out,
    /// It is at home, and its homecoming is.
    Home,
    /// It came home, its homecoming is handed in, and some thread has it again.
    Again,
}

/// What an operation of mutator 0 is to answer, and what is to come of a pause to which its pass is handed in then.
struct Row {
    op: Op,
    answer: Answer,
    paused: Paused,
}

/// Nobody asks for a pause.
const UNWANTED: Row = Row {
    op: NIL,
    answer: Answer::Done(Reply::Cleared),
    paused: Paused::NotWanted,
};

/// It is asked for, while another pass is away.
const REFUSED: Row = Row {
    op: Op::Pause,
    answer: Answer::Done(Reply::Paused),
    paused: Paused::Away(2),
};

/// It is asked for, while some thread has the pass again whose homecoming is handed in.
const AGAIN: Row = Row {
    op: Op::Pause,
    answer: Answer::Done(Reply::Paused),
    paused: Paused::Away(0),
};

/// The station of mutator 0, which was ordered an operation, and its answer.
fn order(heap: &Heap, op: Op) -> Option<(Station, Answer)>
    ensures { IfSome result (λ r. IsPassOf heap.now.stage 0 r.0) }
{
    let mut station = heap.let_out(0).ok()?;
    let answer = station.operate(op);
    Some((station, answer))
}

/// What comes of a pause to which this alone is handed in, for mutator 0.
fn pause_with_one(alloc: Global, heap: &mut Heap, arrival: Arrival) -> Result<Paused, AllocError>
    requires { (number : ℕ) (s : Stationed) → Tells (Some arrival ∷ []) number s → IsPassOf heap.old.stage number s }
{
    let arrivals = vec![in alloc; Some(arrival)]?;
    Ok(heap.pause_with(arrivals))
}

/// What comes of a pause to which a homecoming is handed in, while some thread has the pass again.
fn pause_while_out(alloc: Global, heap: &mut Heap, home: Arrival) -> Result<Paused, AllocError>
    requires { (number : ℕ) (s : Stationed) → Tells (Some home ∷ []) number s → IsPassOf heap.old.stage number s }
{
    let _again = heap.let_out(0);
    pause_with_one(alloc, heap, home)
}

/// Hands the pass of mutator 0 in to a pause.
fn hand_in(alloc: Global, heap: &mut Heap, station: Station, way: Way) -> Result<Paused, AllocError>
    requires { IsPassOf heap.old.stage 0 station }
{
    match way {
        Way::Out => pause_with_one(alloc, heap, Arrival::Out(station)),
        Way::Home => pause_with_one(alloc, heap, Arrival::Home(station.come_home())),
        Way::Again => pause_while_out(alloc, heap, Arrival::Home(station.come_home())),
    }
}

/// Orders an operation of mutator 0, and hands its pass in to a pause. Whether all comes as a row says.
fn comes(alloc: Global, heap: &mut Heap, way: Way, row: &Row) -> Result<bool, AllocError> {
    let Some((station, answer)) = order(heap, row.op) else {
        return Ok(false);
    };
    let paused = hand_in(alloc, heap, station, way)?;
    Ok(answer == row.answer && paused == row.paused)
}

/// Whether a pause is refused that is asked for while another pass is away.
fn is_refused(alloc: Global, heap: &mut Heap, way: Way) -> Result<bool, AllocError> {
    let _away = heap.let_out(2);
    comes(alloc, heap, way, &REFUSED)
}

/// Whether a pause is made that was asked for.
fn is_made(alloc: Global, heap: &mut Heap, way: Way) -> Result<bool, AllocError> {
    let Some((station, _)) = order(heap, NIL) else {
        return Ok(false);
    };
    Ok(hand_in(alloc, heap, station, way)? == Paused::Made)
}

/// Whether a pause with a pass that is handed in is made where that asks for it, and neither where nobody does nor while another one is away.
fn all_come(alloc: Global, heap: &mut Heap, way: Way) -> Result<bool, AllocError> {
    let is_kept = comes(alloc, heap, way, &UNWANTED)? && is_refused(alloc, heap, way)?;
    Ok(is_kept && is_made(alloc, heap, way)?)
}

/// The same on a heap of its own.
fn is_handed_in(alloc: Global, way: Way) -> Result<bool, AllocError> {
    let mut heap = begin(alloc)?;
    let is_so = all_come(alloc, &mut heap, way);
    end(heap);
    is_so
}

#[test]
fn passes_are_handed_in(rt: HostRuntime) -> Result<(), Fail> {
    assert!(rt; is_handed_in(rt.alloc(), Way::Out)?);
    assert!(rt; is_handed_in(rt.alloc(), Way::Home)?);
    Ok(())
}

/// Whether a pause is refused to which a homecoming is handed in, while some thread has the pass again.
fn is_no_pass(alloc: Global) -> Result<bool, AllocError> {
    let mut heap = begin(alloc)?;
    let is_so = comes(alloc, &mut heap, Way::Again, &AGAIN);
    end(heap);
    is_so
}

#[test]
fn a_homecoming_is_no_pass(rt: HostRuntime) -> Result<(), Fail> {
    assert!(rt; is_no_pass(rt.alloc())?);
    Ok(())
}

/// What one operation answers of a station that was let out, which is dropped then.
fn once(station: Result<Station, NotOut>) -> Option<Answer> {
    match station {
        Ok(mut station) => Some(station.operate(NIL)),
        Err(_) => None,
    }
}

/// What the stations of two mutators answer in threads of their own.
fn from_threads<R: Threads + Sync>(rt: &R, heap: &Heap) -> (Option<Answer>, Option<Answer>) {
    let one = heap.let_out(0);
    let other = heap.let_out(1);
    thread::join(rt, move || once(one), move || once(other))
}

/// Whether both answers are those of an operation that is done.
fn are_cleared(first: Option<Answer>, second: Option<Answer>) -> bool {
    first == Some(Answer::Done(Reply::Cleared)) && second == first
}

#[test]
fn stations_go_to_other_threads(rt: HostRuntime) -> Result<(), Fail> {
    let heap = begin(rt.alloc())?;
    let (first, second) = from_threads(&rt, &heap);
    end(heap);
    assert!(rt; are_cleared(first, second));
    Ok(())
}

/// Lets a helper work. Whether it was let out.
fn helps(heap: &Heap, number: usize) -> bool {
    match heap.let_out(number) {
        Ok(mut station) => {
            station.help(100);
            true
        }
        Err(_) => false,
    }
}

/// Whether helpers work.
fn all_help(heap: &Heap) -> bool {
    for number in 8..10 {
        if !helps(heap, number) {
            return false;
        }
    }
    true
}

/// What an operation answers.
fn operate(station: &mut Station, op: Op) -> Answer {
    station.operate(op)
}

/// Whether a mutator ends, which no operation does.
fn ends(station: &mut Station) -> bool {
    operate(station, Op::End) == Answer::Refused
        && station.end()
        && operate(station, NIL) == Answer::Ended
}

/// Whether the mutator of a number is let out and ends.
fn is_ended(heap: &Heap, number: usize) -> bool {
    match heap.let_out(number) {
        Ok(mut station) => ends(&mut station),
        Err(_) => false,
    }
}

/// Whether each mutator ends.
fn all_end(heap: &Heap) -> bool {
    for number in 0..8 {
        if !is_ended(heap, number) {
            return false;
        }
    }
    true
}

/// What has come of the wish for a pause.
fn pause(heap: &mut Heap) -> Paused {
    heap.pause()
}

/// Whether the last pause is made, and nothing comes then.
fn is_last(alloc: Global, heap: &mut Heap) -> bool {
    pause(heap) == Paused::Made
        && resume(alloc, heap) == Resumed::Ended
        && pause(heap) == Paused::Ended
}

/// Whether one pause was made, and no pass is let out any more.
fn is_over(heap: &Heap) -> bool {
    heap.pauses() == Some(1) && heap.let_out(0).err() == Some(NotOut::Ended)
}

/// Whether helpers work, each mutator ends, and the last pause is made, after which nothing comes.
fn comes_to_its_end(alloc: Global) -> Result<bool, AllocError> {
    let mut heap = begin(alloc)?;
    let is_so = all_help(&heap) && all_end(&heap) && is_last(alloc, &mut heap) && is_over(&heap);
    end(heap);
    Ok(is_so)
}

#[test]
fn a_heap_ends(rt: HostRuntime) -> Result<(), Fail> {
    assert!(rt; comes_to_its_end(rt.alloc())?);
    Ok(())
}
