//! Every kind of step on a table that threads share, hints, and passes in 2, 8 and 32 threads.
ghost use Rattle.std.specs.Prelude.{◌≡◌, ◌<◌, length, IfOk};

use crate::fitting::run_repeaters;
use crate::repeater::Repeater;
use lxr_actor::Kindred;
use lxr_hints::{Hinter, hinters};
use lxr_layout::Place;
use lxr_tables::{PlainWords, Words};
use std::alloc::{AllocError, Global};
use std::test::Fail;

/// Kinds of step, and what each leaves of 6 by the operand 3.
const KINDS: [(Kindred, u64); 7] = [
    (Kindred::Load, 6),
    (Kindred::Store, 3),
    (Kindred::Swap, 3),
    (Kindred::Or, 7),
    (Kindred::And, 2),
    (Kindred::Add, 9),
    (Kindred::Sub, 3),
];

fn words_from(alloc: Global, first: u64, count: usize) -> Result<PlainWords, AllocError>
    requires { 0 < count }
    ensures { IfOk result (λ w. length w ≡ count) }
{
    let mut words = PlainWords::new(alloc, count)?;
    words.set(0, first);
    Ok(words)
}

fn repeaters(
    alloc: Global,
    count: usize,
    kind: Kindred,
    operand: u64,
    todo: u32,
) -> Result<Vec<Repeater>, AllocError> {
    let mut actors = Vec::new(alloc);
    for _ in 0..count {
        actors.push(Repeater::new(kind, operand, todo))?;
    }
    Ok(actors)
}

#[test]
fn every_kind_of_step(rt: HostRuntime) -> Result<(), Fail> {
    for (kind, left) in KINDS {
        let actors = repeaters(rt.alloc(), 1, kind, 3, 1)?;
        let (words, actors) = run_repeaters(
            &rt,
            rt.alloc(),
            words_from(rt.alloc(), 6, 1)?,
            actors,
            1,
            1,
        )?;
        assert!(rt; words.count() == 1 && words.get(0) == left);
        assert!(rt; actors.len() == 1 && actors[0].found == 6 && actors[0].todo == 0);
    }
    Ok(())
}

/// What a hinter takes.
fn taken(hinter: &mut Hinter) -> Option<Place> {
    hinter.take()
}

/// Whether a hinter takes this place, and nothing then.
fn is_taken_once(hinter: &mut Hinter, place: Place) -> bool {
    taken(hinter) == Some(place) && taken(hinter).is_none()
}

/// How many places a hinter takes that has none, of at most 1,025.
fn room_in(hinter: &mut Hinter) -> u32 {
    for number in 0..1025_u32 {
        if !hinter.push(Place(number + 1)) {
            return number;
        }
    }
    1025
}

#[test]
fn hints_are_shared(rt: HostRuntime) -> Result<(), Fail> {
    let mut set = hinters(rt.alloc(), 3)?;
    let (Some(mut first), Some(mut second), Some(mut fresh)) = (set.pop(), set.pop(), set.pop())
    else {
        panic!(rt; "a set for three workers has three hinters")
    };
    assert!(rt; first.push(Place(5)) && is_taken_once(&mut first, Place(5)));
    assert!(rt; first.push(Place(7)) && is_taken_once(&mut second, Place(7)));
    assert!(rt; second.push(Place(9)) && is_taken_once(&mut first, Place(9)));
    assert_eq!(rt; room_in(&mut fresh), 1024);
    Ok(())
}

/// Whether of 8,193 words the first is 6, word 4,096 is 5, and each other 0.
fn are_as_written(words: &PlainWords) -> bool {
    if words.count() != 8193 {
        return false;
    }
    for at in 0..8193 {
        let wanted = match at {
            0 => 6,
            4096 => 5,
            _ => 0,
        };
        if words.get(at) != wanted {
            return false;
        }
    }
    true
}

/// Of three pages of words the middle one is written, then all are shared twice: each word is there each time.
#[test]
fn partly_written_words_are_shared(rt: HostRuntime) -> Result<(), Fail> {
    let mut words = PlainWords::new(rt.alloc(), 8193)?;
    words.set(4096, 5);
    for found in [0, 3] {
        let actors = repeaters(rt.alloc(), 1, Kindred::Add, 3, 1)?;
        assert!(rt; words.count() == 8193);
        let (after, actors) = run_repeaters(&rt, rt.alloc(), words, actors, 1, 1)?;
        assert!(rt; actors.len() == 1 && actors[0].found == found);
        words = after;
    }
    assert!(rt; are_as_written(&words));
    assert!(rt; words.count() == 8193);
    words.set(8192, 9);
    assert!(rt; words.count() == 8193 && words.get(8191) == 0 && words.get(8192) == 9);
    Ok(())
}

#[test]
fn sums_in_threads(rt: HostRuntime) -> Result<(), Fail> {
    for threads in [2, 8, 32] {
        let actors = repeaters(rt.alloc(), 32, Kindred::Add, 3, 1000)?;
        let words = words_from(rt.alloc(), 5, 1)?;
        // Each gets two turns more than it has steps, which change nothing.
        let (words, actors) = run_repeaters(&rt, rt.alloc(), words, actors, threads, 1002)?;
        assert!(rt; words.count() == 1 && words.get(0) == 5 + 3 * 32 * 1000);
        assert!(rt; actors.len() == 32 && actors.iter().all(|actor| actor.todo == 0));
    }
    Ok(())
}
