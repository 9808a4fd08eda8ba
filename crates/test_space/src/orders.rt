//! Orders: when a mutator takes an operation, and that it does what it took.
ghost use Rattle.std.specs.Prelude.{◌≡◌, true};
ghost use Rattle.lxr_mutator.specs.Mutators.{first_live};

use crate::steps::{LIMITS, advance, finish, words_with};
use lxr_actor::Actor;
use lxr_base::Listed;
use lxr_graph::{Op, Reply};
use lxr_layout::Shape;
use lxr_mutator::{MutEnd, Mutator};
use std::alloc::Global;
use std::process::Abort;

/// An operation that needs no object.
const CLEAR: Op = Op::Nil { dest: 3 };

/// A shape with one reference more than there may be.
const TOO_LARGE: Shape = Shape {
    refs: 1024,
    values: 0,
};

/// Operations that no mutator takes.
const REFUSED: &[Op] = &[
    Op::End,
    Op::Nil { dest: 16 },
    Op::New {
        dest: 0,
        shape: TOO_LARGE,
    },
    Op::Same { left: 0, right: 16 },
];

/// A mutator that does at most 4 operations in an epoch, and tells names.
fn live(rt: &impl Abort, alloc: Global) -> Mutator
    ensures { result ≡ first_live 1 LIMITS 4 true }
{
    Mutator::live(alloc, 1, LIMITS, 4, true).expect(rt, "memory")
}

#[test]
fn orders_are_done_in_turn(rt: HostRuntime) {
    let mut words = words_with(&rt, rt.alloc(), &[]);
    let mut mutator = live(&rt, rt.alloc());
    assert!(rt; mutator.order(CLEAR));
    finish(&rt, &mut words, &mut mutator);
    assert!(rt; mutator.ended() == Some(MutEnd::OpDone(Reply::Cleared)));
    assert!(rt; mutator.order(Op::Same { left: 3, right: 4 }));
    finish(&rt, &mut words, &mut mutator);
    assert!(rt; mutator.ended() == Some(MutEnd::OpDone(Reply::Same(true))));
    assert!(rt; mutator.newest() == Some(Reply::Same(true)));
}

/// While an operation runs none is taken; between two one is, though a pause is asked for; once it looked at the pause word, none is.
#[test]
fn orders_are_taken_at_rest(rt: HostRuntime) {
    let mut words = words_with(&rt, rt.alloc(), &[]);
    let mut mutator = live(&rt, rt.alloc());
    assert!(rt; mutator.order(Op::Pause));
    advance(&rt, &mut words, &mut mutator, 1);
    assert!(rt; !mutator.order(CLEAR));
    finish(&rt, &mut words, &mut mutator);
    assert!(rt; mutator.ended() == Some(MutEnd::OpDone(Reply::Paused)));
    assert!(rt; mutator.order(CLEAR));
    finish(&rt, &mut words, &mut mutator);
    assert!(rt; mutator.ended() == Some(MutEnd::Asked));
    assert!(rt; !mutator.order(CLEAR));
    assert!(rt; mutator.ordered() == 2);
}

/// A turn with nothing ordered is the thread's end, and no order is taken behind it.
#[test]
fn a_turn_without_orders_is_the_end(rt: HostRuntime) {
    let mut words = words_with(&rt, rt.alloc(), &[]);
    let mut mutator = live(&rt, rt.alloc());
    finish(&rt, &mut words, &mut mutator);
    assert!(rt; mutator.ended() == Some(MutEnd::Ended));
    assert!(rt; !mutator.order(CLEAR));
    assert!(rt; mutator.ordered() == 0);
}

#[test]
fn orders_are_well_formed(rt: HostRuntime) {
    let mut mutator = live(&rt, rt.alloc());
    for op in REFUSED {
        assert!(rt; !mutator.order(*op), "{op:?}");
    }
    assert!(rt; mutator.ordered() == 0);
}

/// No order is taken while one is open, nor by a mutator of a script, which has all its operations.
#[test]
fn orders_come_one_by_one(rt: HostRuntime) {
    let mut mutator = live(&rt, rt.alloc());
    assert!(rt; mutator.order(CLEAR));
    assert!(rt; !mutator.order(CLEAR));
    assert!(rt; mutator.is_open());
    assert!(rt; mutator.ordered() == 1);
    let script = Listed::new(rt.alloc());
    let mut scripted = Mutator::new(rt.alloc(), 1, script, LIMITS, 4).expect(&rt, "memory");
    assert!(rt; !scripted.order(CLEAR));
    assert!(rt; scripted.ordered() == 0);
}

/// Where names are given anew, a thread's next name follows those of its objects that are left.
#[test]
fn names_follow_those_that_are_left(rt: HostRuntime) {
    let mut mutator = live(&rt, rt.alloc());
    mutator.renew(5);
    assert!(rt; mutator.next_name().serial == 6);
    assert!(rt; mutator.newest().is_none());
    assert!(rt; mutator.ordered() == 0);
    assert!(rt; mutator.order(CLEAR));
}
