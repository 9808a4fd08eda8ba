//! Deques that the threads of an epoch share, under a rule of hints.
ghost use Rattle.std.specs.Prelude.{◌≡◌, IfOk};
ghost use Rattle.lxr_layout.specs.declared.Place.{Place};
ghost use Rattle.crossbeam_deque.specs.Handles.{worker_deque};
ghost use Rattle.lxr_hints.specs.Rules.{MayLeave};
ghost use Rattle.lxr_hints.specs.Sharing.{IsWay, way_deque, HasStolen};

use crate::deques::Deques;
use crate::rule::{AnyPlace, Got, HintRule, Journal, Popped, Put, Ruled};
use crossbeam_deque::{Pass, Stealer, Worker};
use lxr_layout::Place;
use std::alloc::{AllocError, Global};

pub(crate) type Deque<H> = Worker<Place, Global, Journal, Ruled<H>>;

/// A way to the deque of another hinter.
#[derive(Drop)]
pub(crate) struct Way<H: HintRule> {
    pub(crate) stealer: Stealer<Place, Global, Journal, Ruled<H>>,
    pub(crate) pass: Pass<Place, Journal>,
}

impl<H: HintRule> Way<H> {
    /// A way to this deque.
    pub(crate) fn to(deque: &Deque<H>) -> Result<Way<H>, AllocError>
        ensures way { IfOk result IsWay }
        ensures deque { IfOk result (λ way. way_deque way ≡ worker_deque deque.now) }
    {
        let stealer = deque.stealer()?;
        let pass = stealer.pass();
        Ok(Way { stealer, pass })
    }

    /// Makes one try.
    fn steal(&mut self) -> Option<Place>
        requires leaves { MayLeave H.holds H.taken }
        requires way { IsWay self.old }
        ensures way { IsWay self.new }
        ensures deque { way_deque self.new ≡ way_deque self.old }
        ensures stolen { HasStolen H.taken self.old result self.new }
    {
        self.stealer.steal_as::<Got<H>>(&mut self.pass).success()
    }
}

/// A deque of places, and the ways to those of the others.
#[derive(Drop)]
pub struct Shared<H: HintRule = AnyPlace> {
    pub(crate) own: Deque<H>,
    pub(crate) ways: Vec<Way<H>>,
}

impl<H: HintRule> Deques for Shared<H> {
    ghost use Rattle.std.specs.Prelude.{length};
    ghost use Rattle.crossbeam_deque.specs.Handles.{worker_index};
    ghost use Rattle.lxr_hints.specs.Rules.{MayJoin};
    ghost use Rattle.lxr_hints.specs.Sharing.{HasPopped, HasPut, HasStolenAt, IsSound};

    ghost holds = { IsSound H.holds H.taken };

    ghost pushed = { λ s. worker_index s.own };

    ghost others = { λ s. length s.ways.items };

    ghost joins = { MayJoin H.holds };

    ghost put = { HasPut };

    ghost popped = { HasPopped H.holds H.taken };

    ghost stolen = { HasStolenAt H.taken };

    fn others(&self) -> usize {
        self.ways.len()
    }

    fn push(&mut self, place: Place) {
        if self.own.push_as::<Put>(place).is_err() {
            unreachable!()
        }
    }

    fn pop(&mut self) -> Option<Place> {
        self.own.pop_as::<Popped<H>>()
    }

    fn steal(&mut self, number: usize) -> Option<Place> {
        self.ways[number].steal()
    }
}
