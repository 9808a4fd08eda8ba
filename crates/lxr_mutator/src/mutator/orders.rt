//! Orders: operations that a mutator gets one by one, between those that it does.
ghost use Rattle.std.specs.Prelude.{◌≡◌, ◌↔◌, IsTrue};
ghost use Rattle.lxr_mutator.specs.Mutators.{MayTakeOrder};
ghost use Rattle.lxr_mutator.specs.Orders.{has_room_for_order, is_operation, is_ready, takes_order, with_order};

use super::Mutator;
use crate::phases::MutatorPhase;
use lxr_graph::{Op, is_formed_for};

impl Mutator {
    /// Whether it takes the operation: it is between two operations and may do a further one in this epoch, all that it has is done, the
    /// operation is one that it may be asked for, and there is room for it and its reply.
    #[inline(always)]
    #[tactic(auto, using(crate::proofs::OrderLemmas::takes_order_decides))]
    pub(super) fn takes_order(&self, op: Op) -> bool
        ensures test { result ≡ takes_order self.now op }
        ensures may { IsTrue result ↔ MayTakeOrder self.now op }
    {
        self.is_ready()
            && !self.is_open()
            && is_operation(self.width, op)
            && self.has_room_for_order()
    }

    /// Puts an operation behind those that it has done.
    #[inline(always)]
    pub(super) fn append(&mut self, op: Op)
        requires { MayTakeOrder self.old op }
        ensures { self.new ≡ with_order self.old op }
    {
        self.agenda.order(op);
    }

    /// Whether it is between two operations, and may do a further one in this epoch.
    #[inline(always)]
    fn is_ready(&self) -> bool
        ensures { result ≡ is_ready self.now.phase }
    {
        matches!(self.phase, MutatorPhase::Ready)
    }

    /// Whether there is room for one more operation with its reply.
    #[inline(always)]
    fn has_room_for_order(&self) -> bool
        ensures { result ≡ has_room_for_order self.now }
    {
        self.agenda.has_room()
    }
}

/// Whether a thread with so many registers may be asked for an operation: it names these alone, its shape fits, and it is no end.
#[inline(always)]
fn is_operation(width: u16, op: Op) -> bool
    ensures { result ≡ is_operation width op }
{
    match op {
        Op::End => false,
        _ => is_formed_for(width, op),
    }
}
