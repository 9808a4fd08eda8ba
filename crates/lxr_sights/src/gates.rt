//! What holds the threads of a run: a gate before each of their operations.
ghost use Rattle.std.specs.Prelude.{ℕ};
ghost use Rattle.lxr_sights.specs.Gates.{IsLetPass};

use lxr_actor::Actor;
use lxr_mutator::Mutator;

/// A gate stands before each operation of a thread, and before its end.
pub trait Gate: Sync {
    /// It has let pass the operation with this number of a thread.
    ghost passed: { Self → ℕ → ℕ → Type 0 };

    /// Called before the operation with this number of a thread, counted from 0. The operation begins when it returns.
    fn at(&self, thread: u8, op: u32)
        ensures { passed self.now thread op };
}

/// The gate that lets everything pass.
#[derive(Clone, Copy, Debug)]
pub struct Open;

impl Gate for Open {
    ghost passed = { λ _ _ _. Unit {0} };

    fn at(&self, _thread: u8, _op: u32) {}
}

/// Calls the gate where the next step of a mutator is the first of an operation.
#[inline(always)]
pub fn pass_gate<G: Gate>(mutator: &Mutator, gate: &G)
    ensures { IsLetPass (G.passed gate.now) mutator.now }
{
    if mutator.resting() {
        gate.at(mutator.thread(), mutator.operation());
    }
}
