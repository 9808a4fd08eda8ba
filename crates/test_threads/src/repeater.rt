//! An actor that does the same step on word 0 again and again.
ghost use Rattle.std.specs.Prelude.{◌≡◌};

use lxr_actor::{Action, Actor, Kindred};
use lxr_graph::Op;
use lxr_layout::Place;

/// Does the same step on word 0 so many times, one a unit.
#[derive(Drop)]
pub struct Repeater {
    pub kind: Kindred,
    pub operand: u64,
    pub todo: u32,
    /// What the word was at the last step.
    pub found: u64,
}

impl Repeater {
    /// A repeater before its first step.
    pub fn new(kind: Kindred, operand: u64, todo: u32) -> Repeater
        ensures { result ≡ record { kind = kind; operand = operand; todo = todo; found = 0 } }
    {
        Repeater {
            kind,
            operand,
            todo,
            found: 0,
        }
    }
}

impl Actor for Repeater {
    ghost use Rattle.test_threads.specs.Repeating.{repeating};

    ghost machine = { repeating };

    fn next(&self) -> Option<Action> {
        if self.todo == 0 {
            return None;
        }
        Some(Action {
            kind: self.kind,
            word: 0,
            operand: self.operand,
        })
    }

    fn take(&mut self, old: u64) {
        self.todo = self.todo.saturating_sub(1);
        self.found = old;
    }

    fn resting(&self) -> bool {
        true
    }

    fn offer(&mut self, _place: Place) -> bool {
        false
    }

    fn surplus(&mut self) -> Option<Place> {
        None
    }

    fn order(&mut self, _op: Op) -> bool {
        false
    }
}
