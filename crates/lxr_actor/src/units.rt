//! Units of actors, step by step, wherever their steps are done.
//!
//! An actor says each of its steps, and goes on by what the step found. Where steps are done is a site of its own, which knows
//! what the actor did so far: a seat at a table that threads share, or words of one owner. So a unit is one text for all
//! sites: the one here asks the actor before each step, and an actor may have a straighter one, in which it is known from
//! the code which step is next.

ghost use Rattle.std.specs.Prelude.{ℕ, IsSome};
ghost use Rattle.lxr_actor.specs.Steps.{Does, DoesUnit, Finishes};

use crate::Actor;

/// Where an actor does its steps, on words of a table.
pub trait Steps<A: Actor, T> {
    /// The actor that is known here, at this table, is in this state after its steps so far.
    ghost holds: { T → Self → A → Type 0 };

    /// The actor in this state did its next step, whose word was so.
    ghost did: { Self → A → ℕ → Self → Type 0 };

    /// Does the actor's next step on the table, and not yet what the actor does with what was found. The answer is what the
    /// word was.
    fn step(&mut self, table: &T, actor: &A) -> u64
        requires next { IsSome (A.machine.action actor.now) }
        requires holds { holds table.now self.old actor.now }
        ensures did { did self.old actor.now result self.new }
        ensures holds { holds table.now self.new (A.machine.after actor.now result) };
}

/// Does the actor's next step.
#[inline(always)]
pub fn act<A: Actor, T, S: Steps<A, T>>(actor: &mut A, steps: &mut S, table: &T)
    requires next { IsSome (A.machine.action actor.old) }
    requires holds { S.holds table.now steps.old actor.old }
    ensures step { Does A.machine S.did actor.old steps.old actor.new steps.new }
    ensures holds { S.holds table.now steps.new actor.new }
{
    let old = steps.step(table, actor);
    actor.take(old);
}

/// Does the rest of the unit that is in progress, if one is.
#[inline(always)]
pub fn finish_unit<A: Actor, T, S: Steps<A, T>>(actor: &mut A, steps: &mut S, table: &T)
    requires holds { S.holds table.now steps.old actor.old }
    ensures rest { Finishes A.machine S.did actor.old steps.old actor.new steps.new }
    ensures holds { S.holds table.now steps.new actor.new }
{
    while !actor.resting() {
        act(actor, steps, table);
    }
}

/// Does one unit of an actor, and no step of a finished one.
#[inline(always)]
pub fn do_unit<A: Actor, T, S: Steps<A, T>>(actor: &mut A, steps: &mut S, table: &T)
    requires holds { S.holds table.now steps.old actor.old }
    ensures unit { DoesUnit A.machine S.did actor.old steps.old actor.new steps.new }
    ensures holds { S.holds table.now steps.new actor.new }
{
    if actor.next().is_none() {
        return;
    }
    act(actor, steps, table);
    finish_unit(actor, steps, table);
}
