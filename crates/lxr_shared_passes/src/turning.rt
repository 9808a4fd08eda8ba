//! Ways to do a unit of an actor at its seat.
ghost use Rattle.std.specs.Prelude.{◌≡◌};
ghost use Rattle.lxr_actor.specs.Steps.{DoesUnit};
ghost use Rattle.lxr_shared_passes.specs.Seats.{Did, Sits};

use crate::pass::PassTable;
use crate::seated::Seated;
use lxr_actor::Actor;

/// A way to do units of actors of a type.
pub trait Turning<A: Actor> {
    /// The actors that the way is for.
    ghost suits: { Self → A → Type 0 };

    /// Does one unit of the actor that the seat holds, and no step of a finished one.
    fn do_unit(&self, actor: &mut A, seated: &mut Seated<A>, epoch: &PassTable<A>)
        requires suits { suits self.now actor.old }
        requires seat { Sits A.machine epoch.now.id seated.old actor.old }
        ensures seat { Sits A.machine epoch.now.id seated.new actor.new }
        ensures unit { DoesUnit A.machine (Did A.machine) actor.old seated.old actor.new seated.new };
}

/// The way for any actor: it is asked before each step.
pub struct StepByStep;

impl<A: Actor> Turning<A> for StepByStep {
    ghost suits = { λ way a. Unit {0} };

    #[inline(always)]
    fn do_unit(&self, actor: &mut A, seated: &mut Seated<A>, epoch: &PassTable<A>) {
        lxr_actor::do_unit(actor, seated, epoch);
    }
}
