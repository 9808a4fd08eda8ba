//! How units of actors end.
ghost use Rattle.std.specs.Prelude.{◌≡◌, ◌≤◌};
ghost use Rattle.lxr_core.specs.Actors.{any_machine};
ghost use Rattle.lxr_shared.specs.Ends.{end_of};

use lxr_core::AnyActor;
use lxr_decrement::DecEnd;
use lxr_mutator::MutEnd;
use lxr_trace::TraceEnd;

/// How a unit of an actor ended, by the kind of the actor.
#[derive(Clone, Copy, Debug, PartialEq, Eq)]
pub enum Turn {
    Mutator(MutEnd),
    Decrementer(DecEnd),
    Tracer(TraceEnd),
}

/// How the actor's last unit ended; none before its first unit of the epoch.
#[inline(always)]
pub(crate) fn last_turn(actor: &AnyActor) -> Option<Turn>
    ensures { result ≡ end_of actor.now }
{
    match actor {
        AnyActor::Mutator(mutator) => mutator.ended().map(Turn::Mutator),
        AnyActor::Decrementer(decrementer) => decrementer.ended().map(Turn::Decrementer),
        AnyActor::Tracer(tracer) => tracer.ended().map(Turn::Tracer),
    }
}

/// No unit of an actor is long: no object has more fields than a shape may have, and no pocket more places than it has room for.
#[inline(always)]
pub(crate) fn unit_is_short(actor: &AnyActor)
    ensures { any_machine.left actor.now ≤ 8192 }
{
    match actor {
        AnyActor::Mutator(mutator) => {
            lxr_mutator::units_are_short();
            mutator.operation();
        }
        AnyActor::Decrementer(decrementer) => {
            lxr_decrement::units_are_short();
            decrementer.ended();
        }
        AnyActor::Tracer(tracer) => {
            lxr_trace::units_are_short();
            tracer.ended();
        }
    }
}
