//! The opening of an epoch.
ghost use Rattle.std.specs.Prelude.{◌≡◌, ◌+◌, ◌*◌, ◌<◌, ◌≤◌, length};
ghost use Rattle.std.specs.List.{All};
ghost use Rattle.lxr_layout.specs.declared.TheConstants.{REGISTERS};
ghost use Rattle.lxr_mutator.specs.Mutators.{IsHeld};
ghost use Rattle.lxr_invariant.specs.AbstractState.{AbstractState};
ghost use Rattle.lxr_core_invariant.specs.EpochStates.{Beginning};
ghost use Rattle.lxr_core.specs.Actors.{AreInOrder, mutators_in};
ghost use Rattle.lxr_core.specs.Executions.{HoldsExecution};
ghost use Rattle.lxr_core.specs.Opening.{Begins, MayOpen, Opens, execution_at};
ghost use Rattle.lxr_core.specs.Starting.{HaveStarted, MayAllStart, MayNameAll};

use crate::actors::AnyActor;
use crate::filling::fill_pockets;
use lxr_image::{RegisterFile, Space};
use lxr_layout::PAUSE_WORD;

/// Opens an epoch: no pause is asked for, each mutator has its registers again and begins anew with no operation done
/// in this epoch, unless it has done its end, and each helper has an empty pocket and no end. Then, while a trace runs,
/// tracers' pockets are filled with places of gray objects that are not marked, each once: in the order of granules, the
/// first tracer's pocket first. One has fewer than 64 only where no such place is left over. Where no trace runs they stay
/// empty, and no gray bit is looked at. No step is made yet. Where a history so far led to this space and these actors, the
/// invariant of the epoch holds from here on.
pub fn open_epoch(space: &mut Space, actors: &mut [AnyActor])
    requires { (g : AbstractState) × MayOpen g space.old actors.old }
    ensures opens { Opens space.old space.new actors.old actors.new }
    ensures execution { (b : Beginning) → Begins b space.old actors.old → HoldsExecution b (execution_at b space.new actors.new) }
{
    // The number of pauses has 32 bits, so the cursor of remembered entries doesn't come round in the epoch.
    let _pauses = space.pauses;
    space.registers.unnamed_are_nil();
    space.put_cursor(PAUSE_WORD, 0);
    start_all(actors, &space.registers);
    if space.trace.is_some() {
        fill_pockets(space, actors);
    }
}

/// Each actor begins again, a mutator with its 256 registers.
fn start_all(actors: &mut [AnyActor], registers: &RegisterFile)
    requires order { AreInOrder actors.old }
    requires registers { length registers.now.items ≡ REGISTERS * length (mutators_in actors.old) }
    requires width { MayNameAll registers.now.width (mutators_in actors.old) }
    requires few { length (mutators_in actors.old) ≤ 255 }
    requires held { All IsHeld registers.now.items }
    requires rest { MayAllStart actors.old }
    ensures { HaveStarted registers.now.items actors.old actors.new (length actors.old) }
{
    for number in 0..actors.len() {
        actors[number].start_again(registers, number);
    }
}
