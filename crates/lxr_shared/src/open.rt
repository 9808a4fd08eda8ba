//! Opening: the words of a space become a table, and each actor a pass.
ghost use Rattle.std.specs.Prelude.{◌≡◌, ◌<◌, ◌≤◌, [], All, IfOk, length, vec_len, vec_capacity};
ghost use Rattle.lxr_actor.specs.Run.{AlwaysFits, core_of};
ghost use Rattle.lxr_shared_passes.specs.Passing.{dealt};
ghost use Rattle.lxr_core.specs.Actors.{any_machine};
ghost use Rattle.lxr_core.specs.Closing.{AreResting};
ghost use Rattle.lxr_shared.specs.Ends.{HaveEnds, IsBetweenUnits};

use crate::epoch::{Epoch, Pass};
use lxr_core::AnyActor;
use lxr_image::Space;
use lxr_shared_passes::{ActorPass, open_passes};
use std::alloc::{AllocError, Global};

/// Shares the words of a space, and gives each actor a pass, in order. The condition is that there are words, that all
/// actors rest and each that is finished for the epoch knows its last end, and that in each core that a schedule leads to
/// from these words and actors each next step fits. After a refusal, space and actors are gone.
pub fn open_shared(
    alloc: Global,
    mut space: Space,
    actors: Vec<AnyActor>,
) -> Result<(Epoch, Vec<Pass>), AllocError>
    requires words { 0 < length space.words }
    requires resting { AreResting actors.items }
    requires ends { HaveEnds actors.items }
    requires fits { AlwaysFits any_machine (core_of space.words actors.items) }
    ensures epoch { IfOk result (λ r. (r.0.opening ≡ core_of space.words actors.items) × (r.0.space ≡ space)) }
    ensures passes { IfOk result (λ r. r.1.items ≡ dealt r.0.id (core_of space.words actors.items) 0 actors.items) }
{
    let spare = Vec::with_capacity(alloc, actors.len())?;
    let mut sealed = Vec::with_capacity(alloc, actors.len())?;
    space.make_room_for_runs(alloc);
    let (words, rest) = space.into_parts();
    let (epoch, passes) = open_passes(alloc, words, actors)?;
    seal(passes, &mut sealed);
    let epoch = Epoch {
        passes: epoch,
        rest,
        spare,
    };
    Ok((epoch, sealed))
}

/// Makes passes of a space's actors of passes of any actors.
fn seal(passes: Vec<ActorPass<AnyActor>>, sealed: &mut Vec<Pass>)
    requires between { All (λ p. IsBetweenUnits p.actor) passes.items }
    requires room { (sealed.old.items ≡ []) × (vec_len passes ≤ vec_capacity sealed.old) }
    ensures { sealed.new.items ≡ passes.items }
{
    let mut rest = passes.into_iter();
    while let Some(pass) = rest.next() {
        sealed.push_reserved(Pass { pass });
    }
    rest.destroy_empty();
}
