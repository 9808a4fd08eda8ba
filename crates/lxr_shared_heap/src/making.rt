//! A new heap: an empty space, mutators that are yet to be ordered their operations, and helpers.
ghost use Rattle.std.specs.Prelude.{◌≡◌, ◌+◌, ◌≤◌, [], IfOk, None, replicate, vec_capacity, vec_len};
ghost use Rattle.lxr_layout.specs.Spaces.{AreLimits};
ghost use Rattle.lxr_invariant.specs.AbstractState.{AbstractState};
ghost use Rattle.lxr_core.specs.Actors.{mutators_in};
ghost use Rattle.lxr_rounds_invariant.specs.LoopInvariant.{IsBetweenEpochs};
ghost use Rattle.lxr_stations.specs.Living.{AreLive};
ghost use Rattle.lxr_shared_heap.specs.Making.{AreNew};
ghost use Rattle.lxr_shared_heap.specs.Settings.{AreSettings, run_of};
ghost use Rattle.lxr_shared_heap.specs.Telling.{EndByNewest};

use crate::settings::Settings;
use lxr_core::{AnyActor, Lodged};
use lxr_image::Space;
use lxr_layout::Limits;
use lxr_mutator::Mutator;
use lxr_rounds::add_helpers;
use std::alloc::{AllocError, Global};

/// A live mutator for each thread, in order, in a list with room for some more actors. Each tells names, or none does.
fn new_mutators(
    alloc: Global,
    limits: Limits,
    every: u32,
    names: bool,
    more: usize,
) -> Result<Vec<AnyActor>, AllocError>
    requires limits { AreLimits limits }
    requires every { (1 ≤ every) × (every ≤ 1048576) }
    requires more { more ≤ 16 }
    ensures new { IfOk result (λ actors. AreNew limits every names limits.threads actors.items) }
    ensures room { IfOk result (λ actors. vec_len actors + more ≤ vec_capacity actors) }
{
    let mut actors = Vec::with_capacity(alloc, usize::from(limits.threads) + more)?;
    for number in 0..limits.threads {
        let mutator = Mutator::live(alloc, number + 1, limits, every, names)?;
        mutator.operation();
        let lodged = Lodged::new(alloc, mutator)?;
        actors.push_reserved(AnyActor::Mutator(lodged));
    }
    Ok(actors)
}

/// The space and the actors of a new heap, between two epochs: an empty space, a live mutator for each thread, and behind them the
/// decrementers and tracers.
pub(crate) fn new_heap(
    alloc: Global,
    settings: Settings,
) -> Result<(Space, Vec<AnyActor>), AllocError>
    requires { AreSettings settings }
    ensures between { IfOk result (λ made. ((g : AbstractState) × IsBetweenEpochs (run_of settings (replicate settings.mutators [])) made.0 None made.1.items [] g) × AreLive (mutators_in made.1.items) × EndByNewest [] (mutators_in made.1.items)) }
    ensures untold { IfOk result (λ made. made.0.report.told.items ≡ []) }
{
    let limits = settings.limits();
    let more = 2 * usize::from(settings.helpers);
    let mut actors = new_mutators(alloc, limits, settings.every, settings.names, more)?;
    add_helpers(alloc, &mut actors, limits, settings.helpers)?;
    let mut space = Space::empty(alloc);
    space.open(alloc, limits)?;
    Ok((space, actors))
}
