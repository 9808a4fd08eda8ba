//! The opening of a run: the space and the threads, with all the memory that the run takes.
ghost use Rattle.std.specs.Prelude.{◌≡◌, ℕ, ◌+◌, ◌≤◌, [], IfOk, List, OnErr, Option, length, vec_capacity, vec_len};
ghost use Rattle.lxr_layout.specs.Spaces.{AreLimits};
ghost use Rattle.lxr_text_script.specs.Limits.{IsScript};
ghost use Rattle.lxr_text_script.specs.Reading.{lists_in};
ghost use Rattle.lxr_words.specs.Ranges.{AreInRange};
ghost use Rattle.lxr_sights.specs.Sights.{Sight};
ghost use Rattle.lxr_run_loop.specs.Made.{AreMade};
ghost use Rattle.lxr_run_loop.specs.Opening.{IsOpenedRun};

use lxr_core::{AnyActor, Lodged};
use lxr_image::Space;
use lxr_layout::Limits;
use lxr_mutator::Mutator;
use lxr_rounds::add_helpers;
use lxr_text_script::{Lists, SCRIPT_REGISTERS};
use lxr_words::Options;
use std::alloc::{AllocError, Global};

/// A mutator for each thread of a script, in order, in a list with room for some more actors.
fn make_mutators(
    alloc: Global,
    script: Lists,
    limits: Limits,
    every: u32,
    more: usize,
) -> Result<Vec<AnyActor>, AllocError>
    requires script { IsScript (lists_in script) }
    requires limits { AreLimits limits }
    requires threads { limits.threads ≡ length script.items }
    requires every { (1 ≤ every) × (every ≤ 1048576) }
    requires more { more ≤ 16 }
    ensures made { IfOk result (λ actors. AreMade limits every 0 0 (lists_in script) actors.items) }
    ensures room { IfOk result (λ actors. vec_len actors + more ≤ vec_capacity actors) }
{
    let mut actors = Vec::with_capacity(alloc, script.len() + more)?;
    for operations in script.into_vec() {
        let thread = actors.len() as u8 + 1;
        let mutator = Mutator::new(alloc, thread, operations, limits, every)?;
        let lodged = Lodged::new(alloc, mutator)?;
        actors.push_reserved(AnyActor::Mutator(lodged));
    }
    Ok(actors)
}

/// A mutator for each thread of a script, in order, behind them so many decrementers, and then as many tracers.
fn make_actors(
    alloc: Global,
    script: Lists,
    limits: Limits,
    every: u32,
    workers: u8,
) -> Result<Vec<AnyActor>, AllocError>
    requires script { IsScript (lists_in script) }
    requires limits { AreLimits limits }
    requires threads { limits.threads ≡ length script.items }
    requires every { (1 ≤ every) × (every ≤ 1048576) }
    requires workers { workers ≤ 8 }
    ensures { IfOk result (λ actors. AreMade limits every workers workers (lists_in script) actors.items) }
{
    let mut actors = make_mutators(alloc, script, limits, every, 2 * usize::from(workers))?;
    add_helpers(alloc, &mut actors, limits, workers)?;
    Ok(actors)
}

/// Opens the space for the threads of a script, and makes their mutators, with room for all their replies and logs, and the
/// decrementers and tracers that the options ask for.
pub fn open(
    alloc: Global,
    space: &mut Space,
    options: Options,
    script: Lists,
) -> Result<Vec<AnyActor>, AllocError>
    requires empty { space.old.words ≡ [] }
    requires options { AreInRange options }
    requires script { IsScript (lists_in script) }
    ensures opened { IfOk result (λ actors. (written : Option (List ℕ)) (seen : Option (List Sight)) → IsOpenedRun options (lists_in script) space.new written seen actors.items) }
    ensures err { OnErr result (space.new.words ≡ []) }
{
    let limits = Limits {
        blocks: options.blocks,
        threads: script.len() as u8,
        log: options.log,
        remember: options.remember,
        registers: SCRIPT_REGISTERS,
        evacuate: options.blocks / 8,
    };
    let actors = make_actors(alloc, script, limits, options.every, options.workers)?;
    space.open(alloc, limits)?;
    Ok(actors)
}
