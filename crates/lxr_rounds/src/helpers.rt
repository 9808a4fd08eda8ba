//! The decrementers and tracers that stand behind the mutators.
ghost use Rattle.std.specs.Prelude.{◌≡◌, ◌+◌, ◌*◌, ◌≤◌, ◌++◌, OnOk, map, replicate, vec_capacity, vec_len};
ghost use Rattle.lxr_core.specs.declared.actors.AnyActor.TheVariants as any;
ghost use Rattle.lxr_decrement.specs.Decrementers.{first as first_decrementer};
ghost use Rattle.lxr_trace.specs.Tracers.{first as first_tracer};
ghost use Rattle.lxr_layout.specs.Spaces.{AreLimits};
ghost use Rattle.lxr_rounds.specs.Helpers.{HelpersStandBehind};

use lxr_core::{AnyActor, Lodged};
use lxr_decrement::Decrementer;
use lxr_layout::Limits;
use lxr_trace::Tracer;
use std::alloc::{AllocError, Global};

/// Adds so many decrementers behind these actors, in a list with room for them.
fn add_decrementers(
    alloc: Global,
    actors: &mut Vec<AnyActor>,
    limits: Limits,
    count: u8,
) -> Result<(), AllocError>
    requires limits { AreLimits limits }
    requires room { vec_len actors.old + count ≤ vec_capacity actors.old }
    ensures added { OnOk result (actors.new.items ≡ actors.old.items ++ map any.Decrementer (replicate count (first_decrementer limits))) }
    ensures room { OnOk result ((vec_len actors.new ≡ vec_len actors.old + count) × (vec_capacity actors.new ≡ vec_capacity actors.old)) }
{
    for _ in 0..count {
        let decrementer = Decrementer::new(alloc, limits)?;
        let lodged = Lodged::new(alloc, decrementer)?;
        actors.push_reserved(AnyActor::Decrementer(lodged));
    }
    Ok(())
}

/// Adds so many tracers behind these actors, in a list with room for them.
fn add_tracers(
    alloc: Global,
    actors: &mut Vec<AnyActor>,
    limits: Limits,
    count: u8,
) -> Result<(), AllocError>
    requires limits { AreLimits limits }
    requires room { vec_len actors.old + count ≤ vec_capacity actors.old }
    ensures { OnOk result (actors.new.items ≡ actors.old.items ++ map any.Tracer (replicate count (first_tracer limits))) }
{
    for _ in 0..count {
        let tracer = Tracer::new(alloc, limits)?;
        let lodged = Lodged::new(alloc, tracer)?;
        actors.push_reserved(AnyActor::Tracer(lodged));
    }
    Ok(())
}

/// Adds so many decrementers behind these actors, and behind them as many tracers, in a list with room for both.
pub fn add_helpers(
    alloc: Global,
    actors: &mut Vec<AnyActor>,
    limits: Limits,
    count: u8,
) -> Result<(), AllocError>
    requires limits { AreLimits limits }
    requires room { vec_len actors.old + 2 * count ≤ vec_capacity actors.old }
    ensures { OnOk result (HelpersStandBehind limits count actors.old.items actors.new.items) }
{
    add_decrementers(alloc, actors, limits, count)?;
    add_tracers(alloc, actors, limits, count)
}
