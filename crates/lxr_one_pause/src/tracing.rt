//! What a pause does to a trace: it begins one, ends one, or collects by one of its own.
//!
//! The pause that begins a trace chooses the blocks that are to be evacuated, and the one that ends it moves their objects away and
//! releases them. A collecting pause releases them as they are.
ghost use Rattle.std.specs.Prelude.{◌≡◌, ◌^◌, ◌<◌, Option};
ghost use Rattle.lxr_image.specs.Spaces.{IsSpace};
ghost use Rattle.lxr_invariant.specs.AbstractState.{AbstractState};
ghost use Rattle.lxr_one_pause.specs.Steps.{with_evacuated};
ghost use Rattle.lxr_one_pause.specs.Tracing.{Begins, CanBegin, CanDrain, CanEnd, Collects, Ends, HasTraced, MayTrace, SetsTrace};

use lxr_blocks::settle_lines;
use lxr_evac_blocks::{choose_blocks, release_blocks};
use lxr_evac_moving::{Evacuated, evacuate};
use lxr_graph::Kind;
use lxr_image::Space;
use lxr_layout::TRACING_WORD;
use lxr_pause_decrements::finish_decrements;
use lxr_pause_trace::{begin_trace, finish_trace};
use lxr_sweep_unmarked::sweep_unmarked;

/// From now on the trace runs that began at the pause of this number, or none.
fn set_trace(space: &mut Space, trace: Option<u32>)
    requires { IsSpace space.old }
    ensures { SetsTrace space.old space.new trace }
{
    space.put_cursor(TRACING_WORD, u64::from(trace.is_some()));
    space.trace = trace;
}

/// Counts what evacuation moved and kept.
fn count_evacuated(space: &mut Space, evacuated: Evacuated)
    requires moved { space.old.tally.moved < 2 ^ 63 }
    requires kept { space.old.tally.kept < 2 ^ 63 }
    ensures { space.new ≡ with_evacuated space.old evacuated }
{
    space.tally.moved += u64::from(evacuated.moved);
    space.tally.kept += u64::from(evacuated.kept);
}

/// Finishes the decrements that were queued, and begins a trace: nothing is marked, and the roots are gray. Then blocks get the
/// states of their lines, those that are to be evacuated are chosen by them, and nothing is remembered.
fn begin(space: &mut Space)
    requires { (g : AbstractState) × CanBegin space.old g }
    ensures { (g : AbstractState) → CanBegin space.old g → Begins space.old space.new g }
{
    finish_decrements(space);
    begin_trace(space);
    settle_lines(space);
    choose_blocks(space);
    let number = space.report.number;
    set_trace(space, Some(number));
}

/// Finishes the decrements that were queued and the trace that runs, and sweeps what it didn't mark. What is left in Chosen blocks
/// is moved away, and the blocks are released.
fn end(space: &mut Space)
    requires { (g : AbstractState) × CanEnd space.old g }
    ensures { (g : AbstractState) → CanEnd space.old g → Ends space.old space.new g }
{
    finish_decrements(space);
    finish_trace(space);
    sweep_unmarked(space);
    let evacuated = evacuate(space);
    count_evacuated(space, evacuated);
    release_blocks(space);
    set_trace(space, None);
}

/// Finishes the decrements that were queued, drops a trace that runs with the blocks that were chosen for it, traces anew to its
/// end, and sweeps what that didn't mark.
fn collect(space: &mut Space)
    requires { (g : AbstractState) × CanDrain space.old g }
    ensures { (g : AbstractState) → CanDrain space.old g → Collects space.old space.new g }
{
    finish_decrements(space);
    release_blocks(space);
    begin_trace(space);
    finish_trace(space);
    sweep_unmarked(space);
    set_trace(space, None);
}

/// Does what a pause of this kind does beside counting.
pub(crate) fn trace_by_kind(space: &mut Space, kind: Kind)
    requires { (g : AbstractState) × MayTrace kind space.old g }
    ensures { (g : AbstractState) → MayTrace kind space.old g → HasTraced kind space.old space.new g }
{
    match kind {
        Kind::Plain => {}
        Kind::Begin => begin(space),
        Kind::End(_) => end(space),
        Kind::Collect => collect(space),
    }
}
