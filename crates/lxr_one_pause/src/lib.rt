//! One pause: what counting and traces find and reclaim since the last one.
//!
//! The order of a pause's steps is that of LXR (Zhao, Blackburn and McKinley, 2022): counts are lowered for what the last
//! pause queued and decrementers have left, raised for what was stored since, and what was overwritten is queued for the next
//! one. Then a trace begins, goes on or ends, and a pause that ends one, or collects, sweeps what isn't marked.
#![tactic(auto)]

mod counting;
mod deciding;
mod laws;
mod report;
mod tracing;

ghost use Rattle.std.specs.Prelude.{ℕ, ◌≡◌, ◌+◌, ◌^◌, ◌<◌, []};
ghost use Rattle.lxr_layout.specs.declared.Name.{Name as NameOf};
ghost use Rattle.lxr_invariant.specs.AbstractState.{AbstractState};
ghost use Rattle.lxr_one_pause.specs.Deciding.{IsPace};
ghost use Rattle.lxr_one_pause.specs.Pausing.{CanPause, Pauses};
ghost use Rattle.lxr_one_pause.specs.Steps.{with_pause_counted};

use counting::settle_counts;
use deciding::decide_kind;
pub use laws::opened_can_pause;
use lxr_blocks::settle_lines;
use lxr_image::Space;
use report::{count_where_drained, order_report};
use tracing::trace_by_kind;

/// What a pause is asked for.
#[derive(Clone, Copy, Debug, PartialEq, Eq)]
pub enum Ask {
    /// What there is to do at this pause.
    Ordinary,
    /// That, and to begin a trace where none runs.
    Trace,
    /// To trace by itself and to reclaim all that is unreachable.
    Collect,
}

/// When traces begin and end.
#[derive(Clone, Copy, Debug, PartialEq, Eq)]
pub struct Pace {
    /// Where no trace runs, one begins at each pause whose number is a multiple of this; 0: only where it is asked for.
    pub trace: u32,
    /// A trace ends at the latest so many pauses after it began.
    pub within: u32,
}

/// Counts the pause.
fn count_pause(space: &mut Space)
    requires number { space.old.pauses + 1 < 2 ^ 32 }
    requires tally { space.old.tally.pauses < 2 ^ 63 }
    ensures { space.new ≡ with_pause_counted space.old }
{
    space.pauses += 1;
    space.tally.pauses += 1;
}

/// Makes a pause, whatever decrementers and tracers have done since the last one. What they left of decrements is finished,
/// counts are raised for what was stored and is held newly, and lowered later for what was overwritten and is held no more. Then
/// it begins a trace, lets one go on, ends one or collects, as it is asked and the pace says; where it does more than count, it
/// also finishes the decrements that it queued, and reports the count of each object that it leaves, for proofs alone: no object is
/// looked at for it, and nothing is told yet. Blocks get the states of their lines, and the report the order of names.
///
/// What is promoted is copied to the first free lines that fit it, so that what threads made and dropped between it leaves whole lines
/// behind (young evacuation, as in LXR); where no lines fit it, it stays where it was made.
pub fn one_pause(space: &mut Space, ask: Ask, pace: Pace)
    requires pace { IsPace pace }
    requires space { (g : AbstractState) × CanPause space.old g }
    ensures pauses { (g : AbstractState) → CanPause space.old g → (at' : NameOf → ℕ) × Pauses space.old space.new g at' ask pace }
    ensures untold { space.new.report.told.items ≡ [] }
{
    settle_counts(space);
    let kind = decide_kind(space, ask, pace);
    space.report.kind = kind;
    trace_by_kind(space, kind);
    settle_lines(space);
    order_report(&mut space.report);
    count_where_drained(space, kind);
    count_pause(space);
}
