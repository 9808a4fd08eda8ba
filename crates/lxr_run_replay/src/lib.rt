//! The replay of an epoch on one thread, by the draws of a generator.
//!
//! While some mutator has a next action, a draw picks one of the actors that have one, and it makes a single atomic step;
//! tracers are drawn only while a trace runs. Then helpers finish the units that they are in. So a number determines the
//! schedule, and the same number gives the same run again. What is proved is that the replay ends with all mutators finished
//! and all actors at rest, and that its words and actors are those of the fold over the schedule that the generator picks. A replay may
//! also record whose calls come to stand in the history, in order.
#![tactic(auto)]

mod numbers;
mod recording;
mod replaying;

ghost use Rattle.lxr_core_invariant.specs.EpochStates.{Beginning};
ghost use Rattle.lxr_core.specs.Executions.{HoldsExecution, Execution};
ghost use Rattle.lxr_run_replay.specs.Recording.{PlacedAreCalls};
ghost use Rattle.lxr_run_replay.specs.Replaying.{CanBeReplayed, SchedulesMayClose};

pub use recording::placed_by;
pub use replaying::{call_gate, order_epoch, replay_epoch};

/// The core of each execution of which the invariant of its epoch holds can be replayed.
pub fn executions_can_be_replayed()
    ensures { (b : Beginning) (execution : Execution) → HoldsExecution b execution → CanBeReplayed execution.core }
{}

/// Where a schedule was run to its end, by a replay or by threads, the epoch may be closed: its execution has gone on by the schedule.
pub fn schedules_may_close()
    ensures { SchedulesMayClose }
{}

/// What a mutator says is placed are the calls that its thread has in the history: in each execution of which the invariant of its epoch
/// holds.
pub fn placed_are_calls()
    ensures { PlacedAreCalls }
{}
