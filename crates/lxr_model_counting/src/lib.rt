//! How counting references comes out, as mathematics of names: what lowering and raising one count after another
//! leaves, against references that are counted afresh; and what pauses leave of the unreclaimed names.
//!
//! A collector by reference counts (LXR: Zhao, Blackburn and McKinley, 2022) keeps a saturating count for each object,
//! raises counts for what was stored since the last pause, and lowers them later. The functions of this crate do
//! nothing: the contract of each is a law over the definitions of `lxr_model`, on which the pause's calls rest.
#![tactic(auto)]

mod draining;
mod garbage;

ghost use Rattle.lxr_model_counting.specs.Laws.{CallKeepsFollowing, DeathLeavesTheLiving, GrowthIsPromoted, LoweringKills, MadeHadNoReferences, OpeningFollows, PlainPauseRestartsFollowing, RaisedAndLoweredBalance, RaisesSaturate};

pub use draining::{
    collect_is_complete, counts_are_references, death_leaves_the_reachable,
    garbage_keeps_its_references, lowered_counts_are_references, pause_leaves_the_remaining,
    pause_restarts_following, promotion_joins_the_reachable, sweep_leaves_the_reachable,
    sweeps_without_trace_are_sound,
};
pub use garbage::{call_keeps_garbage, garbage_is_not_dead, pause_keeps_garbage, sweeps_are_sound};

/// At the opening the state follows the last pause, which is the opening itself.
pub fn opening_follows()
    ensures { OpeningFollows }
{}

/// A call keeps it so.
pub fn call_keeps_following()
    ensures { CallKeepsFollowing }
{}

/// After a plain pause it is so anew.
pub fn plain_pause_restarts_following()
    ensures { PlainPauseRestartsFollowing }
{}

/// What is live isn't dead, and what is left referred only to what is left.
pub fn death_leaves_the_living()
    ensures { DeathLeavesTheLiving }
{}

/// Where nothing waits to be lowered and what has no count is gone, exactly the dead are gone.
pub fn lowering_kills()
    ensures { LoweringKills }
{}

/// Promoting what is held up, until no more is, promotes exactly the least set.
pub fn growth_is_promoted()
    ensures { GrowthIsPromoted }
{}

/// A saturating count that is raised once more.
pub fn raises_saturate()
    ensures { RaisesSaturate }
{}

/// References before and what is added are references now and what is to be taken away.
pub fn raised_and_lowered_balance()
    ensures { RaisedAndLoweredBalance }
{}

/// What was made since the last pause had no reference there.
pub fn made_had_no_references()
    ensures { MadeHadNoReferences }
{}
