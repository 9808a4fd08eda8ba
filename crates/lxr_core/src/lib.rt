//! The epoch as one machine: all actors, its opening, what holds after each schedule of its steps, and its closing.
//!
//! Between two pauses actors act on the words of a space, one atomic step at a time, in whatever order. An epoch opens
//! with actors that rest; then, after every schedule of their steps, the invariant of the epoch holds and each next
//! step fits. It may be closed wherever all actors rest, and the space is at a safepoint before a pause then.
#![tactic(auto)]

mod actors;
mod closing;
mod filling;
mod lodged;
mod opening;

ghost use Rattle.lxr_core.specs.Executions.{EpochInvariantHolds, EpochKeepsLines};
ghost use Rattle.lxr_core.specs.Ordering.{OrdersAreAsked, OrdersKeepEpochs, ScriptsGoOn, ScriptsStay};

pub use actors::AnyActor;
pub use closing::close_epoch;
pub use lodged::Lodged;
pub use opening::open_epoch;

/// After every schedule of an epoch its invariant holds, no cursor has fallen, and each next step fits.
pub fn epoch_invariant_holds()
    ensures { EpochInvariantHolds }
{}

/// Which lines are open stays through each schedule of an epoch: where objects begin, which lines are out, the states of blocks, and each
/// count that is no object's.
pub fn epoch_keeps_lines()
    ensures { EpochKeepsLines }
{}

/// An operation that a mutator is ordered while the epoch runs keeps all of the epoch's invariant.
pub fn orders_keep_epochs()
    ensures { OrdersKeepEpochs }
{}

/// Over a schedule a mutator is asked for what it was ordered and took, in order, behind what it was asked for, and for nothing else.
pub fn orders_are_asked()
    ensures { OrdersAreAsked }
{}

/// Over a schedule the script goes on: each thread keeps what it was asked for, and is asked for more behind it at most.
pub fn scripts_go_on()
    ensures { ScriptsGoOn }
{}

/// Where no mutator has room for an order, as those of a script, which are made with all their operations, a schedule changes the
/// operations of no thread, whatever orders are in it.
pub fn scripts_stay()
    ensures { ScriptsStay }
{}
