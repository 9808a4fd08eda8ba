//! The closing of an epoch.
ghost use Rattle.std.specs.Prelude.{◌≡◌, ◌+◌, ◌-◌, ◌*◌, ◌^◌, ◌++◌, ◌<◌, ◌≤◌, length};
ghost use Rattle.lxr_layout.specs.declared.TheConstants.{REGISTERS};
ghost use Rattle.lxr_image.specs.Registers.{with_row};
ghost use Rattle.lxr_core_invariant.specs.EpochStates.{Beginning};
ghost use Rattle.lxr_core.specs.Actors.{mutators_in};
ghost use Rattle.lxr_core.specs.Closing.{Closes, IsPauseExplained, IsPauseWanted, MayClose};
ghost use Rattle.lxr_core.specs.Collecting.{HaveGiven, MayAllGive, MayGive, MayTake, given_up, taken_of, tallied};
ghost use Rattle.lxr_core.specs.Executions.{Execution};

use crate::actors::AnyActor;
use lxr_barrier::Log;
use lxr_core_close::hand_out_drawn;
use lxr_image::{Entries, RegisterFile, Space, Tally};
use lxr_mutator::{MutTally, Mutator};

/// Closes an epoch in which all actors rest: the space takes each mutator's registers, log and tally, and hands out what
/// mutators drew. Then it is at a safepoint before a pause, which has a cause where it was wanted: mutators may rest with nothing to do.
pub fn close_epoch(space: &mut Space, actors: &mut [AnyActor])
    requires { (b : Beginning) × (execution : Execution) × MayClose b execution space.old actors.old }
    ensures closes { (b : Beginning) (execution : Execution) → MayClose b execution space.old actors.old → Closes b execution space.old space.new actors.new }
    ensures due { (b : Beginning) (execution : Execution) → MayClose b execution space.old actors.old → IsPauseWanted space.old (mutators_in actors.old) → IsPauseExplained b execution actors.new }
{
    collect_all(space, actors);
    hand_out_drawn(space);
}

/// Takes all that mutators have, thread 1 first, in place of what the space had.
fn collect_all(space: &mut Space, actors: &mut [AnyActor])
    requires { MayAllGive space.old actors.old }
    ensures { HaveGiven space.old actors.old space.new actors.new (length actors.old) }
{
    space.logged.clear();
    space.tally.news = 0;
    space.tally.loads = 0;
    space.tally.stores = 0;
    for number in 0..actors.len() {
        actors[number].give_up(space);
    }
}

/// Takes what a mutator has: its registers in place of those that its thread had, and all else behind what the space has.
pub(crate) fn collect(space: &mut Space, mutator: &mut Mutator)
    requires gives { MayGive space.old.limits mutator.old }
    requires takes { MayTake space.old mutator.old }
    ensures space { space.new ≡ taken_of space.old mutator.old }
    ensures mutator { mutator.new ≡ given_up mutator.old }
{
    mutator.recount_registers();
    collect_registers(&mut space.registers, mutator);
    collect_entries(&mut space.logged, mutator.log());
    add(&mut space.tally, mutator.tally());
    mutator.clear_log();
    mutator.empty_spans();
}

/// Takes a mutator's registers in place of those that its thread had.
fn collect_registers(registers: &mut RegisterFile, mutator: &Mutator)
    requires as_many { length mutator.now.registers ≡ REGISTERS }
    requires width { mutator.now.width ≡ registers.old.width }
    requires thread { (1 ≤ mutator.now.thread) × (REGISTERS * (mutator.now.thread - 1) + REGISTERS ≤ length registers.old.items) }
    ensures { registers.new ≡ record registers.old { items = with_row registers.old.items (mutator.now.thread - 1) mutator.now.registers } }
{
    let thread = usize::from(mutator.thread()) - 1;
    registers.put_row(thread, mutator.registers(), mutator.registers_in_use());
}

/// Takes a log's entries, behind those that are there.
fn collect_entries(entries: &mut Entries, log: &Log)
    requires room { length entries.old.items + length log.now.items ≤ entries.old.room }
    ensures { entries.new ≡ record entries.old { items = entries.old.items ++ log.now.items } }
{
    for at in 0..log.len() {
        entries.push(log.entry(at));
    }
}

/// Counts what the operations of a thread did.
fn add(tally: &mut Tally, done: MutTally)
    requires news { tally.old.news + done.news < 2 ^ 64 }
    requires loads { tally.old.loads + done.loads < 2 ^ 64 }
    requires stores { tally.old.stores + done.stores < 2 ^ 64 }
    ensures { tally.new ≡ tallied tally.old done }
{
    tally.news += u64::from(done.news);
    tally.loads += u64::from(done.loads);
    tally.stores += u64::from(done.stores);
}
