//! Queueing the decrements of old values, and deferring roots.
//!
//! A count is lowered for what a logged reference held at the last pause, and for what a register held then and holds no
//! more. Such decrements wait in a list until decrementers or the next pause do them, as in LXR (Zhao, Blackburn and
//! McKinley, 2022); deferring the counts of roots is due to Deutsch and Bobrow (1976).
ghost use Rattle.std.specs.Prelude.{◌≡◌, ◌≢◌, ℕ, ◌+◌, ◌*◌, ◌<◌, ◌≤◌, List, length};
ghost use Rattle.std.specs.List.{All};
ghost use Rattle.lxr_layout.specs.declared.TheConstants.{DECREMENT_COUNT};
ghost use Rattle.lxr_layout.specs.declared.Name.{Name};
ghost use Rattle.lxr_image.specs.Registers.{holding};
ghost use Rattle.lxr_image.specs.Spaces.{IsSpace, Turns, tables_of};
ghost use Rattle.lxr_model.specs.Moments.{Moment};
ghost use Rattle.lxr_invariant.specs.Raised.{IsRaised};
ghost use Rattle.lxr_pause_queue.specs.Appending.{IsInHeap, dropped, with_entries, with_entry, with_old, with_registers};
ghost use Rattle.lxr_pause_queue.specs.Queueing.{Queues, with_roots_deferred};

use lxr_image::Space;
use lxr_layout::{DECREMENT_COUNT, LogEntry, Place, field_word};

/// Puts an old value into the list of decrements, unless it is nil.
fn queue_old(space: &mut Space, old: Place)
    requires space { IsSpace space.old }
    requires room { old.0 ≢ 0 → (tables_of space.old).cursors DECREMENT_COUNT < space.old.limits.threads * (space.old.limits.log + space.old.limits.registers) }
    ensures { Turns space.old space.new (with_old (tables_of space.old) old.0) }
{
    if old.0 != 0 {
        let at = space.cursor(DECREMENT_COUNT) as u32;
        space.put_decrement(at, u64::from(old.0));
        space.put_cursor(DECREMENT_COUNT, u64::from(at) + 1);
    }
}

/// Queues the old value of an entry, and sets the unlogged bit of its field.
fn queue_entry(space: &mut Space, entry: LogEntry)
    requires space { IsSpace space.old }
    requires entry { IsInHeap space.old.limits.blocks entry }
    requires room { (tables_of space.old).cursors DECREMENT_COUNT < space.old.limits.threads * (space.old.limits.log + space.old.limits.registers) }
    ensures { Turns space.old space.new (with_entry (tables_of space.old) entry) }
{
    queue_old(space, entry.old);
    space.set_unlogged(field_word(entry.place, entry.index));
}

/// Queues the old values of all entries, and sets the unlogged bits of their fields.
fn queue_entries(space: &mut Space)
    requires space { IsSpace space.old }
    requires entries { All (IsInHeap space.old.limits.blocks) space.old.logged.items }
    requires room { (tables_of space.old).cursors DECREMENT_COUNT + length space.old.logged.items ≤ space.old.limits.threads * (space.old.limits.log + space.old.limits.registers) }
    ensures turns { Turns space.old space.new (with_entries (tables_of space.old) space.old.logged.items) }
    ensures few { (tables_of space.new).cursors DECREMENT_COUNT ≤ (tables_of space.old).cursors DECREMENT_COUNT + length space.old.logged.items }
    ensures space { IsSpace space.new }
{
    for number in 0..space.logged.len() {
        let entry = space.logged.at(number);
        queue_entry(space, entry);
    }
}

/// What a register held, unless it still holds it: then nil.
fn dropped_place(was: Place, now: Place) -> Place
    ensures { result.0 ≡ dropped was now }
{
    if was == now { Place::NIL } else { was }
}

/// Queues what registers held at the last pause and hold no more.
fn queue_registers(space: &mut Space)
    requires space { IsSpace space.old }
    requires as_many { length space.old.registers.items ≡ length space.old.deferred.items }
    requires room { (tables_of space.old).cursors DECREMENT_COUNT + holding space.old.deferred.items ≤ space.old.limits.threads * (space.old.limits.log + space.old.limits.registers) }
    ensures { Turns space.old space.new (with_registers (tables_of space.old) space.old.deferred.items space.old.registers.items) }
{
    let mut register = space.deferred.next_changed(&space.registers, 0);
    while register < space.deferred.len() {
        let old = dropped_place(space.deferred.at(register), space.registers.at(register));
        queue_old(space, old);
        register = space.deferred.next_changed(&space.registers, register + 1);
    }
}

/// Puts the old values of logged references in their order, and then those of changed registers, into the list of decrements,
/// behind what is there. Nil is left out; the place of a stuck object isn't, though its count will not fall. Then the unlogged
/// bits of the logged fields are set, and the logs are empty.
pub fn queue_decrements(space: &mut Space)
    requires { (m : Moment) × (at : Name → ℕ) × (promoted : List Name) × (stuck : List Name) × IsRaised space.old m at promoted stuck }
    ensures { (m : Moment) (at : Name → ℕ) (promoted stuck : List Name) → IsRaised space.old m at promoted stuck → Queues space.old space.new m at promoted stuck }
{
    space.deferred.hold_few(space.limits.threads);
    queue_entries(space);
    queue_registers(space);
    space.logged.clear();
}

/// What registers hold now is what they held at the last pause, from now on.
pub fn defer_roots(space: &mut Space)
    requires as_many { length space.old.registers.items ≡ length space.old.deferred.items }
    requires width { space.old.registers.width ≡ space.old.deferred.width }
    ensures { space.new ≡ with_roots_deferred space.old }
{
    space.deferred.copy_from(&space.registers);
}
