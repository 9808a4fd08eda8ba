//! The log of one thread: references that it was the first to store to, with their old values.
ghost use Rattle.std.specs.Prelude.{◌≡◌, ◌<◌, ◌≤◌, ◌↔◌, [], IfOk, IsTrue, Some, length, slice_get};
ghost use Rattle.lxr_base.specs.Roomy.{emptied, pushed};

use lxr_base::Listed;
use lxr_layout::LogEntry;
use std::alloc::{AllocError, Global};
use std::marker::Model;

/// Log entries in the order in which they were recorded, with room that is taken once.
#[derive(Drop)]
pub struct Log {
    entries: Listed<LogEntry>,
    capacity: u32,
}

impl Model for Log {
    ghost use Rattle.std.specs.Prelude.{◌≡◌, ◌≤◌, ◌<◌, ◌^◌, length};
    ghost use Rattle.lxr_layout.specs.declared.runs.LogEntry.{LogEntry};
    ghost use Rattle.lxr_base.specs.Roomy.{Roomy};

    ghost Value = { Roomy LogEntry };

    ghost view = { λ l. record { items = l.entries.items; room = l.capacity } };

    ghost invariant = { λ l. (l.entries.room ≡ l.capacity) × (length l.entries.items ≤ l.capacity) × (l.capacity < 2 ^ 32) };
}

impl Log {
    /// An empty log for so many entries.
    pub fn new(alloc: Global, capacity: u32) -> Result<Log, AllocError>
        ensures { IfOk result (λ log. log ≡ record { items = []; room = capacity }) }
    {
        let entries = Listed::with_room(alloc, capacity as usize)?;
        Ok(Log { entries, capacity })
    }

    /// How many entries there are.
    pub fn len(&self) -> u32
        ensures { result ≡ length self.now.items }
    {
        self.entries.len() as u32
    }

    /// Whether there is no room for a further entry.
    pub fn is_full(&self) -> bool
        ensures { IsTrue result ↔ (self.now.room ≤ length self.now.items) }
    {
        self.len() >= self.capacity
    }

    /// The entry at an index, the oldest at 0.
    pub fn entry(&self, at: u32) -> LogEntry
        requires { at < length self.now.items }
        ensures { slice_get self.now.items at ≡ Some result }
    {
        self.entries.as_slice()[at as usize]
    }

    /// Records an entry behind the others.
    pub fn push(&mut self, entry: LogEntry)
        requires { length self.old.items < self.old.room }
        ensures { self.new ≡ pushed self.old entry }
    {
        self.entries.push(entry);
    }

    /// Takes all entries out; the room stays.
    pub fn clear(&mut self)
        ensures { self.new ≡ emptied self.old }
    {
        self.entries.clear();
    }
}
