//! What a program in C says of a heap for one thread.
ghost use Rattle.std.specs.Prelude.{◌≡◌, ◌↔◌, ◌≤◌, IsTrue};
ghost use Rattle.lxr_layout.specs.declared.TheConstants.{REGISTERS as MOST_REGISTERS};
ghost use Rattle.lxr_heap.specs.Holding.{AreSizes};
ghost use Rattle.lxr_c_heap.specs.Settings.{AreSettings, IsBlockCount, IsKnownSize, IsRegisterCount, grow_said as is_grow_said, registers_of, room_said as is_room_said, says_room, sizes_of, with_own as is_with_own, work_said as is_work_said};

use crate::room::MOST_GROW;
use crate::working::MOST_WORK;
use lxr_heap::Sizes;
use lxr_layout::{LEAST_REGISTERS, MOST_BLOCKS, REGISTERS};

/// The bytes of the settings that are known: of later versions this is the least size but for those of before, and what a shorter one
/// hasn't is as it was before.
pub const SETTINGS_BYTES: u64 = 48;

/// The bytes of the settings that end before the slices.
pub const THIRD_SETTINGS_BYTES: u64 = 40;

/// The bytes of the settings that end before the room.
pub const SECOND_SETTINGS_BYTES: u64 = 32;

/// The bytes of the settings of version 0.2, which don't say how many registers a heap has.
pub const FIRST_SETTINGS_BYTES: u64 = 24;

/// How many registers of its own the library has behind those that the host names, where there is room for them.
pub const OWN_REGISTERS: u32 = 2;

/// How many overwritten references a heap records between two pauses at most. So many counts may wait to be lowered, and one for each register:
/// an object has 1,023 references at most, so four have place there, each held by the one before.
pub const LOG_ENTRIES: u32 = 4_096;

/// The settings of a heap, as `lxr_settings` has them: how many bytes they are, how many blocks the heap has, and for bodies, after how
/// many bytes of new objects a plain pause is due, how many registers it has, its room, and what it does between pauses. What stands after so
/// many bytes isn't read.
#[repr(C)]
#[derive(Drop)]
pub struct Settings {
    pub size: u64,
    pub blocks: u32,
    pub body_blocks: u32,
    pub pace: u64,
    /// 16 to 256, and 0 for 16.
    pub registers: u32,
    /// Nothing is said by these bytes.
    pub unused: u32,
    /// How many blocks are in use before it collects, and 0 for all.
    pub room: u32,
    /// How many hundredths more than what lives each collecting pause leaves room for: at most 10,000, and 0 for never.
    pub grow: u32,
    /// How many units of what waits for the next pause it does for each 64 bytes of new objects: at most 1,000,000, and 0 for none.
    pub work: u32,
    /// Nothing is said by these bytes.
    pub reserved: u32,
}

/// Whether a heap may have so many blocks.
fn is_block_count(count: u32) -> bool
    ensures { IsTrue result ↔ IsBlockCount count }
{
    1 <= count && count <= MOST_BLOCKS
}

/// Whether a heap may have so many registers.
fn is_register_count(count: u32) -> bool
    ensures { IsTrue result ↔ IsRegisterCount count }
{
    u32::from(LEAST_REGISTERS) <= count && count <= REGISTERS as u32
}

/// How many registers a heap has whose host names so many: the library's own are behind them, where there is room.
fn with_own(named: u32) -> u32
    requires { named ≤ MOST_REGISTERS }
    ensures own { result ≡ is_with_own named }
    ensures fits { (named ≤ result) × (result ≤ MOST_REGISTERS) }
{
    let all = named + OWN_REGISTERS;
    if all <= REGISTERS as u32 { all } else { named }
}

impl Settings {
    /// Whether their size is known.
    fn has_known_size(&self) -> bool
        ensures { IsTrue result ↔ IsKnownSize self.now.size }
    {
        self.size == SETTINGS_BYTES
            || self.size == THIRD_SETTINGS_BYTES
            || self.size == SECOND_SETTINGS_BYTES
            || self.size == FIRST_SETTINGS_BYTES
    }

    /// Whether they say a room.
    fn say_room(&self) -> bool
        ensures { result ≡ says_room self.now }
    {
        self.size == SETTINGS_BYTES || self.size == THIRD_SETTINGS_BYTES
    }

    /// How many registers the host is to name: the fewest where settings of version 0.2 don't say it, or where they say 0.
    pub(crate) fn registers(&self) -> u32
        ensures { result ≡ registers_of self.now }
    {
        if self.size == FIRST_SETTINGS_BYTES {
            return u32::from(LEAST_REGISTERS);
        }
        if self.registers == 0 {
            return u32::from(LEAST_REGISTERS);
        }
        self.registers
    }

    /// The blocks of the room that they say: 0, which is all, where shorter ones don't.
    pub(crate) fn room_said(&self) -> u32
        ensures { result ≡ is_room_said self.now }
    {
        if self.say_room() {
            return self.room;
        }
        0
    }

    /// The growth of the room that they say: 0, which is never, where shorter ones don't.
    pub(crate) fn grow_said(&self) -> u32
        ensures { result ≡ is_grow_said self.now }
    {
        if self.say_room() {
            return self.grow;
        }
        0
    }

    /// The units for each 64 bytes of new objects that they say: 0, which is none, where shorter ones don't.
    pub(crate) fn work_said(&self) -> u32
        ensures { result ≡ is_work_said self.now }
    {
        if self.size == SETTINGS_BYTES {
            return self.work;
        }
        0
    }

    /// How large a heap of these settings is.
    pub(crate) fn sizes(&self) -> Sizes
        requires { AreSettings self.now }
        ensures sizes { result ≡ sizes_of self.now }
        ensures fit { AreSizes result }
    {
        Sizes {
            blocks: self.blocks,
            bodies: self.body_blocks,
            registers: with_own(self.registers()) as u16,
            log: LOG_ENTRIES,
        }
    }

    /// Whether there is such room in such heaps.
    fn has_room(&self) -> bool
        ensures { IsTrue result ↔ ((is_room_said self.now ≤ self.now.blocks) × (is_grow_said self.now ≤ MOST_GROW)) }
    {
        self.room_said() <= self.blocks && self.grow_said() <= MOST_GROW
    }

    /// Whether there are such heaps.
    pub(crate) fn fit(&self) -> bool
        ensures { IsTrue result ↔ AreSettings self.now }
    {
        if !self.has_known_size() {
            return false;
        }
        if !is_block_count(self.blocks) {
            return false;
        }
        if !is_register_count(self.registers()) {
            return false;
        }
        if !self.has_room() {
            return false;
        }
        if self.work_said() > MOST_WORK {
            return false;
        }
        is_block_count(self.body_blocks)
    }
}
