//! What a program in C says of a heap that threads share.
ghost use Rattle.std.specs.Prelude.{◌≡◌};
ghost use Rattle.lxr_c_shared.specs.Sharing.{evacuate_of as is_evacuate_of, has_registers as is_with_registers, registers_of as is_registers_of, runs_of as is_runs_of, settings_of as is_settings_of};

use lxr_layout::{LEAST_REGISTERS, REGISTERS};
use lxr_shared_heap::{RUNS_LISTED, Settings};

/// The bytes of the settings that are known.
pub const WISHES_BYTES: u64 = 56;

/// The bytes of the settings that don't say how many runs are listed.
pub const SECOND_WISHES_BYTES: u64 = 48;

/// The bytes of the settings of version 0.2, which don't say how many blocks are evacuated, nor how many registers there are.
pub const FIRST_WISHES_BYTES: u64 = 40;

/// The settings of a heap, as `lxr_passes_settings` has them: first how many bytes they are. What stands after so many isn't read.
#[repr(C)]
#[derive(Drop)]
pub struct Wishes {
    pub size: u64,
    pub blocks: u32,
    pub mutators: u32,
    pub helpers: u32,
    pub log: u32,
    pub remember: u32,
    pub every: u32,
    pub trace: u32,
    pub within: u32,
    pub evacuate: u32,
    pub registers: u32,
    /// At least 64, and 0 for 65,536.
    pub runs: u32,
    /// Nothing is said by these bytes.
    pub unused: u32,
}

/// Whether settings of their size say how many blocks are evacuated, and how many registers there are.
fn has_registers(wishes: &Wishes) -> bool
    ensures { result ≡ is_with_registers wishes.now }
{
    wishes.size == WISHES_BYTES || wishes.size == SECOND_WISHES_BYTES
}

/// How many blocks a trace is to evacuate at most: an eighth of all where settings of version 0.2 don't say it; none where their size isn't known.
fn evacuate_of(wishes: &Wishes) -> Option<u32>
    ensures { result ≡ is_evacuate_of wishes.now }
{
    if has_registers(wishes) {
        Some(wishes.evacuate)
    } else if wishes.size == FIRST_WISHES_BYTES {
        Some(wishes.blocks / 8)
    } else {
        None
    }
}

/// How many registers each thread is to have that it may name: the fewest where settings of version 0.2 don't say it, or where they say 0.
fn registers_of(wishes: &Wishes) -> u32
    ensures { result ≡ is_registers_of wishes.now }
{
    if has_registers(wishes) && wishes.registers > 0 {
        wishes.registers
    } else {
        u32::from(LEAST_REGISTERS)
    }
}

/// How many runs are listed after a pause at most: as many as mostly do where settings don't say it, or where they say 0.
fn runs_of(wishes: &Wishes) -> u32
    ensures { result ≡ is_runs_of wishes.now }
{
    if wishes.size == WISHES_BYTES && wishes.runs > 0 {
        wishes.runs
    } else {
        RUNS_LISTED
    }
}

/// The settings of a heap that are wished for; none where their size isn't known, or there are more threads or helpers than any heap has, or
/// more registers than any thread. No program in C sees a name, so none is told.
pub(crate) fn settings_of(wishes: &Wishes) -> Option<Settings>
    ensures { result ≡ is_settings_of wishes.now }
{
    let evacuate = evacuate_of(wishes)?;
    let registers = registers_of(wishes);
    if wishes.mutators > 255 || (wishes.helpers > 8 || registers > REGISTERS as u32) {
        return None;
    }
    Some(Settings {
        blocks: wishes.blocks,
        mutators: wishes.mutators as u8,
        helpers: wishes.helpers as u8,
        log: wishes.log,
        remember: wishes.remember,
        registers: registers as u16,
        evacuate,
        every: wishes.every,
        trace: wishes.trace,
        within: wishes.within,
        runs: runs_of(wishes),
        names: false,
    })
}
