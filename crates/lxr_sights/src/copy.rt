//! Copies of spaces into room that is there.
ghost use Rattle.std.specs.Prelude.{◌≡◌, ◌*◌, ◌^◌, ◌≤◌, ◌↔◌, IsTrue, length};
ghost use Rattle.lxr_layout.specs.declared.TheConstants.{MOST_GRANULES};
ghost use Rattle.lxr_graph.specs.History.{report_of};
ghost use Rattle.lxr_layout.specs.Spaces.{AreLimits};
ghost use Rattle.lxr_sights.specs.Copies.{AreRegistersFor, FitsReportRoom, FitsRoom, HasReportRoomFor, HasRoomFor};
ghost use Rattle.lxr_sights.specs.Sights.{sight_of};

use lxr_graph::Report;
use lxr_image::{HeapWords, RegisterFile, Space};
use lxr_layout::{GRANULES_IN_BLOCK, Limits, REGISTERS, regions};
use lxr_tables::Words;

/// Whether a report fits the room of that of an opened space of so many granules.
fn report_fits(report: &Report, granules: usize) -> bool
    requires { granules ≤ MOST_GRANULES }
    ensures { IsTrue result ↔ FitsReportRoom report.now granules }
{
    report.promoted.len() <= granules
        && report.dead.len() <= 2 * granules
        && report.stuck.len() <= granules
        && report.swept.len() <= granules
        && report.told.len() <= granules
}

/// Whether registers are those of all threads of these limits, of which each thread may name as many as they say.
fn are_registers_for(registers: &RegisterFile, limits: Limits) -> bool
    ensures { IsTrue result ↔ AreRegistersFor registers.now limits }
{
    registers.len() == REGISTERS * usize::from(limits.threads)
        && registers.width() == limits.registers
}

/// Whether a space fits the room of one that is opened with these limits.
pub(crate) fn fits(space: &Space, limits: Limits) -> bool
    requires { AreLimits limits }
    ensures { IsTrue result ↔ FitsRoom space.now limits }
{
    let granules = (GRANULES_IN_BLOCK * limits.blocks) as usize;
    let threads = usize::from(limits.threads);
    space.words.count() == regions(limits).total as usize
        && are_registers_for(&space.registers, limits)
        && are_registers_for(&space.deferred, limits)
        && space.logged.len() <= threads * limits.log as usize
        && space.work.len() <= granules
        && report_fits(&space.report, granules)
}

/// Writes the words of one space over those of another.
fn copy_words(to: &mut HeapWords, from: &HeapWords)
    requires { length to.old ≡ length from.now }
    ensures { to.new ≡ from.now }
{
    for at in 0..from.count() {
        to.set(at, from.get(at));
    }
}

/// Puts what one report says, and what of its counts was told, in place of what another says, in its room.
fn copy_report(to: &mut Report, from: &Report)
    requires { HasReportRoomFor to.old from.now }
    ensures says { report_of to.new ≡ report_of from.now }
    ensures told { to.new.told.items ≡ from.now.told.items }
{
    to.number = from.number;
    to.kind = from.kind;
    to.promoted.copy_from(&from.promoted);
    to.dead.copy_from(&from.dead);
    to.stuck.copy_from(&from.stuck);
    to.swept.copy_from(&from.swept);
    to.counts = from.counts.same();
    to.told.copy_from(from.told.as_slice());
}

/// Makes a space what another one is, in its room.
pub(crate) fn copy_space(to: &mut Space, from: &Space)
    requires words { length to.old.words ≡ length from.now.words }
    requires room { HasRoomFor to.old from.now }
    ensures { sight_of to.new ≡ sight_of from.now }
{
    copy_words(&mut to.words, &from.words);
    to.registers.copy_from(&from.registers);
    to.deferred.copy_from(&from.deferred);
    to.logged.copy_from(from.logged.as_slice());
    to.work.copy_from(from.work.as_slice());
    copy_report(&mut to.report, &from.report);
    to.limits = from.limits;
    to.tally = from.tally;
    to.pauses = from.pauses;
    to.trace = from.trace;
    to.rest_next = from.rest_next;
    to.rest_end = from.rest_end;
}
