//! One pause of a heap.
ghost use Rattle.std.specs.Prelude.{◌≡◌, ◌+◌, ◌^◌, ◌<◌, ◌≤◌, ◌⊎◌, List, [], ◌++◌, if◌then◌else◌, length};
ghost use Rattle.lxr_graph.specs.Distinct.{IsDistinct};
ghost use Rattle.lxr_large_model.specs.History.{LargeItem};
ghost use Rattle.lxr_one_pause.specs.declared.Ask.TheVariants as ask;
ghost use Rattle.lxr_one_pause.specs.Deciding.{IsPace};
ghost use Rattle.lxr_heap.specs.Holding.{IsHeapOf};
ghost use Rattle.lxr_heap.specs.Pausing.{PausesHeap, with_gone};

use crate::heap::Heap;
use lxr_graph::{Names, Report};
use lxr_one_pause::{Ask, Pace, one_pause};
use std::mem::swap;

/// A pace by which no trace begins.
fn untraced_pace() -> Pace
    ensures pace { IsPace result }
    ensures apart { result.trace ≡ 0 }
{
    Pace {
        trace: 0,
        within: 1,
    }
}

/// What the pause is asked for.
fn asked(collect: bool) -> Ask
    ensures { result ≡ (if collect then ask.Collect else ask.Ordinary) }
{
    if collect { Ask::Collect } else { Ask::Ordinary }
}

/// How many objects a pause leaves by its report, where the one before it left so many, and so many were made.
fn left_after(left: u32, made: u32, report: &Report) -> u32
    requires few { left + length report.now.promoted.items ≤ made }
    requires gone { length report.now.dead.items + length report.now.swept.items ≤ left + length report.now.promoted.items }
    ensures { result + (length report.now.dead.items + length report.now.swept.items) ≡ left + length report.now.promoted.items }
{
    let promoted = report.promoted.len() as u32;
    let gone = (report.dead.len() + report.swept.len()) as u32;
    left + promoted - gone
}

/// Puts the longer of two lists first.
fn longer_first(first: &mut Names, second: &mut Names)
    ensures { ((first.new ≡ first.old) × (second.new ≡ second.old)) ⊎ ((first.new ≡ second.old) × (second.new ≡ first.old)) }
{
    if first.len() < second.len() {
        swap(first, second);
    }
}

/// Reports as dead what was gone before the pause: its names join the dead, in the order of names, and nothing is gone any more. The shorter of
/// the two lists is copied.
fn report_gone(dead: &mut Names, gone: &mut Names)
    requires once { IsDistinct (dead.old.items ++ gone.old.items) }
    requires room { length dead.old.items + length gone.old.items ≤ dead.old.room }
    requires rooms { gone.old.room ≡ dead.old.room }
    ensures dead { dead.new ≡ with_gone dead.old gone.old.items }
    ensures gone { (gone.new.items ≡ []) × (gone.new.room ≡ gone.old.room) }
{
    longer_first(dead, gone);
    dead.append(gone);
    dead.order();
}

/// Makes a pause. What is unreachable is reclaimed where it is to collect, and else what counts show to be dead; bodies stay where their names
/// do. It looks at as many registers as hold something now or did at the last pause. What was gone before it is reported with its dead. Nothing
/// is told of counts.
pub(crate) fn pause(heap: &mut Heap, collect: bool)
    requires holds { (h : List LargeItem) × IsHeapOf heap.old h }
    requires number { heap.old.space.pauses + 1 < 2 ^ 32 }
    ensures pauses { (h : List LargeItem) → IsHeapOf heap.old h → PausesHeap heap.old heap.new h collect }
    ensures untold { heap.new.space.report.told.items ≡ [] }
{
    heap.space.registers.recount(0);
    let ask = asked(collect);
    let pace = untraced_pace();
    one_pause(&mut heap.space, ask, pace);
    report_gone(&mut heap.space.report.dead, &mut heap.gone);
    heap.bodies.after_pause(&heap.space.report);
    heap.left = left_after(heap.left, heap.made, &heap.space.report);
    heap.made_before = heap.made;
    heap.fresh = collect;
}
