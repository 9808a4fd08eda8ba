//! The heap of a program, with the pauses that it makes by itself.
ghost use Rattle.std.specs.Prelude.{◌≡◌, ◌+◌, ◌-◌, ◌*◌, ◌^◌, ◌<◌, ◌≤◌, ◌↔◌, ◌⊎◌, false, None, List, IsTrue, IfOk};
ghost use Rattle.lxr_graph.specs.declared.Op.TheVariants as op;
ghost use Rattle.lxr_large_model.specs.History.{LargeItem};
ghost use Rattle.lxr_heap.specs.Holding.{IsHeapOf};
ghost use Rattle.lxr_heap.specs.Trying.{Does, StaysAside};
ghost use Rattle.lxr_heap.specs.Acting.{IsCallable, MayBeCalled, WantsNoPause};
ghost use Rattle.lxr_c_heap.specs.Hosting.{Acts, HasRoom, IsAtEnd, IsDue, IsDueInTime, IsHostOf, IsOpened, IsServing, IsWithin, Makes, Pauses, PausesAsked, PausesWhere, Replies, SettlesAt, Stores, Turns, all_registers_in, exceeds_room as is_exceeding};
ghost use Rattle.lxr_c_heap.specs.Calling.{SetsGrow, SetsRoom, SetsWork};
ghost use Rattle.lxr_c_heap.specs.Pacing.{bytes_by};
ghost use Rattle.lxr_c_heap.specs.Working.{Works, WorksAsked, WorksWhere, with_limit, with_pace};
ghost use Rattle.lxr_c_heap.specs.Settings.{AreSettings};
ghost use Rattle.lxr_c_base.specs.Requests.{IsMaking, IsQuiet, IsStoring};

use crate::pacing::{Pace, bytes_of, due_after, is_reached};
use crate::room::{MOST_GROW, Room};
use crate::settings::Settings;
use crate::working::{
    MOST_WORK, SLICE_PARTS, first_slice, has_more, slice_after, slice_from, sooner, turn_of,
};
use lxr_c_base::Code;
use lxr_heap::{LargeHeap, Slice};
use lxr_large_model::{Acted, LargeOp, LargeReply};
use std::alloc::{AllocError, Global};

/// How many objects, and how many pauses, a heap makes before it is renewed: its names have serials, and its reports numbers, of 32 bits.
#[derive(Clone, Copy, Debug, PartialEq, Eq)]
pub struct Ends {
    pub made: u32,
    pub pauses: u32,
}

/// The ends of each heap: a call makes one object and two pauses at most, and there is room for these.
pub const ENDS: Ends = Ends {
    made: 4_294_967_000,
    pauses: 4_294_967_000,
};

/// What nobody but this module has: only here a heap is taken apart. It has no `Drop`.
struct Seal;

/// The heap of a program. It has no `Drop`: it ends by `close`.
pub struct HostHeap {
    pub heap: LargeHeap,
    /// How many registers the host may name, the first ones. Those behind them are the library's own.
    pub named: u16,
    /// When a pause is due before an object is made.
    pub pace: Pace,
    /// How many blocks are in use before the one that is due collects.
    pub room: Room,
    /// The bytes of new objects after which the next pause is due, by the pace or the room.
    pub limit: Option<u64>,
    /// Those after which it is due by the room, and doesn't wait for slices.
    pub brink: Option<u64>,
    /// The bytes of the objects that were made since the last pause.
    pub bytes: u64,
    /// How many units of what waits for the next pause it does for each 64 bytes of new objects: 0, none.
    pub work: u32,
    /// The bytes of new objects after which the next slice of these is due; none where nothing is left for slices before the next pause.
    pub slice: Option<u64>,
    /// The bytes of new objects below which neither a slice nor a pause is due.
    pub turn: u64,
    /// How many pauses were made since the heap was opened, modulo 2^64.
    pub pauses: u64,
    seal: Seal,
}

impl HostHeap {
    /// A heap of these settings.
    pub(crate) fn open(alloc: Global, wanted: &Settings) -> Result<HostHeap, AllocError>
        requires { AreSettings wanted.now }
        ensures opened { IfOk result (λ x. IsOpened x wanted.now) }
        ensures serving { IfOk result IsServing }
    {
        let named = wanted.registers();
        let heap = LargeHeap::open(alloc, wanted.sizes())?;
        let pace = Pace::of(wanted.pace);
        let room = Room::of(wanted);
        let work = wanted.work_said();
        let free = heap.free_blocks();
        let limit = due_after(pace, room, free);
        let brink = room.limit(free);
        let slice = first_slice(work, 0, limit);
        Ok(HostHeap {
            heap,
            named: named as u16,
            pace,
            room,
            limit,
            brink,
            bytes: 0,
            work,
            slice,
            turn: turn_of(slice, limit, brink),
            pauses: 0,
            seal: Seal,
        })
    }

    /// Ends it, and frees its memory.
    pub(crate) fn close(self) {
        let HostHeap {
            heap,
            named: _,
            pace: _,
            room: _,
            limit: _,
            brink: _,
            bytes: _,
            work: _,
            slice: _,
            turn: _,
            pauses: _,
            seal: Seal,
        } = self;
        drop(heap);
    }

    /// Makes a pause.
    #[inline(never)]
    pub fn pause(&mut self, collect: bool)
        requires number { self.old.heap.space.pauses + 1 < 2 ^ 32 }
        ensures { (h : List LargeItem) → IsHeapOf self.old.heap h → Pauses self.old self.new h collect }
    {
        self.heap.pause(collect);
        let free = self.heap.free_blocks();
        self.room = self.room.after(collect, free);
        self.limit = due_after(self.pace, self.room, free);
        self.brink = self.room.limit(free);
        self.bytes = 0;
        self.slice = first_slice(self.work, 0, self.limit);
        self.turn = turn_of(self.slice, self.limit, self.brink);
        self.pauses = self.pauses.wrapping_add(1);
    }

    /// Does up to so many units of what waits for the next pause. The next slice is due after so many bytes, where there is more to do.
    fn work(&mut self, units: u32, next: Option<u64>) -> Slice
        ensures { (h : List LargeItem) → IsHeapOf self.old.heap h → Works self.old self.new h units next result }
    {
        let slice = self.heap.work(units);
        self.slice = slice_after(slice, next);
        self.turn = turn_of(self.slice, self.limit, self.brink);
        slice
    }

    /// Whether it has made as many objects, or as many pauses, as it makes before it is renewed.
    #[inline(always)]
    pub(crate) fn is_at_end(&self, ends: Ends) -> bool
        ensures { IsTrue result ↔ IsAtEnd ends self.now }
    {
        self.heap.made() >= ends.made || self.heap.pauses() >= ends.pauses
    }

    /// Where it is at an end, collects and gives all objects that are left new names.
    #[inline(always)]
    pub fn settle(&mut self, ends: Ends)
        requires serving { IsServing self.old }
        requires ends { IsWithin ends }
        ensures settled { (h : List LargeItem) → IsHeapOf self.old.heap h → (k : List LargeItem) × SettlesAt ends self.old h self.new k }
        ensures room { HasRoom 2 3 self.new }
    {
        if !self.is_at_end(ends) {
            return;
        }
        self.pause(true);
        self.heap.renew();
    }

    /// Whether nothing is left for slices before the next pause.
    fn has_no_slice(&self) -> bool
        ensures { IsTrue result ↔ (self.now.slice ≡ None) }
    {
        self.slice.is_none()
    }

    /// Whether a pause is due that waits for slices: nothing is left for these.
    fn is_due_in_time(&self) -> bool
        ensures { (h : List LargeItem) → IsHostOf self.now h → IsTrue result ↔ IsDueInTime self.now h }
    {
        self.has_no_slice() && is_reached(self.limit, self.bytes)
    }

    /// Whether a pause is due before an object is made.
    fn is_due(&self) -> bool
        ensures { (h : List LargeItem) → IsHostOf self.now h → IsTrue result ↔ IsDue self.now h }
    {
        is_reached(self.brink, self.bytes) || self.is_due_in_time()
    }

    /// Does the slice that is due before an object is made.
    fn work_if_due(&mut self)
        requires room { HasRoom 2 3 self.old }
        ensures works { (h : List LargeItem) → IsHostOf self.old h → WorksWhere self.old h self.new }
        ensures room { HasRoom 2 3 self.new }
    {
        if !is_reached(self.slice, self.bytes) {
            return;
        }
        let next = slice_from(self.work, self.bytes);
        self.work(SLICE_PARTS * self.work, next);
    }

    /// Whether more blocks are in use than it has room for.
    fn exceeds_room(&self) -> bool
        ensures { result ≡ is_exceeding self.now }
    {
        self.room.is_exceeded(self.heap.free_blocks())
    }

    /// Makes the pause that is due: one that collects where the room is exceeded.
    fn pause_due(&mut self)
        requires number { self.old.heap.space.pauses + 1 < 2 ^ 32 }
        ensures { (h : List LargeItem) → IsHeapOf self.old.heap h → Pauses self.old self.new h (is_exceeding self.old) }
    {
        let collect = self.exceeds_room();
        self.pause(collect);
    }

    /// Makes a pause where one is due before an object is made.
    fn pause_if_due(&mut self)
        requires room { HasRoom 2 3 self.old }
        ensures pauses { (h : List LargeItem) → IsHostOf self.old h → (k : List LargeItem) × PausesWhere (IsDue self.old h) (is_exceeding self.old) self.old h self.new k }
        ensures room { HasRoom 2 2 self.new }
    {
        if !self.is_due() {
            return;
        }
        self.pause_due();
    }

    /// Does the slice and makes the pause that are due before an object is made.
    #[cold]
    #[inline(never)]
    fn take_turn(&mut self)
        requires room { HasRoom 2 3 self.old }
        ensures turns { (h : List LargeItem) → IsHostOf self.old h → Turns self.old h self.new }
        ensures room { HasRoom 2 2 self.new }
    {
        self.work_if_due();
        self.pause_if_due();
    }

    /// Does the slice and makes the pause that are due before an object is made, if any is.
    #[inline(always)]
    fn turn_if_due(&mut self)
        requires room { HasRoom 2 3 self.old }
        ensures turns { (h : List LargeItem) → IsHostOf self.old h → Turns self.old h self.new }
        ensures room { HasRoom 2 2 self.new }
    {
        if self.bytes < self.turn {
            return;
        }
        self.take_turn();
    }

    /// Counts the bytes of the object that an operation made, if it made one.
    #[inline(always)]
    fn count_bytes(&mut self, op: LargeOp, reply: LargeReply)
        requires op { IsCallable op }
        requires room { self.old.bytes + bytes_by op reply < 2 ^ 64 }
        ensures { self.new ≡ record self.old { bytes = self.old.bytes + bytes_by op reply } }
    {
        self.bytes += bytes_of(op, reply);
    }

    /// Does an operation that needs no pause before it, since one was just made for it.
    #[cold]
    #[inline(never)]
    fn act_behind(&mut self, op: LargeOp) -> LargeReply
        requires made { self.old.heap.made < 2 ^ 32 - 1 }
        requires bytes { self.old.bytes ≤ 8388608 * self.old.heap.made }
        requires op { MayBeCalled (all_registers_in self.old) op }
        requires ready { ∥ ((h : List LargeItem) × WantsNoPause self.old.heap h op) ∥₁ }
        ensures { (h : List LargeItem) → WantsNoPause self.old.heap h op → Replies self.old self.new h op result }
    {
        match self.heap.act(op) {
            Acted::Replied(reply) => {
                self.count_bytes(op, reply);
                reply
            }
            Acted::Room | Acted::Log => unreachable!(),
        }
    }

    /// Does an operation, behind the pause that it needs.
    #[inline(always)]
    fn act(&mut self, op: LargeOp) -> LargeReply
        requires room { HasRoom 2 2 self.old }
        requires op { MayBeCalled (all_registers_in self.old) op }
        ensures acts { (h : List LargeItem) → IsHeapOf self.old.heap h → Acts self.old self.new h op result }
        ensures serving { IsServing self.new }
    {
        match self.heap.act(op) {
            Acted::Replied(reply) => {
                self.count_bytes(op, reply);
                reply
            }
            Acted::Room => {
                self.pause(true);
                self.act_behind(op)
            }
            Acted::Log => {
                self.pause(false);
                self.act_behind(op)
            }
        }
    }

    /// Does an operation that makes no object and stores no reference.
    #[inline(always)]
    pub fn reply(&mut self, op: LargeOp) -> LargeReply
        requires serving { IsServing self.old }
        requires op { IsQuiet (all_registers_in self.old) op }
        ensures replies { (h : List LargeItem) → IsHeapOf self.old.heap h → Replies self.old self.new h op result }
        ensures serving { IsServing self.new }
    {
        match self.heap.act(op) {
            Acted::Replied(reply) => reply,
            Acted::Room | Acted::Log => unreachable!(),
        }
    }

    /// Stores a reference.
    #[inline(always)]
    pub fn store(&mut self, op: LargeOp) -> LargeReply
        requires serving { IsServing self.old }
        requires op { IsStoring (all_registers_in self.old) op }
        ensures stores { (h : List LargeItem) → IsHostOf self.old h → Stores self.old self.new h op result }
        ensures serving { IsServing self.new }
    {
        self.settle(ENDS);
        self.act(op)
    }

    /// Stores a reference where nothing stands against it: the heap isn't at an end, there is such a reference, and nothing has to be recorded.
    /// Whether it did.
    #[inline(always)]
    pub fn try_store(&mut self, base: u8, index: u32, source: u8) -> bool
        requires base { base < all_registers_in self.old }
        requires source { source < all_registers_in self.old }
        ensures early { IsTrue result → ¬ IsAtEnd ENDS self.old }
        ensures done { IsTrue result → Does self.old.heap self.new.heap (op.Store base index source) }
        ensures rest { self.new ≡ record self.old { heap = self.new.heap } }
        ensures small { IsTrue result → index < 2 ^ 16 }
        ensures aside { result ≡ false → IsAtEnd ENDS self.old ⊎ ((h : List LargeItem) → IsHeapOf self.old.heap h → StaysAside h base index source) }
        ensures unchanged { result ≡ false → self.new ≡ self.old }
    {
        if self.is_at_end(ENDS) {
            return false;
        }
        self.heap.try_store(base, index, source)
    }

    /// Makes an object.
    #[inline(always)]
    pub fn make(&mut self, op: LargeOp) -> LargeReply
        requires serving { IsServing self.old }
        requires op { IsMaking (all_registers_in self.old) op }
        ensures makes { (h : List LargeItem) → IsHostOf self.old h → Makes self.old self.new h op result }
        ensures serving { IsServing self.new }
    {
        self.settle(ENDS);
        self.turn_if_due();
        self.act(op)
    }

    /// Sets when pauses are due, from now on.
    pub(crate) fn set_pace(&mut self, pace: Pace)
        requires serving { IsServing self.old }
        ensures set { self.new ≡ with_pace pace self.old }
        ensures serving { IsServing self.new }
    {
        self.pace = pace;
        self.set_limit();
    }

    /// Sets the limit and the brink anew, by the pace and the room.
    fn set_limit(&mut self)
        ensures { self.new ≡ with_limit self.old }
    {
        let free = self.heap.free_blocks();
        self.limit = due_after(self.pace, self.room, free);
        self.brink = self.room.limit(free);
        self.slice = sooner(self.slice, self.limit);
        self.turn = turn_of(self.slice, self.limit, self.brink);
    }

    /// Sets how many blocks are in use before a pause that is due collects, from now on; 0: all.
    pub(crate) fn set_room(&mut self, blocks: u32) -> Code
        requires serving { IsServing self.old }
        ensures set { SetsRoom blocks self.old self.new result }
        ensures serving { IsServing self.new }
    {
        if blocks > self.room.reserved {
            return Code::Size;
        }
        self.room = self.room.with_blocks(blocks);
        self.set_limit();
        Code::Done
    }

    /// Sets how many units of what waits for the next pause it does for each 64 bytes of new objects, from now on; 0: none.
    pub(crate) fn set_work(&mut self, units: u32) -> Code
        requires serving { IsServing self.old }
        ensures set { SetsWork units self.old self.new result }
        ensures serving { IsServing self.new }
    {
        if units > MOST_WORK {
            return Code::Size;
        }
        self.work = units;
        self.slice = first_slice(units, self.bytes, self.limit);
        self.turn = turn_of(self.slice, self.limit, self.brink);
        Code::Done
    }

    /// Does up to so many units of what waits for the next pause, as they were asked for. Whether slices have more to do.
    pub(crate) fn work_asked(&mut self, units: u32) -> bool
        requires serving { IsServing self.old }
        ensures works { (h : List LargeItem) → IsHostOf self.old h → WorksAsked units self.old self.new h result }
        ensures serving { IsServing self.new }
    {
        let slice = self.work(units, self.slice);
        has_more(slice)
    }

    /// Sets how many hundredths more than what lives each collecting pause leaves room for, from the next one on; 0: the room stays.
    pub(crate) fn set_grow(&mut self, grow: u32) -> Code
        requires serving { IsServing self.old }
        ensures set { SetsGrow grow self.old self.new result }
        ensures serving { IsServing self.new }
    {
        if grow > MOST_GROW {
            return Code::Size;
        }
        self.room.grow = grow;
        Code::Done
    }

    /// Makes a pause that was asked for.
    pub(crate) fn pause_asked(&mut self, collect: bool)
        requires serving { IsServing self.old }
        ensures pauses { (h : List LargeItem) → IsHostOf self.old h → PausesAsked self.old self.new h collect }
        ensures serving { IsServing self.new }
    {
        self.settle(ENDS);
        self.pause(collect);
    }
}
