//! A heap for one thread that is called directly: `act` does one operation and answers, `pause` reclaims.
//!
//! Nothing runs beside the caller, so all is on plain words: no step is atomic, and no operation is kept. Objects are those of a space
//! (`lxr_direct`, `lxr_one_pause`), and large ones have a body beside it that never moves (`lxr_large_bodies`). The heap is always that of
//! a legal history of calls and pauses, so there is no order of calls by which a caller loses an object. The scheme is that of LXR (Zhao,
//! Blackburn and McKinley, 2022).
#![tactic(auto)]

mod acting;
mod bulk;
mod heap;
mod known;
mod looking;
mod opening;
mod pausing;
mod renewing;
mod telling;
mod through;
mod trimming;
mod trying;
mod working;

ghost use Rattle.std.specs.Prelude.{◌≡◌, ◌↔◌, ◌+◌, ◌-◌, ◌^◌, ◌<◌, IfOk, IsTrue, List, [], None, length, unwrap_or};
ghost use Rattle.lxr_layout.specs.declared.TheConstants.{DECREMENT_COUNT};
ghost use Rattle.lxr_graph.specs.State.{register_at};
ghost use Rattle.lxr_image.specs.Spaces.{tables_of};
ghost use Rattle.lxr_blocks.specs.Listing.{listed_frees};
ghost use Rattle.lxr_large_model.specs.Full.{kept_names};
ghost use Rattle.lxr_large_model.specs.History.{LargeItem, large_moment, large_state};
ghost use Rattle.lxr_large_model.specs.Step.{IsLargeReply};
ghost use Rattle.lxr_large_bodies.specs.Bodies.{blocks_held};
ghost use Rattle.lxr_heap.specs.Acting.{Acts, MayBeCalled};
ghost use Rattle.lxr_heap.specs.Bulk.{WritesWords, base_held, bulk_reply, words_held};
ghost use Rattle.lxr_heap.specs.Holding.{AreSizes, IsHeapOf, IsOpenedHeap};
ghost use Rattle.lxr_heap.specs.Looking.{IsLook, shape_held};
ghost use Rattle.lxr_heap.specs.Pausing.{PausesHeap};
ghost use Rattle.lxr_heap.specs.Renewing.{RenewsHeap};
ghost use Rattle.lxr_heap.specs.Telling.{TellsHeap, TellsNames};
ghost use Rattle.lxr_heap.specs.Working.{WorksHeap};

pub use bulk::BodyReply;
use heap::Heap;
use lxr_graph::Report;
use lxr_image::Space;
use lxr_large_bodies::Bodies;
use lxr_large_model::{Acted, LargeOp, LargeReply};
use lxr_layout::Shape;
pub use lxr_pause_decrements::Slice;
pub use opening::Sizes;
use std::alloc::{AllocError, Global};
use std::marker::Model;

/// The one thread of a heap, which makes its names.
pub(crate) const MUTATOR: u8 = 1;

/// A heap with large objects, for one thread. All its memory is reserved when it is opened.
#[derive(Drop)]
pub struct LargeHeap {
    heap: Heap,
}

impl Model for LargeHeap {
    ghost use Rattle.std.specs.Prelude.{List};
    ghost use Rattle.lxr_large_model.specs.History.{LargeItem};
    ghost use Rattle.lxr_heap.specs.declared.heap.Heap.{Heap as HeapOf};
    ghost use Rattle.lxr_heap.specs.Holding.{IsHeapOf};

    ghost Value = { HeapOf };

    ghost view = { λ x. x.heap };

    ghost invariant = { λ x. (h : List LargeItem) × IsHeapOf x.heap h };
}

impl LargeHeap {
    /// A heap of these sizes: it has the world alone, which r0 holds. All its memory is reserved here, and written as it is used, but for a
    /// word of each block.
    pub fn open(alloc: Global, sizes: Sizes) -> Result<LargeHeap, AllocError>
        requires { AreSizes sizes }
        ensures { IfOk result (λ heap. IsOpenedHeap heap sizes) }
    {
        let heap = opening::open(alloc, sizes)?;
        Ok(LargeHeap { heap })
    }

    /// Does one operation of the thread. `Replied` has its reply: that of a step, or that the heap is full, exactly where it finds no place
    /// right behind a pause that collected, or such refusals alone. `Room` comes exactly where it finds no place and no such pause stands
    /// before it, and `Log` exactly where a store has to record what it overwrites and the log is full; then nothing has changed,
    /// and the operation may be done again behind a pause: one that collects for `Room`, any for `Log`.
    #[inline(always)]
    pub fn act(&mut self, op: LargeOp) -> Acted
        requires made { self.old.made < 2 ^ 32 - 1 }
        requires op { MayBeCalled self.old.space.limits.registers op }
        ensures { (h : List LargeItem) → IsHeapOf self.old h → Acts self.old self.new h op result }
    {
        acting::act(&mut self.heap, op)
    }

    /// What an operation that only looks is replied: that of a step, of which nothing changes. No history has it: the heap is that of the
    /// histories that it was of, and a pause that is fresh stays so.
    #[inline(always)]
    pub fn see(&self, op: LargeOp) -> LargeReply
        requires op { IsLook op }
        ensures { (h : List LargeItem) → IsHeapOf self.now h → IsLargeReply (large_state h) op result }
    {
        looking::see(&self.heap, op)
    }

    /// Whether a register is nil.
    #[inline(always)]
    pub fn is_nil(&self, register: u8) -> bool
        ensures { (h : List LargeItem) → IsHeapOf self.now h → IsTrue result ↔ (register_at (large_state h).small 1 register ≡ None) }
    {
        looking::is_nil(&self.heap, register)
    }

    /// How many references and data words the object has that a register holds, and how many blocks its body has, 0 where it has none. None
    /// exactly where the register is nil.
    #[inline(always)]
    pub fn shape(&self, base: u8) -> Option<(Shape, u32)>
        ensures { (h : List LargeItem) → IsHeapOf self.now h → result ≡ shape_held (large_state h) (register_at (large_state h).small 1 base) }
    {
        looking::shape(&self.heap, base)
    }

    /// Reads words of the body of what `base` holds, from word `index` on, as many as there is room for: all of them or none.
    #[inline(always)]
    pub fn read(&self, base: u8, index: u32, into: &mut [u64]) -> BodyReply
        ensures reply { (h : List LargeItem) → IsHeapOf self.now h → result ≡ bulk_reply (large_state h) (base_held h base) index (length into.old) }
        ensures words { (h : List LargeItem) → IsHeapOf self.now h → into.new ≡ unwrap_or (words_held (large_state h) (base_held h base) index (length into.old)) into.old }
    {
        bulk::read(&self.heap, base, index, into)
    }

    /// Writes words over those of the body of what `base` holds, from word `index` on: all of them or none. In the history that is one
    /// `bput` for each of them, in order.
    #[inline(always)]
    pub fn write(&mut self, base: u8, index: u32, from: &[u64]) -> BodyReply
        requires base { base < self.old.space.limits.registers }
        ensures { (h : List LargeItem) → IsHeapOf self.old h → WritesWords self.old self.new h base index from.now result }
    {
        bulk::write(&mut self.heap, base, index, from)
    }

    /// Makes a pause, which collects all that is unreachable, or counts alone. Of the bodies it leaves exactly those whose names it leaves.
    /// There are fewer than 2^32 pauses, since a report has its number. Behind it nothing is told of counts.
    pub fn pause(&mut self, collect: bool)
        requires number { self.old.space.pauses + 1 < 2 ^ 32 }
        ensures pauses { (h : List LargeItem) → IsHeapOf self.old h → PausesHeap self.old self.new h collect }
        ensures untold { self.new.space.report.told.items ≡ [] }
    {
        pausing::pause(&mut self.heap, collect)
    }

    /// Does up to so many units of what the next pause would do first, so that less is left to it. A unit lowers the count of one object, by one
    /// of the decrements that the last pause queued, and reclaims it where it falls to 0; what it refers to waits then. For the history nothing
    /// happens: the next pause reports as dead what it would have reported, and until then its body is kept. `Done` tells that nothing waits,
    /// `Spent` that more does. `Held` tells that by the next unit an object would die that has more references than may wait: that is left to
    /// the pause. It takes no memory.
    pub fn work(&mut self, units: u32) -> Slice
        ensures { (h : List LargeItem) → IsHeapOf self.old h → WorksHeap self.old self.new h units result }
    {
        working::work(&mut self.heap, units)
    }

    /// Lists the world and each object that the last pause left with its count, or none where it is stuck, in the order of names: in `told`
    /// of what `report` gives. What died since by `work` is left out. A count is what the table of counts has. After a pause that collected,
    /// with nothing but refusals (`full`) and renewals between, that is the number of references to the object, as that pause reported it
    /// unless names were renewed since. It takes no memory: it goes once over the heap's start bits, looks at the header and the count of
    /// each of these objects, and sorts them by name, in place (n log n).
    pub fn tell_counts(&mut self)
        ensures { (h : List LargeItem) → IsHeapOf self.old h → TellsHeap self.old self.new h }
    {
        telling::tell(&mut self.heap)
    }

    /// Lists the names that the last pause reported, so that they can be read in what `report` gives: what it promoted, what died, what got
    /// stuck and what it swept, each in order. A pause leaves them as it found them, since sorting takes longer than finding (n log n). It
    /// takes no memory, and does nothing where they are listed.
    pub fn tell_names(&mut self)
        ensures { (h : List LargeItem) → IsHeapOf self.old h → TellsNames self.old self.new h }
    {
        telling::list_names(&mut self.heap)
    }

    /// Gives each object that is left a new name, 1.1, 1.2, 1.3, .., in order of the old ones, and counts pauses from 0 again, so that a
    /// heap lives for ever though names and pauses have 32 bits. It stands behind a pause that collected, with nothing but refusals (`full`)
    /// and other renewals between. What registers and objects refer to and the words of bodies are as they were, and nothing moves. The last
    /// pause's report stays, but for `told`, which lists what was left with its counts, under the old names. It takes no memory: it tells what
    /// is left, goes once more over the heap's start bits, and looks up each name.
    pub fn renew(&mut self)
        requires fresh { IsTrue self.old.fresh }
        ensures { (h : List LargeItem) → IsHeapOf self.old h → RenewsHeap self.old self.new h }
    {
        renewing::renew(&mut self.heap)
    }

    /// What the last pause reported, with what was told since of the counts of what it left. Its names can be read once they are listed
    /// (`tell_names`).
    pub fn report(&self) -> &Report
        ensures { result.now ≡ self.now.space.report }
    {
        &self.heap.space.report
    }

    /// How many objects aren't reclaimed: those that the last pause left, and those that were made since, without the world.
    #[inline(always)]
    pub fn live(&self) -> u32
        ensures { (h : List LargeItem) → IsHeapOf self.now h → result ≡ length (kept_names (large_moment h)) }
    {
        looking::live(&self.heap)
    }

    /// How many objects were made since the last pause.
    #[inline(always)]
    pub fn young(&self) -> u32
        ensures { (h : List LargeItem) → IsHeapOf self.now h → result ≡ length (large_moment h).made }
    {
        looking::young(&self.heap)
    }

    /// How many blocks of the space are Free: wholly without objects. It looks at the state of each block.
    pub fn free_blocks(&self) -> u32
        ensures { result ≡ length (listed_frees (tables_of self.now.space) self.now.space.limits.blocks) }
    {
        looking::free_blocks(&self.heap.space)
    }

    /// How many blocks for bodies no body has. It looks at each block.
    pub fn free_body_blocks(&self) -> u32
        ensures { result + blocks_held self.now.bodies.bodies ≡ self.now.bodies.blocks }
    {
        self.heap.bodies.free_blocks()
    }

    /// How many decrements wait for the next pause, in the list of decrements.
    pub fn waiting(&self) -> u64
        ensures { result ≡ (tables_of self.now.space).cursors DECREMENT_COUNT }
    {
        looking::waiting(&self.heap.space)
    }

    /// How many objects were made, each with the next serial. An operation asks that this is below 2^32 - 1.
    #[inline(always)]
    pub fn made(&self) -> u32
        ensures { result ≡ self.now.made }
    {
        self.heap.made
    }

    /// How many registers an operation may name: the first so many.
    #[inline(always)]
    pub fn registers(&self) -> u16
        ensures { result ≡ self.now.space.limits.registers }
    {
        self.heap.space.limits.registers
    }

    /// How many pauses were made. A pause asks that this is below 2^32 - 1.
    #[inline(always)]
    pub fn pauses(&self) -> u32
        ensures { result ≡ self.now.space.pauses }
    {
        self.heap.space.pauses
    }

    /// Whether the last pause collected, and only operations came behind it that were refused for want of room.
    #[inline(always)]
    pub fn is_fresh(&self) -> bool
        ensures { result ≡ self.now.fresh }
    {
        self.heap.fresh
    }

    /// The space of its objects.
    pub fn space(&self) -> &Space
        ensures { result.now ≡ self.now.space }
    {
        &self.heap.space
    }

    /// The bodies of its large objects.
    pub fn bodies(&self) -> &Bodies
        ensures { result.now ≡ self.now.bodies }
    {
        &self.heap.bodies
    }

    /// The space of its objects, as the heap leaves it; the bodies are let go.
    pub fn into_space(self) -> Space
        ensures { result ≡ self.space }
    {
        self.heap.space
    }
}
