//! Mutators: what a thread is between its units, and what is done to it from outside.
ghost use Rattle.std.specs.Prelude.{[], ◌≡◌, ◌+◌, ◌<◌, ◌≤◌, ◌↔◌, IfOk, IfSome, IsTrue, IsSome, length};
ghost use Rattle.std.specs.List.{All};
ghost use Rattle.lxr_layout.specs.declared.TheConstants.{MOST_GRANULES, REGISTERS};
ghost use Rattle.lxr_layout.specs.Objects.{FitsShape};
ghost use Rattle.lxr_layout.specs.Registers.{AreNil};
ghost use Rattle.lxr_layout.specs.Spaces.{AreLimits};
ghost use Rattle.lxr_alloc.specs.declared.TheConstants.{MOST_OPERATIONS};
ghost use Rattle.lxr_base.specs.Roomy.{emptied};
ghost use Rattle.lxr_graph.specs.Step.{IsFormedFor};
ghost use Rattle.lxr_mutator.specs.Operating.{dest_of, shape_made};
ghost use Rattle.lxr_mutator.specs.Mutating.{IsWaiting, has_collected, newest_of, next_name, op_now, placed_count, register, reply_in, rests_in, tally_of, waiting_by, wants_pause};
ghost use Rattle.lxr_mutator.specs.Dialogues.{most_operations};
ghost use Rattle.lxr_mutator.specs.Steps.{shape_now, with_register};
ghost use Rattle.lxr_mutator.specs.Mutators.{AreRegisters, IsFull, IsHeld, IsMutator, IsOperation, IsThrough, again, answered, first, first_live, first_with, held_place, no_spans, renewed, served};

use crate::agenda::{Agenda, most_operations};
use crate::operating::{dest_of, shape_made};
use crate::phases::{MutEnd, MutTally, MutatorPhase, Waiting};
use lxr_actor::Actor;
use lxr_alloc::{Span, Spans};
use lxr_barrier::Log;
use lxr_graph::{Op, Operations, Replies, Reply};
use lxr_layout::{
    Limits, MOST_GRANULES, Name, Place, REGISTERS, Regions, Shape, copy_places, regions,
};
use std::alloc::{AllocError, Global};
use std::marker::Model;

mod drawing;
mod fields;
mod orders;
mod straight;
mod units;

/// A thread of a script, or a live one, as a machine. One unit is one operation.
#[derive(Drop)]
pub struct Mutator {
    thread: u8,
    agenda: Agenda,
    regions: Regions,
    every: u32,
    names: bool,
    log: Log,
    registers: Vec<Place>,
    /// How many of its first registers may hold something.
    in_use: u16,
    /// How many registers it may be asked to name.
    width: u16,
    spans: Spans,
    /// How many objects of its thread there were as it began to count.
    before: u32,
    since: u32,
    phase: MutatorPhase,
    /// How many words the new object has, while these are wiped.
    words: u32,
    end: Option<MutEnd>,
    tally: MutTally,
}

impl Model for Mutator {
    ghost use Rattle.lxr_mutator.specs.Mutating.{Mutating};

    ghost Value = { Mutating };

    ghost use Rattle.lxr_mutator.specs.Seen.{seen, IsKept};

    ghost view = { seen };

    ghost invariant = { IsKept };
}

impl Mutator {
    /// The mutator of a thread of a script, with all its operations, which do not name the end, in a space of these limits. It does at
    /// most `every` operations in an epoch, and tells names. It takes the memory for its log and all replies, which it keeps, and has no
    /// room for orders.
    pub fn new(
        alloc: Global,
        thread: u8,
        operations: Operations,
        limits: Limits,
        every: u32,
    ) -> Result<Mutator, AllocError>
        requires limits { AreLimits limits }
        requires thread { (1 ≤ thread) × (thread ≤ limits.threads) }
        requires operations { All (IsOperation limits.registers) operations.items }
        requires few { length operations.items ≤ most_operations thread }
        requires every { (1 ≤ every) × (every ≤ 1048576) }
        ensures { IfOk result (λ m. m ≡ first thread operations.items limits every) }
    {
        let agenda = Agenda::of_script(alloc, operations)?;
        Mutator::with_agenda(alloc, thread, agenda, limits, every, true)
    }

    /// The mutator of a thread that is yet to be ordered its operations, at most [`most_operations`], in a space of these limits. It does at most
    /// `every` operations in an epoch, and tells the names of what it loads and swaps out, by a look at their headers, where `names` is
    /// true. It takes the memory for its log, and keeps of its operations and replies the one at hand and the newest. A turn with nothing
    /// ordered is the thread's end.
    pub fn live(
        alloc: Global,
        thread: u8,
        limits: Limits,
        every: u32,
        names: bool,
    ) -> Result<Mutator, AllocError>
        requires limits { AreLimits limits }
        requires thread { (1 ≤ thread) × (thread ≤ limits.threads) }
        requires every { (1 ≤ every) × (every ≤ 1048576) }
        ensures { IfOk result (λ m. m ≡ first_live thread limits every names) }
    {
        let agenda = Agenda::live(most_operations(thread));
        Mutator::with_agenda(alloc, thread, agenda, limits, every, names)
    }

    /// The mutator of a thread with this agenda, as it is made.
    fn with_agenda(
        alloc: Global,
        thread: u8,
        agenda: Agenda,
        limits: Limits,
        every: u32,
        names: bool,
    ) -> Result<Mutator, AllocError>
        requires limits { AreLimits limits }
        requires thread { (1 ≤ thread) × (thread ≤ limits.threads) }
        requires operations { All (IsOperation limits.registers) agenda.operations }
        requires few { length agenda.operations ≤ MOST_OPERATIONS }
        requires begins { (agenda.replies.items ≡ []) × (length agenda.operations + 1 ≤ agenda.replies.room) }
        requires most { agenda.replies.room ≤ most_operations thread + 2 }
        requires every { (1 ≤ every) × (every ≤ 1048576) }
        ensures { IfOk result (λ m. m ≡ first_with thread agenda limits every names) }
    {
        let log = Log::new(alloc, limits.log)?;
        Ok(Mutator {
            thread,
            agenda,
            regions: regions(limits),
            every,
            names,
            log,
            registers: vec![in alloc; Place::NIL; REGISTERS]?,
            in_use: 0,
            width: limits.registers,
            spans: no_spans(),
            before: 0,
            since: 0,
            phase: MutatorPhase::Ready,
            words: 0,
            end: None,
            tally: MutTally {
                news: 0,
                loads: 0,
                stores: 0,
            },
        })
    }

    /// How its last unit ended; none before the first.
    pub fn ended(&self) -> Option<MutEnd>
        ensures { result ≡ self.now.end }
    {
        self.end
    }

    /// The `new` that waits for room: some exactly where the last unit ended with `NoRun`, and it was since neither
    /// served nor refused.
    pub fn waiting(&self) -> Option<Waiting>
        ensures waiting { result ≡ waiting_by self.now self.now.end }
        ensures some { IsSome result ↔ IsWaiting self.now }
        ensures fits { IfSome result (λ w. (w.dest < self.now.width) × FitsShape w.shape) }
    {
        match self.end {
            Some(MutEnd::NoRun) if self.resting() => {
                let op = self.op();
                Some(Waiting {
                    dest: dest_of(op),
                    shape: shape_made(op),
                })
            }
            _ => None,
        }
    }

    /// The name of the next object that it makes.
    pub fn next_name(&self) -> Name
        ensures { result ≡ next_name self.now }
    {
        Name {
            thread: self.thread,
            serial: self.before + self.tally.news + 1,
        }
    }

    /// The `new` that waits is done: the object of its name was made at this place, and its register holds the place, or
    /// nil where no heap has such a place. It counts for no epoch.
    pub fn serve(&mut self, place: Place)
        requires { IsWaiting self.old }
        ensures { self.new ≡ served self.old place }
    {
        let dest = dest_of(self.op());
        let name = self.next_name();
        self.set_register(dest, held(place));
        self.answer(Reply::New(name));
    }

    /// The `new` that waits finds no room and is done without an object.
    pub fn refuse(&mut self)
        requires { IsWaiting self.old }
        ensures { self.new ≡ answered self.old Reply.Full }
    {
        self.answer(Reply::Full);
    }

    /// The number of its thread, 1 for the first.
    pub fn thread(&self) -> u8
        ensures { result ≡ self.now.thread }
    {
        self.thread
    }

    /// The operations of a mutator of a script, in order. A live one keeps no lists.
    pub fn operations(&self) -> &Operations
        requires { IsFull self.now }
        ensures { result.now.items ≡ self.now.operations }
    {
        self.agenda.operations()
    }

    /// The replies of a mutator of a script so far, the thread's end among them. A live one keeps no lists.
    pub fn replies(&self) -> &Replies
        requires { IsFull self.now }
        ensures { result.now ≡ self.now.replies }
    {
        self.agenda.replies()
    }

    /// How many operations it has: all those of its script, or those that it was ordered so far.
    #[inline(always)]
    pub fn ordered(&self) -> u32
        ensures { result ≡ length self.now.operations }
    {
        self.agenda.ordered()
    }

    /// Whether an operation that it has is not done yet.
    #[inline(always)]
    pub fn is_open(&self) -> bool
        ensures { IsTrue result ↔ (length self.now.replies.items < length self.now.operations) }
    {
        self.agenda.answered() < self.agenda.ordered()
    }

    /// How many operations are done, the thread's end among them.
    #[inline(always)]
    pub fn operation(&self) -> u32
        ensures count { result ≡ length self.now.replies.items }
        // What holds of each mutator.
        ensures sound { IsMutator self.now }
    {
        self.agenda.answered()
    }

    /// How many operations stand in the history, the thread's end among them: those that have a reply, and a load or a swap that has
    /// taken its reference and is yet to tell the name.
    pub fn placed(&self) -> u32
        ensures count { result ≡ placed_count self.now }
        // What holds of each mutator.
        ensures sound { IsMutator self.now }
    {
        let told = self.operation();
        match self.phase {
            MutatorPhase::Referent { .. } => told + 1,
            _ => told,
        }
    }

    /// Whether its last operation was a `collect` that it did in this epoch.
    pub fn has_collected(&self) -> bool
        ensures { result ≡ has_collected self.now }
    {
        self.since > 0 && matches!(self.agenda.newest(), Some(Reply::Collected))
    }

    /// Whether its last operation was a `pause` or a `collect` that it did in this epoch.
    #[inline(always)]
    pub fn wants_pause(&self) -> bool
        ensures { result ≡ wants_pause self.now }
    {
        self.since > 0 && matches!(self.agenda.newest(), Some(Reply::Paused | Reply::Collected))
    }

    /// Its newest reply: that of its last operation, also where names were given anew behind a pause that served it; none before the first.
    #[inline(always)]
    pub fn newest(&self) -> Option<Reply>
        ensures { result ≡ newest_of self.now }
    {
        match self.agenda.newest() {
            Some(reply) => Some(reply),
            None => reply_in(self.end),
        }
    }

    /// What its operations did so far.
    pub fn tally(&self) -> MutTally
        ensures { result ≡ tally_of self.now.replies.items }
    {
        self.tally
    }

    /// Names were given anew between two epochs, and so many objects of its thread are left: its next object's serial follows these. The
    /// operation that is open, if one is, is all that it is asked for from now on, and it has no replies. It is a live mutator, which has not
    /// ended, and no `new` of it waits.
    pub fn renew(&mut self, before: u32)
        requires rests { IsTrue (rests_in self.old.phase) }
        requires goes_on { ¬ IsWaiting self.old × ¬ IsThrough self.old }
        requires live { ¬ IsFull self.old }
        requires before { before ≤ MOST_GRANULES }
        ensures { self.new ≡ renewed self.old before }
    {
        self.agenda.renew();
        self.before = before;
        self.tally = MutTally {
            news: 0,
            loads: 0,
            stores: 0,
        };
    }

    /// A new epoch begins, with these registers, of which those after the first `in_use` are nil. Where the thread's end is done, nothing is
    /// left to do in it.
    pub fn start_again(&mut self, row: &[Place], in_use: u16)
        requires rests { IsTrue (rests_in self.old.phase) }
        requires spans { self.old.spans ≡ no_spans }
        requires registers { AreRegisters self.old.width row.now }
        requires few { in_use ≤ self.old.width }
        requires others { AreNil row.now in_use REGISTERS }
        ensures { self.new ≡ again self.old row.now }
    {
        self.take_registers(row, in_use);
        self.since = 0;
        self.phase = match self.end {
            Some(MutEnd::Ended) => MutatorPhase::Finished,
            _ => MutatorPhase::Ready,
        };
    }

    /// Its registers hold what these do, of which those after the first `in_use` are nil.
    fn take_registers(&mut self, row: &[Place], in_use: u16)
        requires registers { AreRegisters self.old.width row.now }
        requires few { in_use ≤ self.old.width }
        requires others { AreNil row.now in_use REGISTERS }
        ensures { self.new ≡ record self.old { registers = row.now } }
    {
        let count = usize::from(self.in_use.max(in_use));
        copy_places(&mut self.registers[0..count], row);
        self.in_use = in_use;
    }

    /// How many registers it may be asked to name.
    pub fn width(&self) -> u16
        ensures { result ≡ self.now.width }
    {
        self.width
    }

    /// What its registers hold.
    pub fn registers(&self) -> &[Place]
        ensures { result.now ≡ self.now.registers }
    {
        &self.registers
    }

    /// How many of its first registers are in use: all others are nil.
    pub fn registers_in_use(&self) -> u16
        ensures few { result ≤ self.now.width }
        ensures others { AreNil self.now.registers result REGISTERS }
    {
        self.in_use
    }

    /// Looks again how many registers are in use: up to the last that holds something.
    pub fn recount_registers(&mut self)
        ensures { self.new ≡ self.old }
    {
        let mut in_use = self.in_use;
        while in_use > 0 && self.registers[usize::from(in_use) - 1] == Place::NIL {
            in_use -= 1;
        }
        self.in_use = in_use;
    }

    /// What a register holds.
    pub fn register(&self, number: u8) -> Place
        ensures register { result ≡ register self.now number }
        ensures held { IsHeld result }
    {
        self.registers[usize::from(number)]
    }

    /// The references that it was the first to write in this epoch, with their old values.
    pub fn log(&self) -> &Log
        ensures { result.now ≡ self.now.log }
    {
        &self.log
    }

    /// Takes all entries out of its log.
    pub fn clear_log(&mut self)
        requires { IsTrue (rests_in self.old.phase) }
        ensures { self.new ≡ record self.old { log = emptied self.old.log } }
    {
        self.log.clear();
    }

    /// Gives up what it has drawn and not filled.
    pub fn empty_spans(&mut self)
        requires { IsTrue (rests_in self.old.phase) }
        ensures { self.new ≡ record self.old { spans = no_spans } }
    {
        self.spans = no_spans();
    }

    /// The operation whose turn it is, or the thread's end.
    #[inline(always)]
    fn op(&self) -> Op
        ensures op { result ≡ op_now self.now }
        ensures formed { IsFormedFor self.now.width result }
        ensures named { dest_of result < self.now.width }
        ensures fits { FitsShape (shape_made result) }
    {
        self.agenda.op()
    }

    /// The same where an operation is open.
    #[inline(always)]
    fn open_op(&self) -> Op
        requires { length self.now.replies.items < length self.now.operations }
        ensures op { result ≡ op_now self.now }
        ensures formed { IsFormedFor self.now.width result }
        ensures named { dest_of result < self.now.width }
        ensures fits { FitsShape (shape_made result) }
    {
        self.agenda.open_op()
    }

    /// The same, which the caller tells.
    #[inline(always)]
    fn told_op(&self, op: Op) -> Op
        requires op { op ≡ op_now self.now }
        ensures op { result ≡ op_now self.now }
        ensures formed { IsFormedFor self.now.width result }
        ensures named { dest_of result < self.now.width }
    {
        self.operation();
        op
    }

    /// Says again which operation's turn it is, so that the code that follows is made for that one alone, where it is known.
    #[inline(always)]
    fn recall(&mut self, op: Op)
        requires { op ≡ op_now self.old }
        ensures { self.new ≡ self.old }
    {
        self.agenda.recall(op);
    }

    /// The shape of what the `new` in progress makes.
    #[inline(always)]
    fn shape(&self) -> Shape
        requires { length self.now.replies.items < length self.now.operations }
        ensures shape { result ≡ shape_now self.now }
        ensures fits { FitsShape result }
    {
        shape_made(self.open_op())
    }

    /// Sets what a register holds.
    #[inline(always)]
    fn set_register(&mut self, number: u8, place: Place)
        requires number { number < self.old.width }
        requires held { IsHeld place }
        ensures { self.new ≡ with_register self.old number place }
    {
        self.registers[usize::from(number)] = place;
        let needed = u16::from(number) + 1;
        if self.in_use < needed {
            self.in_use = needed;
        }
    }

    /// The `new` that waits is done with this reply.
    #[tactic(auto, using(crate::proofs::NowLemmas::unwiped_between))]
    fn answer(&mut self, reply: Reply)
        requires { IsWaiting self.old }
        ensures { self.new ≡ answered self.old reply }
    {
        self.agenda.answer(reply);
        self.tally.count(reply);
        self.end = Some(MutEnd::OpDone(reply));
    }
}

/// The reply by which a unit ended, if it ended with one.
#[inline(always)]
fn reply_in(end: Option<MutEnd>) -> Option<Reply>
    ensures { result ≡ reply_in end }
{
    match end {
        Some(MutEnd::OpDone(reply)) => Some(reply),
        _ => None,
    }
}

/// Nothing drawn.
#[inline(always)]
fn no_spans() -> Spans
    ensures { result ≡ no_spans }
{
    Spans {
        current: Span::empty(),
        overflow: Span::empty(),
    }
}

/// The place, or nil where the largest heap has no such place.
fn held(place: Place) -> Place
    ensures place { result ≡ held_place place }
    ensures held { IsHeld result }
{
    if place.0 <= MOST_GRANULES {
        place
    } else {
        Place::NIL
    }
}
