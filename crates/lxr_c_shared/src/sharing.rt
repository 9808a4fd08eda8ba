//! What the calls of a program do at a heap that threads share.
ghost use Rattle.lxr_shared_heap.specs.Heaps.{Pauses};
ghost use Rattle.std.specs.Prelude.{◌≡◌, ◌↔◌, IfErr, IfOk};
ghost use Rattle.lxr_graph.specs.History.{report_of};
ghost use Rattle.lxr_c_shared.specs.Holding.{At};
ghost use Rattle.lxr_c_shared.specs.Sharing.{AreFit, ClosesHeap, CountsAsked, CountsFree, CountsLast, CountsPause, IsNewHeap, IsOpenedBy, IsSizeOrMemory, OpensHeap, PausesHeap, ResumesHeap, is_shared, counted_in as is_counted_in, number_of_kind as is_number_of_kind, of_shared as is_of_shared, paused_code as is_paused_code, resumed_code as is_resumed_code};

use crate::boxing::{Unboxed, boxed};
use crate::holder::Holder;
use crate::owned::Owned;
use crate::settings::{Wishes, settings_of};
use lxr_c_base::Code;
use lxr_graph::{Kind, Report};
use lxr_shared_heap::{Heap, Paused, Refused, Resumed};
use std::alloc::Global;

/// What is counted of the last pause.
#[derive(Clone, Copy, Debug, PartialEq, Eq)]
pub enum OfPause {
    /// Its number.
    Number,
    /// Objects that were made since the pause before and are kept.
    Promoted,
    /// Objects that counts reclaimed.
    Dead,
    /// Objects whose count stands at its end from now on.
    Stuck,
    /// Objects that a trace, or a collecting pause, reclaimed.
    Swept,
    /// Its kind.
    Kind,
}

/// What is counted of a heap.
#[derive(Clone, Copy, Debug, PartialEq, Eq)]
pub enum OfShared {
    /// Something of the last pause.
    Pause(OfPause),
    /// Operations of the thread that was ordered most of them, since names were renewed.
    Asked,
    /// Blocks without objects, as the last pause left them.
    FreeBlocks,
}

/// What is counted by a number.
fn of_shared(number: u32) -> Result<OfShared, Code>
    ensures { result ≡ is_of_shared number }
{
    match number {
        0 => Ok(OfShared::Pause(OfPause::Number)),
        1 => Ok(OfShared::Pause(OfPause::Promoted)),
        2 => Ok(OfShared::Pause(OfPause::Dead)),
        3 => Ok(OfShared::Pause(OfPause::Stuck)),
        4 => Ok(OfShared::Pause(OfPause::Swept)),
        6 => Ok(OfShared::FreeBlocks),
        11 => Ok(OfShared::Pause(OfPause::Kind)),
        12 => Ok(OfShared::Asked),
        _ => Err(Code::What),
    }
}

/// The number of a kind of pause.
fn number_of_kind(kind: Kind) -> u64
    ensures { result ≡ is_number_of_kind kind }
{
    match kind {
        Kind::Plain => 0,
        Kind::Begin => 1,
        Kind::End(_) => 2,
        Kind::Collect => 3,
    }
}

/// What a report counts.
fn counted_in(report: &Report, what: OfPause) -> u64
    ensures { result ≡ is_counted_in (report_of report.now) what }
{
    match what {
        OfPause::Number => u64::from(report.number),
        OfPause::Promoted => report.promoted.len() as u64,
        OfPause::Dead => report.dead.len() as u64,
        OfPause::Stuck => report.stuck.len() as u64,
        OfPause::Swept => report.swept.len() as u64,
        OfPause::Kind => number_of_kind(report.kind),
    }
}

/// What is counted of the last pause of a heap, between two epochs; before the first all numbers are 0.
fn count_last(heap: &Heap, what: OfPause) -> Result<u64, Code>
    ensures { CountsLast heap.now what result }
{
    if heap.pauses().is_none() {
        return Err(Code::Epoch);
    }
    match heap.report() {
        Some(report) => Ok(counted_in(report, what)),
        None => Ok(0),
    }
}

/// How many operations the thread was ordered that was ordered most, between two epochs.
fn count_asked(heap: &Heap) -> Result<u64, Code>
    ensures { CountsAsked heap.now result }
{
    match heap.asked_most() {
        Some(most) => Ok(most),
        None => Err(Code::Epoch),
    }
}

/// How many blocks are without objects, between two epochs.
fn count_free(heap: &Heap) -> Result<u64, Code>
    ensures { CountsFree heap.now result }
{
    match heap.free_blocks() {
        Some(free) => Ok(u64::from(free)),
        None => Err(Code::Epoch),
    }
}

/// The code of an answer to the wish for an epoch.
fn resumed_code(resumed: Resumed) -> Code
    ensures { result ≡ is_resumed_code resumed }
{
    match resumed {
        Resumed::Open => Code::Done,
        Resumed::Within => Code::Epoch,
        Resumed::Ended => Code::Ended,
        Resumed::Lost => Code::Lost,
        Resumed::Memory => Code::Memory,
    }
}

/// A pause, where one is wanted, which is to begin a trace or not.
fn pause_of(heap: &mut Heap, begins: bool) -> Paused
    ensures { Pauses begins result heap.old heap.new }
{
    if begins {
        heap.pause_and_trace()
    } else {
        heap.pause()
    }
}

/// The code of an answer to the wish for a pause.
fn paused_code(paused: Paused) -> Code
    ensures { result ≡ is_paused_code paused }
{
    match paused {
        Paused::Made => Code::Done,
        Paused::NotWanted => Code::NotWanted,
        Paused::Away(_) => Code::Away,
        Paused::Shared => Code::Busy,
        Paused::NotRunning => Code::Epoch,
        Paused::Ended => Code::Ended,
        Paused::Lost => Code::Lost,
    }
}

/// A heap with the settings that are wished for.
fn open(alloc: Global, wishes: &Wishes) -> Result<Heap, Refused>
    ensures opened { IfOk result (λ heap. IsOpenedBy heap wishes.now) }
    ensures range { (result ≡ Err Refused.Settings) ↔ ¬ AreFit wishes.now }
{
    match settings_of(wishes) {
        Some(settings) => Heap::open(alloc, settings),
        None => Err(Refused::Settings),
    }
}

/// A heap in a box.
fn boxed_heap(alloc: Global, wishes: &Wishes) -> Result<Box<Owned, Global>, Code>
    ensures opened { IfOk result (λ b. IsNewHeap b.value wishes.now) }
    ensures size { (result ≡ Err Code.Size) ↔ ¬ AreFit wishes.now }
    ensures code { IfErr result IsSizeOrMemory }
{
    match open(alloc, wishes) {
        Err(Refused::Settings) => Err(Code::Size),
        Err(Refused::Memory) => Err(Code::Memory),
        Ok(heap) => match boxed(alloc, Owned::of_heap(heap)) {
            Ok(owned) => Ok(owned),
            Err(Unboxed { owned, why: _ }) => {
                owned.end();
                Err(Code::Memory)
            }
        },
    }
}

impl Owned {
    /// Whether it is a heap.
    fn is_heap(&self) -> bool
        ensures { result ≡ is_shared self.now }
    {
        matches!(self, Owned::Shared(_))
    }

    /// Opens the next epoch.
    fn resume(&mut self, alloc: Global) -> Code
        ensures { ResumesHeap self.old self.new result }
    {
        match self {
            Owned::Shared(sealed) => resumed_code(sealed.heap.resume(alloc)),
            Owned::Home(_) => Code::NoHeap,
            Owned::Away(_) => Code::NoHeap,
        }
    }

    /// Makes a pause, where one is wanted, which is to begin a trace or not.
    fn pause(&mut self, begins: bool) -> Code
        ensures { PausesHeap begins self.old self.new result }
    {
        match self {
            Owned::Shared(sealed) => paused_code(pause_of(&mut sealed.heap, begins)),
            Owned::Home(_) => Code::NoHeap,
            Owned::Away(_) => Code::NoHeap,
        }
    }

    /// What is counted by a number.
    fn count_pause(&self, number: u32) -> Result<u64, Code>
        ensures { CountsPause number self.now self.now result }
    {
        match self {
            Owned::Shared(sealed) => match of_shared(number) {
                Ok(OfShared::Pause(what)) => count_last(&sealed.heap, what),
                Ok(OfShared::Asked) => count_asked(&sealed.heap),
                Ok(OfShared::FreeBlocks) => count_free(&sealed.heap),
                Err(code) => Err(code),
            },
            Owned::Home(_) => Err(Code::NoHeap),
            Owned::Away(_) => Err(Code::NoHeap),
        }
    }
}

impl Holder {
    /// Opens a heap with these settings.
    pub fn open_heap(&mut self, alloc: Global, wishes: &Wishes) -> Code
        ensures { OpensHeap self.old.held.value self.new.held.value wishes.now result }
    {
        if self.is_full() {
            return Code::InUse;
        }
        match boxed_heap(alloc, wishes) {
            Ok(owned) => {
                self.put(owned);
                Code::Done
            }
            Err(code) => code,
        }
    }

    /// Closes the heap.
    pub fn close_heap(&mut self, alloc: Global) -> Code
        ensures { ClosesHeap self.old.held.value self.new.held.value result }
    {
        let Some(owned) = self.take(alloc) else {
            return Code::NoHeap;
        };
        if !owned.is_heap() {
            self.put(owned);
            return Code::NoHeap;
        }
        Box::into_inner(owned).end();
        Code::Done
    }

    /// Opens the next epoch.
    pub fn resume(&mut self, alloc: Global) -> Code
        ensures { At Code.NoHeap ResumesHeap self.old.held.value self.new.held.value result }
    {
        if !self.is_full() {
            return Code::NoHeap;
        }
        self.held.lend().resume(alloc)
    }

    /// Makes a pause, where one is wanted, which is to begin a trace or not: where the heap's settings leave that free, it needn't collect, and
    /// none runs.
    pub fn pause(&mut self, begins: bool) -> Code
        ensures { At Code.NoHeap (PausesHeap begins) self.old.held.value self.new.held.value result }
    {
        if !self.is_full() {
            return Code::NoHeap;
        }
        self.held.lend().pause(begins)
    }

    /// What is counted by a number.
    pub fn count_pause(&mut self, number: u32) -> Result<u64, Code>
        ensures { At (Err Code.NoHeap) (CountsPause number) self.old.held.value self.new.held.value result }
    {
        if !self.is_full() {
            return Err(Code::NoHeap);
        }
        self.held.lend().count_pause(number)
    }
}
