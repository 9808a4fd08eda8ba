//! What the calls of a program do at a station.
ghost use Rattle.std.specs.Prelude.{◌≡◌, ◌≤◌, Some, Err, IfErr, IfOk};
ghost use Rattle.lxr_layout.specs.declared.TheConstants.{REGISTERS};
ghost use Rattle.lxr_graph.specs.declared.Op.{Op as OpOf};
ghost use Rattle.lxr_stations.specs.Stations.{Refuses};
ghost use Rattle.lxr_c_shared.specs.Ending.{homecoming_in};
ghost use Rattle.lxr_c_shared.specs.Holding.{At};
ghost use Rattle.lxr_c_shared.specs.Passing.{Answers, AnswersPass, ClosesStation, ComesHome, HelpsBy, HelpsPass, IsNotSent, IsRefusal, IsSentBy, LetsOut, LetsOutOf, Operates, Orders, SeesWanted, SendsPass, is_post, registers_in, not_out_code as is_not_out_code, only as is_only, sent_code as is_sent_code, told_by as is_told_by, told_going as is_told_going, told_newest as is_told_newest, word_of as is_word_of};

use crate::boxing::{NoBox, Unboxed, boxed};
use crate::holder::Holder;
use crate::owned::Owned;
use lxr_c_base::{Code, code_of};
use lxr_graph::{Op, Reply};
use lxr_large_model::LargeReply;
use lxr_layout::REGISTERS;
use lxr_shared_heap::{Answer, Heap, Homecoming, NotOut, Station};
use std::alloc::Global;
use std::mem;

/// What a call tells: its code, and a word, if there is one to tell.
#[derive(Clone, Copy, Debug, PartialEq, Eq)]
pub struct Told {
    pub code: Code,
    pub word: Option<u64>,
}

/// Why no pass leaves for a station.
#[derive(Drop)]
pub enum NotSent {
    /// There is no heap that it could leave.
    NoHeap,
    /// What it is to leave for is a heap, or a station whose pass is away.
    InUse,
    /// It isn't let out.
    Kept(NotOut),
    /// It left, and a box for the station was refused: it has come home again.
    NoBox(NoBox, Option<Homecoming>),
}

/// What a code tells alone.
#[inline(always)]
fn only(code: Code) -> Told
    ensures { result ≡ is_only code }
{
    Told { code, word: None }
}

/// The word that a reply tells.
#[inline(always)]
fn word_of(reply: Reply) -> Option<u64>
    ensures { result ≡ is_word_of reply }
{
    match reply {
        Reply::Got(word) => Some(word),
        Reply::Added(word) => Some(word),
        Reply::Same(same) => Some(if same { 1 } else { 0 }),
        _ => None,
    }
}

/// What a reply tells.
#[inline(always)]
fn told_by(reply: Reply) -> Told
    ensures { result ≡ is_told_by reply }
{
    Told {
        code: code_of(LargeReply::Small(reply)),
        word: word_of(reply),
    }
}

/// What is told where an operation is gone on with that is open.
fn told_going(reply: Option<Reply>) -> Told
    ensures { result ≡ is_told_going reply }
{
    match reply {
        Some(reply) => told_by(reply),
        None => only(Code::Waits),
    }
}

/// What is told of the newest reply.
fn told_newest(reply: Option<Reply>) -> Told
    ensures { result ≡ is_told_newest reply }
{
    match reply {
        Some(reply) => told_by(reply),
        None => only(Code::Nothing),
    }
}

/// The code of why a pass is not let out.
fn not_out_code(why: NotOut) -> Code
    ensures { result ≡ is_not_out_code why }
{
    match why {
        NotOut::NotRunning => Code::Epoch,
        NotOut::Ended => Code::Ended,
        NotOut::Lost => Code::Lost,
        NotOut::NoSuch => Code::Number,
        NotOut::Away => Code::Away,
        NotOut::Memory(_) => Code::Memory,
    }
}

/// The code of what has come of the wish that a pass leave for a station.
pub fn sent_code(sent: Result<(), NotSent>) -> Code
    ensures { result ≡ is_sent_code sent }
{
    match sent {
        Ok(()) => Code::Done,
        Err(NotSent::NoHeap) => Code::NoHeap,
        Err(NotSent::InUse) => Code::InUse,
        Err(NotSent::Kept(why)) => not_out_code(why),
        Err(NotSent::NoBox(_, _)) => Code::Memory,
    }
}

/// A station in a box, with a pass that is let out. Where a box is refused the pass comes home again.
fn boxed_station(alloc: Global, heap: &Heap, number: u32) -> Result<Box<Owned, Global>, NotSent>
    ensures sent { IfOk result (λ b. IsSentBy heap.now number b.value) }
    ensures not { IfErr result (IsNotSent heap.now number) }
{
    let station = match heap.let_out(number as usize) {
        Ok(station) => station,
        Err(why) => return Err(NotSent::Kept(why)),
    };
    match boxed(alloc, Owned::of_station(station)) {
        Ok(owned) => Ok(owned),
        Err(Unboxed { owned, why }) => Err(NotSent::NoBox(why, owned.end())),
    }
}

/// Why a station refuses an operation of a thread.
#[cold]
fn refusal(station: &Station) -> Code
    ensures { (o : OpOf) → Refuses station.now.pass.actor o → IsRefusal station.now.pass.actor o result }
{
    if !station.is_mutator() {
        return Code::Kind;
    }
    if station.is_open() {
        Code::Busy
    } else {
        Code::UsedUp
    }
}

/// Orders an operation.
#[inline(always)]
fn order(station: &mut Station, op: Op) -> Told
    ensures { Orders station.old op station.new result }
{
    match station.operate(op) {
        Answer::Done(reply) => told_by(reply),
        Answer::Waits => only(Code::Waits),
        Answer::Pause => only(Code::Held),
        Answer::Ended => only(Code::Ended),
        Answer::Refused => only(refusal(station)),
    }
}

/// The newest reply, or that of the operation that is open, which goes on.
fn answer(station: &mut Station) -> Told
    ensures { AnswersPass station.old station.new result }
{
    if !station.is_mutator() {
        return only(Code::Kind);
    }
    if station.is_open() {
        return told_going(station.go_on());
    }
    told_newest(station.newest())
}

impl Owned {
    /// How many registers an operation may name.
    #[inline(always)]
    fn registers(&self) -> u16
        ensures count { result ≡ registers_in (Some self.now) }
        ensures few { result ≤ REGISTERS }
    {
        match self {
            Owned::Away(sealed) => sealed.station.registers(),
            Owned::Home(_) => REGISTERS as u16,
            Owned::Shared(_) => REGISTERS as u16,
        }
    }

    /// Whether it is a station.
    fn is_station(&self) -> bool
        ensures { result ≡ is_post self.now }
    {
        !matches!(self, Owned::Shared(_))
    }

    /// Lets a pass of a heap out of its home, for this station.
    fn send(&mut self, heap: &Heap, number: u32) -> Result<(), NotSent>
        ensures { SendsPass heap.now number (Some self.old) (Some self.new) result }
    {
        match self {
            Owned::Shared(_) => Err(NotSent::InUse),
            Owned::Away(_) => Err(NotSent::InUse),
            Owned::Home(_) => match heap.let_out(number as usize) {
                Ok(station) => {
                    mem::replace(self, Owned::of_station(station)).end();
                    Ok(())
                }
                Err(why) => Err(NotSent::Kept(why)),
            },
        }
    }

    /// Lets the pass of a number out of its home, for a station.
    fn let_out(&self, alloc: Global, number: u32, station: &mut Holder) -> Result<(), NotSent>
        ensures { LetsOutOf number station.old.held.value station.new.held.value self.now result }
    {
        match self {
            Owned::Shared(sealed) => station.send(alloc, &sealed.heap, number),
            Owned::Home(_) => Err(NotSent::NoHeap),
            Owned::Away(_) => Err(NotSent::NoHeap),
        }
    }

    /// Brings the pass home.
    fn come_home(&mut self) -> Code
        ensures { ComesHome self.old self.new result }
    {
        match self {
            Owned::Shared(_) => Code::NoHeap,
            Owned::Home(_) => Code::Home,
            Owned::Away(_) => {
                let homecoming = mem::replace(self, Owned::Home(None)).end();
                mem::replace(self, Owned::Home(homecoming)).end();
                Code::Done
            }
        }
    }

    /// Whether a pause is wanted.
    fn wants_pause(&self) -> Result<bool, Code>
        ensures { SeesWanted self.now self.now result }
    {
        match self {
            Owned::Away(sealed) => Ok(sealed.station.wants_pause()),
            Owned::Home(_) => Err(Code::Home),
            Owned::Shared(_) => Err(Code::NoHeap),
        }
    }

    /// Does up to so many units of a helper; whether each found work.
    fn help(&mut self, units: u32) -> Result<bool, Code>
        ensures { HelpsBy units self.old self.new result }
    {
        match self {
            Owned::Away(sealed) => help(&mut sealed.station, units),
            Owned::Home(_) => Err(Code::Home),
            Owned::Shared(_) => Err(Code::NoHeap),
        }
    }

    /// Orders an operation.
    #[inline(always)]
    fn operate(&mut self, request: Result<Op, Code>) -> Told
        ensures { Operates request self.old self.new result }
    {
        let op = match request {
            Ok(op) => op,
            Err(code) => return only(self.refused(code)),
        };
        match self {
            Owned::Away(sealed) => order(&mut sealed.station, op),
            Owned::Home(_) => only(Code::Home),
            Owned::Shared(_) => only(Code::NoHeap),
        }
    }

    /// The code of a request that is refused for its numbers. It is a call, since that is seldom: so the code that orders an operation knows that its
    /// numbers are good.
    #[cold]
    #[inline(never)]
    fn refused(&self, code: Code) -> Code
        ensures { Operates (Err code) self.now self.now (is_only result) }
    {
        match self {
            Owned::Away(_) => code,
            Owned::Home(_) => code,
            Owned::Shared(_) => Code::NoHeap,
        }
    }

    /// Answers with the newest reply, or goes on with the operation that is open.
    fn answer(&mut self) -> Told
        ensures { Answers self.old self.new result }
    {
        match self {
            Owned::Away(sealed) => answer(&mut sealed.station),
            Owned::Home(_) => only(Code::Home),
            Owned::Shared(_) => only(Code::NoHeap),
        }
    }
}

/// Does up to so many units of a helper; whether each found work.
fn help(station: &mut Station, units: u32) -> Result<bool, Code>
    ensures { HelpsPass units station.old station.new result }
{
    if station.is_mutator() {
        return Err(Code::Kind);
    }
    Ok(station.help(units))
}

impl Holder {
    /// Lets a pass of a heap out of its home, for this station.
    fn send(&mut self, alloc: Global, heap: &Heap, number: u32) -> Result<(), NotSent>
        ensures { SendsPass heap.now number self.old.held.value self.new.held.value result }
    {
        if self.is_full() {
            return self.held.lend().send(heap, number);
        }
        match boxed_station(alloc, heap, number) {
            Ok(owned) => {
                self.put(owned);
                Ok(())
            }
            Err(why) => Err(why),
        }
    }

    /// Lets the pass of a number out of its home, for a station.
    pub fn let_out(
        &mut self,
        alloc: Global,
        number: u32,
        station: &mut Holder,
    ) -> Result<(), NotSent>
        ensures done { LetsOut number station.old.held.value station.new.held.value self.old.held.value result }
        ensures kept { self.new.held.value ≡ self.old.held.value }
    {
        if !self.is_full() {
            return Err(NotSent::NoHeap);
        }
        self.held.lend().let_out(alloc, number, station)
    }

    /// Brings the pass home.
    pub fn come_home(&mut self) -> Code
        ensures { At Code.NoHeap ComesHome self.old.held.value self.new.held.value result }
    {
        if !self.is_full() {
            return Code::NoHeap;
        }
        self.held.lend().come_home()
    }

    /// Ends the station; its pass comes home, and what it answers tells so.
    pub fn close_station(&mut self, alloc: Global) -> (Code, Option<Homecoming>)
        ensures closed { ClosesStation self.old.held.value self.new.held.value result.0 }
        ensures home { result.1 ≡ homecoming_in self.old.held.value }
    {
        let Some(owned) = self.take(alloc) else {
            return (Code::NoHeap, None);
        };
        if !owned.is_station() {
            self.put(owned);
            return (Code::NoHeap, None);
        }
        (Code::Done, Box::into_inner(owned).end())
    }

    /// Whether a pause is wanted.
    pub fn wants_pause(&mut self) -> Result<bool, Code>
        ensures { At (Err Code.NoHeap) SeesWanted self.old.held.value self.new.held.value result }
    {
        if !self.is_full() {
            return Err(Code::NoHeap);
        }
        self.held.lend().wants_pause()
    }

    /// Does up to so many units of a helper; whether each found work.
    pub fn help(&mut self, units: u32) -> Result<bool, Code>
        ensures { At (Err Code.NoHeap) (HelpsBy units) self.old.held.value self.new.held.value result }
    {
        if !self.is_full() {
            return Err(Code::NoHeap);
        }
        self.held.lend().help(units)
    }

    /// How many registers an operation may name: as many as the mutator may whose pass is away. Else no operation is taken up, whatever it names, and
    /// all 256 are told.
    #[inline(always)]
    pub fn registers(&mut self) -> u16
        ensures count { result ≡ registers_in self.old.held.value }
        ensures few { result ≤ REGISTERS }
        ensures kept { self.new.held.value ≡ self.old.held.value }
    {
        if !self.is_full() {
            return REGISTERS as u16;
        }
        self.held.lend().registers()
    }

    /// Orders an operation.
    #[inline(always)]
    pub fn operate(&mut self, request: Result<Op, Code>) -> Told
        ensures { At (is_only Code.NoHeap) (Operates request) self.old.held.value self.new.held.value result }
    {
        if !self.is_full() {
            return only(Code::NoHeap);
        }
        self.held.lend().operate(request)
    }

    /// Answers with the newest reply, or goes on with the operation that is open.
    pub fn answer(&mut self) -> Told
        ensures { At (is_only Code.NoHeap) Answers self.old.held.value self.new.held.value result }
    {
        if !self.is_full() {
            return only(Code::NoHeap);
        }
        self.held.lend().answer()
    }
}
