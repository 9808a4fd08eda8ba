//! Units: how an operation begins and ends, and the steps between.
ghost use Rattle.std.specs.Prelude.{◌≡◌, ◌≢◌, ◌<◌, false, length, replicate};
ghost use Rattle.lxr_layout.specs.declared.TheConstants.{REGISTERS};
ghost use Rattle.lxr_graph.specs.Step.{IsFormedFor};
ghost use Rattle.lxr_mutator.specs.Operating.{asked_reply};
ghost use Rattle.lxr_mutator.specs.Mutating.{nil, op_now, wipes_in};
ghost use Rattle.lxr_mutator.specs.Steps.{after_in, based, done_with, end_by, ended, finished, next_in, started};
ghost use Rattle.lxr_mutator.specs.Mutators.{IsBusy, IsHeld, MayBeIn};

use super::Mutator;
use super::fields::data_word;
use crate::operating::{asked_reply, index_of, value_of};
use crate::phases::{MutEnd, MutatorPhase, Stop};
use lxr_actor::{Action, Actor, Kindred};
use lxr_graph::{Op, Reply};
use lxr_layout::{
    FREE_BLOCK_COUNT, FREE_BLOCK_CURSOR, PAUSE_WORD, Place, RUN_COUNT, RUN_CURSOR, field_word,
    pack, word_of,
};

impl Mutator {
    /// Goes on to a further step of the operation, which wipes no word.
    #[inline(always)]
    #[tactic(auto, using(crate::proofs::NowLemmas::unwiped))]
    pub(super) fn go_on(&mut self, phase: MutatorPhase)
        requires turn { self.old.phase ≢ MutatorPhase.Finished }
        requires operation { length self.old.replies.items < length self.old.operations }
        requires phase { MayBeIn self.old phase }
        requires wipes { wipes_in phase ≡ false }
        ensures { self.new ≡ record self.old { phase = phase } }
    {
        self.phase = phase;
    }

    /// The operation is done, with this reply.
    #[inline(always)]
    pub(super) fn reply(&mut self, reply: Reply)
        requires turn { self.old.phase ≢ MutatorPhase.Finished }
        requires operation { length self.old.replies.items < length self.old.operations }
        ensures { self.new ≡ done_with self.old reply }
    {
        self.agenda.answer(reply);
        self.tally.count(reply);
        self.since += 1;
        if self.since >= self.every {
            self.phase = MutatorPhase::Finished;
            end_turns(&mut self.end);
        } else {
            self.phase = MutatorPhase::Ready;
            self.end = Some(MutEnd::OpDone(reply));
        }
    }

    /// The same with a reply that seldom comes, as a call: so what comes often is short enough to be inlined.
    #[cold]
    #[inline(never)]
    pub(super) fn reply_seldom(&mut self, reply: Reply)
        requires turn { self.old.phase ≢ MutatorPhase.Finished }
        requires operation { length self.old.replies.items < length self.old.operations }
        ensures { self.new ≡ done_with self.old reply }
    {
        self.reply(reply);
    }

    /// Ends the unit without a reply.
    #[inline(always)]
    fn stop(&mut self, how: MutEnd)
        requires turn { self.old.phase ≢ MutatorPhase.Finished }
        requires waits { how ≡ MutEnd.NoRun → length self.old.replies.items < length self.old.operations }
        ensures { self.new ≡ finished self.old how }
    {
        self.phase = MutatorPhase::Finished;
        self.end = Some(how);
    }

    /// Its registers hold nothing from now on.
    fn clear_registers(&mut self)
        ensures { self.new ≡ record self.old { registers = replicate REGISTERS nil } }
    {
        let count = usize::from(self.in_use);
        self.registers[0..count].fill(Place::NIL);
        self.in_use = 0;
    }

    /// The thread's end is done.
    #[cold]
    #[inline(never)]
    fn end_thread(&mut self)
        requires turn { self.old.phase ≢ MutatorPhase.Finished }
        ensures { self.new ≡ ended self.old }
    {
        self.clear_registers();
        self.agenda.answer(Reply::Ended);
        self.tally.count(Reply::Ended);
        self.phase = MutatorPhase::Finished;
        self.end = Some(MutEnd::Ended);
    }

    /// The pause word was loaded: the unit ends where it was 1, and else its operation begins. Whether the unit goes on.
    #[inline(always)]
    pub(super) fn look_at_pause_word(&mut self, op: Op, old: u64) -> bool
        requires op { op ≡ op_now self.old }
        requires phase { self.old.phase ≡ MutatorPhase.Ready }
        ensures { self.new ≡ after_in self.old MutatorPhase.Ready old }
    {
        if old == 1 {
            self.stop(MutEnd::Asked);
            false
        } else {
            self.begin(self.told_op(op))
        }
    }

    /// The data word was loaded: the operation is done, and tells it.
    #[inline(always)]
    pub(super) fn tell_datum(&mut self, word: u64)
        requires turn { self.old.phase ≢ MutatorPhase.Finished }
        requires operation { length self.old.replies.items < length self.old.operations }
        ensures { self.new ≡ done_with self.old (Reply.Got word) }
    {
        self.reply(Reply::Got(word));
    }

    /// The data word was stored to: the operation is done.
    #[inline(always)]
    pub(super) fn end_put(&mut self)
        requires turn { self.old.phase ≢ MutatorPhase.Finished }
        requires operation { length self.old.replies.items < length self.old.operations }
        ensures { self.new ≡ done_with self.old Reply.Put }
    {
        self.reply(Reply::Put);
    }

    /// The data word was added to: the operation is done, and tells what it was.
    #[inline(always)]
    pub(super) fn end_add(&mut self, old: u64)
        requires turn { self.old.phase ≢ MutatorPhase.Finished }
        requires operation { length self.old.replies.items < length self.old.operations }
        ensures { self.new ≡ done_with self.old (Reply.Added old) }
    {
        self.reply(Reply::Added(old));
    }

    /// A pause was asked for, as the script says: the operation is done.
    #[inline(always)]
    fn end_asking(&mut self)
        requires turn { self.old.phase ≢ MutatorPhase.Finished }
        requires operation { length self.old.replies.items < length self.old.operations }
        ensures { self.new ≡ done_with self.old (asked_reply (op_now self.old)) }
    {
        self.reply(asked_reply(self.open_op()));
    }

    /// A pause was asked for, without which the unit can't go on: it ends.
    #[inline(always)]
    fn give_up(&mut self, stop: Stop)
        requires turn { self.old.phase ≢ MutatorPhase.Finished }
        requires operation { length self.old.replies.items < length self.old.operations }
        ensures { self.new ≡ finished self.old (end_by stop) }
    {
        self.stop(end_by(stop));
    }

    /// Begins an operation. Whether the unit goes on.
    #[inline(always)]
    fn begin(&mut self, op: Op) -> bool
        requires phase { self.old.phase ≡ MutatorPhase.Ready }
        requires op { op ≡ op_now self.old }
        requires formed { IsFormedFor self.old.width op }
        ensures { self.new ≡ started self.old op }
    {
        match op {
            Op::New { shape, .. } => {
                self.place_object(shape);
                true
            }
            Op::Load { base, .. } => self.begin_at(self.register(base)),
            Op::Store { base, .. } => self.begin_at(self.register(base)),
            Op::Put { base, .. } => self.begin_at(self.register(base)),
            Op::Get { base, .. } => self.begin_at(self.register(base)),
            Op::Swap { base, .. } => self.begin_at(self.register(base)),
            Op::Add { base, .. } => self.begin_at(self.register(base)),
            Op::Move { dest, source } => {
                self.set_register(dest, self.register(source));
                self.reply(Reply::Moved);
                false
            }
            Op::Nil { dest } => {
                self.set_register(dest, Place::NIL);
                self.reply(Reply::Cleared);
                false
            }
            Op::Same { left, right } => {
                let same = self.register(left).0 == self.register(right).0;
                self.reply(Reply::Same(same));
                false
            }
            Op::Pause | Op::Collect => {
                self.go_on(MutatorPhase::Asking);
                true
            }
            Op::End => {
                self.end_thread();
                false
            }
        }
    }

    /// Begins an operation on a base, which is nil or has a header to look at. Whether the unit goes on.
    #[inline(always)]
    fn begin_at(&mut self, base: Place) -> bool
        requires phase { self.old.phase ≡ MutatorPhase.Ready }
        requires operation { length self.old.replies.items < length self.old.operations }
        requires held { IsHeld base }
        ensures { self.new ≡ based self.old base }
    {
        if base.0 == 0 {
            self.reply_seldom(Reply::Bad);
            false
        } else {
            self.go_on(MutatorPhase::Base { base });
            true
        }
    }
}

impl Actor for Mutator {
    ghost use Rattle.lxr_mutator.specs.Steps.{mutator_machine};

    ghost machine = { mutator_machine };

    #[inline(always)]
    fn next(&self) -> Option<Action> {
        let cursors = self.regions.cursors;
        match self.phase {
            MutatorPhase::Ready => Some(Action::load(cursors + PAUSE_WORD)),
            MutatorPhase::Finished => None,
            MutatorPhase::Base { base } => Some(Action::load(word_of(base))),
            MutatorPhase::Reference { base } => {
                Some(Action::load(field_word(base, index_of(self.open_op()))))
            }
            MutatorPhase::Referent { place } => Some(Action::load(word_of(place))),
            MutatorPhase::Datum { base, refs } => {
                Some(Action::load(data_word(base, refs, self.open_op())))
            }
            MutatorPhase::Putting { base, refs } => {
                let op = self.open_op();
                Some(Action::store(data_word(base, refs, op), value_of(op)))
            }
            MutatorPhase::Adding { base, refs } => {
                let op = self.open_op();
                Some(Action {
                    kind: Kindred::Add,
                    word: data_word(base, refs, op),
                    operand: value_of(op),
                })
            }
            MutatorPhase::Storing(ref machine) => machine.next(),
            MutatorPhase::DrawsRun => Some(Action::draw(cursors + RUN_CURSOR)),
            MutatorPhase::RunNumber { .. } => Some(Action::load(cursors + RUN_COUNT)),
            MutatorPhase::Run { number } => Some(Action::load(self.regions.runs + number as u32)),
            MutatorPhase::DrawsBlock => Some(Action::draw(cursors + FREE_BLOCK_CURSOR)),
            MutatorPhase::BlockNumber { .. } => Some(Action::load(cursors + FREE_BLOCK_COUNT)),
            MutatorPhase::Block { number } => {
                Some(Action::load(self.regions.frees + number as u32))
            }
            MutatorPhase::Wiping { place, next } => Some(Action::store(word_of(place) + next, 0)),
            MutatorPhase::Heading { place } => {
                let header = pack(self.next_name(), self.shape());
                Some(Action::store(word_of(place), header))
            }
            MutatorPhase::Asking => Some(Action::store(cursors + PAUSE_WORD, 1)),
            MutatorPhase::GivingUp(_) => Some(Action::store(cursors + PAUSE_WORD, 1)),
        }
    }

    #[inline(always)]
    fn take(&mut self, old: u64) {
        match self.phase {
            MutatorPhase::Ready => {
                self.look_at_pause_word(self.op(), old);
            }
            MutatorPhase::Finished => {}
            MutatorPhase::Base { base } => {
                self.reach_field(self.open_op(), base, old);
            }
            MutatorPhase::Reference { base } => {
                self.keep_reference(self.open_op(), base, old);
            }
            MutatorPhase::Referent { place } => self.name_referent(self.open_op(), place, old),
            MutatorPhase::Datum { .. } => self.tell_datum(old),
            MutatorPhase::Putting { .. } => self.end_put(),
            MutatorPhase::Adding { .. } => self.end_add(old),
            MutatorPhase::Storing(_) => self.step_store(self.open_op(), old),
            MutatorPhase::DrawsRun => self.draw_run(old),
            MutatorPhase::RunNumber { number } => self.find_run(number, old),
            MutatorPhase::Run { number } => self.fill_run(number, old),
            MutatorPhase::DrawsBlock => self.draw_block(old),
            MutatorPhase::BlockNumber { number } => self.find_block(number, old),
            MutatorPhase::Block { number } => self.fill_block(number, old),
            MutatorPhase::Wiping { place, next } => self.wipe_word(place, next),
            MutatorPhase::Heading { place } => self.hand_out(self.open_op(), place),
            MutatorPhase::Asking => self.end_asking(),
            MutatorPhase::GivingUp(stop) => self.give_up(stop),
        }
    }

    #[inline(always)]
    fn resting(&self) -> bool {
        match self.phase {
            MutatorPhase::Ready => true,
            MutatorPhase::Finished => true,
            _ => false,
        }
    }

    fn offer(&mut self, _place: Place) -> bool {
        false
    }

    fn surplus(&mut self) -> Option<Place> {
        None
    }

    #[inline(always)]
    fn order(&mut self, op: Op) -> bool {
        if !self.takes_order(op) {
            return false;
        }
        self.append(op);
        true
    }
}

/// A unit ends with the last operation that its thread may do in this epoch. It is a call, since that is seldom.
#[cold]
#[inline(never)]
fn end_turns(end: &mut Option<MutEnd>)
    ensures { end.new ≡ Some MutEnd.Turns }
{
    *end = Some(MutEnd::Turns);
}

/// How a unit ends that gives up.
#[inline(always)]
fn end_by(stop: Stop) -> MutEnd
    ensures { result ≡ end_by stop }
{
    match stop {
        Stop::NoRun => MutEnd::NoRun,
        Stop::LogFull => MutEnd::LogFull,
    }
}
