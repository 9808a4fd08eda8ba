//! Fields: from the header of a base to a reference or a data word of it.
ghost use Rattle.std.specs.Prelude.{◌≡◌, ◌≢◌, ◌+◌, ◌&&◌, ◌<◌, ◌≤◌, false, length, nat_le, Some, None, if◌then◌else◌};
ghost use Rattle.lxr_layout.specs.Objects.{header_of, word_count};
ghost use Rattle.lxr_layout.specs.declared.TheConstants.{MOST_GRANULES};
ghost use Rattle.lxr_layout.specs.Places.{IsPlace, first_word, place_in};
ghost use Rattle.lxr_barrier.specs.declared.machines.StorePhase.{StorePhase};
ghost use Rattle.lxr_barrier.specs.Storing.{Storing};
ghost use Rattle.lxr_mutator.specs.Operating.{index_of, indexed_fields};
ghost use Rattle.lxr_mutator.specs.Mutating.{op_now, wipes_in};
ghost use Rattle.lxr_mutator.specs.Steps.{data_word, done_with, is_header, lies_in_heap, loaded, name_told, next_in, reaching, shape_told};
ghost use Rattle.lxr_mutator.specs.Mutators.{IsBusy, MayBeIn};

use super::Mutator;
use crate::operating::{UNNAMED, dest_of, found_reply, index_of, indexed_fields};
use crate::phases::{MutatorPhase, Stop};
use lxr_barrier::{LastStep, StoreEnd, StoreMachine};
use lxr_graph::{Op, Reply};
use lxr_layout::{Header, MOST_GRANULES, Name, Place, Shape, unpack, word_of, words_of};

impl Mutator {
    /// The header of the base was loaded: the operation goes on at a field of it, if it has one of this index. Whether it does.
    #[inline(always)]
    pub(super) fn reach_field(&mut self, op: Op, base: Place, header: u64) -> bool
        requires op { op ≡ op_now self.old }
        requires busy { IsBusy self.old (MutatorPhase.Base base) }
        ensures { self.new ≡ next_in self.old (MutatorPhase.Base base) header }
    {
        let Some(shape) = self.shape_at(base, header) else {
            self.reply_seldom(Reply::Bad);
            return false;
        };
        if index_of(op) < indexed_fields(op, shape) {
            self.go_to_field(base, shape, op);
            true
        } else {
            self.reply_seldom(Reply::Range);
            false
        }
    }

    /// The shape that a header at a place tells; none where it is no object's, or the object reaches past the heap.
    #[inline(always)]
    fn shape_at(&self, base: Place, header: u64) -> Option<Shape>
        requires { IsPlace base }
        ensures { result ≡ (if is_header header && lies_in_heap self.now base header then Some (shape_told (header_of header)) else None) }
    {
        match unpack(header) {
            Header::Object(_, shape) if word_of(base) + words_of(shape) <= self.regions.counts => {
                Some(shape)
            }
            _ => None,
        }
    }

    /// Goes on at the field of a base that the operation goes to. Each phase is written where it is made.
    #[inline(always)]
    fn go_to_field(&mut self, base: Place, shape: Shape, op: Op)
        requires turn { self.old.phase ≢ MutatorPhase.Finished }
        requires operation { length self.old.replies.items < length self.old.operations }
        requires op { op ≡ op_now self.old }
        requires place { IsPlace base }
        requires field { index_of op < indexed_fields op shape }
        requires heap { first_word base.0 + word_count shape ≤ self.old.regions.counts }
        ensures { self.new ≡ record self.old { phase = reaching self.old base shape op } }
    {
        let refs = shape.refs;
        match op {
            Op::Load { .. } => self.go_on(MutatorPhase::Reference { base }),
            Op::Store { index, source, .. } => self.go_on(MutatorPhase::Storing(StoreMachine::new(
                self.regions,
                base,
                index,
                self.register(source),
            ))),
            Op::Swap { index, source, .. } => self.go_on(MutatorPhase::Storing(
                StoreMachine::swapping(self.regions, base, index, self.register(source)),
            )),
            Op::Put { .. } => self.go_on(MutatorPhase::Putting { base, refs }),
            Op::Get { .. } => self.go_on(MutatorPhase::Datum { base, refs }),
            Op::Add { .. } => self.go_on(MutatorPhase::Adding { base, refs }),
            _ => self.go_on(MutatorPhase::Ready),
        }
    }

    /// A reference was loaded: its register holds what it refers to. Who tells names looks its name up, unless it is nil. Whether the unit goes on.
    #[inline(always)]
    pub(super) fn keep_reference(&mut self, op: Op, base: Place, reference: u64) -> bool
        requires op { op ≡ op_now self.old }
        requires busy { IsBusy self.old (MutatorPhase.Reference base) }
        ensures { self.new ≡ next_in self.old (MutatorPhase.Reference base) reference }
    {
        self.hold_reference(op, reference)
    }

    /// A word was found in the field: where it is a reference, its register holds what it refers to. Who tells names looks its name up,
    /// unless it is nil. Whether the unit goes on.
    #[inline(always)]
    fn hold_reference(&mut self, op: Op, reference: u64) -> bool
        requires op { op ≡ op_now self.old }
        requires turn { self.old.phase ≢ MutatorPhase.Finished }
        requires operation { length self.old.replies.items < length self.old.operations }
        ensures { self.new ≡ (if nat_le reference (MOST_GRANULES) then loaded self.old (place_in reference) else done_with self.old Reply.Bad) }
    {
        if reference > u64::from(MOST_GRANULES) {
            self.reply_seldom(Reply::Bad);
            return false;
        }
        let place = Place(reference as u32);
        self.set_register(dest_of(self.told_op(op)), place);
        if place.0 == 0 {
            self.reply(found_reply(op, None));
            false
        } else if self.names {
            self.go_on(MutatorPhase::Referent { place });
            true
        } else {
            self.reply(found_reply(op, Some(UNNAMED)));
            false
        }
    }

    /// The header of what was loaded or swapped out is loaded too: the operation is done, with the name that it tells.
    #[inline(always)]
    pub(super) fn name_referent(&mut self, op: Op, place: Place, header: u64)
        requires op { op ≡ op_now self.old }
        requires busy { IsBusy self.old (MutatorPhase.Referent place) }
        ensures { self.new ≡ next_in self.old (MutatorPhase.Referent place) header }
    {
        match unpack(header) {
            Header::Object(name, _) => self.reply(found_reply(op, Some(name))),
            Header::Moved(_) => self.reply_seldom(Reply::Bad),
        }
    }

    /// The store or swap in progress goes on.
    #[inline(always)]
    pub(super) fn step_store(&mut self, op: Op, old: u64)
        requires op { op ≡ op_now self.old }
        requires storing { (store : Storing) × (self.old.phase ≡ MutatorPhase.Storing store) }
        ensures { (store : Storing) → self.old.phase ≡ MutatorPhase.Storing store → self.new ≡ next_in self.old (MutatorPhase.Storing store) old }
    {
        let MutatorPhase::Storing(machine) = &mut self.phase else {
            unreachable!();
        };
        machine.take(old, &mut self.log);
        match machine.end() {
            None => {}
            Some(StoreEnd::Stored) => {
                self.phase = MutatorPhase::Ready;
                self.reply(Reply::Stored);
            }
            Some(StoreEnd::Swapped { .. }) => {
                self.phase = MutatorPhase::Ready;
                self.hold_reference(op, old);
            }
            Some(StoreEnd::LogFull) => self.phase = MutatorPhase::GivingUp(Stop::LogFull),
        }
    }

    /// The word with the bit of the field was loaded: the store or swap in progress, which had just begun, goes on or gives up. Whether the bit was clear.
    #[inline(always)]
    pub(super) fn look_at_bit(&mut self, old: u64) -> bool
        requires storing { (store : Storing) × (self.old.phase ≡ MutatorPhase.Storing store) × (store.phase ≡ StorePhase.Begun) }
        ensures { (store : Storing) → self.old.phase ≡ MutatorPhase.Storing store → self.new ≡ next_in self.old (MutatorPhase.Storing store) old }
    {
        let MutatorPhase::Storing(machine) = &mut self.phase else {
            unreachable!();
        };
        if machine.look(old, &self.log) {
            return true;
        }
        if machine.end().is_some() {
            self.phase = MutatorPhase::GivingUp(Stop::LogFull);
        }
        false
    }

    /// The field was stored to or swapped, by the last step of the store or swap in progress, which the caller tells. Whether the unit goes on.
    #[inline(always)]
    pub(super) fn end_store(&mut self, op: Op, last: LastStep, old: u64) -> bool
        requires op { op ≡ op_now self.old }
        requires storing { (store : Storing) × IsBusy self.old (MutatorPhase.Storing store) × (store.phase ≡ StorePhase.Logged) × (last ≡ store.last) }
        ensures { (store : Storing) → self.old.phase ≡ MutatorPhase.Storing store → self.new ≡ next_in self.old (MutatorPhase.Storing store) old }
    {
        match last {
            LastStep::Store => {
                self.reply(Reply::Stored);
                false
            }
            LastStep::Swap => self.hold_reference(op, old),
        }
    }
}

/// The heap word of the data word that the operation goes to, in an object with so many references.
#[inline(always)]
pub(super) fn data_word(base: Place, refs: u16, op: Op) -> u32
    requires { IsPlace base }
    ensures { result ≡ data_word base refs (index_of op) }
{
    word_of(base) + 1 + u32::from(refs) + u32::from(index_of(op))
}
