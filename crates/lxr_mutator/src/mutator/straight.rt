//! Units straight through: from each step the code goes on to what can follow it, and asks for no phase that it knows.
//!
//! Each step is the one that `next` tells, and what was found is taken by the stage that `take` would call. Lines are drawn
//! seldom, and by the general way. Where the caller knows the operation, so does each stage, and says it again before a step that
//! asks for it: no stage asks memory which operation it is. A stage that may end the unit tells whether the unit goes on.
ghost use Rattle.std.specs.Prelude.{◌≡◌, ℕ};
ghost use Rattle.lxr_layout.specs.declared.Place.{Place};
ghost use Rattle.lxr_graph.specs.declared.Op.TheVariants as op;
ghost use Rattle.lxr_actor.specs.Steps.{Does, DoesUnit, Finishes};
ghost use Rattle.lxr_barrier.specs.declared.machines.StorePhase.{StorePhase};
ghost use Rattle.lxr_barrier.specs.Storing.{Storing};
ghost use Rattle.lxr_mutator.specs.Mutating.{op_now};
ghost use Rattle.lxr_mutator.specs.Steps.{mutator_machine};
ghost use Rattle.lxr_mutator.specs.Mutators.{IsAskedIn, IsBusy, IsMutator};

use super::Mutator;
use crate::phases::MutatorPhase;
use lxr_actor::{Actor, Steps, do_unit, finish_unit};
use lxr_barrier::LastStep;
use lxr_graph::Op;
use lxr_layout::Place;

impl Mutator {
    /// Does one unit, and no step where it is through with the epoch.
    #[inline(always)]
    pub fn do_unit<T, S: Steps<Mutator, T>>(&mut self, steps: &mut S, table: &T)
        requires holds { S.holds table.now steps.old self.old }
        ensures unit { DoesUnit mutator_machine S.did self.old steps.old self.new steps.new }
        ensures holds { S.holds table.now steps.new self.new }
    {
        self.do_unit_of(self.op(), steps, table);
    }

    /// The same of the operation whose turn it is, which the caller tells: where that is known, this is one call of code that is made for it
    /// alone.
    #[inline(always)]
    pub fn do_unit_of<T, S: Steps<Mutator, T>>(&mut self, op: Op, steps: &mut S, table: &T)
        requires op { op ≡ op_now self.old }
        requires holds { S.holds table.now steps.old self.old }
        ensures unit { DoesUnit mutator_machine S.did self.old steps.old self.new steps.new }
        ensures holds { S.holds table.now steps.new self.new }
    {
        match op {
            Op::Move { dest, source } => self.do_move(dest, source, steps, table),
            Op::Nil { dest } => self.do_nil(dest, steps, table),
            Op::Same { left, right } => self.do_same(left, right, steps, table),
            Op::Get { base, index } => self.do_get(base, index, steps, table),
            Op::Put { base, index, value } => self.do_put(base, index, value, steps, table),
            Op::Add { base, index, value } => self.do_add(base, index, value, steps, table),
            Op::Load { dest, base, index } => self.do_load(dest, base, index, steps, table),
            Op::Store {
                base,
                index,
                source,
            } => self.do_store(base, index, source, steps, table),
            Op::Swap {
                dest,
                base,
                index,
                source,
            } => self.do_swap(dest, base, index, source, steps, table),
            _ => self.do_any(op, steps, table),
        }
    }

    /// One unit of any operation.
    #[inline(never)]
    fn do_any<T, S: Steps<Mutator, T>>(&mut self, op: Op, steps: &mut S, table: &T)
        requires op { op ≡ op_now self.old }
        requires holds { S.holds table.now steps.old self.old }
        ensures unit { DoesUnit mutator_machine S.did self.old steps.old self.new steps.new }
        ensures holds { S.holds table.now steps.new self.new }
    {
        if let MutatorPhase::Ready = self.phase {
            if self.load_pause_word(op, steps, table) {
                self.operate(op, steps, table);
            } else {
                self.finish(steps, table);
            }
        } else {
            self.do_unit_by_phases(steps, table);
        }
    }

    /// One unit of a `move`.
    #[inline(never)]
    fn do_move<T, S: Steps<Mutator, T>>(&mut self, dest: u8, source: u8, steps: &mut S, table: &T)
        requires op { op.Move dest source ≡ op_now self.old }
        requires holds { S.holds table.now steps.old self.old }
        ensures unit { DoesUnit mutator_machine S.did self.old steps.old self.new steps.new }
        ensures holds { S.holds table.now steps.new self.new }
    {
        self.do_in_registers(Op::Move { dest, source }, steps, table);
    }

    /// One unit of a `nil`.
    #[inline(never)]
    fn do_nil<T, S: Steps<Mutator, T>>(&mut self, dest: u8, steps: &mut S, table: &T)
        requires op { op.Nil dest ≡ op_now self.old }
        requires holds { S.holds table.now steps.old self.old }
        ensures unit { DoesUnit mutator_machine S.did self.old steps.old self.new steps.new }
        ensures holds { S.holds table.now steps.new self.new }
    {
        self.do_in_registers(Op::Nil { dest }, steps, table);
    }

    /// One unit of a `same`.
    #[inline(never)]
    fn do_same<T, S: Steps<Mutator, T>>(&mut self, left: u8, right: u8, steps: &mut S, table: &T)
        requires op { op.Same left right ≡ op_now self.old }
        requires holds { S.holds table.now steps.old self.old }
        ensures unit { DoesUnit mutator_machine S.did self.old steps.old self.new steps.new }
        ensures holds { S.holds table.now steps.new self.new }
    {
        self.do_in_registers(Op::Same { left, right }, steps, table);
    }

    /// One unit of an operation that may be done by its first step.
    #[inline(always)]
    fn do_in_registers<T, S: Steps<Mutator, T>>(&mut self, op: Op, steps: &mut S, table: &T)
        requires op { op ≡ op_now self.old }
        requires holds { S.holds table.now steps.old self.old }
        ensures unit { DoesUnit mutator_machine S.did self.old steps.old self.new steps.new }
        ensures holds { S.holds table.now steps.new self.new }
    {
        if let MutatorPhase::Ready = self.phase {
            self.load_pause_word(op, steps, table);
            self.finish(steps, table);
        } else {
            self.do_unit_by_phases(steps, table);
        }
    }

    /// One unit of a `get`.
    #[inline(never)]
    fn do_get<T, S: Steps<Mutator, T>>(&mut self, base: u8, index: u16, steps: &mut S, table: &T)
        requires op { op.Get base index ≡ op_now self.old }
        requires holds { S.holds table.now steps.old self.old }
        ensures unit { DoesUnit mutator_machine S.did self.old steps.old self.new steps.new }
        ensures holds { S.holds table.now steps.new self.new }
    {
        self.do_on_datum(Op::Get { base, index }, steps, table);
    }

    /// One unit of a `put`.
    #[inline(never)]
    fn do_put<T, S: Steps<Mutator, T>>(
        &mut self,
        base: u8,
        index: u16,
        value: u64,
        steps: &mut S,
        table: &T,
    )
        requires op { op.Put base index value ≡ op_now self.old }
        requires holds { S.holds table.now steps.old self.old }
        ensures unit { DoesUnit mutator_machine S.did self.old steps.old self.new steps.new }
        ensures holds { S.holds table.now steps.new self.new }
    {
        self.do_on_datum(Op::Put { base, index, value }, steps, table);
    }

    /// One unit of an `add`.
    #[inline(never)]
    fn do_add<T, S: Steps<Mutator, T>>(
        &mut self,
        base: u8,
        index: u16,
        value: u64,
        steps: &mut S,
        table: &T,
    )
        requires op { op.Add base index value ≡ op_now self.old }
        requires holds { S.holds table.now steps.old self.old }
        ensures unit { DoesUnit mutator_machine S.did self.old steps.old self.new steps.new }
        ensures holds { S.holds table.now steps.new self.new }
    {
        self.do_on_datum(Op::Add { base, index, value }, steps, table);
    }

    /// One unit of a `load`.
    #[inline(never)]
    fn do_load<T, S: Steps<Mutator, T>>(
        &mut self,
        dest: u8,
        base: u8,
        index: u16,
        steps: &mut S,
        table: &T,
    )
        requires op { op.Load dest base index ≡ op_now self.old }
        requires holds { S.holds table.now steps.old self.old }
        ensures unit { DoesUnit mutator_machine S.did self.old steps.old self.new steps.new }
        ensures holds { S.holds table.now steps.new self.new }
    {
        self.do_on_reference(Op::Load { dest, base, index }, steps, table);
    }

    /// One unit of a `store`.
    #[inline(never)]
    fn do_store<T, S: Steps<Mutator, T>>(
        &mut self,
        base: u8,
        index: u16,
        source: u8,
        steps: &mut S,
        table: &T,
    )
        requires op { op.Store base index source ≡ op_now self.old }
        requires holds { S.holds table.now steps.old self.old }
        ensures unit { DoesUnit mutator_machine S.did self.old steps.old self.new steps.new }
        ensures holds { S.holds table.now steps.new self.new }
    {
        self.do_by_storing(
            Op::Store {
                base,
                index,
                source,
            },
            steps,
            table,
        );
    }

    /// One unit of a `swap`.
    #[inline(never)]
    fn do_swap<T, S: Steps<Mutator, T>>(
        &mut self,
        dest: u8,
        base: u8,
        index: u16,
        source: u8,
        steps: &mut S,
        table: &T,
    )
        requires op { op.Swap dest base index source ≡ op_now self.old }
        requires holds { S.holds table.now steps.old self.old }
        ensures unit { DoesUnit mutator_machine S.did self.old steps.old self.new steps.new }
        ensures holds { S.holds table.now steps.new self.new }
    {
        self.do_by_storing(
            Op::Swap {
                dest,
                base,
                index,
                source,
            },
            steps,
            table,
        );
    }

    /// One unit of an operation that stores a reference behind the barrier.
    #[inline(always)]
    fn do_by_storing<T, S: Steps<Mutator, T>>(&mut self, op: Op, steps: &mut S, table: &T)
        requires op { op ≡ op_now self.old }
        requires holds { S.holds table.now steps.old self.old }
        ensures unit { DoesUnit mutator_machine S.did self.old steps.old self.new steps.new }
        ensures holds { S.holds table.now steps.new self.new }
    {
        if let MutatorPhase::Ready = self.phase {
            if self.load_pause_word(op, steps, table) {
                self.reach_barrier(op, steps, table);
            } else {
                self.finish(steps, table);
            }
        } else {
            self.do_unit_by_phases(steps, table);
        }
    }

    /// Does what is left of it, once the pause word was loaded.
    #[inline(always)]
    fn reach_barrier<T, S: Steps<Mutator, T>>(&mut self, op: Op, steps: &mut S, table: &T)
        requires op { IsAskedIn self.old.phase op (op_now self.old) }
        requires holds { S.holds table.now steps.old self.old }
        ensures rest { Finishes mutator_machine S.did self.old steps.old self.new steps.new }
        ensures holds { S.holds table.now steps.new self.new }
    {
        match self.phase {
            MutatorPhase::Base { base } => {
                if self.load_base(op, base, steps, table) {
                    self.store(op, steps, table);
                } else {
                    self.finish(steps, table);
                }
            }
            _ => self.finish(steps, table),
        }
    }

    /// One unit of an operation on a data word.
    #[inline(always)]
    fn do_on_datum<T, S: Steps<Mutator, T>>(&mut self, op: Op, steps: &mut S, table: &T)
        requires op { op ≡ op_now self.old }
        requires holds { S.holds table.now steps.old self.old }
        ensures unit { DoesUnit mutator_machine S.did self.old steps.old self.new steps.new }
        ensures holds { S.holds table.now steps.new self.new }
    {
        if let MutatorPhase::Ready = self.phase {
            if self.load_pause_word(op, steps, table) {
                self.reach_datum(op, steps, table);
            } else {
                self.finish(steps, table);
            }
        } else {
            self.do_unit_by_phases(steps, table);
        }
    }

    /// Does what is left of it, once the pause word was loaded.
    #[inline(always)]
    fn reach_datum<T, S: Steps<Mutator, T>>(&mut self, op: Op, steps: &mut S, table: &T)
        requires op { IsAskedIn self.old.phase op (op_now self.old) }
        requires holds { S.holds table.now steps.old self.old }
        ensures rest { Finishes mutator_machine S.did self.old steps.old self.new steps.new }
        ensures holds { S.holds table.now steps.new self.new }
    {
        match self.phase {
            MutatorPhase::Base { base } => {
                if self.load_header(op, base, steps, table) {
                    self.access_datum(steps, table);
                } else {
                    self.finish(steps, table);
                }
            }
            _ => self.finish(steps, table),
        }
    }

    /// One unit of an operation on a reference that it loads.
    #[inline(always)]
    fn do_on_reference<T, S: Steps<Mutator, T>>(&mut self, op: Op, steps: &mut S, table: &T)
        requires op { op ≡ op_now self.old }
        requires holds { S.holds table.now steps.old self.old }
        ensures unit { DoesUnit mutator_machine S.did self.old steps.old self.new steps.new }
        ensures holds { S.holds table.now steps.new self.new }
    {
        if let MutatorPhase::Ready = self.phase {
            if self.load_pause_word(op, steps, table) {
                self.reach_reference(op, steps, table);
            } else {
                self.finish(steps, table);
            }
        } else {
            self.do_unit_by_phases(steps, table);
        }
    }

    /// Does what is left of it, once the pause word was loaded.
    #[inline(always)]
    fn reach_reference<T, S: Steps<Mutator, T>>(&mut self, op: Op, steps: &mut S, table: &T)
        requires op { IsAskedIn self.old.phase op (op_now self.old) }
        requires holds { S.holds table.now steps.old self.old }
        ensures rest { Finishes mutator_machine S.did self.old steps.old self.new steps.new }
        ensures holds { S.holds table.now steps.new self.new }
    {
        match self.phase {
            MutatorPhase::Base { base } => {
                if self.load_header(op, base, steps, table) {
                    self.access_reference(op, steps, table);
                } else {
                    self.finish(steps, table);
                }
            }
            _ => self.finish(steps, table),
        }
    }

    /// Does what is left of the unit, once the pause word was loaded.
    #[inline(always)]
    fn operate<T, S: Steps<Mutator, T>>(&mut self, op: Op, steps: &mut S, table: &T)
        requires op { IsAskedIn self.old.phase op (op_now self.old) }
        requires holds { S.holds table.now steps.old self.old }
        ensures rest { Finishes mutator_machine S.did self.old steps.old self.new steps.new }
        ensures holds { S.holds table.now steps.new self.new }
    {
        match self.phase {
            MutatorPhase::Base { base } => {
                if self.load_header(op, base, steps, table) {
                    self.access(op, steps, table);
                } else {
                    self.finish(steps, table);
                }
            }
            MutatorPhase::Wiping { .. } => self.make_object(op, steps, table),
            _ => self.finish(steps, table),
        }
    }

    /// Does what is left of an operation on a field, once the header of its base was loaded.
    #[inline(always)]
    fn access<T, S: Steps<Mutator, T>>(&mut self, op: Op, steps: &mut S, table: &T)
        requires op { IsAskedIn self.old.phase op (op_now self.old) }
        requires holds { S.holds table.now steps.old self.old }
        ensures rest { Finishes mutator_machine S.did self.old steps.old self.new steps.new }
        ensures holds { S.holds table.now steps.new self.new }
    {
        match self.phase {
            MutatorPhase::Reference { .. } => self.access_reference(op, steps, table),
            MutatorPhase::Storing(_) => self.store(op, steps, table),
            _ => self.access_datum(steps, table),
        }
    }

    /// Does what is left of a `load`, once the header of its base was loaded.
    #[inline(always)]
    fn access_reference<T, S: Steps<Mutator, T>>(&mut self, op: Op, steps: &mut S, table: &T)
        requires op { IsAskedIn self.old.phase op (op_now self.old) }
        requires holds { S.holds table.now steps.old self.old }
        ensures rest { Finishes mutator_machine S.did self.old steps.old self.new steps.new }
        ensures holds { S.holds table.now steps.new self.new }
    {
        match self.phase {
            MutatorPhase::Reference { base } => {
                if self.load_reference(op, base, steps, table) {
                    self.tell_name(op, steps, table);
                } else {
                    self.finish(steps, table);
                }
            }
            _ => self.finish(steps, table),
        }
    }

    /// Does what is left of a `get`, a `put` or an `add`, once the header of its base was loaded.
    #[inline(always)]
    fn access_datum<T, S: Steps<Mutator, T>>(&mut self, steps: &mut S, table: &T)
        requires holds { S.holds table.now steps.old self.old }
        ensures rest { Finishes mutator_machine S.did self.old steps.old self.new steps.new }
        ensures holds { S.holds table.now steps.new self.new }
    {
        match self.phase {
            MutatorPhase::Datum { .. } => {
                self.load_datum(steps, table);
                self.finish(steps, table);
            }
            MutatorPhase::Putting { .. } => {
                self.store_datum(steps, table);
                self.finish(steps, table);
            }
            MutatorPhase::Adding { .. } => {
                self.add_datum(steps, table);
                self.finish(steps, table);
            }
            _ => self.finish(steps, table),
        }
    }

    /// Does what is left of a `store` to a reference, or of a `swap`, from the look at the bit of its field on.
    #[inline(always)]
    fn store<T, S: Steps<Mutator, T>>(&mut self, op: Op, steps: &mut S, table: &T)
        requires op { IsAskedIn self.old.phase op (op_now self.old) }
        requires holds { S.holds table.now steps.old self.old }
        ensures rest { Finishes mutator_machine S.did self.old steps.old self.new steps.new }
        ensures holds { S.holds table.now steps.new self.new }
    {
        match self.phase {
            MutatorPhase::Storing(ref machine) => {
                if machine.has_begun() {
                    if self.load_bit(steps, table) {
                        self.store_after_look(op, steps, table);
                    } else {
                        self.store_on(op, steps, table);
                    }
                } else {
                    self.store_on(op, steps, table);
                }
            }
            _ => self.finish(steps, table),
        }
    }

    /// Does what is left of a `store` to a reference, or of a `swap`, once the bit of its field was looked at.
    #[inline(always)]
    fn store_after_look<T, S: Steps<Mutator, T>>(&mut self, op: Op, steps: &mut S, table: &T)
        requires op { IsAskedIn self.old.phase op (op_now self.old) }
        requires holds { S.holds table.now steps.old self.old }
        ensures rest { Finishes mutator_machine S.did self.old steps.old self.new steps.new }
        ensures holds { S.holds table.now steps.new self.new }
    {
        match self.phase {
            MutatorPhase::Storing(ref machine) => {
                if machine.is_behind_barrier() {
                    let last = machine.last();
                    if self.store_behind_barrier(op, last, steps, table) {
                        self.tell_name(op, steps, table);
                    } else {
                        self.finish(steps, table);
                    }
                } else {
                    self.store_on(op, steps, table);
                }
            }
            _ => self.finish(steps, table),
        }
    }

    /// Does what is left of a `load` or a `swap`, once the reference was loaded or swapped out.
    #[inline(always)]
    fn tell_name<T, S: Steps<Mutator, T>>(&mut self, op: Op, steps: &mut S, table: &T)
        requires op { IsAskedIn self.old.phase op (op_now self.old) }
        requires holds { S.holds table.now steps.old self.old }
        ensures rest { Finishes mutator_machine S.did self.old steps.old self.new steps.new }
        ensures holds { S.holds table.now steps.new self.new }
    {
        match self.phase {
            MutatorPhase::Referent { place } => {
                self.load_name(op, place, steps, table);
                self.finish(steps, table);
            }
            _ => self.finish(steps, table),
        }
    }

    /// Does what is left of a `store` to a reference, or of a `swap`, however many steps that is, as a call.
    #[inline(never)]
    fn store_on<T, S: Steps<Mutator, T>>(&mut self, op: Op, steps: &mut S, table: &T)
        requires op { IsAskedIn self.old.phase op (op_now self.old) }
        requires holds { S.holds table.now steps.old self.old }
        ensures rest { Finishes mutator_machine S.did self.old steps.old self.new steps.new }
        ensures holds { S.holds table.now steps.new self.new }
    {
        while let MutatorPhase::Storing(_) = self.phase {
            self.go_on_storing(op, steps, table);
        }
        self.tell_name(op, steps, table);
    }

    /// Makes an object in lines that it has: wipes its further words, and stores its header.
    #[inline(always)]
    fn make_object<T, S: Steps<Mutator, T>>(&mut self, op: Op, steps: &mut S, table: &T)
        requires op { IsAskedIn self.old.phase op (op_now self.old) }
        requires holds { S.holds table.now steps.old self.old }
        ensures rest { Finishes mutator_machine S.did self.old steps.old self.new steps.new }
        ensures holds { S.holds table.now steps.new self.new }
    {
        while let MutatorPhase::Wiping { place, next } = self.phase {
            self.wipe_next(place, next, steps, table);
        }
        self.hand_over(op, steps, table);
    }

    /// Does what is left of a `new`, once the further words of its object were wiped.
    #[inline(always)]
    fn hand_over<T, S: Steps<Mutator, T>>(&mut self, op: Op, steps: &mut S, table: &T)
        requires op { IsAskedIn self.old.phase op (op_now self.old) }
        requires holds { S.holds table.now steps.old self.old }
        ensures rest { Finishes mutator_machine S.did self.old steps.old self.new steps.new }
        ensures holds { S.holds table.now steps.new self.new }
    {
        match self.phase {
            MutatorPhase::Heading { place } => {
                self.store_header(op, place, steps, table);
                self.finish(steps, table);
            }
            _ => self.finish(steps, table),
        }
    }

    /// Does what is left of the unit, if anything is.
    #[inline(always)]
    fn finish<T, S: Steps<Mutator, T>>(&mut self, steps: &mut S, table: &T)
        requires holds { S.holds table.now steps.old self.old }
        ensures rest { Finishes mutator_machine S.did self.old steps.old self.new steps.new }
        ensures holds { S.holds table.now steps.new self.new }
    {
        if !self.resting() {
            self.finish_by_phases(steps, table);
        }
    }

    /// The same in the general way, which asks for the phase before each step and after it.
    #[inline(never)]
    fn finish_by_phases<T, S: Steps<Mutator, T>>(&mut self, steps: &mut S, table: &T)
        requires holds { S.holds table.now steps.old self.old }
        ensures rest { Finishes mutator_machine S.did self.old steps.old self.new steps.new }
        ensures holds { S.holds table.now steps.new self.new }
    {
        finish_unit(self, steps, table);
    }

    /// One unit in the general way.
    #[inline(never)]
    fn do_unit_by_phases<T, S: Steps<Mutator, T>>(&mut self, steps: &mut S, table: &T)
        requires holds { S.holds table.now steps.old self.old }
        ensures unit { DoesUnit mutator_machine S.did self.old steps.old self.new steps.new }
        ensures holds { S.holds table.now steps.new self.new }
    {
        do_unit(self, steps, table);
    }

    /// Loads the pause word. Whether the unit goes on: both ways end it, but the code of the one knows what the unit does next.
    #[inline(always)]
    fn load_pause_word<T, S: Steps<Mutator, T>>(&mut self, op: Op, steps: &mut S, table: &T) -> bool
        requires op { op ≡ op_now self.old }
        requires busy { (self.old.phase ≡ MutatorPhase.Ready) × IsMutator self.old }
        requires holds { S.holds table.now steps.old self.old }
        ensures step { Does mutator_machine S.did self.old steps.old self.new steps.new }
        ensures holds { S.holds table.now steps.new self.new }
    {
        let word = steps.step(table, self);
        self.look_at_pause_word(op, word)
    }

    /// Loads the header of the base. Whether the unit goes on.
    #[inline(always)]
    fn load_header<T, S: Steps<Mutator, T>>(
        &mut self,
        op: Op,
        base: Place,
        steps: &mut S,
        table: &T,
    ) -> bool
        requires op { op ≡ op_now self.old }
        requires busy { IsBusy self.old (MutatorPhase.Base base) }
        requires holds { S.holds table.now steps.old self.old }
        ensures step { Does mutator_machine S.did self.old steps.old self.new steps.new }
        ensures holds { S.holds table.now steps.new self.new }
    {
        let header = steps.step(table, self);
        self.recall(op);
        self.reach_field(op, base, header)
    }

    /// The same for an operation whose further steps are told by the machine of the store alone: nothing asks memory for the operation.
    #[inline(always)]
    fn load_base<T, S: Steps<Mutator, T>>(
        &mut self,
        op: Op,
        base: Place,
        steps: &mut S,
        table: &T,
    ) -> bool
        requires op { op ≡ op_now self.old }
        requires busy { IsBusy self.old (MutatorPhase.Base base) }
        requires holds { S.holds table.now steps.old self.old }
        ensures step { Does mutator_machine S.did self.old steps.old self.new steps.new }
        ensures holds { S.holds table.now steps.new self.new }
    {
        let header = steps.step(table, self);
        self.reach_field(op, base, header)
    }

    /// Loads the reference that `load` asks for. Whether the unit goes on.
    #[inline(always)]
    fn load_reference<T, S: Steps<Mutator, T>>(
        &mut self,
        op: Op,
        base: Place,
        steps: &mut S,
        table: &T,
    ) -> bool
        requires op { op ≡ op_now self.old }
        requires busy { IsBusy self.old (MutatorPhase.Reference base) }
        requires holds { S.holds table.now steps.old self.old }
        ensures step { Does mutator_machine S.did self.old steps.old self.new steps.new }
        ensures holds { S.holds table.now steps.new self.new }
    {
        let reference = steps.step(table, self);
        self.keep_reference(op, base, reference)
    }

    /// Loads the header of what was loaded or swapped out.
    #[inline(always)]
    fn load_name<T, S: Steps<Mutator, T>>(&mut self, op: Op, place: Place, steps: &mut S, table: &T)
        requires op { op ≡ op_now self.old }
        requires busy { IsBusy self.old (MutatorPhase.Referent place) }
        requires holds { S.holds table.now steps.old self.old }
        ensures step { Does mutator_machine S.did self.old steps.old self.new steps.new }
        ensures holds { S.holds table.now steps.new self.new }
    {
        let header = steps.step(table, self);
        self.name_referent(op, place, header);
    }

    /// Loads the data word that `get` asks for.
    #[inline(always)]
    fn load_datum<T, S: Steps<Mutator, T>>(&mut self, steps: &mut S, table: &T)
        requires busy { (base : Place) × (refs : ℕ) × IsBusy self.old (MutatorPhase.Datum base refs) }
        requires holds { S.holds table.now steps.old self.old }
        ensures step { Does mutator_machine S.did self.old steps.old self.new steps.new }
        ensures holds { S.holds table.now steps.new self.new }
    {
        let word = steps.step(table, self);
        self.tell_datum(word);
    }

    /// Stores to the data word that `put` names.
    #[inline(always)]
    fn store_datum<T, S: Steps<Mutator, T>>(&mut self, steps: &mut S, table: &T)
        requires busy { (base : Place) × (refs : ℕ) × IsBusy self.old (MutatorPhase.Putting base refs) }
        requires holds { S.holds table.now steps.old self.old }
        ensures step { Does mutator_machine S.did self.old steps.old self.new steps.new }
        ensures holds { S.holds table.now steps.new self.new }
    {
        steps.step(table, self);
        self.end_put();
    }

    /// Adds to the data word that `add` names.
    #[inline(always)]
    fn add_datum<T, S: Steps<Mutator, T>>(&mut self, steps: &mut S, table: &T)
        requires busy { (base : Place) × (refs : ℕ) × IsBusy self.old (MutatorPhase.Adding base refs) }
        requires holds { S.holds table.now steps.old self.old }
        ensures step { Does mutator_machine S.did self.old steps.old self.new steps.new }
        ensures holds { S.holds table.now steps.new self.new }
    {
        let old = steps.step(table, self);
        self.end_add(old);
    }

    /// Loads the word with the bit of the field that is stored to. Whether the bit was clear.
    #[inline(always)]
    fn load_bit<T, S: Steps<Mutator, T>>(&mut self, steps: &mut S, table: &T) -> bool
        requires busy { (store : Storing) × IsBusy self.old (MutatorPhase.Storing store) × (store.phase ≡ StorePhase.Begun) }
        requires holds { S.holds table.now steps.old self.old }
        ensures step { Does mutator_machine S.did self.old steps.old self.new steps.new }
        ensures holds { S.holds table.now steps.new self.new }
    {
        let old = steps.step(table, self);
        self.look_at_bit(old)
    }

    /// Does the last step of the store or swap in progress, which the caller tells. Whether the unit goes on.
    #[inline(always)]
    fn store_behind_barrier<T, S: Steps<Mutator, T>>(
        &mut self,
        op: Op,
        last: LastStep,
        steps: &mut S,
        table: &T,
    ) -> bool
        requires op { op ≡ op_now self.old }
        requires busy { (store : Storing) × IsBusy self.old (MutatorPhase.Storing store) × (store.phase ≡ StorePhase.Logged) × (last ≡ store.last) }
        requires holds { S.holds table.now steps.old self.old }
        ensures step { Does mutator_machine S.did self.old steps.old self.new steps.new }
        ensures holds { S.holds table.now steps.new self.new }
    {
        let old = steps.step(table, self);
        self.end_store(op, last, old)
    }

    /// Does the next step of the store or swap in progress.
    #[inline(always)]
    fn go_on_storing<T, S: Steps<Mutator, T>>(&mut self, op: Op, steps: &mut S, table: &T)
        requires op { op ≡ op_now self.old }
        requires busy { (store : Storing) × IsBusy self.old (MutatorPhase.Storing store) }
        requires holds { S.holds table.now steps.old self.old }
        ensures step { Does mutator_machine S.did self.old steps.old self.new steps.new }
        ensures holds { S.holds table.now steps.new self.new }
    {
        let old = steps.step(table, self);
        self.step_store(op, old);
    }

    /// Stores 0 to a word of the new object.
    #[inline(always)]
    fn wipe_next<T, S: Steps<Mutator, T>>(
        &mut self,
        place: Place,
        next: u32,
        steps: &mut S,
        table: &T,
    )
        requires busy { IsBusy self.old (MutatorPhase.Wiping place next) }
        requires holds { S.holds table.now steps.old self.old }
        ensures step { Does mutator_machine S.did self.old steps.old self.new steps.new }
        ensures holds { S.holds table.now steps.new self.new }
    {
        steps.step(table, self);
        self.wipe_word(place, next);
    }

    /// Stores the header of the new object.
    #[inline(always)]
    fn store_header<T, S: Steps<Mutator, T>>(
        &mut self,
        op: Op,
        place: Place,
        steps: &mut S,
        table: &T,
    )
        requires op { op ≡ op_now self.old }
        requires busy { IsBusy self.old (MutatorPhase.Heading place) }
        requires holds { S.holds table.now steps.old self.old }
        ensures step { Does mutator_machine S.did self.old steps.old self.new steps.new }
        ensures holds { S.holds table.now steps.new self.new }
    {
        self.recall(op);
        steps.step(table, self);
        self.hand_out(op, place);
    }
}
