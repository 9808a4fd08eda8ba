//! How an actor of each kind does its units: a mutator straight through, a helper step by step.
ghost use Rattle.std.specs.Prelude.{◌≡◌};

use lxr_actor::{Actor, Steps, do_unit};
use lxr_core::AnyActor;
use lxr_decrement::Decrementer;
use lxr_graph::Op;
use lxr_mutator::Mutator;
use lxr_shared_passes::{PassTable, Seated, Turning};
use lxr_trace::Tracer;

/// The table of an epoch, for steps of actors whose kind is known.
#[derive(Drop)]
pub struct KindTable<'a> {
    epoch: &'a PassTable<AnyActor>,
}

impl<'a> Steps<Mutator, KindTable<'a>> for Seated<AnyActor> {
    ghost use Rattle.lxr_core.specs.declared.actors.AnyActor.TheVariants.{Mutator};
    ghost use Rattle.lxr_core.specs.Actors.{any_machine};
    ghost use Rattle.lxr_shared_passes.specs.Seats.{Did, Sits};

    ghost holds = { λ table s m. Sits any_machine table.epoch.now.id s (Mutator m) };

    ghost did = { λ s m old t. Did any_machine s (Mutator m) old t };

    #[inline(always)]
    fn step(&mut self, table: &KindTable<'a>, actor: &Mutator) -> u64 {
        let Some(action) = actor.next() else {
            unreachable!()
        };
        self.act(table.epoch, action)
    }
}

impl<'a> Steps<Decrementer, KindTable<'a>> for Seated<AnyActor> {
    ghost use Rattle.lxr_core.specs.declared.actors.AnyActor.TheVariants.{Decrementer};
    ghost use Rattle.lxr_core.specs.Actors.{any_machine};
    ghost use Rattle.lxr_shared_passes.specs.Seats.{Did, Sits};

    ghost holds = { λ table s d. Sits any_machine table.epoch.now.id s (Decrementer d) };

    ghost did = { λ s d old t. Did any_machine s (Decrementer d) old t };

    #[inline(always)]
    fn step(&mut self, table: &KindTable<'a>, actor: &Decrementer) -> u64 {
        let Some(action) = actor.next() else {
            unreachable!()
        };
        self.act(table.epoch, action)
    }
}

impl<'a> Steps<Tracer, KindTable<'a>> for Seated<AnyActor> {
    ghost use Rattle.lxr_core.specs.declared.actors.AnyActor.TheVariants.{Tracer};
    ghost use Rattle.lxr_core.specs.Actors.{any_machine};
    ghost use Rattle.lxr_shared_passes.specs.Seats.{Did, Sits};

    ghost holds = { λ table s t. Sits any_machine table.epoch.now.id s (Tracer t) };

    ghost did = { λ s t old u. Did any_machine s (Tracer t) old u };

    #[inline(always)]
    fn step(&mut self, table: &KindTable<'a>, actor: &Tracer) -> u64 {
        let Some(action) = actor.next() else {
            unreachable!()
        };
        self.act(table.epoch, action)
    }
}

/// The way of each kind of actor.
pub(crate) struct ByKind;

// What LLVM makes of a match of three arms asks for the last one first; most units are mutators'.
impl Turning<AnyActor> for ByKind {
    ghost suits = { λ way a. Unit {0} };

    #[inline(always)]
    fn do_unit(
        &self,
        actor: &mut AnyActor,
        seated: &mut Seated<AnyActor>,
        epoch: &PassTable<AnyActor>,
    ) {
        let table = KindTable { epoch };
        match actor {
            AnyActor::Tracer(tracer) => do_unit(&mut **tracer, seated, &table),
            AnyActor::Decrementer(decrementer) => do_unit(&mut **decrementer, seated, &table),
            AnyActor::Mutator(mutator) => mutator.do_unit(seated, &table),
        }
    }
}

/// The way of a mutator whose next operation is this one: where that is known, the code is made for it alone.
#[derive(Drop)]
pub(crate) struct Carrying {
    pub op: Op,
}

impl Turning<AnyActor> for Carrying {
    ghost use Rattle.lxr_shared.specs.Ends.{IsNextOf};

    ghost suits = { λ way a. IsNextOf a way.op };

    #[inline(always)]
    fn do_unit(
        &self,
        actor: &mut AnyActor,
        seated: &mut Seated<AnyActor>,
        epoch: &PassTable<AnyActor>,
    ) {
        match actor {
            AnyActor::Mutator(mutator) => mutator.do_unit_of(self.op, seated, &KindTable { epoch }),
            AnyActor::Decrementer(_) | AnyActor::Tracer(_) => unreachable!(),
        }
    }
}
