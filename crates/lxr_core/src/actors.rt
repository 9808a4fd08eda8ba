//! All kinds of actor as one.
ghost use Rattle.std.specs.Prelude.{◌≡◌, ◌*◌, ◌≤◌};
ghost use Rattle.std.specs.List.{All};
ghost use Rattle.std.specs.Option.{option_copied};
ghost use Rattle.lxr_layout.specs.declared.TheConstants.{GRANULES_IN_BLOCK};
ghost use Rattle.lxr_image.specs.Registers.{row_in};
ghost use Rattle.lxr_image.specs.Spaces.{IsSpace, tables_of};
ghost use Rattle.lxr_image_search.specs.Search.{AvoidsFree};
ghost use Rattle.lxr_image_search.specs.declared.Wanted.TheVariants.{ToScan};
ghost use Rattle.lxr_mutator.specs.Mutators.{IsHeld};
ghost use Rattle.lxr_core.specs.Actors.{mutator_of};
ghost use Rattle.lxr_core.specs.Collecting.{ActorMayGive, MayTakeOf, actor_given_up, taken_of_actor};
ghost use Rattle.lxr_core.specs.Filling.{FillsActor, MayFill};
ghost use Rattle.lxr_core.specs.Starting.{HasRegisters, MayStart, started_again};

use crate::closing::collect;
use crate::filling::fill_pocket;
use crate::lodged::Lodged;
use lxr_actor::{Action, Actor};
use lxr_decrement::Decrementer;
use lxr_graph::Op;
use lxr_image::{RegisterFile, Space};
use lxr_layout::Place;
use lxr_mutator::Mutator;
use lxr_trace::Tracer;

/// An actor of any kind.
#[derive(Drop)]
pub enum AnyActor {
    Mutator(Lodged<Mutator>),
    Decrementer(Lodged<Decrementer>),
    Tracer(Lodged<Tracer>),
}

impl AnyActor {
    /// The mutator, if it is one; a helper is none.
    #[inline(always)]
    pub fn mutator(&self) -> Option<&Mutator>
        ensures { option_copied result ≡ mutator_of self.now }
    {
        match self {
            AnyActor::Mutator(mutator) => Some(mutator),
            AnyActor::Decrementer(_) | AnyActor::Tracer(_) => None,
        }
    }

    /// A new epoch begins: the mutator of a number has its registers of these, and a helper has an empty pocket.
    pub(crate) fn start_again(&mut self, registers: &RegisterFile, number: usize)
        requires rests { MayStart self.old }
        requires registers { HasRegisters registers.now number self.old }
        requires held { All IsHeld registers.now.items }
        ensures { self.new ≡ started_again self.old (row_in registers.now.items number) }
    {
        match self {
            AnyActor::Mutator(mutator) => {
                mutator.start_again(registers.row(number), registers.in_use(number));
            }
            AnyActor::Decrementer(decrementer) => decrementer.start_again(),
            AnyActor::Tracer(tracer) => tracer.start_again(),
        }
    }

    /// Fills a tracer's pocket with places of gray objects that are not marked, those from a granule on, in order. It answers
    /// with the granule from which on others are left, the heap's end where none is. Other actors stay as they are.
    pub(crate) fn fill(&mut self, space: &Space, from: u32) -> u32
        requires space { IsSpace space.now }
        requires free { AvoidsFree (tables_of space.now) ToScan }
        requires from { from ≤ GRANULES_IN_BLOCK * space.now.limits.blocks }
        requires empty { MayFill space.now.limits self.old }
        ensures { FillsActor (tables_of space.now) space.now.limits.blocks from result self.old self.new }
    {
        match self {
            AnyActor::Mutator(_) | AnyActor::Decrementer(_) => from,
            AnyActor::Tracer(tracer) => fill_pocket(tracer, space, from),
        }
    }

    /// Gives up what it has: a mutator's registers, its log and its tally go to the space. A helper stays as it is.
    pub(crate) fn give_up(&mut self, space: &mut Space)
        requires gives { ActorMayGive space.old.limits self.old }
        requires takes { MayTakeOf space.old self.old }
        ensures space { space.new ≡ taken_of_actor space.old self.old }
        ensures actor { self.new ≡ actor_given_up self.old }
    {
        match self {
            AnyActor::Mutator(mutator) => collect(space, mutator),
            AnyActor::Decrementer(_) | AnyActor::Tracer(_) => {}
        }
    }
}

// What LLVM makes of a match of three arms asks for the last one first; most steps are mutators'.
impl Actor for AnyActor {
    ghost use Rattle.lxr_core.specs.Actors.{any_machine};

    ghost machine = { any_machine };

    #[inline(always)]
    fn next(&self) -> Option<Action> {
        match self {
            AnyActor::Tracer(tracer) => tracer.next(),
            AnyActor::Decrementer(decrementer) => decrementer.next(),
            AnyActor::Mutator(mutator) => mutator.next(),
        }
    }

    #[inline(always)]
    fn take(&mut self, old: u64) {
        match self {
            AnyActor::Tracer(tracer) => tracer.take(old),
            AnyActor::Decrementer(decrementer) => decrementer.take(old),
            AnyActor::Mutator(mutator) => mutator.take(old),
        }
    }

    #[inline(always)]
    fn resting(&self) -> bool {
        match self {
            AnyActor::Tracer(tracer) => tracer.resting(),
            AnyActor::Decrementer(decrementer) => decrementer.resting(),
            AnyActor::Mutator(mutator) => mutator.resting(),
        }
    }

    #[inline(always)]
    fn offer(&mut self, place: Place) -> bool {
        match self {
            AnyActor::Mutator(mutator) => mutator.offer(place),
            AnyActor::Decrementer(decrementer) => decrementer.offer(place),
            AnyActor::Tracer(tracer) => tracer.offer(place),
        }
    }

    #[inline(always)]
    fn surplus(&mut self) -> Option<Place> {
        match self {
            AnyActor::Mutator(mutator) => mutator.surplus(),
            AnyActor::Decrementer(decrementer) => decrementer.surplus(),
            AnyActor::Tracer(tracer) => tracer.surplus(),
        }
    }

    #[inline(always)]
    fn order(&mut self, op: Op) -> bool {
        match self {
            AnyActor::Mutator(mutator) => mutator.order(op),
            AnyActor::Decrementer(decrementer) => decrementer.order(op),
            AnyActor::Tracer(tracer) => tracer.order(op),
        }
    }
}
