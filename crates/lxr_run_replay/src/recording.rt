//! What a replay records: the calls that come to stand in the history, in room that is made for them before the first step.
ghost use Rattle.std.specs.Prelude.{◌≡◌, ◌+◌, ◌*◌, ◌≤◌, [], ◌∷◌, None, Some, IfOk, IfSome, OnErr, if◌then◌else◌, nat_lt, length};
ghost use Rattle.lxr_base.specs.Roomy.{Roomy};
ghost use Rattle.lxr_alloc.specs.declared.TheConstants.{MOST_OPERATIONS};
ghost use Rattle.lxr_run_replay.specs.Recording.{HasRoom, IsSound, all_left, calls_since, left_to_place, placed_by, recorded};

use lxr_core::AnyActor;
use lxr_graph::{Item, Items};
use std::alloc::{AllocError, Global};
use std::marker::Model;
use std::mem;

/// The calls that a replay records behind those of a list; none where it records nothing.
#[derive(Drop)]
pub(crate) struct Calls {
    kept: Option<Vec<Item>>,
}

impl Model for Calls {
    ghost use Rattle.std.specs.Prelude.{Option, option_map, vec_capacity};
    ghost use Rattle.lxr_base.specs.Roomy.{Roomy};
    ghost use Rattle.lxr_graph.specs.declared.Item.{Item};

    ghost Value = { Option (Roomy Item) };

    ghost view = { λ c. option_map (λ v. record { items = v.items; room = vec_capacity v }) c.kept };
}

impl Calls {
    /// A replay that records nothing.
    pub(crate) fn none() -> Calls
        ensures { result ≡ None }
    {
        Calls { kept: None }
    }

    /// A record behind the items of a list, which it takes out, with room for so many more. At a refusal the list has its items.
    pub(crate) fn behind(alloc: Global, items: &mut Items, more: usize) -> Result<Calls, AllocError>
        ensures ok { IfOk result (λ calls. (l : Roomy Item) × (calls ≡ Some l) × (l.items ≡ items.old.items) × (length l.items + more ≤ l.room)) }
        ensures err { OnErr result (items.new.items ≡ items.old.items) }
    {
        let mut kept = mem::replace(items, Items::new(alloc)).into_vec();
        match kept.reserve(more) {
            Ok(()) => Ok(Calls { kept: Some(kept) }),
            Err(error) => {
                *items = Items::from_vec(kept);
                Err(error)
            }
        }
    }

    /// All that it has, as a list.
    pub(crate) fn into_items(self, alloc: Global) -> Items
        ensures { IfSome self (λ l. result.items ≡ l.items) }
    {
        match self.kept {
            Some(kept) => Items::from_vec(kept),
            None => Items::new(alloc),
        }
    }

    /// Records the call of a thread.
    fn push(&mut self, thread: u8)
        requires { HasRoom self.old 1 }
        ensures { self.new ≡ recorded self.old (Item.Call thread ∷ []) }
    {
        if let Some(kept) = &mut self.kept {
            kept.push_reserved(Item::Call(thread));
        }
    }

    /// Records the call of an actor that came to stand in the history since so many did, if one has come.
    #[inline(always)]
    pub(crate) fn note(&mut self, actor: &AnyActor, before: u32)
        requires { HasRoom self.old (length (calls_since before actor.now)) }
        ensures { self.new ≡ recorded self.old (calls_since before actor.now) }
    {
        if let Some(mutator) = actor.mutator() {
            if mutator.placed() > before {
                self.push(mutator.thread());
            }
        }
    }
}

/// How many operations of an actor's thread stand in the history, its end among them; a helper has none.
#[inline(always)]
pub fn placed_by(actor: &AnyActor) -> u32
    ensures count { result ≡ placed_by actor.now }
    ensures sound { IsSound actor.now }
{
    match actor.mutator() {
        Some(mutator) => mutator.placed(),
        None => 0,
    }
}

/// How many operations of an actor's thread are yet to come into the history, its end among them; a helper has none.
fn left_to_place(actor: &AnyActor) -> usize
    ensures left { result ≡ left_to_place actor.now }
    ensures few { result ≤ MOST_OPERATIONS + 1 }
{
    match actor.mutator() {
        Some(mutator) => {
            let placed = mutator.placed() as usize;
            (mutator.ordered() as usize + 1).saturating_sub(placed)
        }
        None => 0,
    }
}

/// How many of all threads.
pub(crate) fn all_left(actors: &[AnyActor]) -> usize
    requires { length actors.now ≤ 32 }
    ensures left { result ≡ all_left actors.now }
    ensures few { result ≤ (MOST_OPERATIONS + 1) * 32 }
{
    let mut count = 0;
    for number in 0..actors.len() {
        count += left_to_place(&actors[number]);
    }
    count
}
