//! The order of the calls and pauses of a run, as far as it has come.
ghost use Rattle.std.specs.Prelude.{◌≡◌, ◌≤◌, [], ◌∷◌, None, OnOk, length, option_map, slice_get};
ghost use Rattle.std.specs.Option.{option_copied};
ghost use Rattle.lxr_actor.specs.Run.{core_of};
ghost use Rattle.lxr_run_replay.specs.Replaying.{CanBeReplayed};
ghost use Rattle.lxr_run_loop.specs.Drawing.{ReplaysInOrder};
ghost use Rattle.lxr_run_loop.specs.Orders.{Notes, call_of, calls_of_first, opening_order};

use lxr_core::AnyActor;
use lxr_graph::{Item, Items};
use lxr_image::Space;
use lxr_run_replay::{order_epoch, replay_epoch};
use lxr_sights::Gate;
use lxr_words::Command;
use std::alloc::{AllocError, Global};
use std::marker::Model;
use std::mem;

/// The order of the calls and pauses of a run so far; none where it isn't kept.
#[derive(Drop)]
pub struct Order {
    items: Option<Items>,
}

impl Model for Order {
    ghost use Rattle.std.specs.Prelude.{List, Option, option_map};
    ghost use Rattle.lxr_graph.specs.declared.Item.{Item};

    ghost Value = { Option (List Item) };

    ghost view = { λ o. option_map (λ l. l.items) o.items };
}

impl Order {
    /// No order.
    pub fn none() -> Order
        ensures { result ≡ None }
    {
        Order { items: None }
    }

    /// What a run begins with: `order` keeps an order, and no other command does.
    pub fn begin(alloc: Global, command: Command) -> Order
        ensures { result ≡ opening_order command }
    {
        match command {
            Command::Order => Order {
                items: Some(Items::new(alloc)),
            },
            _ => Order::none(),
        }
    }

    /// The items so far, where the order is kept.
    pub fn items(&self) -> Option<&Items>
        ensures { option_map (λ items. items.now.items) result ≡ self.now }
    {
        self.items.as_ref()
    }

    /// Keeps no order from here on.
    pub(crate) fn give_up(&mut self)
        ensures { self.new ≡ None }
    {
        self.items = None;
    }

    /// Adds an item. An epoch leaves room for all that stand in front of the next one; where memory is wanted all the same, no order is
    /// kept from here on.
    pub(crate) fn note(&mut self, item: Item)
        ensures { Notes self.old (item ∷ []) self.new }
    {
        if let Some(items) = mem::replace(&mut self.items, None) {
            let mut items = items;
            if items.try_push(item).is_ok() {
                self.items = Some(items);
            }
        }
    }

    /// Adds the call of an actor that came to stand in the history since so many did, if there is an actor and one has come.
    fn note_call(&mut self, actor: Option<&AnyActor>, before: u32)
        ensures { Notes self.old (call_of before (option_copied actor.entry)) self.new }
    {
        match actor {
            Some(AnyActor::Mutator(mutator)) => {
                if mutator.placed() > before {
                    self.note(Item::Call(mutator.thread()));
                }
            }
            _ => {}
        }
    }

    /// Adds those of the first actors, in order.
    pub(crate) fn note_calls(&mut self, actors: &[AnyActor], before: &[u32; 255], first: usize)
        requires { first ≤ 255 }
        ensures { Notes self.old (calls_of_first before.now actors.now first) self.new }
    {
        for number in 0..first {
            self.note_call(actor_at(actors, number), before[number]);
        }
    }

    /// Replays an epoch, and notes the calls that it brings into the history, where the order is kept.
    pub(crate) fn replay<G: Gate>(
        &mut self,
        alloc: Global,
        space: &mut Space,
        actors: &mut [AnyActor],
        x: &mut u64,
        gate: &G,
    ) -> Result<(), AllocError>
        requires few { length actors.old ≤ 32 }
        requires replayable { CanBeReplayed (core_of space.old.words actors.old) }
        ensures { OnOk result (ReplaysInOrder space.old space.new actors.old actors.new x.old x.new self.old self.new) }
    {
        match &mut self.items {
            Some(items) => order_epoch(alloc, space, actors, x, gate, items)?,
            None => replay_epoch(space, actors, x, gate),
        }
        Ok(())
    }
}

/// The actor of a number, if there is one.
pub(crate) fn actor_at(actors: &[AnyActor], number: usize) -> Option<&AnyActor>
    ensures { option_copied result ≡ slice_get actors.now number }
{
    actors.get(number)
}
