//! What is to come of an order: up to where it has calls of each thread, and pauses.
ghost use Rattle.std.specs.Prelude.{◌≡◌, ◌+◌, ◌^◌, ◌<◌, ◌≤◌, List, drop, length};
ghost use Rattle.std.specs.List.{list_any};
ghost use Rattle.lxr_judge.specs.Passing.{is_call_of, is_pause};
ghost use Rattle.lxr_judge.specs.Ahead.{IsAhead, noted};
ghost use Rattle.lxr_graph.specs.declared.Item as ordered;

use crate::progress::MOST_THREADS;
use lxr_case::{Item, Items};

/// How many items of an order stand up to and with the last call of each thread, thread 1 first, and the last pause; 0 where there is
/// none.
#[derive(Clone, Copy)]
pub(crate) struct Ahead {
    pub(crate) calls: [u32; MOST_THREADS],
    pub(crate) pauses: u32,
}

/// What is to come of an order.
pub(crate) fn look_ahead(order: &Items) -> Ahead
    requires { length order.now.items < 2 ^ 32 }
    ensures { IsAhead result order.now.items }
{
    let mut ahead = Ahead {
        calls: [0; MOST_THREADS],
        pauses: 0,
    };
    for before in 0..order.len() {
        ahead.note(order.at(before), before as u32 + 1);
    }
    ahead
}

impl Ahead {
    /// An item stands so far in the order.
    fn note(&mut self, item: Item, place: u32)
        ensures { self.new ≡ noted self.old item place }
    {
        match item {
            Item::Pause => self.pauses = place,
            Item::Call(thread) => {
                if thread >= 1 && usize::from(thread) <= MOST_THREADS {
                    self.calls[usize::from(thread) - 1] = place;
                }
            }
        }
    }

    /// Whether a call of a thread stands behind the item with so many before it.
    pub(crate) fn has_call(&self, thread: u8, before: u32) -> bool
        requires { (1 ≤ thread) × (thread ≤ 16) }
        ensures { (order : List ordered.Item) → length order + 1 < 2 ^ 32 → IsAhead self.now order → result ≡ list_any (is_call_of thread) (drop (before + 1) order) }
    {
        before.saturating_add(1) < self.calls[usize::from(thread) - 1]
    }

    /// Whether a pause stands behind the item with so many before it.
    pub(crate) fn has_pause(&self, before: u32) -> bool
        ensures { (order : List ordered.Item) → length order + 1 < 2 ^ 32 → IsAhead self.now order → result ≡ list_any is_pause (drop (before + 1) order) }
    {
        before.saturating_add(1) < self.pauses
    }
}
