//! Lists that say how much room they have.
//!
//! A collector takes its memory before the first operation and none in a pause. So its lists are made with their
//! room, and contracts see, beside the items, how many items a list can hold without taking memory.
ghost use Rattle.std.specs.Prelude.{◌≡◌, ◌+◌, ◌<◌, ◌≤◌, ◌↔◌, [], IfOk, IsTrue, MatchOption, OnErr, OnOk, length, slice_get, slice_set};
ghost use Rattle.std.specs.List.Sorted.{IsPermutation, IsSortedByClosure};
ghost use Rattle.lxr_base.specs.Roomy.{emptied, extended, pushed, turned};

use std::alloc::{AllocError, Global};
use std::cmp::Ordering;
use std::marker::Model;

/// A list with its room.
#[derive(Drop)]
pub struct Listed<T> {
    items: Vec<T>,
}

impl<T> Model for Listed<T> {
    ghost use Rattle.std.specs.Prelude.{vec_capacity};
    ghost use Rattle.lxr_base.specs.Roomy.{Roomy};

    ghost Value = { Roomy T };

    ghost view = { λ l. record { items = l.items.items; room = vec_capacity l.items } };
}

impl<T> Listed<T> {
    /// An empty list. It takes no memory.
    pub fn new(alloc: Global) -> Listed<T>
        ensures { result.items ≡ [] }
    {
        Listed {
            items: Vec::new(alloc),
        }
    }

    /// An empty list with room for so many items.
    pub fn with_room(alloc: Global, room: usize) -> Result<Listed<T>, AllocError>
        ensures empty { IfOk result (λ l. l.items ≡ []) }
        ensures room { IfOk result (λ l. l.room ≡ room) }
    {
        let items = Vec::with_capacity(alloc, room)?;
        Ok(Listed { items })
    }

    /// The items of a `Vec`, in its memory.
    pub fn from_vec(items: Vec<T>) -> Listed<T>
        ensures { result.items ≡ items.items }
    {
        Listed { items }
    }

    /// The items as a `Vec`, in the same memory.
    pub fn into_vec(self) -> Vec<T>
        ensures { result.items ≡ self.items }
    {
        self.items
    }

    /// How many items there are.
    pub fn len(&self) -> usize
        ensures { result ≡ length self.now.items }
    {
        self.items.len()
    }

    /// Whether there are none.
    pub fn is_empty(&self) -> bool
        ensures { IsTrue result ↔ (self.now.items ≡ []) }
    {
        self.items.is_empty()
    }

    /// The items, in order.
    pub fn as_slice(&self) -> &[T]
        ensures { result.now ≡ self.now.items }
    {
        &self.items
    }

    /// Adds an item at the end, in the room that there is.
    pub fn push(&mut self, item: T)
        requires { length self.old.items < self.old.room }
        ensures { self.new ≡ pushed self.old item }
    {
        self.items.push_reserved(item);
    }

    /// Adds items at the end, in their order, in the room that there is.
    pub fn extend_from(&mut self, items: &[T])
    where
        T: Copy,
        requires { length self.old.items + length items.now ≤ self.old.room }
        ensures { self.new ≡ extended self.old items.now }
    {
        for item in items {
            self.push(*item);
        }
    }

    /// Puts items in place of those that there are, in the room that there is.
    pub fn copy_from(&mut self, items: &[T])
    where
        T: Copy + Drop,
        requires { length items.now ≤ self.old.room }
        ensures { self.new ≡ record self.old { items = items.now } }
    {
        self.clear();
        self.extend_from(items);
    }

    /// Adds an item at the end, and takes memory where there is no room.
    pub fn try_push(&mut self, item: T) -> Result<(), AllocError>
    where
        T: Drop,
        ensures ok { OnOk result (self.new.items ≡ (pushed self.old item).items) }
        ensures err { OnErr result (self.new.items ≡ self.old.items) }
    {
        self.items.push(item)?;
        Ok(())
    }

    /// Takes the last item; none where there is none.
    pub fn pop(&mut self) -> Option<T>
        ensures { MatchOption result ((self.old.items ≡ []) × (self.new ≡ self.old)) (λ item. self.old ≡ pushed self.new item) }
    {
        self.items.pop()
    }

    /// The item at an index; none where there is none.
    pub fn get(&self, at: usize) -> Option<T>
    where
        T: Copy,
        ensures { result ≡ slice_get self.now.items at }
    {
        self.items.get(at).copied()
    }

    /// The item at an index that there is.
    pub fn at(&self, index: usize) -> T
    where
        T: Copy,
        requires { index < length self.now.items }
        ensures { slice_get self.now.items index ≡ Some result }
    {
        self.items[index]
    }

    /// Puts an item in place of the one at an index.
    pub fn set(&mut self, at: usize, item: T)
    where
        T: Drop,
        requires { at < length self.old.items }
        ensures { self.new ≡ record self.old { items = slice_set self.old.items at item } }
    {
        self.items[at] = item;
    }

    /// Puts the items into the order that a comparison says, in place; items that tie may change places among each
    /// other. It takes no memory, and the room stays.
    pub fn sort_unstable_by<F: FnMut(&T, &T) -> Ordering>(&mut self, compare: F)
        requires { F.IsAlwaysCallable compare }
        ensures permutation { IsPermutation self.old.items self.new.items }
        ensures sorted { IsSortedByClosure F.FnMut compare self.new.items }
        ensures room { self.new.room ≡ self.old.room }
    {
        self.items.sort_unstable_by(compare);
    }

    /// Turns the order of the items from one index to below another around, in place.
    pub fn reverse_within(&mut self, from: usize, end: usize)
        requires { (from ≤ end) × (end ≤ length self.old.items) }
        ensures { self.new ≡ turned self.old from end }
    {
        self.items[from..end].reverse();
    }

    /// Takes all items out; the room stays.
    pub fn clear(&mut self)
    where
        T: Drop,
        ensures { self.new ≡ emptied self.old }
    {
        self.items.clear();
    }
}
