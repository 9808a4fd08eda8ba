//! Lists of names that are put in order in memory where somebody reads them.
//!
//! A pause finds the objects that it reports in any order, and contracts see their names in order. Mostly nobody reads the names, and to
//! sort them would take longer than to find them. So a list keeps its names as they were found, until it is asked to list them.
ghost use Rattle.std.specs.Prelude.{◌≡◌, ◌+◌, ◌<◌, ◌≤◌, ◌↔◌, ◌++◌, ◌&&◌, [], true, IfOk, IsTrue, length};
ghost use Rattle.std.specs.List.Sorted.{IsPermutation};
ghost use Rattle.lxr_graph.specs.Distinct.{IsDistinct};
ghost use Rattle.lxr_graph.specs.Listing.{in_order, listed, with_name, without_names};
ghost use Rattle.lxr_graph.specs.Names.{AreInOrder, union};

use crate::names::sort_names;
use lxr_base::{Chronicle, Listed};
use lxr_layout::Name;
use std::alloc::{AllocError, Global};
use std::marker::{Model, PhantomData};

/// A list of names with its room. Contracts see its items; memory may have them in another order until they are listed.
#[derive(Drop)]
pub struct Names {
    /// The names in the order in which memory has them.
    found: Listed<Name>,
    /// The items, for proofs alone.
    items: Chronicle<Name>,
    /// Whether memory has them in the order of the items.
    listed: bool,
}

impl Model for Names {
    ghost use Rattle.lxr_graph.specs.Listing.{KeepsNames, NameList};

    ghost Value = { NameList };

    ghost view = { λ l. record { items = l.items.items; room = l.found.room; listed = l.listed } };

    ghost invariant = { λ l. KeepsNames l.items.items l.found.items l.listed };
}

/// The names in order, for proofs alone.
#[inline(always)]
fn ordered(_names: &Chronicle<Name>) -> Chronicle<Name>
    ensures { result.items ≡ union _names.now.items [] }
{
    Chronicle {
        marker: PhantomData,
    }
}

impl Names {
    /// The names of a list, which can be read.
    pub fn of(found: Listed<Name>) -> Names
        ensures { result ≡ record { items = found.items; room = found.room; listed = true } }
    {
        let items = Chronicle::of(&found);
        Names {
            found,
            items,
            listed: true,
        }
    }

    /// An empty list. It takes no memory.
    pub fn new(alloc: Global) -> Names
        ensures items { result.items ≡ [] }
        ensures listed { result.listed ≡ true }
    {
        Names::of(Listed::new(alloc))
    }

    /// An empty list with room for so many names.
    pub fn with_room(alloc: Global, room: usize) -> Result<Names, AllocError>
        ensures { IfOk result (λ l. l ≡ record { items = []; room = room; listed = true }) }
    {
        let found = Listed::with_room(alloc, room)?;
        Ok(Names::of(found))
    }

    /// How many names there are.
    pub fn len(&self) -> usize
        ensures { result ≡ length self.now.items }
    {
        self.found.len()
    }

    /// Whether there are none.
    pub fn is_empty(&self) -> bool
        ensures { IsTrue result ↔ (self.now.items ≡ []) }
    {
        self.found.is_empty()
    }

    /// The names, in any order.
    pub fn found(&self) -> &[Name]
        ensures { IsPermutation self.now.items result.now }
    {
        self.found.as_slice()
    }

    /// The names, in order, of a list that can be read.
    pub fn as_slice(&self) -> &[Name]
        requires { IsTrue self.now.listed }
        ensures { result.now ≡ self.now.items }
    {
        self.found.as_slice()
    }

    /// Adds a name at the end, in the room that there is.
    pub fn push(&mut self, name: Name)
        requires { length self.old.items < self.old.room }
        ensures { self.new ≡ with_name self.old name }
    {
        self.items = self.items.and(&name);
        self.found.push(name);
    }

    /// Takes all names out; the room stays.
    pub fn clear(&mut self)
        ensures { self.new ≡ without_names self.old }
    {
        self.items = Chronicle::new();
        self.found.clear();
    }

    /// Puts the names of another list in place of those that there are, in the room that there is.
    pub fn copy_from(&mut self, from: &Names)
        requires { length from.now.items ≤ self.old.room }
        ensures { self.new ≡ record self.old { items = from.now.items; listed = from.now.listed } }
    {
        self.found.copy_from(from.found.as_slice());
        self.items = from.items.same();
        self.listed = from.listed;
    }

    /// Adds the names of another list at the end, in the room that there is, and takes them out of that one. They can be read where those of
    /// both could.
    pub fn append(&mut self, other: &mut Names)
        requires { length self.old.items + length other.old.items ≤ self.old.room }
        ensures added { self.new ≡ record self.old { items = self.old.items ++ other.old.items; listed = self.old.listed && other.old.listed } }
        ensures taken { other.new ≡ without_names other.old }
    {
        self.found.extend_from(other.found.as_slice());
        self.items = self.items.and_all(&other.items);
        self.listed = self.listed && other.listed;
        other.clear();
    }

    /// Puts the names, of which each is there once, in order, for proofs alone: no name is looked at, and none can be read until they are
    /// listed.
    pub fn order(&mut self)
        requires { IsDistinct self.old.items }
        ensures { self.new ≡ in_order self.old }
    {
        self.items = ordered(&self.items);
        self.listed = false;
    }

    /// Lists names that stand in order, so that they can be read. It takes no memory, and sorts them where they aren't listed yet (n log n).
    pub fn list(&mut self)
        requires { AreInOrder self.old.items }
        ensures { self.new ≡ listed self.old }
    {
        if !self.listed {
            sort_names(&mut self.found);
            self.listed = true;
        }
    }
}
