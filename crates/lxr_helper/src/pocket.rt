//! Pockets.
ghost use Rattle.std.specs.Prelude.{◌≡◌, IfOk, length, nat_eq};
ghost use Rattle.lxr_base.specs.Roomy.{emptied};
ghost use Rattle.lxr_helper.specs.Pockets.{IsPocket, has_room, kept, last_of, no_places, taken_from};

use lxr_base::Listed;
use lxr_layout::Place;
use std::alloc::{AllocError, Global};
use std::marker::Model;

/// How many places a pocket has room for.
pub const POCKET_ROOM: usize = 64;

/// A few places that may need work. It gives out first what it took in last.
#[derive(Drop)]
pub struct Pocket {
    places: Listed<Place>,
}

impl Model for Pocket {
    ghost use Rattle.lxr_base.specs.Roomy.{Roomy};
    ghost use Rattle.lxr_layout.specs.declared.Place.{Place};
    ghost use Rattle.lxr_helper.specs.Pockets.{IsPocket};

    ghost Value = { Roomy Place };

    ghost view = { λ p. p.places };

    ghost invariant = { λ p. IsPocket p.places };
}

impl Pocket {
    /// An empty pocket. It takes the memory for its places.
    pub fn new(alloc: Global) -> Result<Pocket, AllocError>
        ensures { IfOk result (λ pocket. pocket ≡ no_places) }
    {
        let places = Listed::with_room(alloc, POCKET_ROOM)?;
        Ok(Pocket { places })
    }

    /// How many places it has.
    #[inline(always)]
    pub fn len(&self) -> usize
        ensures { result ≡ length self.now.items }
    {
        self.places.len()
    }

    /// Whether it has no place.
    #[inline(always)]
    pub fn is_empty(&self) -> bool
        ensures { result ≡ nat_eq (length self.now.items) 0 }
    {
        self.places.len() == 0
    }

    /// Whether there is room for a further place.
    #[inline(always)]
    pub fn has_room(&self) -> bool
        ensures room { result ≡ has_room self.now }
        // What holds of each pocket.
        ensures sound { IsPocket self.now }
    {
        self.places.len() < POCKET_ROOM
    }

    /// Puts a place in, or drops it where there is no room for it.
    #[inline(always)]
    pub fn keep(&mut self, place: Place)
        ensures { self.new ≡ kept self.old place }
    {
        if self.has_room() {
            self.places.push(place);
        }
    }

    /// The last place; none where it is empty.
    #[inline(always)]
    pub fn last(&self) -> Option<Place>
        ensures { result ≡ last_of self.now.items }
    {
        match self.places.len() {
            0 => None,
            count => self.places.get(count - 1),
        }
    }

    /// Takes the last place out; none where it is empty.
    #[inline(always)]
    pub fn take(&mut self) -> Option<Place>
        ensures place { result ≡ last_of self.old.items }
        ensures left { self.new ≡ taken_from self.old }
    {
        self.places.pop()
    }

    /// Drops all places.
    pub fn clear(&mut self)
        ensures { self.new ≡ emptied self.old }
    {
        self.places.clear();
    }
}
