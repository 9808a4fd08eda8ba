//! Objects as they are read by their places.
ghost use Rattle.std.specs.Prelude.{◌≡◌, ◌*◌, ◌≤◌, ◌&&◌, IsTrue, nat_le};
ghost use Rattle.lxr_layout.specs.declared.TheConstants.{GRANULES_IN_BLOCK};
ghost use Rattle.lxr_layout.specs.Objects.{header_of};
ghost use Rattle.lxr_layout.specs.Places.{first_word};
ghost use Rattle.lxr_image.specs.Reads.{StartsStandWhole, datum_at, field_at, granule_of, header_at, slots_of};
ghost use Rattle.lxr_image.specs.Spaces.{IsSpace, tables_of};

use crate::Space;
use lxr_layout::{GRANULES_IN_BLOCK, Header, Place, field_word, granule_of, unpack, word_of};

impl Space {
    /// Whether an unreclaimed object begins at a place.
    fn begins(&self, place: Place) -> bool
        requires { IsSpace self.now }
        ensures begins { result ≡ (nat_le 1 place.0 && (tables_of self.now).starts (granule_of place.0)) }
        ensures in_heap { IsTrue result → (1 ≤ place.0) × (place.0 ≤ GRANULES_IN_BLOCK * self.now.limits.blocks) }
    {
        if place.0 == 0 {
            return false;
        }
        if GRANULES_IN_BLOCK * self.limits.blocks < place.0 {
            return false;
        }
        self.has_start(granule_of(place))
    }

    /// What the header of the unreclaimed object at a place says. None where no start bit stands at a place of the
    /// heap.
    pub fn object(&self, place: Place) -> Option<Header>
        requires { IsSpace self.now }
        ensures { result ≡ header_at (tables_of self.now) place.0 }
    {
        if !self.begins(place) {
            return None;
        }
        Some(unpack(self.heap_word(word_of(place))))
    }

    /// How many references the object at a place of the heap has by its header; 0 where it was moved.
    pub fn reference_slots(&self, place: Place) -> u16
        requires space { IsSpace self.now }
        requires heap { (1 ≤ place.0) × (place.0 ≤ GRANULES_IN_BLOCK * self.now.limits.blocks) }
        ensures { result ≡ slots_of (header_of ((tables_of self.now).heap (first_word place.0))) }
    {
        match unpack(self.heap_word(word_of(place))) {
            Header::Object(_, shape) => shape.refs,
            Header::Moved(_) => 0,
        }
    }

    /// The word of a reference of the unreclaimed object at a place: the place that it holds, and 0 for nil. None
    /// where there is no object, or where it has no such reference.
    pub fn field(&self, place: Place, index: u16) -> Option<u64>
        requires space { IsSpace self.now }
        requires starts { StartsStandWhole (tables_of self.now) self.now.limits.blocks }
        ensures { result ≡ field_at (tables_of self.now) place.0 index }
    {
        match self.object(place)? {
            Header::Object(_, shape) if index < shape.refs => {
                Some(self.heap_word(field_word(place, index)))
            }
            _ => None,
        }
    }

    /// A data word of the unreclaimed object at a place. None where there is no object, or where it has no such data
    /// word.
    pub fn datum(&self, place: Place, index: u16) -> Option<u64>
        requires space { IsSpace self.now }
        requires starts { StartsStandWhole (tables_of self.now) self.now.limits.blocks }
        ensures { result ≡ datum_at (tables_of self.now) place.0 index }
    {
        match self.object(place)? {
            Header::Object(_, shape) if index < shape.values => {
                Some(self.heap_word(word_of(place) + 1 + u32::from(shape.refs) + u32::from(index)))
            }
            _ => None,
        }
    }
}
