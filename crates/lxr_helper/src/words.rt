//! Words: what is made of those that are found, and the steps that look at bits and set them.
ghost use Rattle.std.specs.Prelude.{◌≡◌, ◌+◌, ◌/◌, ◌^◌, ◌<◌, ◌≤◌, IfSome, IsTrue};
ghost use Rattle.lxr_layout.specs.Places.{IsPlace, first_word};
ghost use Rattle.lxr_helper.specs.Looks.{bit_look, bit_setting};
ghost use Rattle.lxr_helper.specs.Words.{InHeap, IsObject, granule_of, has_bit, is_in_heap, references_in, referent_in};

use lxr_actor::{Action, Kindred};
use lxr_layout::{Header, Place, Regions, granule_of, unpack, word_of, words_of};

/// Whether a number is that of a place of the heap.
#[inline(always)]
pub fn is_in_heap(regions: &Regions, number: u64) -> bool
    ensures test { result ≡ is_in_heap regions.now number }
    ensures number { IsTrue result → number < 2 ^ 32 }
{
    1 <= number && number <= u64::from(regions.counts / 2)
}

/// Whether the bit at a place is set, in its word of a table of bits.
#[inline(always)]
pub fn has_bit(place: Place, word: u64) -> bool
    requires { 1 ≤ place.0 }
    ensures { result ≡ has_bit place word }
{
    word >> (granule_of(place) % 64) & 1 == 1
}

/// What a word refers to; none where it is nil.
#[inline(always)]
pub fn referent_in(regions: &Regions, word: u64) -> Option<Place>
    ensures place { result ≡ referent_in regions.now word }
    ensures within { IfSome result (λ place. InHeap regions.now place) }
{
    if is_in_heap(regions, word) {
        Some(Place(word as u32))
    } else {
        None
    }
}

/// How many references the object at a place has, by its header word; none where the object doesn't lie in the heap.
#[inline(always)]
pub fn references_in(regions: &Regions, place: Place, word: u64) -> u16
    requires place { IsPlace place }
    requires heap { InHeap regions.now place }
    ensures references { result ≡ references_in regions.now place word }
    ensures object { IsObject regions.now place result }
{
    match unpack(word) {
        Header::Object(_, shape) if word_of(place) + words_of(shape) <= regions.counts =>
            shape.refs,
        _ => 0,
    }
}

/// A load of the bit at a place, in the table of bits that begins at a word.
#[inline(always)]
pub fn bit_look(table: u32, place: Place) -> Action
    requires { (1 ≤ place.0) × (table + granule_of place / 64 < 2 ^ 32) }
    ensures { result ≡ bit_look table place }
{
    Action::load(table + granule_of(place) / 64)
}

/// The setting of the bit at a place, in the table of bits that begins at a word.
#[inline(always)]
pub fn bit_setting(table: u32, place: Place) -> Action
    requires { (1 ≤ place.0) × (table + granule_of place / 64 < 2 ^ 32) }
    ensures { result ≡ bit_setting table place }
{
    let granule = granule_of(place);
    Action {
        kind: Kindred::Or,
        word: table + granule / 64,
        operand: 1_u64 << (granule % 64),
    }
}
