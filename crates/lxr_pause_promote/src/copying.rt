//! Copying one new object.
ghost use Rattle.std.specs.Prelude.{◌≡◌, ◌+◌, ◌*◌, ◌<◌, ◌≤◌, ◌⊎◌, ◌↔◌, IfNone, IfSome, IsNone};
ghost use Rattle.lxr_layout.specs.declared.TheConstants.{WORDS_IN_BLOCK};
ghost use Rattle.lxr_layout.specs.declared.Name.{Name as NameOf};
ghost use Rattle.lxr_layout.specs.declared.Shape.{Shape as ShapeOf};
ghost use Rattle.lxr_layout.specs.Objects.{FitsShape, word_count};
ghost use Rattle.lxr_image.specs.Spaces.{IsSpace, Turns, tables_of};
ghost use Rattle.lxr_blocks.specs.Placing.{IsFull};
ghost use Rattle.lxr_pause_promote.specs.Copying.{Evacuates, HasKeptAt, HasObjectAt, IsUsedRow, StandsAt, StandsKept, with_words};
ghost use Rattle.lxr_pause_promote.specs.Shortages.{IsShortage};

use crate::shortage::Shortage;
use lxr_image::Space;
use lxr_layout::{Header, Name, Place, Shape, pack_moved, unpack, word_of, words_of};

/// Copies the new object at a place to where an object of its name and shape is placed now, and leaves at the old place the word
/// that tells the new one. None exactly where there is no room for it; then nothing changes.
pub fn young_evacuate(space: &mut Space, place: Place) -> Option<Place>
    requires { HasKeptAt space.old place }
    ensures none { (n : NameOf) (shape : ShapeOf) → StandsKept space.old place n shape → (IsNone result ↔ IsFull space.old shape) }
    ensures unchanged { IfNone result (space.new ≡ space.old) }
    ensures copied { IfSome result (λ copy. (n : NameOf) (shape : ShapeOf) → StandsKept space.old place n shape → Evacuates space.old space.new place copy n shape) }
{
    young_evacuate_within(space, place, &mut Shortage::unknown())
}

/// Copies an object as `young_evacuate` does, within what is known of lines that are wanting: it makes no search that is known to be in
/// vain, and what one finds wanting is known from then on.
pub fn young_evacuate_within(
    space: &mut Space,
    place: Place,
    shortage: &mut Shortage,
) -> Option<Place>
    requires kept { HasKeptAt space.old place }
    requires short { IsShortage space.old shortage.old }
    ensures none { (n : NameOf) (shape : ShapeOf) → StandsKept space.old place n shape → (IsNone result ↔ IsFull space.old shape) }
    ensures unchanged { IfNone result (space.new ≡ space.old) }
    ensures copied { IfSome result (λ copy. (n : NameOf) (shape : ShapeOf) → StandsKept space.old place n shape → Evacuates space.old space.new place copy n shape) }
    ensures short { IsShortage space.new shortage.new }
{
    let (name, shape) = object(space, place);
    let copy = shortage.place(space, name, shape)?;
    copy_words(space, word_of(place), word_of(copy), shape);
    space.put_heap(word_of(place), pack_moved(copy));
    Some(copy)
}

/// The name and the shape of the object at a place, by its header.
pub fn object(space: &Space, place: Place) -> (Name, Shape)
    requires { HasObjectAt space.now place }
    ensures { (n : NameOf) (shape : ShapeOf) → StandsAt space.now place n shape → result ≡ (n, shape) }
{
    match unpack(space.heap_word(word_of(place))) {
        Header::Object(name, shape) => (name, shape),
        Header::Moved(_) => unreachable!(),
    }
}

/// Copies the words behind a header of this shape, the one at a heap word, to behind another. But where there is one word alone, both headers
/// aren't 0, and tell that their blocks are in use.
fn copy_words(space: &mut Space, from: u32, to: u32, shape: Shape)
    requires space { IsSpace space.old }
    requires shape { FitsShape shape }
    requires from { from + word_count shape ≤ WORDS_IN_BLOCK * space.old.limits.blocks }
    requires to { to + word_count shape ≤ WORDS_IN_BLOCK * space.old.limits.blocks }
    requires apart { (from + word_count shape ≤ to) ⊎ (to + word_count shape ≤ from) }
    requires used { 2 < word_count shape → IsUsedRow (tables_of space.old) from (word_count shape) × IsUsedRow (tables_of space.old) to (word_count shape) }
    ensures { Turns space.old space.new (with_words (tables_of space.old) from to (word_count shape)) }
{
    let first = space.heap_word(from + 1);
    space.put_heap(to + 1, first);
    for behind in 2..words_of(shape) {
        let word = space.used_word(from + behind);
        space.put_used(to + behind, word);
    }
}
