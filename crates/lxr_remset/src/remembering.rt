//! Entering references into the remembered set, and reading it.
ghost use Rattle.std.specs.Prelude.{◌≡◌, ◌↔◌, ◌*◌, ◌^◌, ◌<◌, ◌≤◌, ℕ, IsTrue};
ghost use Rattle.lxr_layout.specs.declared.TheConstants.{GRANULES_IN_BLOCK, REMEMBERED_CURSOR};
ghost use Rattle.lxr_layout.specs.declared.Place.{Place as PlaceOf};
ghost use Rattle.lxr_layout.specs.Runs.{kept_counter};
ghost use Rattle.lxr_image.specs.Reads.{granule_of};
ghost use Rattle.lxr_image.specs.Spaces.{IsSpace, Turns, tables_of};
ghost use Rattle.lxr_invariant.specs.Tracing.{HasOverflowed, IsEntryWord};
ghost use Rattle.lxr_remset.specs.Remembering.{IsField, is_in_chosen, kept_or_full, line_of_field, remembering, remembering_chosen};

use lxr_blocks::{BlockState, state};
use lxr_image::Space;
use lxr_layout::{
    Place, REMEMBERED_CURSOR, WORDS_IN_LINE, block_of, entry_of, entry_word, field_word,
    kept_counter,
};

/// How a reference was remembered.
#[derive(Clone, Copy, Debug, PartialEq, Eq)]
pub enum Remembered {
    /// It was entered into the set.
    Kept,
    /// The set has no room for it, and has overflowed from now on.
    Full,
}

/// Remembers a reference of the object at a place: a number is drawn from the remembered cursor. Where the set has room for
/// it, the entry of the reference is written there, with the reuse counter that the reference's line has now. Else nothing
/// more is done.
pub fn remember(space: &mut Space, place: Place, index: u16) -> Remembered
    requires space { IsSpace space.old }
    requires field { IsField space.old.limits place index }
    requires cursor { (tables_of space.old).cursors REMEMBERED_CURSOR < 2 ^ 63 }
    ensures tables { Turns space.old space.new (remembering space.old.limits (tables_of space.old) place index) }
    ensures answer { result ≡ kept_or_full space.old.limits (tables_of space.old) }
    ensures space { IsSpace space.new }
{
    let number = space.cursor(REMEMBERED_CURSOR);
    space.put_cursor(REMEMBERED_CURSOR, number + 1);
    if u64::from(space.limits.remember) <= number {
        return Remembered::Full;
    }
    let counter = space.reuse(field_word(place, index) / WORDS_IN_LINE);
    let entry = entry_word(space.limits.blocks, counter, place, index);
    space.put_remembered(number as u32, entry);
    Remembered::Kept
}

/// Remembers a reference of the object at a place, where what it holds stands in a Chosen block. Else nothing is done.
pub fn remember_chosen(space: &mut Space, place: Place, index: u16, held: Place)
    requires space { IsSpace space.old }
    requires field { IsField space.old.limits place index }
    requires placed { 1 ≤ held.0 }
    requires held { granule_of held.0 < GRANULES_IN_BLOCK * space.old.limits.blocks }
    requires cursor { IsTrue (is_in_chosen (tables_of space.old) held) → (tables_of space.old).cursors REMEMBERED_CURSOR < 2 ^ 63 }
    ensures tables { Turns space.old space.new (remembering_chosen space.old.limits (tables_of space.old) place index held) }
    ensures space { IsSpace space.new }
{
    if let BlockState::Chosen = state(space, block_of(held)) {
        remember(space, place, index);
    }
}

/// Whether the line of an entry's reference has the reuse counter that the entry has, as far as entries keep it. Then the line
/// wasn't handed out since, or so often that what is kept came round: 2^32 times, in a heap of more than `MOST_BLOCKS_OF_SMALL`
/// blocks 2^26.
pub fn is_current(space: &Space, entry: u64) -> bool
    requires space { IsSpace space.now }
    requires entry { (counter : ℕ) × (place : PlaceOf) × (index : ℕ) × IsEntryWord space.now.limits entry counter place index }
    ensures { (counter : ℕ) (place : PlaceOf) (index : ℕ) → IsEntryWord space.now.limits entry counter place index → (IsTrue result ↔ (kept_counter space.now.limits.blocks counter ≡ kept_counter space.now.limits.blocks ((tables_of space.now).reuse (line_of_field place index)))) }
{
    let blocks = space.limits.blocks;
    let (counter, place, index) = entry_of(blocks, entry);
    let now = space.reuse(field_word(place, index) / WORDS_IN_LINE);
    counter == kept_counter(blocks, now)
}

/// Whether more references were to be remembered than the set has room for, since it was cleared.
pub fn overflowed(space: &Space) -> bool
    requires { IsSpace space.now }
    ensures { IsTrue result ↔ HasOverflowed space.now.limits (tables_of space.now) }
{
    u64::from(space.limits.remember) < space.cursor(REMEMBERED_CURSOR)
}
