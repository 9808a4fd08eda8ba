//! Clearing what the tables tell of one object.
ghost use Rattle.std.specs.Prelude.{◌≡◌, ◌+◌, ◌-◌, ◌*◌, ◌/◌, ◌^◌, ◌<◌, ◌≤◌};
ghost use Rattle.lxr_layout.specs.declared.TheConstants.{GRANULES_IN_BLOCK, WORDS_IN_BLOCK};
ghost use Rattle.lxr_layout.specs.Objects.{FitsShape, word_count};
ghost use Rattle.lxr_layout.specs.Places.{IsPlace};
ghost use Rattle.lxr_image.specs.Reads.{granule_of};
ghost use Rattle.lxr_image.specs.Spaces.{IsSpace, Turns, tables_of};
ghost use Rattle.lxr_blocks.specs.Clearing.{clear_between, unmarked_between, without_counted, without_object};
ghost use Rattle.lxr_blocks.specs.Lines.{line_behind, next_line};

use lxr_image::Space;
use lxr_layout::{GRANULES_IN_LINE, Place, Shape, granule_of, words_of};

/// Clears the marks of the further lines of an object of so many granules.
#[inline(always)]
pub fn clear_line_marks(space: &mut Space, granule: u32, count: u32)
    requires space { IsSpace space.old }
    requires count { 1 ≤ count }
    requires heap { granule + count ≤ GRANULES_IN_BLOCK * space.old.limits.blocks }
    ensures { Turns space.old space.new (record (tables_of space.old) { counts = unmarked_between (tables_of space.old).counts (next_line granule) (line_behind granule count) }) }
{
    for line in granule / GRANULES_IN_LINE + 1..(granule + count - 1) / GRANULES_IN_LINE + 1 {
        space.set_count(GRANULES_IN_LINE * line, 0);
    }
}

/// The bits from one on, all set.
#[inline(always)]
fn bits_from(first: u32) -> u64
    requires { first ≤ 64 }
    ensures { result ≡ 2 ^ 64 - 2 ^ first }
{
    if first < 64 { u64::MAX << first } else { 0 }
}

/// The bits from one on and below another, all set.
#[inline(always)]
fn bits_between(from: u32, end: u32) -> u64
    requires { (from ≤ end) × (end ≤ 64) }
    ensures { result ≡ 2 ^ end - 2 ^ from }
{
    bits_from(from) - bits_from(end)
}

/// Clears the unlogged bits of some of 64 heap words in a row: from one on and below another.
#[inline(always)]
fn clear_logs_in(space: &mut Space, at: u32, from: u32, end: u32)
    requires space { IsSpace space.old }
    requires heap { at < 64 * space.old.limits.blocks }
    requires range { (from ≤ end) × (end ≤ 64) }
    ensures { Turns space.old space.new (record (tables_of space.old) { unlogged = clear_between (tables_of space.old).unlogged (64 * at + from) (64 * at + end) }) }
{
    let word = space.unlogged_word(at);
    space.put_unlogged_word(at, word & !bits_between(from, end));
}

/// Clears the unlogged bits of so many heap words, those of 64 in a row at a time.
#[inline(always)]
pub fn clear_logs(space: &mut Space, at: u32, count: u16)
    requires space { IsSpace space.old }
    requires heap { at + count ≤ WORDS_IN_BLOCK * space.old.limits.blocks }
    ensures { Turns space.old space.new (record (tables_of space.old) { unlogged = clear_between (tables_of space.old).unlogged at (at + count) }) }
{
    let behind = at + u32::from(count);
    let mut from = at;
    while from < behind {
        let first = from - from % 64;
        let end = behind.min(first + 64);
        clear_logs_in(space, from / 64, from % 64, end - first);
        from = end;
    }
}

/// Clears the bits and marks of an object. Its count is 0 already.
pub fn clear_object(space: &mut Space, place: Place, shape: Shape)
    requires space { IsSpace space.old }
    requires place { IsPlace place }
    requires shape { FitsShape shape }
    requires heap { granule_of place.0 + word_count shape / 2 ≤ GRANULES_IN_BLOCK * space.old.limits.blocks }
    ensures { Turns space.old space.new (without_object (tables_of space.old) place.0 shape) }
{
    let granule = granule_of(place);
    space.clear_start(granule);
    space.clear_mark(granule);
    space.clear_gray(granule);
    clear_line_marks(space, granule, words_of(shape) / 2);
    clear_logs(space, 2 * granule + 1, shape.refs);
}

/// Clears the bits and marks of an object, and its count.
pub fn clear_counted(space: &mut Space, place: Place, shape: Shape)
    requires space { IsSpace space.old }
    requires place { IsPlace place }
    requires shape { FitsShape shape }
    requires heap { granule_of place.0 + word_count shape / 2 ≤ GRANULES_IN_BLOCK * space.old.limits.blocks }
    ensures { Turns space.old space.new (without_counted (tables_of space.old) place.0 shape) }
{
    space.set_count(granule_of(place), 0);
    clear_object(space, place, shape);
}
