//! Words: what a tracer makes of those about fields, blocks and the remembered set.
ghost use Rattle.std.specs.Prelude.{◌≡◌, ◌≤◌, ◌<◌, ◌^◌};
ghost use Rattle.lxr_layout.specs.Places.{IsPlace};
ghost use Rattle.lxr_trace.specs.Words.{counter_in, heap_blocks, is_chosen, line_of_field, remember_room};

use lxr_blocks::BlockState;
use lxr_layout::{Place, Regions, WORDS_IN_BLOCK, WORDS_IN_LINE, field_word};

/// The line of a reference of the object at a place, counted over the whole heap.
#[inline(always)]
pub(crate) fn line_of_field(place: Place, index: u16) -> u32
    requires { IsPlace place }
    ensures { result ≡ line_of_field place index }
{
    field_word(place, index) / WORDS_IN_LINE
}

/// How often a line was handed out, by its word of the table of reuse counters.
#[inline(always)]
pub(crate) fn counter_in(word: u64, line: u32) -> u32
    ensures { result ≡ counter_in word line }
{
    (word >> (32 * (line % 2)) & 0xffff_ffff) as u32
}

/// Whether a word of the table of states tells that the block is Chosen.
#[inline(always)]
pub(crate) fn is_chosen(word: u64) -> bool
    ensures { result ≡ is_chosen word }
{
    word == BlockState::Chosen.number()
}

/// How many blocks the heap has.
#[inline(always)]
pub(crate) fn heap_blocks(regions: &Regions) -> u32
    ensures { result ≡ heap_blocks regions.now }
{
    regions.counts / WORDS_IN_BLOCK
}

/// How many entries the remembered set has room for.
#[inline(always)]
pub(crate) fn remember_room(regions: &Regions) -> u64
    requires { regions.now.remembered ≤ regions.now.cursors }
    ensures { result ≡ remember_room regions.now }
{
    u64::from(regions.cursors - regions.remembered)
}
