//! Names, shapes and places of objects, and the words that hold them.
//!
//! A heap is cut into blocks of 32 KB, a block into 128 lines of 256 bytes, a line into 16 granules of two
//! 8-byte words (blocks and lines are those of Immix: Blackburn and McKinley, 2008). An object begins at a
//! granule with a header word that packs its name and shape. Nothing here knows of a heap's content.
#![tactic(auto)]

ghost use Rattle.std.specs.Prelude.{◌≡◌, ◌↔◌, ◌<◌, ◌≤◌, IsTrue, length, take};
ghost use Rattle.lxr_layout.specs.Objects.{FitsShape, header_of, header_word, line_count, moved_word, word_count};
ghost use Rattle.lxr_layout.specs.Places.{IsPlace, block_at, field_word as field_at, first_word, granule_of, line_at, place_at};

mod fields;
mod laws;
mod limits;
mod runs;
mod spaces;

pub use fields::MOST_FIELDS;
pub use laws::constants_have_numbers;
pub use limits::{Limits, Regions};
pub use runs::{LogEntry, Run, entry_of, entry_word, kept_counter, run_of, run_word};
pub use spaces::regions;

/// The registers of a thread, whose names are bytes. How many of them a thread of a heap may name is one of its limits.
pub const REGISTERS: usize = 256;

/// The fewest registers that a thread of a heap may name.
pub const LEAST_REGISTERS: u16 = 16;

/// The words of a block of 32 KB.
pub const WORDS_IN_BLOCK: u32 = 4096;

/// The granules of a block.
pub const GRANULES_IN_BLOCK: u32 = 2048;

/// The lines of a block.
pub const LINES_IN_BLOCK: u32 = 128;

/// The words of a line of 256 bytes.
pub const WORDS_IN_LINE: u32 = 32;

/// The granules of a line.
pub const GRANULES_IN_LINE: u32 = 16;

/// The most blocks of a heap: 2 GB of them.
pub const MOST_BLOCKS: u32 = 65_536;

/// The granules of the largest heap, and so the greatest place.
pub const MOST_GRANULES: u32 = MOST_BLOCKS * GRANULES_IN_BLOCK;

/// The words of the largest heap.
pub const MOST_WORDS: u32 = MOST_BLOCKS * WORDS_IN_BLOCK;

/// The most blocks of a small heap: a remembered entry has 22 bits for a place of one, and 28 for a place of a larger heap.
pub const MOST_BLOCKS_OF_SMALL: u32 = 1024;

/// The lines that the world takes, which stands at the front of block 0.
pub const WORLD_LINES: u32 = 3;

/// The references of the world, which has no data words.
pub const WORLD_REFS: u16 = 64;

/// The cursor that is 1 while a pause is asked for, else 0.
pub const PAUSE_WORD: u32 = 0;

/// The cursor that counts how often a number of the table of runs was drawn in this epoch.
pub const RUN_CURSOR: u32 = 1;

/// The cursor that tells how many runs are listed.
pub const RUN_COUNT: u32 = 2;

/// The cursor that counts how often a number of the table of free blocks was drawn in this epoch.
pub const FREE_BLOCK_CURSOR: u32 = 3;

/// The cursor that tells how many free blocks are listed.
pub const FREE_BLOCK_COUNT: u32 = 4;

/// The cursor that counts how often a number of the list of decrements was drawn.
pub const DECREMENT_CURSOR: u32 = 5;

/// The cursor that tells how many decrements wait in their list.
pub const DECREMENT_COUNT: u32 = 6;

/// The cursor that counts how often a number of the remembered set was drawn since the trace began.
pub const REMEMBERED_CURSOR: u32 = 7;

/// The cursor that is 1 while a trace runs, else 0.
pub const TRACING_WORD: u32 = 8;

/// The bits of a reference count in its table. This number alone decides how large counts become and how many words they
/// take; with four bits the counts of a line fill one word.
pub const COUNT_BITS: u32 = 4;

/// The words of a block's reference counts.
pub const COUNT_WORDS_IN_BLOCK: u32 = GRANULES_IN_BLOCK * COUNT_BITS / 64;

/// The greatest count, at which an object is stuck: it is neither raised nor lowered from then on, and only a trace
/// reclaims its object.
pub const STUCK: u8 = (1 << COUNT_BITS) - 1;

/// Where an object begins: the index of its first granule in the heap, plus 1. 0 is nil.
#[derive(Clone, Copy, Debug, PartialEq, Eq)]
pub struct Place(pub u32);

impl Place {
    /// The place of nothing.
    pub const NIL: Place = Place(0);
}

/// Writes the first of some places over others, as many as these are. One is written without a call: most threads of a heap for many hold the world
/// alone.
#[inline(always)]
pub fn copy_places(to: &mut [Place], from: &[Place])
    requires { length to.old ≤ length from.now }
    ensures { to.new ≡ take (length to.old) from.now }
{
    let count = to.len();
    if count == 1 {
        to[0] = from[0];
    } else {
        to.copy_from_slice(&from[..count]);
    }
}

/// How many references and how many data words an object has.
#[derive(Clone, Copy, Debug, PartialEq, Eq)]
pub struct Shape {
    pub refs: u16,
    pub values: u16,
}

/// What an object is called for good: the thread that made it, and its number among that thread's objects.
#[derive(Clone, Copy, Debug, PartialEq, Eq, PartialOrd, Ord)]
pub struct Name {
    pub thread: u8,
    pub serial: u32,
}

/// What an object's first word says.
#[derive(Clone, Copy, Debug, PartialEq, Eq)]
pub enum Header {
    /// An object of this name and shape begins here.
    Object(Name, Shape),
    /// The object that began here begins at this place now.
    Moved(Place),
}

/// Whether an object of this shape can be made: at most [`MOST_FIELDS`] references and at most as many data words.
pub fn fits_shape(shape: Shape) -> bool
    ensures { IsTrue result ↔ FitsShape shape }
{
    shape.refs <= MOST_FIELDS && shape.values <= MOST_FIELDS
}

/// The words of an object with its header, rounded up to an even number.
pub fn words_of(shape: Shape) -> u32
    requires { FitsShape shape }
    ensures { result ≡ word_count shape }
{
    (1 + u32::from(shape.refs) + u32::from(shape.values) + 1) / 2 * 2
}

/// The lines of 32 words that an object needs when it begins at the front of a line.
pub fn lines_of(shape: Shape) -> u32
    requires { FitsShape shape }
    ensures { result ≡ line_count shape }
{
    words_of(shape).div_ceil(WORDS_IN_LINE)
}

/// The header word of an object.
pub fn pack(name: Name, shape: Shape) -> u64
    requires { FitsShape shape }
    ensures word { result ≡ header_word name shape }
    // `unpack` gives the name and the shape again.
    ensures unpacked { header_of result ≡ Header.Object name shape }
{
    let values = u64::from(shape.values);
    let refs = u64::from(shape.refs) << 10;
    let serial = u64::from(name.serial) << 20;
    let thread = u64::from(name.thread) << 52;
    values | refs | serial | thread
}

/// The word that is left where an object stood, once it was moved to a place.
pub fn pack_moved(place: Place) -> u64
    ensures word { result ≡ moved_word place.0 }
    // `unpack` gives the place again.
    ensures unpacked { header_of result ≡ Header.Moved place }
{
    1 << 63 | u64::from(place.0)
}

/// What a header word says.
pub fn unpack(word: u64) -> Header
    ensures { result ≡ header_of word }
{
    if word >> 63 == 1 {
        return Header::Moved(Place((word & 0xffff_ffff) as u32));
    }
    let name = Name {
        thread: (word >> 52 & 0xff) as u8,
        serial: (word >> 20 & 0xffff_ffff) as u32,
    };
    let shape = Shape {
        refs: (word >> 10 & 0x3ff) as u16,
        values: (word & 0x3ff) as u16,
    };
    Header::Object(name, shape)
}

/// The granule of a place, counted over the whole heap: granules count from 0, places from 1.
#[inline(always)]
pub fn granule_of(place: Place) -> u32
    requires { 1 ≤ place.0 }
    ensures { result ≡ granule_of place.0 }
{
    place.0 - 1
}

/// The place of a granule.
#[inline(always)]
pub fn place_at(granule: u32) -> Place
    requires { granule < u32.MAX }
    ensures { result ≡ place_at granule }
{
    Place(granule + 1)
}

/// The heap word at which a place begins.
pub fn word_of(place: Place) -> u32
    requires { IsPlace place }
    ensures { result ≡ first_word place.0 }
{
    2 * granule_of(place)
}

/// The heap word of a reference of the object at a place.
pub fn field_word(place: Place, index: u16) -> u32
    requires { IsPlace place }
    ensures { result ≡ field_at place.0 index }
{
    word_of(place) + 1 + u32::from(index)
}

/// The line of a place, counted over the whole heap.
pub fn line_of(place: Place) -> u32
    requires { IsPlace place }
    ensures { result ≡ line_at place.0 }
{
    granule_of(place) / GRANULES_IN_LINE
}

/// The block of a place.
pub fn block_of(place: Place) -> u32
    requires { IsPlace place }
    ensures { result ≡ block_at place.0 }
{
    granule_of(place) / GRANULES_IN_BLOCK
}
