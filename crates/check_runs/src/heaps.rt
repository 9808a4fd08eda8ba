//! What stands in the heap and in the remembered set, read off the words of a space.
use lxr_image::Space;
use lxr_layout::{COUNT_WORDS_IN_BLOCK, Header, Shape, unpack};
use lxr_tables::Words;
use std::alloc::{AllocError, Global};

/// The words of a block that stand before its start bits: those of the heap and the counts of its granules.
const WORDS_BEFORE_STARTS: usize = 4096 + COUNT_WORDS_IN_BLOCK as usize;

/// Then come four tables with a bit for each granule, one with a bit for each word, and the reuse counters of two lines in a word.
const WORDS_BEFORE_REUSE: usize = WORDS_BEFORE_STARTS + 4 * 32 + 64;

/// Then come two words of bits for a block's lines, and its state, which is 0 where all of them are free.
const WORDS_BEFORE_STATES: usize = WORDS_BEFORE_REUSE + 64 + 2;

/// A word of a space, or 0 behind its end.
pub fn word(space: &Space, at: usize) -> u64 {
    if at < space.words.count() {
        space.words.get(at)
    } else {
        0
    }
}

/// Whether an object begins at a granule.
fn begins(space: &Space, granule: u32) -> bool {
    let blocks = space.limits.blocks as usize;
    let bits = word(space, blocks * WORDS_BEFORE_STARTS + granule as usize / 64);
    granule / 2048 < space.limits.blocks && bits >> (granule % 64) & 1 == 1
}

/// Adds a line for the object at a granule: its place, its name, and its fields.
fn write_object(text: &mut String, space: &Space, granule: u32) -> Result<(), AllocError> {
    let place = granule as usize + 1;
    let first = 2 * granule as usize;
    match unpack(word(space, first)) {
        Header::Object(name, shape) => {
            write!(text, "{place} {}.{}", name.thread, name.serial)?;
            write_fields(text, space, first + 1, shape)?;
        }
        Header::Moved(_) => text.push_str("moved")?,
    }
    text.push_str("\n")
}

/// Adds each reference that isn't nil, and each datum that isn't 0, of the fields that begin at a word.
fn write_fields(
    text: &mut String,
    space: &Space,
    first: usize,
    shape: Shape,
) -> Result<(), AllocError> {
    let refs = usize::from(shape.refs);
    for index in 0..refs {
        write_field(text, index, ':', word(space, first.saturating_add(index)))?;
    }
    let behind = first.saturating_add(refs);
    for index in 0..usize::from(shape.values) {
        write_field(text, index, '=', word(space, behind.saturating_add(index)))?;
    }
    Ok(())
}

/// Adds what a field holds, unless that is 0.
fn write_field(text: &mut String, index: usize, sign: char, held: u64) -> Result<(), AllocError> {
    if held == 0 {
        return Ok(());
    }
    write!(text, " {index}{sign}{held}")
}

/// Adds a line for each object of the first sixteen blocks of a heap, in order of places.
fn write_heap(text: &mut String, space: &Space) -> Result<(), AllocError> {
    for granule in 0..16 * 2048 {
        if begins(space, granule) {
            write_object(text, space, granule)?;
        }
    }
    Ok(())
}

/// The objects of the first sixteen blocks of a heap.
pub fn heap_of(alloc: Global, space: &Space) -> Result<String, AllocError> {
    let mut text = String::new(alloc);
    write_heap(&mut text, space)?;
    Ok(text)
}

/// The word of an entry of the remembered set. The entries stand before the sixteen cursors, which are the last words of a space.
fn entry(space: &Space, number: usize) -> u64 {
    let behind = space.limits.remember as usize + 16;
    let first = space.words.count().saturating_sub(behind);
    word(space, first.saturating_add(number))
}

/// How often the line was handed out in which a word of the heap stands: a word has the counters of two lines.
fn reuse_of(space: &Space, at: usize) -> u64 {
    let line = at / 32;
    let blocks = space.limits.blocks as usize;
    let counters = word(space, blocks * WORDS_BEFORE_REUSE + line / 2);
    counters >> (32 * (line % 2)) & 0xffff_ffff
}

/// Whether the line in which a word of the heap stands has the counter of an entry.
fn age_of(space: &Space, entry: u64, at: usize) -> &'static str {
    if reuse_of(space, at) == entry >> 32 {
        "current"
    } else {
        "stale"
    }
}

/// A line for each of the first eight entries of the remembered set: the place and the index of the reference, and whether its line has
/// the entry's counter.
pub fn entries_of(alloc: Global, space: &Space) -> Result<String, AllocError> {
    let mut text = String::new(alloc);
    for number in 0..remembered(space).min(8) as usize {
        let entry = entry(space, number);
        let place = (entry >> 10 & 0x3f_ffff) as usize;
        let index = (entry & 0x3ff) as usize;
        let age = age_of(space, entry, 2 * place.saturating_sub(1) + 1 + index);
        write!(text, "{place}:{index} {age}\n")?;
    }
    Ok(text)
}

/// How many numbers of the remembered set were drawn since it was cleared, by the eighth of the cursors.
pub fn remembered(space: &Space) -> u64 {
    word(space, space.words.count().saturating_sub(16 - 7))
}

/// How many registers of a space hold something.
pub fn held_in(space: &Space) -> usize {
    space
        .registers
        .as_slice()
        .iter()
        .filter(|place| place.0 != 0)
        .count()
}

/// How many blocks of a space are free.
pub fn free_blocks(space: &Space) -> u32 {
    let blocks = space.limits.blocks as usize;
    let first = blocks * WORDS_BEFORE_STATES;
    let mut free = 0_u32;
    for block in 0..blocks {
        let state = word(space, first.saturating_add(block));
        free = free.saturating_add(u32::from(state == 0));
    }
    free
}

/// The words of the first block that aren't 0, each behind its number.
pub fn words_of(alloc: Global, space: &Space) -> Result<String, AllocError> {
    let mut text = String::new(alloc);
    for at in 0..4096_usize {
        write_word(&mut text, at, word(space, at))?;
    }
    Ok(text)
}

fn write_word(text: &mut String, at: usize, value: u64) -> Result<(), AllocError> {
    if value == 0 {
        return Ok(());
    }
    write!(text, "{at} {value}\n")
}
