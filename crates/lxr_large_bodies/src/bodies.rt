//! Bodies by name.
ghost use Rattle.std.specs.Prelude.{◌≡◌, ℕ, ◌+◌, ◌*◌, ◌≤◌, IfOk, IfNone, IfSome, None, List, length, map, take, drop, is_some, if◌then◌else◌, slice_set, unwrap_or, vec_capacity};
ghost use Rattle.lxr_layout.specs.declared.TheConstants.{MOST_BLOCKS};
ghost use Rattle.lxr_layout.specs.declared.Name.{Name as NameOf};
ghost use Rattle.lxr_graph.specs.History.{report_of};
ghost use Rattle.lxr_large_model.specs.declared.TheConstants.{MOST_BODY_BLOCKS};
ghost use Rattle.lxr_large_model.specs.Renewing.{AreCounted};
ghost use Rattle.lxr_large_bodies.specs.Bodies.{AreAmong, IsFreeRun, blocks_held, blocks_in, body_of, fresh, left_by, no_bodies, overwritten, range_at, renamed, word_at, with_placed, with_words};
ghost use Rattle.lxr_large_bodies.specs.Entries.{ClearsBlocks};

use crate::blocks::{free_count, free_run, take_run};
use crate::entries::{Entry, drop_unsettled, find, insert, rename, settle, start_of, take_all};
use lxr_graph::{Count, Report};
use lxr_layout::{Name, WORDS_IN_BLOCK};
use std::alloc::{AllocError, Global};
use std::marker::Model;

/// The bodies of large objects, in blocks of 4,096 words. Its memory is reserved when it is opened, and written where bodies are placed.
#[derive(Drop)]
pub struct Bodies {
    /// A body each, in order of names.
    entries: Vec<Entry>,
    /// Whether each block is one of a body.
    taken: Vec<bool>,
    /// The words of the blocks, up to the last that was ever one of a body.
    words: Vec<u64>,
}

impl Model for Bodies {
    ghost use Rattle.std.specs.Prelude.{length, map, vec_capacity};
    ghost use Rattle.lxr_large_bodies.specs.Bodies.{Held};
    ghost use Rattle.lxr_large_bodies.specs.Entries.{AreBodies, body_at};

    ghost Value = { Held };

    ghost view = { λ b. record { blocks = length b.taken.items; bodies = map (body_at b.words.items) b.entries.items } };

    ghost invariant = { λ b. AreBodies b.entries.items (vec_capacity b.entries) b.taken.items b.words.items (vec_capacity b.words) };
}

/// Writes zeros to so many blocks of words from one on.
fn clear_blocks(words: &mut Vec<u64>, first: u32, blocks: u32)
    requires room { 4096 * (first + blocks) ≤ vec_capacity words.old }
    requires few { first + blocks ≤ 65536 }
    ensures cleared { ClearsBlocks words.old.items words.new.items first blocks }
    ensures capacity { vec_capacity words.new ≡ vec_capacity words.old }
{
    let from = WORDS_IN_BLOCK as usize * first as usize;
    let end = from + WORDS_IN_BLOCK as usize * blocks as usize;
    while words.len() < end {
        words.push_reserved(0);
    }
    words[from..end].fill(0);
}

/// Reads as many words as there is room for, from one on.
fn read_at(words: &[u64], at: usize, into: &mut [u64])
    requires { at + length into.old ≤ length words.now }
    ensures { into.new ≡ take (length into.old) (drop at words.now) }
{
    into.copy_from_slice(&words[at..at + into.len()]);
}

/// Writes words over others, from one on.
fn write_at(words: &mut Vec<u64>, at: usize, from: &[u64])
    requires { at + length from.now ≤ length words.old.items }
    ensures items { words.new.items ≡ overwritten at from.now words.old.items }
    ensures capacity { vec_capacity words.new ≡ vec_capacity words.old }
{
    words[at..at + from.len()].copy_from_slice(from);
}

impl Bodies {
    /// No body, in so many blocks: 1 to 65,536. All memory is reserved here.
    pub fn open(alloc: Global, blocks: u32) -> Result<Bodies, AllocError>
        requires { (1 ≤ blocks) × (blocks ≤ MOST_BLOCKS) }
        ensures { IfOk result (λ bodies. bodies ≡ no_bodies blocks) }
    {
        let count = blocks as usize;
        Ok(Bodies {
            entries: Vec::with_capacity(alloc, count)?,
            taken: vec![in alloc; false; count]?,
            words: Vec::with_capacity(alloc, WORDS_IN_BLOCK as usize * count)?,
        })
    }

    /// The first block of a run of so many free blocks; none exactly where there is no such run.
    pub fn free_run(&self, blocks: u32) -> Option<u32>
        requires { 1 ≤ blocks }
        ensures none { IfNone result ((first : ℕ) → IsFreeRun self.now first blocks → ⊥) }
        ensures run { IfSome result (λ first. IsFreeRun self.now first blocks) }
    {
        free_run(&self.taken, blocks)
    }

    /// Places a body of so many blocks, 1 to 128, for a name that has none: zeros, in blocks that are free.
    pub fn place(&mut self, name: Name, first: u32, blocks: u32)
        requires name { body_of self.old.bodies name ≡ None }
        requires blocks { (1 ≤ blocks) × (blocks ≤ MOST_BODY_BLOCKS) }
        requires run { IsFreeRun self.old first blocks }
        ensures { self.new ≡ record self.old { bodies = with_placed self.old.bodies (fresh name first blocks) } }
    {
        let entry = Entry {
            name,
            first,
            blocks,
            settled: false,
        };
        take_run(&mut self.taken, first, blocks);
        clear_blocks(&mut self.words, first, blocks);
        insert(&mut self.entries, entry);
    }

    /// How many blocks the body of a name has; 0 where it has none.
    #[inline(always)]
    pub fn blocks_of(&self, name: Name) -> u32
        ensures { result ≡ blocks_in (body_of self.now.bodies name) }
    {
        match find(&self.entries, name) {
            None => 0,
            Some(entry) => entry.blocks,
        }
    }

    /// How many blocks are free.
    pub fn free_blocks(&self) -> u32
        ensures { result + blocks_held self.now.bodies ≡ self.now.blocks }
    {
        free_count(&self.taken)
    }

    /// A word of the body of a name; none exactly where no body of that name has it.
    #[inline(always)]
    pub fn word(&self, name: Name, index: u32) -> Option<u64>
        ensures { result ≡ word_at self.now.bodies name index }
    {
        let at = start_of(&self.entries, name, index, 1)?;
        Some(self.words[at])
    }

    /// Writes a word of the body of a name. Whether a body of that name has it; where none has, nothing changes.
    #[inline(always)]
    pub fn set_word(&mut self, name: Name, index: u32, value: u64) -> bool
        ensures found { result ≡ is_some (word_at self.old.bodies name index) }
        ensures written { self.new ≡ (if result then (record self.old { bodies = with_words self.old.bodies name (λ words. slice_set words index value) }) else self.old) }
    {
        match start_of(&self.entries, name, index, 1) {
            None => false,
            Some(at) => {
                self.words[at] = value;
                true
            }
        }
    }

    /// Reads the words of the body of a name from one of an index on, as many as there is room for. Whether a body of that name has
    /// them all; where none has, nothing is read.
    pub fn read(&self, name: Name, index: u32, into: &mut [u64]) -> bool
        ensures found { result ≡ is_some (range_at self.now.bodies name index (length into.old)) }
        ensures read { into.new ≡ unwrap_or (range_at self.now.bodies name index (length into.old)) into.old }
    {
        match start_of(&self.entries, name, index, into.len()) {
            None => false,
            Some(at) => {
                read_at(&self.words, at, into);
                true
            }
        }
    }

    /// Writes words over those of the body of a name, from one of an index on. Whether a body of that name has so many there; where
    /// none has, nothing changes.
    pub fn write(&mut self, name: Name, index: u32, from: &[u64]) -> bool
        ensures found { result ≡ is_some (range_at self.old.bodies name index (length from.now)) }
        ensures written { self.new ≡ (if result then (record self.old { bodies = with_words self.old.bodies name (overwritten index from.now) }) else self.old) }
    {
        match start_of(&self.entries, name, index, from.len()) {
            None => false,
            Some(at) => {
                write_at(&mut self.words, at, from);
                true
            }
        }
    }

    /// Drops the bodies that a pause doesn't leave: each one that was placed since the pause before and whose name isn't promoted, and
    /// each one whose name is dead or swept. The others stay, and are as old as the pause.
    pub fn after_pause(&mut self, report: &Report)
        ensures { self.new ≡ record self.old { bodies = left_by (report_of report.now) self.old.bodies } }
    {
        settle(&mut self.entries, report.promoted.found(), true);
        settle(&mut self.entries, report.dead.found(), false);
        settle(&mut self.entries, report.swept.found(), false);
        drop_unsettled(&mut self.entries);
        take_all(&mut self.taken, &self.entries);
    }
    /// Gives each body the new name of its object, where names are renewed, by the counts of all that is left. Bodies stay where they are, and in
    /// their order. It takes no memory.
    pub fn renew(&mut self, counts: &[Count])
        requires counts { (ns : List NameOf) × AreCounted counts.now ns }
        requires among { AreAmong counts.now self.old.bodies }
        ensures { (ns : List NameOf) → AreCounted counts.now ns → self.new ≡ record self.old { bodies = map (renamed ns) self.old.bodies } }
    {
        rename(&mut self.entries, counts);
    }
}
