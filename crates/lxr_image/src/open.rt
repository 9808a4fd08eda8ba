//! Empty spaces, and how a space is opened.
//!
//! A space takes all its memory when it is opened: the room of its words and of its lists, of which nothing is written, and what is known of
//! lines, 18 bytes a block. Then the world is placed and the blocks are listed, a word each.
ghost use Rattle.std.specs.Prelude.{◌≡◌, ◌+◌, ◌*◌, ◌^◌, ◌≤◌, ◌++◌, ◌↔◌, [], IfOk, IsTrue, OnErr, OnOk, length, map};
ghost use Rattle.lxr_image.specs.Image.{IsOpeningImage};
ghost use Rattle.lxr_image.specs.Opened.{HasReportRoom, IsBlank, IsNew, IsOpened, cleared_tables, no_tally, with_blocks, with_world};
ghost use Rattle.lxr_image.specs.Reads.{StartsStandWhole};
ghost use Rattle.lxr_image.specs.Spaces.{IsSpace, Turns, tables_of};
ghost use Rattle.lxr_layout.specs.declared.TheConstants.{MOST_GRANULES};
ghost use Rattle.lxr_layout.specs.Spaces.{AreLimits, all_regions, region_begin};

use crate::{HeapWords, RegisterFile, Space, Tally};
use lxr_base::{Chronicle, Listed};
use lxr_graph::{Kind, Names, Report};
use lxr_layout::{
    FREE_BLOCK_COUNT, GRANULES_IN_BLOCK, GRANULES_IN_LINE, LINES_IN_BLOCK, Limits, Name, RUN_COUNT,
    Run, STUCK, Shape, WORLD_LINES, WORLD_REFS, pack, run_word,
};
use lxr_tables::Words;
use std::alloc::{AllocError, Global};

/// The state of the block in which the world lies.
pub const WORLD_STATE: u64 = 4;

/// The tally of a space in which nothing was done.
pub const NO_TALLY: Tally = Tally {
    news: 0,
    loads: 0,
    stores: 0,
    logs: 0,
    pauses: 0,
    moved: 0,
    kept: 0,
};

/// The report of no pause, with room for what a pause of so many granules can report.
fn blank_report(alloc: Global, granules: usize) -> Result<Report, AllocError>
    requires { granules ≤ MOST_GRANULES }
    ensures blank { IfOk result (λ report. IsBlank report) }
    ensures room { IfOk result (λ report. HasReportRoom report granules) }
{
    Ok(Report {
        number: 0,
        kind: Kind::Plain,
        promoted: Names::with_room(alloc, granules)?,
        dead: Names::with_room(alloc, 2 * granules)?,
        stuck: Names::with_room(alloc, granules)?,
        swept: Names::with_room(alloc, granules)?,
        counts: Chronicle::new(),
        told: Listed::with_room(alloc, granules)?,
    })
}

impl Space {
    /// A space with no words. It takes no memory.
    pub fn empty(alloc: Global) -> Space
        ensures words { result.words ≡ [] }
        ensures registers { (result.registers.items ≡ []) × (result.deferred.items ≡ []) }
        ensures lists { (result.logged.items ≡ []) × (result.work.items ≡ []) }
        ensures report { IsBlank result.report }
        ensures tally { result.tally ≡ no_tally }
        ensures pauses { (result.pauses ≡ 0) × (result.trace ≡ None) }
        ensures rest { (result.rest_next ≡ 0) × (result.rest_end ≡ 0) }
    {
        Space {
            words: HeapWords::empty(alloc),
            limits: Limits {
                blocks: 0,
                threads: 0,
                log: 0,
                remember: 0,
                registers: 0,
                evacuate: 0,
            },
            registers: RegisterFile::empty(alloc),
            deferred: RegisterFile::empty(alloc),
            logged: Listed::new(alloc),
            work: Listed::new(alloc),
            report: Report {
                number: 0,
                kind: Kind::Plain,
                promoted: Names::new(alloc),
                dead: Names::new(alloc),
                stuck: Names::new(alloc),
                swept: Names::new(alloc),
                counts: Chronicle::new(),
                told: Listed::new(alloc),
            },
            tally: NO_TALLY,
            pauses: 0,
            trace: None,
            rest_next: 0,
            rest_end: 0,
        }
    }

    /// Whether there are no words.
    pub fn is_empty(&self) -> bool
        ensures { IsTrue result ↔ (self.now.words ≡ []) }
    {
        self.words.count() == 0
    }

    /// What was done since the space was opened.
    pub fn tally(&self) -> Tally
        ensures { result ≡ self.now.tally }
    {
        self.tally
    }

    /// Takes the memory of a space of these limits: the image of the graph with the world alone, with r0 of each
    /// thread holding the world. Where there is no memory, the space stays empty.
    pub fn open(&mut self, alloc: Global, limits: Limits) -> Result<(), AllocError>
        requires empty { self.old.words ≡ [] }
        requires limits { AreLimits limits }
        ensures opened { OnOk result (IsOpened self.new limits) }
        ensures space { OnOk result (IsSpace self.new) }
        ensures image { OnOk result (IsOpeningImage self.new) }
        ensures starts { OnOk result (StartsStandWhole (tables_of self.new) self.new.limits.blocks) }
        ensures refused { OnErr result (self.new.words ≡ []) }
    {
        *self = Space::with_room(alloc, limits)?;
        self.place_world();
        self.list_blocks();
        Ok(())
    }

    /// A space of these limits in which all words are 0.
    fn with_room(alloc: Global, limits: Limits) -> Result<Space, AllocError>
        requires { AreLimits limits }
        ensures { IfOk result (λ space. IsNew space limits (cleared_tables (region_begin limits all_regions))) }
    {
        let granules = (GRANULES_IN_BLOCK * limits.blocks) as usize;
        Ok(Space {
            words: HeapWords::new(alloc, limits)?,
            limits,
            registers: RegisterFile::open(alloc, limits.threads, limits.registers)?,
            deferred: RegisterFile::open(alloc, limits.threads, limits.registers)?,
            logged: Listed::with_room(alloc, usize::from(limits.threads) * limits.log as usize)?,
            work: Listed::with_room(alloc, granules)?,
            report: blank_report(alloc, granules)?,
            tally: NO_TALLY,
            pauses: 0,
            trace: None,
            rest_next: 0,
            rest_end: 0,
        })
    }

    /// Puts the world on the first three lines of the heap.
    fn place_world(&mut self)
        requires { IsSpace self.old }
        ensures { Turns self.old self.new (with_world (tables_of self.old)) }
    {
        let name = Name {
            thread: 0,
            serial: 0,
        };
        let shape = Shape {
            refs: WORLD_REFS,
            values: 0,
        };
        self.put_heap(0, pack(name, shape));
        self.set_start(0);
        self.set_count(0, STUCK);
        self.set_count(GRANULES_IN_LINE, STUCK);
        self.set_count(2 * GRANULES_IN_LINE, STUCK);
        for at in 1..1 + u32::from(WORLD_REFS) {
            self.set_unlogged(at);
        }
    }

    /// Lists what the world's block has free, and the other blocks.
    fn list_blocks(&mut self)
        requires { IsSpace self.old }
        ensures { Turns self.old self.new (with_blocks self.old.limits.blocks (tables_of self.old)) }
    {
        let run = Run {
            block: 0,
            line: WORLD_LINES as u8,
            lines: (LINES_IN_BLOCK - WORLD_LINES) as u8,
        };
        self.put_state(0, WORLD_STATE);
        self.put_run(0, run_word(run));
        for block in 1..self.limits.blocks {
            self.put_free(block - 1, u64::from(block));
        }
        self.put_cursor(RUN_COUNT, 1);
        self.put_cursor(FREE_BLOCK_COUNT, u64::from(self.limits.blocks - 1));
    }
}
