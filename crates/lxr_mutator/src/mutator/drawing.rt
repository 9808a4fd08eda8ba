//! Drawing: where a new object is placed, and how it is made there.
ghost use Rattle.std.specs.Prelude.{◌≡◌, ◌+◌, ◌≤◌, ◌⊎◌, ◌<◌, ◌↔◌, false, length, IsTrue, Some, None, if◌then◌else◌};
ghost use Rattle.lxr_layout.specs.declared.TheConstants.{MOST_BLOCKS};
ghost use Rattle.lxr_layout.specs.Objects.{FitsShape};
ghost use Rattle.lxr_alloc.specs.Spans.{FitsSpan, IsMedium, front_of, run_span, taken_from};
ghost use Rattle.lxr_mutator.specs.Operating.{dest_of};
ghost use Rattle.lxr_mutator.specs.Mutating.{next_name, op_now, rests_in};
ghost use Rattle.lxr_mutator.specs.Steps.{after_in, done_with, draws_for, in_block, in_current, is_run, next_in, placed, run_in, shape_now, wiped, with_register};
ghost use Rattle.lxr_mutator.specs.Mutators.{IsBusy, NeedsBlock, NeedsRun};

use super::Mutator;
use crate::operating::dest_of;
use crate::phases::{MutatorPhase, Stop};
use lxr_alloc::Spans;
use lxr_graph::{Op, Reply};
use lxr_layout::{LINES_IN_BLOCK, MOST_BLOCKS, Place, Run, Shape, lines_of, words_of};

impl Mutator {
    /// Places a new object in its spans, or draws lines for it.
    #[inline(always)]
    #[tactic(auto, using(crate::proofs::NowLemmas::whole_words))]
    pub(super) fn place_object(&mut self, shape: Shape)
        requires phase { self.old.phase ≡ MutatorPhase.Ready }
        requires operation { length self.old.replies.items < length self.old.operations }
        requires shape { shape ≡ shape_now self.old }
        requires fits { FitsShape shape }
        ensures { self.new ≡ placed self.old shape }
    {
        self.words = words_of(shape);
        match self.spans.try_place(shape) {
            Some(place) => self.phase = MutatorPhase::Wiping { place, next: 1 },
            None => self.phase = draws_for(shape),
        }
    }

    /// The number of a run was drawn: the number of runs is loaded next.
    #[inline(always)]
    pub(super) fn draw_run(&mut self, number: u64)
        requires { IsBusy self.old MutatorPhase.DrawsRun }
        ensures { self.new ≡ next_in self.old MutatorPhase.DrawsRun number }
    {
        self.go_on(MutatorPhase::RunNumber { number });
    }

    /// The number of runs was loaded: the run is taken that was drawn, or a block where there is none of this number.
    #[inline(always)]
    pub(super) fn find_run(&mut self, number: u64, count: u64)
        requires { IsBusy self.old (MutatorPhase.RunNumber number) }
        ensures { self.new ≡ next_in self.old (MutatorPhase.RunNumber number) count }
    {
        if !fits_table(self.regions.runs, count, self.regions.frees) {
            self.reply(Reply::Bad);
        } else if number < count {
            self.go_on(MutatorPhase::Run { number });
        } else {
            self.go_on(MutatorPhase::DrawsBlock);
        }
    }

    /// A word of the run table was loaded: the object is placed at the front of its run.
    #[inline(always)]
    pub(super) fn fill_run(&mut self, number: u64, word: u64)
        requires { IsBusy self.old (MutatorPhase.Run number) }
        ensures { self.new ≡ next_in self.old (MutatorPhase.Run number) word }
    {
        match listed_run(word) {
            Some(run) => self.place_in_run(run),
            None => self.reply(Reply::Bad),
        }
    }

    /// Takes a run, and places the object at its front.
    #[inline(always)]
    fn place_in_run(&mut self, run: Run)
        requires turn { rests_in self.old.phase ≡ false }
        requires needs { NeedsRun self.old.spans (shape_now self.old) }
        requires run { IsTrue (is_run run) }
        ensures { self.new ≡ in_current self.old (shape_now self.old) (run_span run) }
    {
        let shape = self.shape();
        self.spans.take_run(run);
        let place = place_drawn(&mut self.spans, shape);
        self.words = words_of(shape);
        self.phase = MutatorPhase::Wiping { place, next: 1 };
    }

    /// The number of a free block was drawn: the number of free blocks is loaded next.
    #[inline(always)]
    pub(super) fn draw_block(&mut self, number: u64)
        requires { IsBusy self.old MutatorPhase.DrawsBlock }
        ensures { self.new ≡ next_in self.old MutatorPhase.DrawsBlock number }
    {
        self.go_on(MutatorPhase::BlockNumber { number });
    }

    /// The number of free blocks was loaded: the block is taken that was drawn, if there is one of this number.
    #[inline(always)]
    pub(super) fn find_block(&mut self, number: u64, count: u64)
        requires { IsBusy self.old (MutatorPhase.BlockNumber number) }
        ensures { self.new ≡ next_in self.old (MutatorPhase.BlockNumber number) count }
    {
        if !fits_table(self.regions.frees, count, self.regions.decs) {
            self.reply(Reply::Bad);
        } else if number < count {
            self.go_on(MutatorPhase::Block { number });
        } else {
            self.go_on(MutatorPhase::GivingUp(Stop::NoRun));
        }
    }

    /// The number of a free block was loaded: the object is placed at its front.
    #[inline(always)]
    pub(super) fn fill_block(&mut self, number: u64, block: u64)
        requires { IsBusy self.old (MutatorPhase.Block number) }
        ensures { self.new ≡ next_in self.old (MutatorPhase.Block number) block }
    {
        if block < u64::from(MOST_BLOCKS) {
            self.place_in_block(block as u32);
        } else {
            self.reply(Reply::Bad);
        }
    }

    /// Takes a block, and places the object at its front.
    #[inline(always)]
    fn place_in_block(&mut self, block: u32)
        requires turn { rests_in self.old.phase ≡ false }
        requires needs { NeedsBlock self.old.spans (shape_now self.old) }
        requires block { block < MOST_BLOCKS }
        ensures { self.new ≡ in_block self.old (shape_now self.old) block }
    {
        let shape = self.shape();
        self.spans.take_block(block, shape);
        let place = place_drawn(&mut self.spans, shape);
        self.words = words_of(shape);
        self.phase = MutatorPhase::Wiping { place, next: 1 };
    }

    /// A word of the new object was wiped.
    #[inline(always)]
    pub(super) fn wipe_word(&mut self, place: Place, next: u32)
        requires { IsBusy self.old (MutatorPhase.Wiping place next) }
        ensures { self.new ≡ wiped self.old place next }
    {
        let words = self.words;
        let next = next + 1;
        if next < words {
            let MutatorPhase::Wiping { next: word, .. } = &mut self.phase else {
                unreachable!()
            };
            *word = next;
        } else {
            self.go_on(MutatorPhase::Heading { place });
        }
    }

    /// The header of the new object was stored: the operation is done, and its register holds the place.
    #[inline(always)]
    pub(super) fn hand_out(&mut self, op: Op, place: Place)
        requires op { op ≡ op_now self.old }
        requires busy { IsBusy self.old (MutatorPhase.Heading place) }
        ensures { self.new ≡ done_with (with_register self.old (dest_of (op_now self.old)) place) (Reply.New (next_name self.old)) }
    {
        let name = self.next_name();
        self.set_register(dest_of(self.told_op(op)), place);
        self.reply(Reply::New(name));
    }
}

/// The run that a word of the run table tells; none where it tells no run of at least one line in a block.
#[inline(always)]
fn listed_run(word: u64) -> Option<Run>
    ensures { result ≡ (if is_run (run_in word) then Some (run_in word) else None) }
{
    let block = word >> 16;
    let line = word >> 8 & 0xff;
    let lines = word & 0xff;
    if block < u64::from(MOST_BLOCKS) && 1 <= lines && line + lines <= u64::from(LINES_IN_BLOCK) {
        Some(Run {
            block: block as u32,
            line: line as u8,
            lines: lines as u8,
        })
    } else {
        None
    }
}

/// Whether a table from one word to another has room for so many entries.
#[inline(always)]
fn fits_table(begin: u32, count: u64, end: u32) -> bool
    ensures { IsTrue result ↔ (begin + count ≤ end) }
{
    count <= u64::from(end) && u64::from(begin) + count <= u64::from(end)
}

/// What is drawn for an object that its thread's spans have no room for.
#[inline(always)]
fn draws_for(shape: Shape) -> MutatorPhase
    requires { FitsShape shape }
    ensures { result ≡ draws_for shape }
{
    if lines_of(shape) > 1 {
        MutatorPhase::DrawsBlock
    } else {
        MutatorPhase::DrawsRun
    }
}

/// Takes the front of what was just drawn, which fits the object.
#[inline(always)]
fn place_drawn(spans: &mut Spans, shape: Shape) -> Place
    requires shape { FitsShape shape }
    requires fits { FitsSpan spans.old.current shape ⊎ (IsMedium shape × FitsSpan spans.old.overflow shape) }
    ensures current { FitsSpan spans.old.current shape → (result ≡ front_of spans.old.current) × (spans.new ≡ record spans.old { current = taken_from spans.old.current shape }) }
    ensures overflow { ¬ FitsSpan spans.old.current shape → (result ≡ front_of spans.old.overflow) × (spans.new ≡ record spans.old { overflow = taken_from spans.old.overflow shape }) }
{
    match spans.try_place(shape) {
        Some(place) => place,
        None => unreachable!(),
    }
}
