//! Bump allocation within spans of free granules.
//!
//! A mutator draws runs of free lines and whole free blocks, and places new objects in them from the front,
//! without a further atomic step. As in Immix (Blackburn and McKinley, 2008) it has two spans: the current one,
//! and an overflow span, so that an object of several lines need not give up a short run that small objects
//! still fit. Contracts name granules of two words; an object's place is its first granule plus 1.
#![tactic(auto)]

ghost use Rattle.std.specs.Prelude.{◌≡◌, ◌↔◌, ◌<◌, ◌≤◌, IfNone, IfSome, IsNone, IsTrue, Some};
ghost use Rattle.lxr_layout.specs.declared.TheConstants.{MOST_BLOCKS};
ghost use Rattle.lxr_layout.specs.Objects.{FitsShape, line_count};
ghost use Rattle.lxr_alloc.specs.Spans.{FitsSpan, IsInBlock, IsMedium, block_span, empty_span, front_of, granule_count, rest_of, run_span, taken_from};

use lxr_layout::{
    GRANULES_IN_BLOCK, GRANULES_IN_LINE, Place, Run, Shape, lines_of, place_at, words_of,
};

/// The most operations that a thread has, and so the most objects that it makes: counts over all threads and serials of names stay
/// below 2^32.
pub const MOST_OPERATIONS: u32 = 67_108_864;

/// Granules in a row that one mutator may fill, from `next` up to `end`, which is not among them.
#[derive(Clone, Copy, Debug, PartialEq, Eq)]
pub struct Span {
    /// The first free granule, counted from 0 over the whole heap.
    pub next: u32,
    /// The granule behind the last.
    pub end: u32,
}

/// What a mutator has drawn and not yet filled.
#[derive(Clone, Copy, Debug, PartialEq, Eq)]
pub struct Spans {
    /// Objects of every shape are tried here first.
    pub current: Span,
    /// Objects of more than one line that don't fit `current`.
    pub overflow: Span,
}

impl Span {
    /// No granules.
    #[inline(always)]
    pub fn empty() -> Span
        ensures { result ≡ empty_span }
    {
        Span { next: 0, end: 0 }
    }

    /// The granules of a run of lines.
    pub fn of_run(run: Run) -> Span
        requires { IsInBlock run }
        ensures { result ≡ run_span run }
    {
        let next = GRANULES_IN_BLOCK * run.block + GRANULES_IN_LINE * u32::from(run.line);
        Span {
            next,
            end: next + GRANULES_IN_LINE * u32::from(run.lines),
        }
    }

    /// Takes the front for an object of this shape; none where the rest is too short.
    #[inline(always)]
    pub fn bump(&mut self, shape: Shape) -> Option<Place>
        requires { FitsShape shape }
        ensures none { IsNone result ↔ (rest_of self.old < granule_count shape) }
        ensures unchanged { IfNone result (self.new ≡ self.old) }
        ensures place { IfSome result (λ place. place ≡ front_of self.old) }
        ensures taken { IfSome result (λ _. self.new ≡ taken_from self.old shape) }
    {
        let granules = words_of(shape) / 2;
        if self.end.saturating_sub(self.next) < granules {
            return None;
        }
        let place = place_at(self.next);
        self.next += granules;
        Some(place)
    }
}

impl Spans {
    /// Takes the front of `current` for an object of this shape, or, where that is too short and the object has
    /// more than one line, the front of `overflow`; none where these are too short.
    #[inline(always)]
    pub fn try_place(&mut self, shape: Shape) -> Option<Place>
        requires { FitsShape shape }
        ensures none { IsNone result ↔ (¬ FitsSpan self.old.current shape × (IsMedium shape → ¬ FitsSpan self.old.overflow shape)) }
        ensures unchanged { IfNone result (self.new ≡ self.old) }
        ensures current { FitsSpan self.old.current shape → (result ≡ Some (front_of self.old.current)) × (self.new ≡ record self.old { current = taken_from self.old.current shape }) }
        ensures overflow { ¬ FitsSpan self.old.current shape → IfSome result (λ place. (place ≡ front_of self.old.overflow) × (self.new ≡ record self.old { overflow = taken_from self.old.overflow shape })) }
    {
        if let Some(place) = self.current.bump(shape) {
            return Some(place);
        }
        if is_medium(shape) {
            self.overflow.bump(shape)
        } else {
            None
        }
    }

    /// The run becomes `current`; a shape of at most its lines fits it.
    pub fn take_run(&mut self, run: Run)
        requires { IsInBlock run }
        ensures run { self.new ≡ record self.old { current = run_span run } }
        ensures fits { (shape : Shape) → line_count shape ≤ run.lines → FitsSpan self.new.current shape }
    {
        self.current = Span::of_run(run);
    }

    /// The whole block becomes `overflow` for a shape of more than one line, else `current`.
    pub fn take_block(&mut self, block: u32, shape: Shape)
        requires block { block < MOST_BLOCKS }
        requires shape { FitsShape shape }
        ensures medium { IsMedium shape → self.new ≡ record self.old { overflow = block_span block } }
        ensures small { ¬ IsMedium shape → self.new ≡ record self.old { current = block_span block } }
    {
        let span = Span {
            next: GRANULES_IN_BLOCK * block,
            end: GRANULES_IN_BLOCK * (block + 1),
        };
        if is_medium(shape) {
            self.overflow = span;
        } else {
            self.current = span;
        }
    }
}

/// Whether an object of this shape has more than one line.
#[inline(always)]
fn is_medium(shape: Shape) -> bool
    requires { FitsShape shape }
    ensures { IsTrue result ↔ IsMedium shape }
{
    lines_of(shape) > 1
}
