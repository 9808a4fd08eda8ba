//! Placing an object in a pause, one at a time.
ghost use Rattle.std.specs.Prelude.{◌≡◌, ◌≢◌, ℕ, ◌+◌, ◌-◌, ◌*◌, ◌/◌, ◌<◌, ◌≤◌, ◌↔◌, IfNone, IfSome, IsNone};
ghost use Rattle.lxr_layout.specs.declared.TheConstants.{GRANULES_IN_BLOCK, GRANULES_IN_LINE, LINES_IN_BLOCK};
ghost use Rattle.lxr_layout.specs.declared.runs.Run.{Run};
ghost use Rattle.lxr_layout.specs.Objects.{FitsShape, line_count, word_count};
ghost use Rattle.lxr_layout.specs.Places.{place_at};
ghost use Rattle.lxr_image.specs.Spaces.{IsSpace, Turns, tables_of};
ghost use Rattle.lxr_blocks.specs.Lines.{IsFreeRun, free_in};
ghost use Rattle.lxr_blocks.specs.Listing.{TurnsWithRest};
ghost use Rattle.lxr_blocks.specs.Handing.{handed_out};
ghost use Rattle.lxr_blocks.specs.Masks.{IsMask};
ghost use Rattle.lxr_blocks.specs.Placing.{IsFirstFit, IsFull, IsPlaced, IsRest, first_granule, granule_count, search_begin, with_object};
ghost use Rattle.lxr_blocks.specs.States.{IsOpenRun};

use crate::handing::hand_out_of;
use crate::masks::{counted_mask, known_mask, run_starts};
use crate::skipping::may_have;
use crate::states::{BlockState, state};
use lxr_image::Space;
use lxr_layout::{
    GRANULES_IN_BLOCK, GRANULES_IN_LINE, LINES_IN_BLOCK, Name, Place, Run, Shape, lines_of, pack,
    place_at, words_of,
};

/// From how many lines on a few lines of a block are looked at before all are.
const LONG: u8 = 24;

/// Free lines in a row, and all the free lines of their block.
#[derive(Clone, Copy)]
struct Fit {
    run: Run,
    free: u128,
}

/// The free lines of a block. None where a few of its lines tell that it has not so many in a row.
fn searched_mask(space: &Space, block: u32, lines: u8) -> Option<u128>
    requires space { IsSpace space.now }
    requires block { block < space.now.limits.blocks }
    ensures none { IfNone result ((q : Run) → IsFreeRun (tables_of space.now) space.now.limits.blocks q → q.block ≡ block → q.lines < lines) }
    ensures free { IfSome result (λ free. IsMask free (free_in (tables_of space.now) block)) }
{
    if let Some(mask) = known_mask(space, block) {
        return Some(mask);
    }
    if lines >= LONG && !may_have(space, block, lines) {
        return None;
    }
    Some(counted_mask(space, block))
}

/// The first so many free lines in a row of a block.
fn fit_in(space: &Space, block: u32, lines: u8) -> Option<Fit>
    requires space { IsSpace space.now }
    requires block { block < space.now.limits.blocks }
    requires lines { (1 ≤ lines) × (lines ≤ LINES_IN_BLOCK) }
    ensures none { IfNone result ((q : Run) → IsFreeRun (tables_of space.now) space.now.limits.blocks q → q.block ≡ block → q.lines < lines) }
    ensures run { IfSome result (λ fit. IsFreeRun (tables_of space.now) space.now.limits.blocks fit.run × (fit.run.block ≡ block) × (fit.run.lines ≡ lines)) }
    ensures first { IfSome result (λ fit. (q : Run) → IsFreeRun (tables_of space.now) space.now.limits.blocks q → q.block ≡ block → q.lines ≡ lines → fit.run.line ≤ q.line) }
    ensures free { IfSome result (λ fit. IsMask fit.free (free_in (tables_of space.now) fit.run.block)) }
{
    let free = searched_mask(space, block, lines)?;
    let starts = run_starts(free, lines);
    if starts == 0 {
        return None;
    }
    let run = Run {
        block,
        line: starts.trailing_zeros() as u8,
        lines,
    };
    Some(Fit { run, free })
}

/// The first so many free lines in a row of a block that isn't Chosen.
fn fit_outside(space: &Space, block: u32, lines: u8) -> Option<Fit>
    requires space { IsSpace space.now }
    requires block { block < space.now.limits.blocks }
    requires lines { (1 ≤ lines) × (lines ≤ LINES_IN_BLOCK) }
    ensures none { IfNone result ((q : Run) → IsOpenRun (tables_of space.now) space.now.limits.blocks q → q.block ≡ block → q.lines < lines) }
    ensures run { IfSome result (λ fit. IsOpenRun (tables_of space.now) space.now.limits.blocks fit.run × (fit.run.block ≡ block) × (fit.run.lines ≡ lines)) }
    ensures first { IfSome result (λ fit. (q : Run) → IsOpenRun (tables_of space.now) space.now.limits.blocks q → q.block ≡ block → q.lines ≡ lines → fit.run.line ≤ q.line) }
    ensures free { IfSome result (λ fit. IsMask fit.free (free_in (tables_of space.now) fit.run.block)) }
{
    match state(space, block) {
        BlockState::Chosen => None,
        _ => fit_in(space, block, lines),
    }
}

/// The first so many free lines in a row of these blocks, outside Chosen ones. It passes blocks that are known to have none.
fn fit_among(space: &Space, from: u32, end: u32, lines: u8) -> Option<Fit>
    requires space { IsSpace space.now }
    requires blocks { (from ≤ end) × (end ≤ space.now.limits.blocks) }
    requires lines { (1 ≤ lines) × (lines ≤ LINES_IN_BLOCK) }
    ensures none { IfNone result ((q : Run) → IsOpenRun (tables_of space.now) space.now.limits.blocks q → from ≤ q.block → q.block < end → q.lines < lines) }
    ensures run { IfSome result (λ fit. IsOpenRun (tables_of space.now) space.now.limits.blocks fit.run × (from ≤ fit.run.block) × (fit.run.block < end) × (fit.run.lines ≡ lines)) }
    ensures before { IfSome result (λ fit. (q : Run) → IsOpenRun (tables_of space.now) space.now.limits.blocks q → from ≤ q.block → q.block < fit.run.block → q.lines < lines) }
    ensures first { IfSome result (λ fit. (q : Run) → IsOpenRun (tables_of space.now) space.now.limits.blocks q → q.block ≡ fit.run.block → q.lines ≡ lines → fit.run.line ≤ q.line) }
    ensures free { IfSome result (λ fit. IsMask fit.free (free_in (tables_of space.now) fit.run.block)) }
{
    let mut block = space.next_long(from, lines);
    while block < end {
        if let Some(fit) = fit_outside(space, block, lines) {
            return Some(fit);
        }
        block = space.next_long(block + 1, lines);
    }
    None
}

/// The first so many free lines in a row outside Chosen blocks, on the way round the heap from a block.
fn first_fit(space: &Space, from: u32, lines: u8) -> Option<Fit>
    requires space { IsSpace space.now }
    requires block { from < space.now.limits.blocks }
    requires lines { (1 ≤ lines) × (lines ≤ LINES_IN_BLOCK) }
    ensures none { IfNone result ((q : Run) → IsOpenRun (tables_of space.now) space.now.limits.blocks q → q.lines < lines) }
    ensures run { IfSome result (λ fit. IsFirstFit (tables_of space.now) space.now.limits.blocks from lines fit.run) }
    ensures free { IfSome result (λ fit. IsMask fit.free (free_in (tables_of space.now) fit.run.block)) }
{
    if let Some(fit) = fit_among(space, from, space.limits.blocks, lines) {
        return Some(fit);
    }
    fit_among(space, 0, from, lines)
}

/// The block in which an object was placed last, or the first one.
fn search_from(space: &Space) -> u32
    requires { IsSpace space.now }
    ensures from { result ≡ search_begin space.now }
    ensures block { result < space.now.limits.blocks }
{
    let last = space.rest_next / GRANULES_IN_BLOCK;
    if last < space.limits.blocks { last } else { 0 }
}

/// Writes a new object at a granule: its header, and zeros in its further words. A header before more than one word isn't 0, so that the block is in use.
fn write_object(space: &mut Space, granule: u32, name: Name, shape: Shape)
    requires space { IsSpace space.old }
    requires shape { FitsShape shape }
    requires granule { granule + granule_count shape ≤ GRANULES_IN_BLOCK * space.old.limits.blocks }
    requires block { granule / GRANULES_IN_BLOCK ≡ (granule + granule_count shape - 1) / GRANULES_IN_BLOCK }
    ensures { Turns space.old space.new (with_object (tables_of space.old) granule name shape) }
{
    let first = 2 * granule;
    space.put_heap(first, pack(name, shape));
    space.put_heap(first + 1, 0);
    for at in first + 2..first + words_of(shape) {
        space.put_used(at, 0);
    }
}

/// Places an object at the front of the rest, which it fits.
fn place_in_rest(space: &mut Space, name: Name, shape: Shape) -> Place
    requires space { IsSpace space.old }
    requires shape { FitsShape shape }
    requires fits { space.old.rest_next + granule_count shape ≤ space.old.rest_end }
    requires in_heap { space.old.rest_end ≤ GRANULES_IN_BLOCK * space.old.limits.blocks }
    requires in_block { space.old.rest_next / GRANULES_IN_BLOCK ≡ (space.old.rest_end - 1) / GRANULES_IN_BLOCK }
    ensures place { result ≡ place_at space.old.rest_next }
    ensures changes { TurnsWithRest space.old space.new (with_object (tables_of space.old) space.old.rest_next name shape) (space.old.rest_next + granule_count shape) space.old.rest_end }
{
    let granule = space.rest_next;
    write_object(space, granule, name, shape);
    space.rest_next = granule + words_of(shape) / 2;
    place_at(granule)
}

/// Hands out a run of free lines, which become the rest.
fn open_rest(space: &mut Space, fit: Fit)
    requires space { IsSpace space.old }
    requires run { IsFreeRun (tables_of space.old) space.old.limits.blocks fit.run }
    requires free { IsMask fit.free (free_in (tables_of space.old) fit.run.block) }
    ensures { TurnsWithRest space.old space.new (handed_out (tables_of space.old) fit.run) (first_granule fit.run) (first_granule fit.run + GRANULES_IN_LINE * fit.run.lines) }
{
    let run = fit.run;
    hand_out_of(space, run, fit.free);
    space.rest_next = GRANULES_IN_LINE * (LINES_IN_BLOCK * run.block + u32::from(run.line));
    space.rest_end = space.rest_next + GRANULES_IN_LINE * u32::from(run.lines);
}

/// Places a new object, with zeros for its references and data; only in a pause, when no thread has a part of the
/// heap of its own. It takes the front of the rest of the lines from which the last object was placed, where that is
/// long enough. Else it takes the first free lines that it fits, on the way round the heap from the block in which the
/// last object was placed: they are handed out, and what is left of their last line is the rest from then on.
/// None exactly where neither the rest nor free lines outside Chosen blocks are long enough; then nothing changes.
///
/// An object that fits the rest costs no search. Else it looks at each block at most once, by the mask of its free lines.
/// Where all objects are short, it finds lines in the block in which it placed last, or in the next that has any, so that
/// filling a heap takes time in proportion to its lines.
pub fn place_now(space: &mut Space, name: Name, shape: Shape) -> Option<Place>
    requires space { IsSpace space.old }
    requires shape { FitsShape shape }
    requires rest { IsRest space.old }
    ensures none { IsNone result ↔ IsFull space.old shape }
    ensures unchanged { IfNone result (space.new ≡ space.old) }
    ensures placed { IfSome result (λ place. IsPlaced space.old space.new name shape place) }
    ensures rest { IsRest space.new }
    ensures space { IsSpace space.new }
{
    if space.rest_end - space.rest_next < words_of(shape) / 2 {
        let fit = first_fit(space, search_from(space), lines_of(shape) as u8)?;
        open_rest(space, fit);
    }
    Some(place_in_rest(space, name, shape))
}
