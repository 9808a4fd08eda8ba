//! The free lines of a block as a mask of 128 bits, and the search in such a mask.
ghost use Rattle.std.specs.Prelude.{◌≡◌, ◌↔◌, ℕ, ◌+◌, ◌-◌, ◌/◌, ◌%◌, ◌^◌, ◌<◌, ◌≤◌, IfNone, IfSome, IsBitSet, true, Bool, if◌then◌else◌};
ghost use Rattle.lxr_layout.specs.declared.TheConstants.{LINES_IN_BLOCK};
ghost use Rattle.lxr_image.specs.Spaces.{IsSpace, tables_of};
ghost use Rattle.lxr_blocks.specs.Handing.{is_between};
ghost use Rattle.lxr_blocks.specs.Lines.{IsFirstLine, IsNextRun, free_in};
ghost use Rattle.lxr_blocks.specs.Masks.{AreEdges, IsMask};
ghost use Rattle.std.specs.Int.{bit_at, trailing_zeros, w64, w128};

use lxr_image::Space;
use lxr_layout::{LINES_IN_BLOCK, Run};

/// The free lines of a block: bit i is set exactly where line i is free. Where they aren't known, they are counted.
#[inline(always)]
pub fn free_mask(space: &Space, block: u32) -> u128
    requires space { IsSpace space.now }
    requires block { block < space.now.limits.blocks }
    ensures { IsMask result (free_in (tables_of space.now) block) }
{
    match known_mask(space, block) {
        Some(mask) => mask,
        None => counted_mask(space, block),
    }
}

/// The free lines of a block, where they are known without a look at its tables.
#[inline(always)]
pub(crate) fn known_mask(space: &Space, block: u32) -> Option<u128>
    ensures { IfSome result (λ mask. IsMask mask (free_in (tables_of space.now) block)) }
{
    space.known_free(block)
}

/// The free lines of a block by its tables. It reads the words of the block's counts and the two words of its out bits,
/// each once.
#[inline(always)]
pub(crate) fn counted_mask(space: &Space, block: u32) -> u128
    requires space { IsSpace space.now }
    requires block { block < space.now.limits.blocks }
    ensures { IsMask result (free_in (tables_of space.now) block) }
{
    space.uncounted_lines(block) & !space.out_lines(block)
}

/// Whether a line of a block is free. It reads one word of counts and one of out bits.
#[inline(always)]
pub(crate) fn is_free_line(space: &Space, block: u32, line: u32) -> bool
    requires space { IsSpace space.now }
    requires block { block < space.now.limits.blocks }
    requires line { line < LINES_IN_BLOCK }
    ensures { result ≡ free_in (tables_of space.now) block line }
{
    !space.has_out(LINES_IN_BLOCK * block + line) && space.is_uncounted(block, line)
}

/// The bits from one on, all set.
#[inline(always)]
fn bits_from(first: u32) -> u128
    requires { first ≤ LINES_IN_BLOCK }
    ensures { result ≡ 2 ^ 128 - 2 ^ first }
{
    if first < LINES_IN_BLOCK {
        u128::MAX << first
    } else {
        0
    }
}

/// The bits that are left of a mask without those of a run's lines.
#[inline(always)]
pub(crate) fn without_run(mask: u128, run: Run) -> u128
    requires { run.line + run.lines ≤ LINES_IN_BLOCK }
    ensures { (i : ℕ) → i < LINES_IN_BLOCK → bit_at result i ≡ if is_between run.line (run.line + run.lines) i then 0 else bit_at mask i }
{
    let first = u32::from(run.line);
    let end = first + u32::from(run.lines);
    mask & !(bits_from(first) - bits_from(end))
}

/// The edges of a block's free lines: bit i of the answer is set exactly where line i is free and the line before it isn't,
/// or the other way round.
#[inline(always)]
pub(crate) fn edges_of(mask: u128) -> u128
    ensures { (free : ℕ → Bool) → IsMask mask free → AreEdges result free 0 }
{
    mask ^ (mask << 1)
}

/// The lower 64 of 128 bits.
#[inline(always)]
fn low_half(bits: u128) -> u64
    ensures { result ≡ bits % 2 ^ 64 }
{
    (bits % (1 << 64)) as u64
}

/// The upper 64 of 128 bits.
#[inline(always)]
fn high_half(bits: u128) -> u64
    ensures { result ≡ bits / 2 ^ 64 }
{
    (bits >> 64) as u64
}

/// The 128 bits with these halves.
#[inline(always)]
fn joined(high: u64, low: u64) -> u128
    ensures below { (i : ℕ) → i < 64 → bit_at result i ≡ bit_at low i }
    ensures above { (i : ℕ) → 64 ≤ i → bit_at result i ≡ bit_at high (i - 64) }
{
    u128::from(high) << 64 | u128::from(low)
}

/// The bits without the lowest that is set.
#[inline(always)]
fn without_lowest(bits: u64) -> u64
    ensures lowest { (i : ℕ) → i ≤ trailing_zeros w64 bits → bit_at result i ≡ 0 }
    ensures others { (i : ℕ) → trailing_zeros w64 bits < i → bit_at result i ≡ bit_at bits i }
{
    if bits == 0 { 0 } else { bits & (bits - 1) }
}

/// Where the lowest bit is that is set, 128 where none is, and the bits without it. Only the half that has this bit is searched
/// and changed, since a processor works on 64 bits at once.
#[inline(always)]
fn take_lowest(bits: u128) -> (u32, u128)
    ensures place { result.0 ≡ trailing_zeros w128 bits }
    ensures within { result.0 ≤ LINES_IN_BLOCK }
    ensures lowest { (i : ℕ) → i ≤ trailing_zeros w128 bits → bit_at result.1 i ≡ 0 }
    ensures others { (i : ℕ) → trailing_zeros w128 bits < i → bit_at result.1 i ≡ bit_at bits i }
{
    let low = low_half(bits);
    let high = high_half(bits);
    if low == 0 {
        return (64 + high.trailing_zeros(), joined(without_lowest(high), 0));
    }
    (low.trailing_zeros(), joined(high, without_lowest(low)))
}

/// The first run of a block whose free lines have these edges from a line on, and the edges behind it.
#[inline(always)]
pub(crate) fn next_run(edges: u128, block: u32) -> Option<(Run, u128)>
    ensures none { IfNone result ((free : ℕ → Bool) (from : ℕ) → from ≤ LINES_IN_BLOCK → AreEdges edges free from → IsFirstLine free true from LINES_IN_BLOCK) }
    ensures run { IfSome result (λ next. (free : ℕ → Bool) (from : ℕ) → AreEdges edges free from → IsNextRun free block from next.0 × AreEdges next.1 free (next.0.line + next.0.lines)) }
{
    let (line, rest) = take_lowest(edges);
    if line == LINES_IN_BLOCK {
        return None;
    }
    let (end, left) = take_lowest(rest);
    let run = Run {
        block,
        line: line as u8,
        lines: (end - line) as u8,
    };
    Some((run, left))
}

/// The lines at which so many free lines in a row begin: bit i of the answer is set exactly where the bits of the mask
/// from i on are, so many of them. It doubles the number of lines that it knows of with each step.
#[inline(always)]
pub(crate) fn run_starts(mask: u128, lines: u8) -> u128
    requires { (1 ≤ lines) × (lines ≤ LINES_IN_BLOCK) }
    ensures { (i : ℕ) → IsBitSet result i ↔ ((k : ℕ) → k < lines → IsBitSet mask (i + k)) }
{
    let mut starts = mask;
    let mut known = 1;
    while known < lines && starts != 0 {
        let step = known.min(lines - known);
        starts &= starts >> step;
        known += step;
    }
    starts
}
