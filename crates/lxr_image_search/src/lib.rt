//! Finding objects of a heap, one after another, by the bits of 64 granules at once.
#![tactic(auto)]

ghost use Rattle.std.specs.Prelude.{◌≡◌, ◌↔◌, ℕ, ◌+◌, ◌*◌, ◌/◌, ◌<◌, IfNone, IfSome, IsBitSet, IsTrue, false};
ghost use Rattle.lxr_layout.specs.declared.TheConstants.{GRANULES_IN_BLOCK};
ghost use Rattle.lxr_image.specs.Spaces.{IsSpace, tables_of};
ghost use Rattle.lxr_image_search.specs.Search.{AvoidsFree, IsNextBlock, IsNextWanted, NoneWanted, is_wanted};

use lxr_blocks::next_in_use;
use lxr_image::Space;
use lxr_layout::GRANULES_IN_BLOCK;

/// What a pass over the heap looks for.
#[derive(Clone, Copy)]
pub enum Wanted {
    /// An object that was promoted and isn't reclaimed.
    Object,
    /// Such an object without a mark.
    Unmarked,
    /// A gray object without a mark.
    ToScan,
}

/// Which of 64 granules in a row have a wanted object: bit i of the answer is set exactly where granule i of them has.
#[inline(always)]
fn wanted_word(space: &Space, wanted: Wanted, at: u32) -> u64
    requires space { IsSpace space.now }
    requires at { at < 32 * space.now.limits.blocks }
    ensures { (i : ℕ) → i < 64 → (IsBitSet result i ↔ IsTrue (is_wanted (tables_of space.now) wanted (64 * at + i))) }
{
    match wanted {
        Wanted::Object => space.start_word(at),
        Wanted::Unmarked => space.start_word(at) & !space.mark_word(at),
        Wanted::ToScan => space.gray_word(at) & !space.mark_word(at),
    }
}

/// Whether a block has a wanted object. Its looks, one for 64 granules, don't wait for one another.
#[inline(always)]
fn has_wanted(space: &Space, wanted: Wanted, block: u32) -> bool
    requires space { IsSpace space.now }
    requires block { block < space.now.limits.blocks }
    ensures { result ≡ false → NoneWanted (tables_of space.now) wanted (GRANULES_IN_BLOCK * block) (GRANULES_IN_BLOCK * (block + 1)) }
{
    let mut seen = 0;
    for at in 32 * block..32 * block + 32 {
        seen |= wanted_word(space, wanted, at);
    }
    seen != 0
}

/// The first block from one on that isn't Free and may have a wanted object: none that was passed by has one. What isn't Free costs its looks,
/// one for 64 granules.
#[inline(always)]
pub fn next_block(space: &Space, wanted: Wanted, from: u32) -> Option<u32>
    requires space { IsSpace space.now }
    requires free { AvoidsFree (tables_of space.now) wanted }
    ensures none { IfNone result (NoneWanted (tables_of space.now) wanted (GRANULES_IN_BLOCK * from) (GRANULES_IN_BLOCK * space.now.limits.blocks)) }
    ensures next { IfSome result (λ block. IsNextBlock (tables_of space.now) wanted from space.now.limits.blocks block) }
{
    let mut at = from;
    while let Some(block) = next_in_use(space, at) {
        if has_wanted(space, wanted, block) {
            return Some(block);
        }
        at = block + 1;
    }
    None
}

/// The first granule from one on that has a wanted object, of those whose bits are one word with its own.
#[inline(always)]
pub fn next_in_word(space: &Space, wanted: Wanted, from: u32) -> Option<u32>
    requires space { IsSpace space.now }
    requires from { from < GRANULES_IN_BLOCK * space.now.limits.blocks }
    ensures none { IfNone result (NoneWanted (tables_of space.now) wanted from (64 * (from / 64 + 1))) }
    ensures next { IfSome result (λ granule. IsNextWanted (tables_of space.now) wanted from (64 * (from / 64 + 1)) granule) }
{
    let rest = wanted_word(space, wanted, from / 64) >> (from % 64);
    if rest == 0 {
        return None;
    }
    Some(from + rest.trailing_zeros())
}

/// The first granule from one on that has a wanted object. It takes one look for 64 granules, and before them one for their
/// block, behind which it goes on at once where that can have none. Free blocks are passed by as `next_in_use` does.
#[inline(always)]
pub fn next_wanted(space: &Space, wanted: Wanted, from: u32) -> Option<u32>
    requires space { IsSpace space.now }
    requires free { AvoidsFree (tables_of space.now) wanted }
    ensures none { IfNone result (NoneWanted (tables_of space.now) wanted from (GRANULES_IN_BLOCK * space.now.limits.blocks)) }
    ensures next { IfSome result (λ granule. IsNextWanted (tables_of space.now) wanted from (GRANULES_IN_BLOCK * space.now.limits.blocks) granule) }
{
    let mut at = from;
    while at < GRANULES_IN_BLOCK * space.limits.blocks {
        if at % GRANULES_IN_BLOCK == 0 {
            at = GRANULES_IN_BLOCK * next_block(space, wanted, at / GRANULES_IN_BLOCK)?;
        }
        if let Some(granule) = next_in_word(space, wanted, at) {
            return Some(granule);
        }
        at = (at / 64 + 1) * 64;
    }
    None
}
