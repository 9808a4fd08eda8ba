//! Clearing bits of the whole heap at once: block after block, and in a block a word of them at a time.
ghost use Rattle.std.specs.Prelude.{◌≡◌, ◌*◌, ◌/◌, ◌<◌, ◌==◌, true};
ghost use Rattle.lxr_image.specs.Spaces.{IsSpace, Turns, tables_of};
ghost use Rattle.lxr_blocks.specs.declared.clearing_all.Bits.TheVariants.{Outs, Traced};
ghost use Rattle.lxr_blocks.specs.ClearingAll.{AreUnsetInFree, bits_in_block, with_clear, words_in_block};

use crate::in_use::next_in_use;
use lxr_image::Space;

/// Bits that a pause clears in the whole heap.
#[derive(Clone, Copy)]
pub enum Bits {
    /// Which lines were handed out.
    Outs,
    /// Which granules have objects that a trace has marked, and which have gray ones.
    Traced,
}

impl Bits {
    /// How many words these bits of a block are.
    #[inline(always)]
    fn words_in_block(self) -> u32
        ensures { result ≡ words_in_block self }
    {
        match self {
            Bits::Outs => 2,
            Bits::Traced => 32,
        }
    }
}

/// Clears 64 of them in a row.
#[inline(always)]
fn clear_word(space: &mut Space, bits: Bits, at: u32)
    requires space { IsSpace space.old }
    requires at { at < words_in_block bits * space.old.limits.blocks }
    ensures { Turns space.old space.new (with_clear (tables_of space.old) bits (λ k. k / 64 == at)) }
{
    match bits {
        Bits::Outs => space.clear_out_word(at),
        Bits::Traced => {
            space.clear_mark_word(at);
            space.clear_gray_word(at);
        }
    }
}

/// Clears those of a block.
#[inline(always)]
fn clear_block(space: &mut Space, bits: Bits, block: u32)
    requires space { IsSpace space.old }
    requires block { block < space.old.limits.blocks }
    ensures { Turns space.old space.new (with_clear (tables_of space.old) bits (λ k. k / bits_in_block bits == block)) }
{
    let words = bits.words_in_block();
    for at in words * block..words * block + words {
        clear_word(space, bits, at);
    }
}

/// Clears which lines were handed out, in the blocks of which some may be.
fn clear_outs(space: &mut Space)
    requires { IsSpace space.old }
    ensures { Turns space.old space.new (with_clear (tables_of space.old) Outs (λ k. true)) }
{
    let mut block = space.next_handed(0);
    while block < space.limits.blocks {
        clear_block(space, Bits::Outs, block);
        space.know_none_out(block);
        block = space.next_handed(block + 1);
    }
}

/// Clears which granules have marked objects and gray ones. Blocks whose state is Free have none, and are passed over.
fn clear_traced(space: &mut Space)
    requires space { IsSpace space.old }
    requires free { AreUnsetInFree (tables_of space.old) Traced }
    ensures { Turns space.old space.new (with_clear (tables_of space.old) Traced (λ k. true)) }
{
    let mut from = 0;
    while let Some(block) = next_in_use(space, from) {
        clear_block(space, Bits::Traced, block);
        from = block + 1;
    }
}

/// Clears such bits of the whole heap. Blocks that have none set, by what is known or since their state is Free, are passed over.
#[inline(always)]
pub fn clear_all(space: &mut Space, bits: Bits)
    requires space { IsSpace space.old }
    requires free { AreUnsetInFree (tables_of space.old) bits }
    ensures { Turns space.old space.new (with_clear (tables_of space.old) bits (λ k. true)) }
{
    match bits {
        Bits::Outs => clear_outs(space),
        Bits::Traced => clear_traced(space),
    }
}
