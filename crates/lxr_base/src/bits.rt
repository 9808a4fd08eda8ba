//! The set bits of a word, one after another.
//!
//! Side tables are read 64 bits at a time. Most objects lie alone among their granules, so what is asked of a word is which of its
//! bits are set, and the others are to cost nothing.
ghost use Rattle.std.specs.Prelude.{◌≡◌, IfNone, IfSome};
ghost use Rattle.lxr_base.specs.Bits.{TakesLowest};

/// Takes the lowest set bit out of a word; none where no bit is set.
#[inline(always)]
pub fn take_bit(word: &mut u64) -> Option<u32>
    ensures none { IfNone result ((word.old ≡ 0) × (word.new ≡ 0)) }
    ensures taken { IfSome result (λ bit. TakesLowest word.old word.new bit) }
{
    let whole = *word;
    if whole == 0 {
        return None;
    }
    *word = whole & (whole - 1);
    Some(whole.trailing_zeros())
}
