//! The zeros among the words of a block's counts.
ghost use Rattle.std.specs.Prelude.{◌≡◌, ◌↔◌, ◌<◌, ℕ, IsBitSet, slice_index};
ghost use Rattle.lxr_layout.specs.declared.TheConstants.{LINES_IN_BLOCK};

use lxr_tables::zero_lanes;

/// The lines of a block whose words are 0: bit i of the answer is set exactly where word i is 0. A word holds the
/// counts of one line, so its line holds nothing that is counted where it is 0.
pub fn zero_lines(words: &[u64; 128]) -> u128
    ensures { (i : ℕ) → i < LINES_IN_BLOCK → (IsBitSet result i ↔ (slice_index words.now i ≡ 0)) }
{
    zero_lanes(words)
}
