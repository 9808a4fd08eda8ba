//! The operation of one line: one on a large object, or else one that a script of the first version has.
ghost use Rattle.std.specs.Prelude.{◌≡◌, ◌∷◌};
ghost use Rattle.std.specs.Result.{result_map_both};
ghost use Rattle.lxr_text_script.specs.Lines.{words_of};
ghost use Rattle.lxr_large_text.specs.Operations as read;

use lxr_large_model::{LargeOp, MOST_BODY_BLOCKS, MOST_BODY_INDEX};
use lxr_text_script::{
    ScriptFault, Version, number_at, operation_of, register_at, three_words, two_words,
};

/// How many blocks a body has: 1 to 128.
#[tactic(auto, unfolding(crate::specs::Operations::blocks_at))]
fn blocks_at(line: u32, word: &[u8]) -> Result<u32, ScriptFault>
    ensures { result ≡ read.blocks_at line word.now }
{
    let blocks = number_at(line, word)?;
    if blocks >= 1 && blocks <= u64::from(MOST_BODY_BLOCKS) {
        Ok(blocks as u32)
    } else {
        Err(ScriptFault::Shape { line })
    }
}

/// The index of a word of a body.
#[tactic(auto, unfolding(crate::specs::Operations::body_index_at))]
fn body_index_at(line: u32, word: &[u8]) -> Result<u32, ScriptFault>
    ensures { result ≡ read.body_index_at line word.now }
{
    let index = number_at(line, word)?;
    if index <= u64::from(MOST_BODY_INDEX) {
        Ok(index as u32)
    } else {
        Err(ScriptFault::Field { line })
    }
}

#[tactic(auto, unfolding(crate::specs::Operations::big_of))]
fn big_of(line: u32, rest: &[u8]) -> Result<LargeOp, ScriptFault>
    ensures { result ≡ read.big_of line (words_of rest.now) }
{
    let (dest, blocks) = two_words(line, rest)?;
    let dest = register_at(line, dest)?;
    let blocks = blocks_at(line, blocks)?;
    Ok(LargeOp::Big { dest, blocks })
}

#[tactic(auto, unfolding(crate::specs::Operations::put_of))]
fn put_of(line: u32, rest: &[u8]) -> Result<LargeOp, ScriptFault>
    ensures { result ≡ read.put_of line (words_of rest.now) }
{
    let (base, index, value) = three_words(line, rest)?;
    let base = register_at(line, base)?;
    let index = body_index_at(line, index)?;
    let value = number_at(line, value)?;
    Ok(LargeOp::BigPut { base, index, value })
}

#[tactic(auto, unfolding(crate::specs::Operations::get_of))]
fn get_of(line: u32, rest: &[u8]) -> Result<LargeOp, ScriptFault>
    ensures { result ≡ read.get_of line (words_of rest.now) }
{
    let (base, index) = two_words(line, rest)?;
    let base = register_at(line, base)?;
    let index = body_index_at(line, index)?;
    Ok(LargeOp::BigGet { base, index })
}

/// An operation that a script of the first version has.
#[tactic(auto, unfolding(crate::specs::Operations::small_of))]
fn small_of(line: u32, word: &[u8], rest: &[u8]) -> Result<LargeOp, ScriptFault>
    ensures { result ≡ read.small_of line (word.now ∷ words_of rest.now) }
{
    let op = operation_of(Version::One, line, word, rest)?;
    Ok(LargeOp::Small(op))
}

/// The operation of a line, by its first word and the bytes after it.
#[tactic(auto, unfolding(crate::specs::Operations::large_operation_of))]
pub(crate) fn large_operation_of(
    line: u32,
    word: &[u8],
    rest: &[u8],
) -> Result<LargeOp, ScriptFault>
    ensures { result ≡ read.large_operation_of line (word.now ∷ words_of rest.now) }
{
    match word {
        b"big" => big_of(line, rest),
        b"bput" => put_of(line, rest),
        b"bget" => get_of(line, rest),
        _ => small_of(line, word, rest),
    }
}
