//! The operation of one line.
ghost use Rattle.std.specs.Prelude.{◌≡◌, ◌∷◌};
ghost use Rattle.std.specs.Result.{result_map_both};
ghost use Rattle.lxr_text_script.specs.Lines.{words_of};
ghost use Rattle.lxr_text_script.specs.Operations as read;

use crate::lines::split_word;
use crate::numbers::{number_of, register_of};
use crate::{ScriptFault, Version};
use lxr_graph::Op;
use lxr_layout::{MOST_FIELDS, Shape};

/// A word in a number's place.
pub fn number_at(line: u32, word: &[u8]) -> Result<u64, ScriptFault>
    ensures { result ≡ read.number_at line word.now }
{
    number_of(word).ok_or(ScriptFault::Number { line })
}

/// A word in a register's place.
pub fn register_at(line: u32, word: &[u8]) -> Result<u8, ScriptFault>
    ensures { result ≡ read.register_at line word.now }
{
    register_of(word).ok_or(ScriptFault::Register { line })
}

/// How many references or data words a new object has.
#[tactic(auto, unfolding(crate::specs::Operations::size_at))]
fn size_at(line: u32, word: &[u8]) -> Result<u16, ScriptFault>
    ensures { result ≡ read.size_at line word.now }
{
    let size = number_at(line, word)?;
    if size <= u64::from(MOST_FIELDS) {
        Ok(size as u16)
    } else {
        Err(ScriptFault::Shape { line })
    }
}

/// The index of a reference or a data word.
#[tactic(auto, unfolding(crate::specs::Operations::index_at))]
fn index_at(line: u32, word: &[u8]) -> Result<u16, ScriptFault>
    ensures { result ≡ read.index_at line word.now }
{
    let index = number_at(line, word)?;
    if index <= u64::from(MOST_FIELDS) {
        Ok(index as u16)
    } else {
        Err(ScriptFault::Field { line })
    }
}

/// Nothing, where there is no word.
fn no_words(line: u32, rest: &[u8]) -> Result<(), ScriptFault>
    ensures { result_map_both (λ _. tt) (λ fault. fault) result ≡ read.no_words line (words_of rest.now) }
{
    match split_word(rest) {
        None => Ok(()),
        Some(_) => Err(ScriptFault::Operation { line }),
    }
}

/// The one word that there is.
fn one_word(line: u32, rest: &[u8]) -> Result<&[u8], ScriptFault>
    ensures { result_map_both (λ a. a.now) (λ fault. fault) result ≡ read.one_word line (words_of rest.now) }
{
    match split_word(rest) {
        None => Err(ScriptFault::Operation { line }),
        Some((a, rest)) => {
            no_words(line, rest)?;
            Ok(a)
        }
    }
}

/// The two words that there are.
pub fn two_words(line: u32, rest: &[u8]) -> Result<(&[u8], &[u8]), ScriptFault>
    ensures { result_map_both (λ w. (w.0.now, w.1.now)) (λ fault. fault) result ≡ read.two_words line (words_of rest.now) }
{
    match split_word(rest) {
        None => Err(ScriptFault::Operation { line }),
        Some((a, rest)) => Ok((a, one_word(line, rest)?)),
    }
}

/// The three words that there are.
pub fn three_words(line: u32, rest: &[u8]) -> Result<(&[u8], &[u8], &[u8]), ScriptFault>
    ensures { result_map_both (λ w. (w.0.now, w.1.now, w.2.now)) (λ fault. fault) result ≡ read.three_words line (words_of rest.now) }
{
    match split_word(rest) {
        None => Err(ScriptFault::Operation { line }),
        Some((a, rest)) => {
            let (b, c) = two_words(line, rest)?;
            Ok((a, b, c))
        }
    }
}

/// The four words that there are.
fn four_words(line: u32, rest: &[u8]) -> Result<(&[u8], &[u8], &[u8], &[u8]), ScriptFault>
    ensures { result_map_both (λ w. (w.0.now, w.1.now, w.2.now, w.3.now)) (λ fault. fault) result ≡ read.four_words line (words_of rest.now) }
{
    match split_word(rest) {
        None => Err(ScriptFault::Operation { line }),
        Some((a, rest)) => {
            let (b, c, d) = three_words(line, rest)?;
            Ok((a, b, c, d))
        }
    }
}

#[tactic(auto, unfolding(crate::specs::Operations::new_of))]
fn new_of(line: u32, rest: &[u8]) -> Result<Op, ScriptFault>
    ensures { result ≡ read.new_of line (words_of rest.now) }
{
    let (dest, refs, values) = three_words(line, rest)?;
    let dest = register_at(line, dest)?;
    let refs = size_at(line, refs)?;
    let values = size_at(line, values)?;
    Ok(Op::New {
        dest,
        shape: Shape { refs, values },
    })
}

#[tactic(auto, unfolding(crate::specs::Operations::load_of))]
fn load_of(line: u32, rest: &[u8]) -> Result<Op, ScriptFault>
    ensures { result ≡ read.load_of line (words_of rest.now) }
{
    let (dest, base, index) = three_words(line, rest)?;
    let dest = register_at(line, dest)?;
    let base = register_at(line, base)?;
    let index = index_at(line, index)?;
    Ok(Op::Load { dest, base, index })
}

#[tactic(auto, unfolding(crate::specs::Operations::store_of))]
fn store_of(line: u32, rest: &[u8]) -> Result<Op, ScriptFault>
    ensures { result ≡ read.store_of line (words_of rest.now) }
{
    let (base, index, source) = three_words(line, rest)?;
    let base = register_at(line, base)?;
    let index = index_at(line, index)?;
    let source = register_at(line, source)?;
    Ok(Op::Store {
        base,
        index,
        source,
    })
}

#[tactic(auto, unfolding(crate::specs::Operations::put_of))]
fn put_of(line: u32, rest: &[u8]) -> Result<Op, ScriptFault>
    ensures { result ≡ read.put_of line (words_of rest.now) }
{
    let (base, index, value) = three_words(line, rest)?;
    let base = register_at(line, base)?;
    let index = index_at(line, index)?;
    let value = number_at(line, value)?;
    Ok(Op::Put { base, index, value })
}

#[tactic(auto, unfolding(crate::specs::Operations::get_of))]
fn get_of(line: u32, rest: &[u8]) -> Result<Op, ScriptFault>
    ensures { result ≡ read.get_of line (words_of rest.now) }
{
    let (base, index) = two_words(line, rest)?;
    let base = register_at(line, base)?;
    let index = index_at(line, index)?;
    Ok(Op::Get { base, index })
}

#[tactic(auto, unfolding(crate::specs::Operations::move_of))]
fn move_of(line: u32, rest: &[u8]) -> Result<Op, ScriptFault>
    ensures { result ≡ read.move_of line (words_of rest.now) }
{
    let (dest, source) = two_words(line, rest)?;
    let dest = register_at(line, dest)?;
    let source = register_at(line, source)?;
    Ok(Op::Move { dest, source })
}

#[tactic(auto, unfolding(crate::specs::Operations::nil_of))]
fn nil_of(line: u32, rest: &[u8]) -> Result<Op, ScriptFault>
    ensures { result ≡ read.nil_of line (words_of rest.now) }
{
    let dest = one_word(line, rest)?;
    let dest = register_at(line, dest)?;
    Ok(Op::Nil { dest })
}

#[tactic(auto, unfolding(crate::specs::Operations::same_of))]
fn same_of(line: u32, rest: &[u8]) -> Result<Op, ScriptFault>
    ensures { result ≡ read.same_of line (words_of rest.now) }
{
    let (left, right) = two_words(line, rest)?;
    let left = register_at(line, left)?;
    let right = register_at(line, right)?;
    Ok(Op::Same { left, right })
}

#[tactic(auto, unfolding(crate::specs::Operations::swap_of))]
fn swap_of(line: u32, rest: &[u8]) -> Result<Op, ScriptFault>
    ensures { result ≡ read.swap_of line (words_of rest.now) }
{
    let (dest, base, index, source) = four_words(line, rest)?;
    let dest = register_at(line, dest)?;
    let base = register_at(line, base)?;
    let index = index_at(line, index)?;
    let source = register_at(line, source)?;
    Ok(Op::Swap {
        dest,
        base,
        index,
        source,
    })
}

#[tactic(auto, unfolding(crate::specs::Operations::add_of))]
fn add_of(line: u32, rest: &[u8]) -> Result<Op, ScriptFault>
    ensures { result ≡ read.add_of line (words_of rest.now) }
{
    let (base, index, value) = three_words(line, rest)?;
    let base = register_at(line, base)?;
    let index = index_at(line, index)?;
    let value = number_at(line, value)?;
    Ok(Op::Add { base, index, value })
}

/// An operation without words after its own.
#[tactic(auto, unfolding(crate::specs::Operations::alone))]
fn alone(op: Op, line: u32, rest: &[u8]) -> Result<Op, ScriptFault>
    ensures { result ≡ read.alone op line (words_of rest.now) }
{
    no_words(line, rest)?;
    Ok(op)
}

/// The operation of a line that each version has, by its first word and the bytes after it.
#[tactic(auto, unfolding(crate::specs::Operations::first_of))]
fn first_of(line: u32, word: &[u8], rest: &[u8]) -> Result<Op, ScriptFault>
    ensures { result ≡ read.first_of line word.now (words_of rest.now) }
{
    match word {
        b"new" => new_of(line, rest),
        b"load" => load_of(line, rest),
        b"store" => store_of(line, rest),
        b"put" => put_of(line, rest),
        b"get" => get_of(line, rest),
        b"move" => move_of(line, rest),
        b"nil" => nil_of(line, rest),
        b"same" => same_of(line, rest),
        b"pause" => alone(Op::Pause, line, rest),
        b"collect" => alone(Op::Collect, line, rest),
        _ => Err(ScriptFault::Operation { line }),
    }
}

/// The operation of a line of a script of version 2, which has two more.
#[tactic(auto, unfolding(crate::specs::Operations::second_of))]
fn second_of(line: u32, word: &[u8], rest: &[u8]) -> Result<Op, ScriptFault>
    ensures { result ≡ read.second_of line word.now (words_of rest.now) }
{
    match word {
        b"swap" => swap_of(line, rest),
        b"add" => add_of(line, rest),
        _ => first_of(line, word, rest),
    }
}

/// The operation of a line, by its first word and the bytes after it.
#[tactic(auto, unfolding(crate::specs::Operations::operation_of))]
pub fn operation_of(
    version: Version,
    line: u32,
    word: &[u8],
    rest: &[u8],
) -> Result<Op, ScriptFault>
    ensures { result ≡ read.operation_of version line (word.now ∷ words_of rest.now) }
{
    match version {
        Version::One => first_of(line, word, rest),
        Version::Two => second_of(line, word, rest),
    }
}
