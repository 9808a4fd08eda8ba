//! The items of an order, read line by line.
ghost use Rattle.std.specs.Prelude.{◌≡◌, ◌≢◌, ◌+◌, ◌^◌, ◌<◌, ◌⊎◌, [], ◌∷◌, ◌++◌, IfErr, MatchOption, OnOk, Some, None, length, true};
ghost use Rattle.lxr_text_script.specs.Lines.{words_of};
ghost use Rattle.lxr_case.specs.Items.{AnswersItems, ReadsLine, RefusesLine, worded_from};
ghost use Rattle.lxr_case.specs.Items as read;

use crate::{CaseError, Item, Items};
use lxr_text_script::{number_of, split_line, split_word};
use std::alloc::Global;

/// The item of a number, where there are so many threads.
fn call_of(threads: u8, number: Option<u64>) -> Option<Item>
    ensures { result ≡ read.call_of threads number }
{
    match number {
        Some(number) if number >= 1 && number <= u64::from(threads) => {
            Some(Item::Call(number as u8))
        }
        _ => None,
    }
}

/// The item that a line's one word says, where there are so many threads.
fn item_of(threads: u8, word: &[u8], rest: &[u8]) -> Option<Item>
    ensures { result ≡ read.item_of threads (word.now ∷ words_of rest.now) }
{
    if split_word(rest).is_some() {
        return None;
    }
    if word == b"pause".as_slice() {
        return Some(Item::Pause);
    }
    call_of(threads, number_of(word))
}

/// Adds the item of a line, where the line has words.
fn take_line(threads: u8, number: u32, line: &[u8], items: &mut Vec<Item>) -> Result<(), CaseError>
    ensures ok { OnOk result (ReadsLine threads (words_of line.now) items.old.items items.new.items) }
    ensures err { IfErr result (λ error. RefusesLine threads number (words_of line.now) error) }
{
    let Some((word, rest)) = split_word(line) else {
        return Ok(());
    };
    let item = item_of(threads, word, rest).ok_or(CaseError::Item { line: number })?;
    items.push(item)?;
    Ok(())
}

/// Reads an order, where there are so many threads.
pub(crate) fn read_items(alloc: Global, threads: u8, text: &[u8]) -> Result<Items, CaseError>
    requires { length text.now + 1 < 2 ^ 32 }
    ensures { AnswersItems threads (worded_from 1 text.now) result }
{
    let mut items = Vec::new(alloc);
    let mut number = 1;
    let mut rest = text;
    while !rest.is_empty() {
        let (line, behind) = split_line(rest);
        take_line(threads, number, line, &mut items)?;
        number += 1;
        rest = behind;
    }
    Ok(Items::from_vec(items))
}
