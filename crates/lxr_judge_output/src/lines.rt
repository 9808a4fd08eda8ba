//! The lines of an output, by their words. A line is looked at from left to right, and nothing is copied.
ghost use Rattle.std.specs.Prelude.{◌≡◌, ◌<◌, ◌==◌, [], ◌∷◌, MatchOption, false, length, option_map, position, true};
ghost use Rattle.std.specs.List.{list_all};
ghost use Rattle.std.specs.Option.{option_map_or};
ghost use Rattle.lxr_judge_output.specs.Lines.{fields_of};
ghost use Rattle.lxr_judge_output.specs.Lines as read;
ghost use Rattle.lxr_judge_output.specs.Words as word;

use crate::words::{is_name, is_numeral, is_reply};
use lxr_text_script::number_of;

/// What sort of pause a report is of.
#[derive(Clone, Copy, Debug, PartialEq, Eq)]
pub enum Sort {
    Plain,
    Begin,
    End,
    Collect,
}

/// How many bytes stand before the first space, if there is one.
fn space_at(line: &[u8]) -> Option<usize>
    ensures { result ≡ position read.is_space line.now }
{
    line.iter().position(|byte| *byte == b' ')
}

/// The word in front of the first space, and what is behind that space, if there is one.
fn split_field(line: &[u8]) -> (&[u8], Option<&[u8]>)
    ensures { MatchOption result.1 (fields_of line.now ≡ result.0.now ∷ []) (λ rest. (fields_of line.now ≡ result.0.now ∷ fields_of rest.now) × (length rest.now < length line.now)) }
{
    match space_at(line) {
        None => (line, None),
        Some(end) => (&line[..end], Some(&line[end + 1..])),
    }
}

/// The word of a line that has one alone.
fn single_field(line: &[u8]) -> Option<&[u8]>
    ensures { option_map (λ word. word.now) result ≡ read.single_of (fields_of line.now) }
{
    match split_field(line) {
        (word, None) => Some(word),
        (_, Some(_)) => None,
    }
}

/// Whether a word is this number, as it is printed.
fn is_number(n: u64, word: &[u8]) -> bool
    ensures { result ≡ read.is_number n word.now }
{
    is_numeral(word) && is_value(n, number_of(word))
}

/// Whether there is a value and it is this one.
fn is_value(n: u64, value: Option<u64>) -> bool
    ensures { result ≡ option_map_or (λ m. m == n) value false }
{
    match value {
        None => false,
        Some(value) => value == n,
    }
}

/// The sort of a pause that has one word.
fn sort_of_word(word: &[u8]) -> Option<Sort>
    ensures { result ≡ read.sort_of_word word.now }
{
    match word {
        b"plain" => Some(Sort::Plain),
        b"begin" => Some(Sort::Begin),
        b"collect" => Some(Sort::Collect),
        _ => None,
    }
}

/// Whether a line is one number.
fn is_single_numeral(line: &[u8]) -> bool
    ensures { result ≡ read.is_single word.is_numeral (fields_of line.now) }
{
    match single_field(line) {
        None => false,
        Some(word) => is_numeral(word),
    }
}

/// The sort `end J`.
fn end_sort(line: &[u8]) -> Option<Sort>
    ensures { result ≡ read.end_sort (fields_of line.now) }
{
    match split_field(line) {
        (_, None) => None,
        (word, Some(rest)) => {
            if word == b"end".as_slice() && is_single_numeral(rest) {
                Some(Sort::End)
            } else {
                None
            }
        }
    }
}

/// The sort of a pause.
fn sort_of_rest(line: &[u8]) -> Option<Sort>
    ensures { result ≡ read.sort_by (read.single_of (fields_of line.now)) (fields_of line.now) }
{
    match single_field(line) {
        None => end_sort(line),
        Some(word) => sort_of_word(word),
    }
}

/// The sort of a pause behind its number.
fn numbered_sort(line: &[u8]) -> Option<Sort>
    ensures { result ≡ read.numbered_sort (fields_of line.now) }
{
    match split_field(line) {
        (_, None) => None,
        (number, Some(rest)) => {
            if is_numeral(number) {
                sort_of_rest(rest)
            } else {
                None
            }
        }
    }
}

/// The sort of the pause of whose report this is the first line.
pub(crate) fn sort_of(line: &[u8]) -> Option<Sort>
    ensures { result ≡ read.sort_of (fields_of line.now) }
{
    match split_field(line) {
        (_, None) => None,
        (first, Some(rest)) => {
            if first == b"pause".as_slice() {
                numbered_sort(rest)
            } else {
                None
            }
        }
    }
}

/// How many words a line has, where all are names.
fn count_names(line: &[u8]) -> Option<u64>
    ensures { MatchOption result (list_all word.is_name (fields_of line.now) ≡ false) (λ n. (list_all word.is_name (fields_of line.now) ≡ true) × (n ≡ length (fields_of line.now))) }
{
    let mut count = 1;
    let mut left = line;
    while let Some(end) = space_at(left) {
        if !is_name(&left[..end]) {
            return None;
        }
        count += 1;
        left = &left[end + 1..];
    }
    if is_name(left) { Some(count) } else { None }
}

/// Whether a line is a number of names, and as many names.
fn are_counted_names(line: &[u8]) -> bool
    ensures { result ≡ read.are_counted_names (fields_of line.now) }
{
    match split_field(line) {
        (number, None) => is_number(0, number),
        (number, Some(rest)) => match count_names(rest) {
            None => false,
            Some(count) => is_number(count, number),
        },
    }
}

/// Whether a line is a list of names behind its label.
pub(crate) fn are_names(label: &[u8], line: &[u8]) -> bool
    ensures { result ≡ read.are_names label.now (fields_of line.now) }
{
    match split_field(line) {
        (_, None) => false,
        (first, Some(rest)) => first == label && are_counted_names(rest),
    }
}

/// Whether a word is a count.
fn is_count_word(word: &[u8]) -> bool
    ensures { result ≡ read.is_count_word word.now }
{
    is_numeral(word) || word == b"stuck".as_slice()
}

/// Whether a line is a name and its count.
fn is_counted_name(line: &[u8]) -> bool
    ensures { result ≡ read.is_counted_name (fields_of line.now) }
{
    match split_field(line) {
        (_, None) => false,
        (name, Some(rest)) => is_name(name) && is_single_count(rest),
    }
}

/// Whether a line is one count.
fn is_single_count(line: &[u8]) -> bool
    ensures { result ≡ read.is_single read.is_count_word (fields_of line.now) }
{
    match single_field(line) {
        None => false,
        Some(word) => is_count_word(word),
    }
}

/// Whether a line is that of a count.
pub(crate) fn is_count(line: &[u8]) -> bool
    ensures { result ≡ read.is_count (fields_of line.now) }
{
    match split_field(line) {
        (_, None) => false,
        (first, Some(rest)) => first == b"count".as_slice() && is_counted_name(rest),
    }
}

/// Whether a line is this one number.
fn is_single_number(n: u64, line: &[u8]) -> bool
    ensures { result ≡ read.is_single (read.is_number n) (fields_of line.now) }
{
    match single_field(line) {
        None => false,
        Some(word) => is_number(n, word),
    }
}

/// Whether a line is that of a thread.
pub(crate) fn is_heading(thread: u8, line: &[u8]) -> bool
    ensures { result ≡ read.is_heading thread (fields_of line.now) }
{
    match split_field(line) {
        (_, None) => false,
        (first, Some(rest)) => {
            first == b"thread".as_slice() && is_single_number(u64::from(thread), rest)
        }
    }
}

/// Whether a line is a reply to an operation.
pub(crate) fn replies(line: &[u8]) -> bool
    ensures { result ≡ read.replies (fields_of line.now) }
{
    match split_field(line) {
        (_, None) => false,
        (word, Some(rest)) => match single_field(rest) {
            None => false,
            Some(answer) => is_reply(word, answer),
        },
    }
}
