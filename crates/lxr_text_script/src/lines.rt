//! Lines and words of a text, cut off one after the other. The bytes are looked at from left to right, and nothing is
//! copied.
ghost use Rattle.std.specs.Prelude.{◌≡◌, ◌<◌, ◌==◌, [], ◌∷◌, MatchOption, false, length, not, position, true};
ghost use Rattle.std.specs.List.{position_or_len};
ghost use Rattle.std.specs.Str.Lines.{lines, strip_carriage_return};
ghost use Rattle.lxr_text_script.specs.Lines.{has_item, text_line, words_of};
ghost use Rattle.lxr_text_script.specs.Scanner.{line_of};
ghost use Rattle.lxr_text_script.specs.Lines as text;

/// A line that isn't skipped: its number, its first word, and the bytes after that word.
#[derive(Clone, Copy)]
pub struct Item<'a> {
    pub number: u32,
    pub word: &'a [u8],
    pub rest: &'a [u8],
}

/// The lines of a text that are left, with the number of the next.
#[derive(Drop)]
pub struct Scanner<'a> {
    pub number: u32,
    pub rest: &'a [u8],
}

/// Whether a byte is a space or a tab.
fn is_blank(byte: u8) -> bool
    ensures { result ≡ text.is_blank byte }
{
    byte == b' ' || byte == b'\t'
}

/// A line without the one carriage return at its end, if it has one.
fn without_carriage_return(line: &[u8]) -> &[u8]
    ensures { result.now ≡ strip_carriage_return line.now }
{
    match line {
        [front @ .., b'\r'] => front,
        _ => line,
    }
}

/// How many bytes stand before the first line feed, if there is one.
fn line_end(text: &[u8]) -> Option<usize>
    ensures { result ≡ position (λ b. b == 10) text.now }
{
    text.iter().position(|byte| *byte == b'\n')
}

/// The first line, and the bytes after it.
pub fn split_line(text: &[u8]) -> (&[u8], &[u8])
    requires { 0 < length text.now }
    ensures lines { lines text.now ≡ result.0.now ∷ lines result.1.now }
    ensures shorter { length result.1.now < length text.now }
{
    match line_end(text) {
        None => (text, &[]),
        Some(end) => (without_carriage_return(&text[..end]), &text[end + 1..]),
    }
}

/// How many bytes stand before the first word, if there is one.
fn word_start(line: &[u8]) -> Option<usize>
    ensures { result ≡ position (λ b. not (text.is_blank b)) line.now }
{
    line.iter().position(|byte| !is_blank(*byte))
}

/// How many bytes stand before the first blank, if there is one.
fn word_end(line: &[u8]) -> Option<usize>
    ensures { result ≡ position text.is_blank line.now }
{
    line.iter().position(|byte| is_blank(*byte))
}

/// The word at the front, and the bytes after it.
fn front_word(line: &[u8]) -> (&[u8], &[u8])
    requires { 0 < position_or_len text.is_blank line.now }
    ensures word { 0 < length result.0.now }
    ensures words { words_of line.now ≡ result.0.now ∷ words_of result.1.now }
{
    match word_end(line) {
        None => (line, &[]),
        Some(end) => (&line[..end], &line[end..]),
    }
}

/// The first word, and the bytes after it.
pub fn split_word(line: &[u8]) -> Option<(&[u8], &[u8])>
    ensures { MatchOption result (words_of line.now ≡ []) (λ found. (words_of line.now ≡ found.0.now ∷ words_of found.1.now) × (0 < length found.0.now)) }
{
    match word_start(line) {
        None => None,
        Some(start) => Some(front_word(&line[start..])),
    }
}

/// The item of a line, if the line isn't skipped.
fn item_of(number: u32, line: &[u8]) -> Option<Item<'_>>
    ensures { MatchOption result (has_item (words_of line.now) ≡ false) (λ item. (has_item (words_of line.now) ≡ true) × (line_of item ≡ text_line number line.now)) }
{
    match split_word(line) {
        None => None,
        Some((word, rest)) => {
            if word[0] == b'#' {
                None
            } else {
                Some(Item { number, word, rest })
            }
        }
    }
}

impl<'a> Scanner<'a> {
    ghost use Rattle.lxr_text_script.specs.Scanner.{IsSmall, end_left, items_left};

    pub fn new(text: &'a [u8]) -> Scanner<'a>
        ensures number { result.number ≡ 1 }
        ensures rest { result.rest.now ≡ text.now }
    {
        Scanner {
            number: 1,
            rest: text,
        }
    }

    /// The next line that isn't skipped.
    pub fn next(&mut self) -> Option<Item<'a>>
        requires { IsSmall self.old }
        ensures small { IsSmall self.new }
        ensures item { MatchOption result (items_left self.old ≡ []) (λ item. items_left self.old ≡ line_of item ∷ items_left self.new) }
        ensures end { end_left self.new ≡ end_left self.old }
        ensures number { MatchOption result (self.new.number ≡ end_left self.old) (λ _. Unit {0}) }
    {
        while !self.rest.is_empty() {
            let number = self.number;
            let (line, rest) = split_line(self.rest);
            self.number = number + 1;
            self.rest = rest;
            if let Some(item) = item_of(number, line) {
                return Some(item);
            }
        }
        None
    }
}
