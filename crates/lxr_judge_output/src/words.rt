//! The words of printed texts.
ghost use Rattle.std.specs.Prelude.{◌≡◌, position};
ghost use Rattle.std.specs.Char.{is_ascii_digit};
ghost use Rattle.std.specs.List.{list_all};
ghost use Rattle.lxr_judge_output.specs.Words as read;

/// Whether all bytes are decimal digits.
fn are_digits(bytes: &[u8]) -> bool
    ensures { result ≡ list_all is_ascii_digit bytes.now }
{
    bytes.iter().all(|byte| byte.is_ascii_digit())
}

/// Whether a word is a number as it is printed: without leading zeros.
#[tactic(auto, unfolding(crate::specs::Words::is_numeral))]
pub(crate) fn is_numeral(word: &[u8]) -> bool
    ensures { result ≡ read.is_numeral word.now }
{
    if word.is_empty() {
        return false;
    }
    are_digits(word) && (word.len() == 1 || word[0] != b'0')
}

/// How many bytes stand before the first dot, if there is one.
fn dot_at(word: &[u8]) -> Option<usize>
    ensures { result ≡ position read.is_dot word.now }
{
    word.iter().position(|byte| *byte == b'.')
}

/// Whether a word is a name as it is printed: T.S.
#[tactic(auto, unfolding(crate::specs::Words::is_name))]
pub(crate) fn is_name(word: &[u8]) -> bool
    ensures { result ≡ read.is_name word.now }
{
    match dot_at(word) {
        None => false,
        Some(at) => is_numeral(&word[..at]) && is_numeral(&word[at + 1..]),
    }
}

/// Whether it says that an operation that needs a base was refused.
fn is_refusal(word: &[u8]) -> bool
    ensures { result ≡ read.is_refusal word.now }
{
    word == b"bad".as_slice() || word == b"range".as_slice()
}

/// Whether it is what reads of references reply.
fn is_reference(word: &[u8]) -> bool
    ensures { result ≡ read.is_reference word.now }
{
    is_name(word) || word == b"nil".as_slice() || is_refusal(word)
}

/// Whether it is what reads of data words reply.
fn is_datum(word: &[u8]) -> bool
    ensures { result ≡ read.is_datum word.now }
{
    is_numeral(word) || is_refusal(word)
}

/// Whether it is what writes reply.
fn is_written(word: &[u8]) -> bool
    ensures { result ≡ read.is_written word.now }
{
    is_done(word) || is_refusal(word)
}

/// Whether it is what is replied where nothing can be refused.
fn is_done(word: &[u8]) -> bool
    ensures { result ≡ read.is_done word.now }
{
    word == b"ok".as_slice()
}

/// Whether it is what `new` replies.
fn is_made(word: &[u8]) -> bool
    ensures { result ≡ read.is_made word.now }
{
    is_name(word) || word == b"full".as_slice()
}

/// Whether it is what `same` replies.
fn is_told(word: &[u8]) -> bool
    ensures { result ≡ read.is_told word.now }
{
    word == b"yes".as_slice() || word == b"no".as_slice()
}

/// Whether an operation with this word may reply so.
#[tactic(auto, unfolding(crate::specs::Words::is_reply))]
pub(crate) fn is_reply(word: &[u8], answer: &[u8]) -> bool
    ensures { result ≡ read.is_reply word.now answer.now }
{
    match word {
        b"new" => is_made(answer),
        b"load" => is_reference(answer),
        b"swap" => is_reference(answer),
        b"store" => is_written(answer),
        b"put" => is_written(answer),
        b"get" => is_datum(answer),
        b"add" => is_datum(answer),
        b"same" => is_told(answer),
        b"move" => is_done(answer),
        b"nil" => is_done(answer),
        b"pause" => is_done(answer),
        b"collect" => is_done(answer),
        _ => false,
    }
}
