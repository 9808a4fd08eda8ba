//! Numbers and registers as words.
ghost use Rattle.std.specs.Prelude.{◌≡◌, ◌+◌, ◌-◌, ◌*◌, ◌^◌, ◌<◌, IsTrue};
ghost use Rattle.std.specs.Char.{is_ascii_digit};
ghost use Rattle.std.specs.Option.{SomeIff};
ghost use Rattle.lxr_text_script.specs.Numbers as value;

use crate::SCRIPT_REGISTERS;

/// A value with one more digit, if the byte is one and the new value is below 2^64.
fn with_digit(value: u64, byte: u8) -> Option<u64>
    ensures { SomeIff result (IsTrue (is_ascii_digit byte) × (value * 10 + (byte - 48) < 2 ^ 64)) (value * 10 + (byte - 48)) }
{
    if !byte.is_ascii_digit() {
        return None;
    }
    value.checked_mul(10)?.checked_add(u64::from(byte - b'0'))
}

/// The value of a number: one or more decimal digits, below 2^64.
pub fn number_of(word: &[u8]) -> Option<u64>
    ensures { result ≡ value.number_of word.now }
{
    if word.is_empty() {
        return None;
    }
    let mut value = 0;
    for byte in word {
        value = with_digit(value, *byte)?;
    }
    Some(value)
}

/// The register of scripts that has this number.
fn register_numbered(number: u64) -> Option<u8>
    ensures { result ≡ value.register_numbered number }
{
    if number < u64::from(SCRIPT_REGISTERS) {
        Some(number as u8)
    } else {
        None
    }
}

/// The number of a register: `r` followed by the number of one that scripts have.
pub(crate) fn register_of(word: &[u8]) -> Option<u8>
    ensures { result ≡ value.register_of word.now }
{
    if word.is_empty() {
        return None;
    }
    if word[0] != b'r' {
        return None;
    }
    register_numbered(number_of(&word[1..])?)
}
