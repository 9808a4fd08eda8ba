//! Numbers as decimal digits, with no sign. `str::parse` alone would take a plus.

ghost use Rattle.std.specs.Prelude.{◌≡◌};
ghost use Rattle.std.specs.Char.{is_ascii_digit};
ghost use Rattle.std.specs.List.{list_all};
ghost use Rattle.lxr_words.specs.Number.{number_of};

// The number that the text writes in decimal digits.
pub(crate) fn number_in(text: &str) -> Option<u64>
    ensures { result ≡ number_of text.now }
{
    if !has_only_digits(text) {
        return None;
    }
    match text.parse::<u64>() {
        Ok(number) => Some(number),
        Err(_) => None,
    }
}

// Whether each byte is a decimal digit.
fn has_only_digits(text: &str) -> bool
    ensures { result ≡ list_all is_ascii_digit text.now }
{
    text.as_bytes().iter().all(|byte| byte.is_ascii_digit())
}
