//! A case cut into its parts. The bytes are looked at from left to right, and nothing is copied.
ghost use Rattle.std.specs.Prelude.{◌≡◌, ℕ, ◌+◌, ◌<◌, ◌≤◌, ◌↔◌, IsTrue, MatchOption, length};
ghost use Rattle.lxr_case.specs.Parts.{ArePartsOf, BeginsLine, IsDivided, IsFirstLineAt, IsLineAt};

/// The line before an output.
const OUTPUT_LINE: &[u8] = b"== output\n";

/// The line before an order.
const ORDER_LINE: &[u8] = b"== order\n";

/// The three parts of a case.
#[derive(Clone, Copy)]
pub(crate) struct Parts<'a> {
    pub(crate) script: &'a [u8],
    pub(crate) output: &'a [u8],
    pub(crate) order: &'a [u8],
}

/// Whether a line begins at a place of a text.
fn begins_line(text: &[u8], at: usize) -> bool
    requires { at ≤ length text.now }
    ensures { IsTrue result ↔ BeginsLine text.now at }
{
    at == 0 || text[at - 1] == b'\n'
}

/// Whether a line of exactly these bytes, its line feed among them, stands at a place of a text.
fn is_line_at(line: &[u8], text: &[u8], at: usize) -> bool
    requires { at ≤ length text.now }
    ensures { IsTrue result ↔ IsLineAt line.now text.now at }
{
    begins_line(text, at) && text[at..].starts_with(line)
}

/// Where the first line of exactly these bytes stands.
fn first_line(line: &[u8], text: &[u8]) -> Option<usize>
    requires { 0 < length line.now }
    ensures { MatchOption result ((at : ℕ) → ¬ IsLineAt line.now text.now at) (λ at. IsFirstLineAt line.now text.now at) }
{
    for at in 0..text.len() {
        if is_line_at(line, text, at) {
            return Some(at);
        }
    }
    None
}

/// Where the first line of each sort stands, where they stand in order.
fn divide(bytes: &[u8]) -> Option<(usize, usize)>
    ensures { MatchOption result ((output order : ℕ) → ¬ IsDivided bytes.now output order) (λ at. IsDivided bytes.now at.0 at.1) }
{
    let output = first_line(OUTPUT_LINE, bytes)?;
    let order = first_line(ORDER_LINE, bytes)?;
    if output < order {
        Some((output, order))
    } else {
        None
    }
}

/// The parts of a case, where it has them.
pub(crate) fn cut(bytes: &[u8]) -> Option<Parts<'_>>
    ensures { MatchOption result ((output order : ℕ) → ¬ IsDivided bytes.now output order) (λ parts. ArePartsOf bytes.now parts.script.now parts.output.now parts.order.now) }
{
    let (output, order) = divide(bytes)?;
    Some(Parts {
        script: &bytes[..output],
        output: &bytes[output + OUTPUT_LINE.len()..order],
        order: &bytes[order + ORDER_LINE.len()..],
    })
}
