//! Tables over a list of words.
//!
//! A table is a part of one list of 64-bit words that begins at a word `base` and is cut into entries of a few
//! bits: bits, 64 to a word, and reference counts, `COUNTS_IN_WORD` to a word. Contracts see a table as the list of its entries,
//! so each call reads one entry, or gives the list with one entry changed. A call takes a few instructions and
//! neither loops nor branches on what it finds.
//!
//! The words themselves ([`PlainWords`], over [`ClosedWords`]) lie in the memory of a closed table of atomic words. The library closes
//! a table in place and opens one only by copying words in. Here a table is made of a closed one where it lies, so that words which are
//! used by turns from threads and from one owner are never copied. That takes seven small functions that are unsafe inside. Four
//! (`closed_fields`, `closed_rows`, `reserving`) read a value as that of other types, laid out alike; their proofs compare the layouts, so a
//! library that lays its fields otherwise is refused by the check. Three of `memory` keep a value that is read so from being dropped, or
//! reserve a row of no places.
#![tactic(auto)]

mod bits;
mod closed;
mod closed_fields;
mod closed_rows;
mod counts;
mod key;
mod lanes;
mod memory;
mod pages;
mod reserving;
mod words;

pub use bits::{bit, clear_bit, set_bit};
pub use closed::ClosedWords;
pub use counts::{COUNTS_IN_WORD, Lowered, Raised, four, lower_four, raise_four, set_four};
pub use key::KeyFrom;
pub use lanes::{is_uncounted, uncounted_lines, zero_lanes};
pub use words::{PlainWords, Words};
