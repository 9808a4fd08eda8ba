//! How many fields an object may have.

/// The most references, and the most data words, of an object.
pub const MOST_FIELDS: u16 = 1023;
