//! The key that a table is opened with.
ghost use Rattle.std.specs.Prelude.{ℕ, List};

/// How a key is made, for contracts alone: of what the one who opens the table knows, and of the words that it has.
pub trait KeyFrom<B, K> {
    /// The key.
    ghost key: { B → List ℕ → K };
}
