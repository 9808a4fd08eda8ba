//! What the reading of the words comes to, as laws that the definitions keep. Each is the contract
//! of a function that does nothing.

ghost use Rattle.lxr_words.specs.Grammar.{AcceptsCommandLines, ReadsSpellingsAlike};

/// The words are accepted exactly where the grammar of command lines spells them, with its options.
pub fn accepts_command_lines()
    ensures { AcceptsCommandLines }
{}

/// `--name value` and `--name=value` are read alike, wherever they stand among the words.
pub fn reads_spellings_alike()
    ensures { ReadsSpellingsAlike }
{}
