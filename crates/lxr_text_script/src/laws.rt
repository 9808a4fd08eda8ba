//! What the grammar of scripts says of the reader, as laws.
ghost use Rattle.std.specs.Prelude.{◌≡◌, ℕ, ◌≤◌, List, length};
ghost use Rattle.lxr_graph.specs.declared.Op.{Op};
ghost use Rattle.lxr_text_script.specs.Grammar.{Spells};
ghost use Rattle.lxr_text_script.specs.Limits.{IsScript, most_bytes};
ghost use Rattle.lxr_text_script.specs.Lines.{Text, items_from, texts};
ghost use Rattle.lxr_text_script.specs.Reading.{reading_of};
ghost use Rattle.lxr_text_script.specs.Spelling.{spelling_of};

/// What is accepted is not too long, is spelled in the grammar, line by line, and is within the limits.
pub fn accepted_is_spelled()
    ensures { (text : Text) (threads : List (List Op)) → reading_of text ≡ Ok threads → (length text ≤ most_bytes) × Spells (texts (items_from 1 text)) threads × IsScript threads }
{}

/// What is not too long, is spelled in the grammar and is within the limits is accepted as what it spells.
pub fn spelled_is_accepted()
    ensures { (text : Text) (threads : List (List Op)) → length text ≤ most_bytes → Spells (texts (items_from 1 text)) threads → IsScript threads → reading_of text ≡ Ok threads }
{}

/// Each script within the limits is read again from its canonical spelling, where that has at most as many bytes as a script
/// may have.
pub fn spelling_is_read_again()
    ensures { (threads : List (List Op)) → IsScript threads → length (spelling_of threads) ≤ most_bytes → reading_of (spelling_of threads) ≡ Ok threads }
{}
