//! Whether a history is legal and whether it belongs to a script are computed.
ghost use Rattle.lxr_model_decide.specs.Laws.{BelongingIsComputed, LegalityIsComputed};

/// A history in which names are never renewed is legal exactly where each item may stand by its tests and computing its
/// replies and reports again gives it back.
pub fn legality()
    ensures { LegalityIsComputed }
{}

/// A history belongs to a script exactly where its calls are the script's operations and its pauses pass their
/// tests.
pub fn belonging()
    ensures { BelongingIsComputed }
{}
