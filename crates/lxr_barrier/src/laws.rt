//! What holds of every schedule. The function does nothing: its contract is the law, and whoever calls it knows it.
ghost use Rattle.lxr_barrier.specs.Laws.{StoresKeepFirstValues};

/// Any number of storers, in any order of their steps, keep for each reference its first value, in its word or in
/// exactly one log entry.
pub fn stores_keep_first_values()
    ensures { StoresKeepFirstValues }
{}
