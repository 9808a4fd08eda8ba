//! That what a program has of a heap that threads share may go to another thread.
ghost use Rattle.lxr_c_shared.specs.Crossing.{HoldersCross};

/// Another thread may use a holder, where the host orders their calls.
pub fn holders_cross()
    ensures { HoldersCross }
{}
