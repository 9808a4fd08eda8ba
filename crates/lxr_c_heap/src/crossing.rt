//! That a handle may go to another thread.
ghost use Rattle.lxr_c_heap.specs.Crossing.{HandlesCross};

/// Another thread may use a handle, where the host orders their calls.
pub fn handles_cross()
    ensures { HandlesCross }
{}
