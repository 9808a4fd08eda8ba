//! Laws of free lines, each the contract of a function that does nothing.
ghost use Rattle.lxr_blocks.specs.Kept.{FreeLineIsTold, KeptLineIsTaken, PlacedIsBeside};

/// A line is free exactly where it isn't handed out and each count on it is 0.
pub fn free_line_is_told()
    ensures { FreeLineIsTold }
{}

/// A line that an object keeps isn't free, so it isn't handed out.
pub fn kept_line_is_taken()
    ensures { KeptLineIsTaken }
{}

/// An object is placed on granules that nothing kept, and keeps them from then on.
pub fn placed_is_beside()
    ensures { PlacedIsBeside }
{}
