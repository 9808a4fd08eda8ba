//! Why no line is handed out while an unreclaimed object overlaps it.
//!
//! An object's first line has its count, and each further line has its line mark. Where neither is 0, no such line is
//! free, and only free lines are handed out.
ghost use Rattle.lxr_full.specs.Kept.{CountedKeepLines};

/// At a safepoint where no unreclaimed object has count 0, no line that one of them overlaps may be handed out.
pub fn counted_keep_lines()
    ensures { CountedKeepLines }
{}
