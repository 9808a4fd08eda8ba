//! What a watch is, and the one that looks at nothing.
ghost use Rattle.std.specs.Prelude.{Option, None, List};
ghost use Rattle.lxr_sights.specs.Sights.{Looks, Sight, sight_of};

use lxr_image::Space;

/// A watch looks at the space of a run.
pub trait Watch {
    /// What it has seen so far, where it tells.
    ghost seen: { Self → Option (List Sight) };

    /// Looks at a space. A watch that tells afterwards told before, and has seen this space more.
    fn look(&mut self, space: &Space)
        ensures { Looks (seen self.old) (seen self.new) (sight_of space.now) };
}

/// The watch that looks at nothing and never tells.
#[derive(Clone, Copy, Debug)]
pub struct Unseen;

impl Watch for Unseen {
    ghost seen = { λ _. None };

    fn look(&mut self, _space: &Space) {}
}
