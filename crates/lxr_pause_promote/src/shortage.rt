//! What is known of lines that are wanting.
ghost use Rattle.std.specs.Prelude.{◌≡◌, ◌↔◌, IfNone, IfSome, IsNone};
ghost use Rattle.lxr_layout.specs.Objects.{FitsShape};
ghost use Rattle.lxr_image.specs.declared.space.Space.{Space as SpaceOf};
ghost use Rattle.lxr_image.specs.Spaces.{IsSpace};
ghost use Rattle.lxr_blocks.specs.Placing.{IsFull, IsPlaced, IsRest};
ghost use Rattle.lxr_pause_promote.specs.Shortages.{IsShortage};

use lxr_blocks::place_now;
use lxr_image::Space;
use lxr_layout::{LINES_IN_BLOCK, Name, Place, Shape, lines_of, words_of};

/// How many free lines in a row are known to be wanting: outside Chosen blocks there are nowhere so many.
///
/// While a pause copies objects, lines only become fewer. So what a search has found wanting stays so until the pause is over, and
/// each further object of as many lines costs no search. Without it each of a heap's objects would cost a look at every block
/// once the heap is full.
#[derive(Clone, Copy, Debug, PartialEq, Eq)]
pub struct Shortage {
    lines: u32,
}

impl Shortage {
    /// Nothing is known to be wanting but more lines than a block has.
    pub fn unknown() -> Shortage
        ensures { (s : SpaceOf) → IsShortage s result }
    {
        Shortage {
            lines: LINES_IN_BLOCK + 1,
        }
    }

    /// Places a new object as `place_now` does, but makes no search that is known to be in vain.
    pub(crate) fn place(&mut self, space: &mut Space, name: Name, shape: Shape) -> Option<Place>
        requires space { IsSpace space.old }
        requires shape { FitsShape shape }
        requires rest { IsRest space.old }
        requires short { IsShortage space.old self.old }
        ensures none { IsNone result ↔ IsFull space.old shape }
        ensures unchanged { IfNone result (space.new ≡ space.old) }
        ensures placed { IfSome result (λ place. IsPlaced space.old space.new name shape place) }
        ensures short { IsShortage space.new self.new }
    {
        let lines = lines_of(shape);
        if self.lines <= lines && space.rest_end - space.rest_next < words_of(shape) / 2 {
            return None;
        }
        let placed = place_now(space, name, shape);
        if placed.is_none() {
            self.lines = lines;
        }
        placed
    }
}
