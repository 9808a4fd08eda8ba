//! The headers of what is left, under new names.
ghost use Rattle.std.specs.Prelude.{◌*◌, List};
ghost use Rattle.lxr_layout.specs.declared.TheConstants.{GRANULES_IN_BLOCK};
ghost use Rattle.lxr_layout.specs.declared.Name.{Name as NameOf};
ghost use Rattle.lxr_layout.specs.declared.Shape.{Shape as ShapeOf};
ghost use Rattle.lxr_layout.specs.Objects.{header_word};
ghost use Rattle.lxr_image.specs.ImageLaws.{with_heap};
ghost use Rattle.lxr_image.specs.Spaces.{Turns, tables_of};
ghost use Rattle.lxr_invariant.specs.AbstractState.{AbstractState};
ghost use Rattle.lxr_graph.specs.Renewing.{renewed_name};
ghost use Rattle.lxr_renew.specs.Heads.{IsHead, RenewsHeads};
ghost use Rattle.lxr_renew.specs.Renewing.{MayRenew};

use lxr_image::Space;
use lxr_image_search::{Wanted, next_wanted};
use lxr_large_model::renewed;
use lxr_layout::{Header, pack, place_at, unpack, word_of};

/// Writes the header of the object that begins at a granule, under its new name.
fn renew_head(space: &mut Space, granule: u32)
    requires { (ns : List NameOf) × (n : NameOf) × (shape : ShapeOf) × IsHead space.old granule ns n shape }
    ensures { (ns : List NameOf) (n : NameOf) (shape : ShapeOf) → IsHead space.old granule ns n shape
        → Turns space.old space.new (with_heap (tables_of space.old) (2 * granule) (header_word (renewed_name ns n) shape)) }
{
    let word = word_of(place_at(granule));
    if let Header::Object(name, shape) = unpack(space.heap_word(word)) {
        let name = renewed(space.report.told.as_slice(), name);
        space.put_heap(word, pack(name, shape));
    }
}

/// Writes the headers of all that is left, under their new names.
pub(crate) fn renew_heads(space: &mut Space)
    requires { (g : AbstractState) × (ns : List NameOf) × MayRenew space.old g ns }
    ensures { (g : AbstractState) (ns : List NameOf) → MayRenew space.old g ns → RenewsHeads space.old space.new g ns (GRANULES_IN_BLOCK * space.old.limits.blocks) }
{
    let mut from = 0;
    while let Some(granule) = next_wanted(space, Wanted::Object, from) {
        renew_head(space, granule);
        from = granule + 1;
    }
}
