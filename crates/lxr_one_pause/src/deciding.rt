//! Which kind a pause is.
ghost use Rattle.std.specs.Prelude.{◌≡◌, ◌↔◌, Bool, Option, IsTrue};
ghost use Rattle.std.specs.Option.{option_map};
ghost use Rattle.lxr_image.specs.Spaces.{IsSpace, tables_of};
ghost use Rattle.lxr_image_search.specs.Search.{AvoidsFree};
ghost use Rattle.lxr_image_search.specs.declared.Wanted.TheVariants.{ToScan};
ghost use Rattle.lxr_model.specs.Moments.{Trace};
ghost use Rattle.lxr_pause_trace_laws.specs.Laws.{AllGrayAreMarked};
ghost use Rattle.lxr_one_pause.specs.Deciding.{GraysLieInHeap, IsPace, TellsOfMarks, kind_along as is_along, kind_apart as is_apart, kind_of};

use crate::{Ask, Pace};
use lxr_graph::Kind;
use lxr_image::Space;
use lxr_image_search::{Wanted, next_wanted};

/// Whether nothing is left to trace: all that is gray is marked. It looks at the bits of 64 granules at once, and no further than
/// the first that is gray and unmarked.
fn all_marked(space: &Space) -> bool
    requires space { IsSpace space.now }
    requires heap { GraysLieInHeap space.now }
    requires free { AvoidsFree (tables_of space.now) ToScan }
    ensures { IsTrue result ↔ AllGrayAreMarked (tables_of space.now) }
{
    match next_wanted(space, Wanted::ToScan, 0) {
        Some(_) => false,
        None => true,
    }
}

/// The kind of an ordinary pause while a trace runs that began at the pause of this number: it ends once nothing is left to
/// trace, and at its bound.
fn kind_along(space: &Space, pace: Pace, began: u32) -> Kind
    requires space { IsSpace space.now }
    requires heap { GraysLieInHeap space.now }
    requires free { AvoidsFree (tables_of space.now) ToScan }
    ensures { (trace : Trace) (traced : Bool) → trace.began ≡ began → (IsTrue traced ↔ AllGrayAreMarked (tables_of space.now)) → result ≡ is_along pace space.now.report.number trace traced }
{
    let bound = u64::from(began) + u64::from(pace.within);
    if bound <= u64::from(space.report.number) || all_marked(space) {
        Kind::End(began)
    } else {
        Kind::Plain
    }
}

/// The kind of an ordinary pause of this number where no trace runs: one begins at each multiple of the pace, and at none by 0.
fn kind_apart(number: u32, pace: Pace) -> Kind
    ensures { result ≡ is_apart pace number }
{
    if pace.trace != 0 && number % pace.trace == 0 {
        Kind::Begin
    } else {
        Kind::Plain
    }
}

/// The kind of the pause whose report has begun and whose counting is done.
pub(crate) fn decide_kind(space: &Space, ask: Ask, pace: Pace) -> Kind
    requires space { IsSpace space.now }
    requires heap { GraysLieInHeap space.now }
    requires free { AvoidsFree (tables_of space.now) ToScan }
    requires pace { IsPace pace }
    ensures { (trace : Option Trace) (traced : Bool) → space.now.trace ≡ option_map (λ (trace : Trace). trace.began) trace → TellsOfMarks (tables_of space.now) trace traced
        → result ≡ kind_of ask pace space.now.report.number trace traced }
{
    match ask {
        Ask::Collect => Kind::Collect,
        Ask::Trace => match space.trace {
            Some(began) => kind_along(space, pace, began),
            None => Kind::Begin,
        },
        Ask::Ordinary => match space.trace {
            Some(began) => kind_along(space, pace, began),
            None => kind_apart(space.report.number, pace),
        },
    }
}
