//! Units: what each step of a tracer does, and where it leads.
ghost use Rattle.std.specs.Prelude.{◌≡◌, ◌+◌, ◌<◌, ◌≤◌, true};
ghost use Rattle.lxr_layout.specs.Places.{IsPlace};
ghost use Rattle.lxr_helper.specs.Indexes.{HaveIndexes};
ghost use Rattle.lxr_helper.specs.Words.{InHeap, IsObject};
ghost use Rattle.lxr_helper.specs.Helpers.{after_in, led};
ghost use Rattle.lxr_trace.specs.Phases.{IsIn, IsScan};
ghost use Rattle.lxr_trace.specs.Steps.{at_reference, scanned, tracer_work};

use crate::phases::{Scan, TraceEnd, TracerPhase};
use crate::words::{counter_in, heap_blocks, is_chosen, line_of_field, remember_room};
use lxr_actor::Action;
use lxr_helper::{
    HelperState, Phase, Unit, bit_look, bit_setting, has_bit, references_in, referent_in,
};
use lxr_layout::{
    Place, REMEMBERED_CURSOR, Regions, TRACING_WORD, block_of, entry_word, field_word, word_of,
};

/// What a tracer has at hand.
type State = HelperState<TracerPhase, TraceEnd>;

impl Phase<TraceEnd> for TracerPhase {
    ghost use Rattle.lxr_trace.specs.Steps.{tracer_work};

    ghost work = { tracer_work };

    #[inline(always)]
    fn resting() -> TracerPhase {
        TracerPhase::Resting
    }

    #[inline(always)]
    fn rests(&self) -> bool {
        matches!(self, TracerPhase::Resting)
    }

    #[inline(always)]
    fn question(place: Option<Place>) -> TracerPhase {
        match place {
            Some(place) => TracerPhase::AsksGray(place),
            None => TracerPhase::FindsNothing,
        }
    }

    #[inline(always)]
    fn is_nothing(end: TraceEnd) -> bool {
        matches!(end, TraceEnd::Nothing)
    }

    #[inline(always)]
    fn action(&self, regions: &Regions) -> Option<Action> {
        match *self {
            TracerPhase::Resting => None,
            TracerPhase::AsksGray(place) => Some(bit_look(regions.grays, place)),
            TracerPhase::AsksObject { place, .. } => Some(bit_look(regions.starts, place)),
            TracerPhase::Marks(place) => Some(bit_setting(regions.marks, place)),
            TracerPhase::ReadsShape(place) => Some(Action::load(regions.heap + word_of(place))),
            TracerPhase::Scans(scan) => Some(Action::load(
                regions.heap + field_word(scan.place, scan.index),
            )),
            TracerPhase::AsksReferent { referent, .. } => {
                Some(bit_look(regions.starts, referent))
            }
            TracerPhase::GraysReferent { referent, .. } => {
                Some(bit_setting(regions.grays, referent))
            }
            TracerPhase::AsksBlock { referent, .. } => {
                Some(Action::load(regions.states + block_of(referent)))
            }
            TracerPhase::ReadsReuse(scan) => Some(Action::load(
                regions.reuse + line_of_field(scan.place, scan.index) / 2,
            )),
            TracerPhase::DrawsNumber { .. } => {
                Some(Action::draw(regions.cursors + REMEMBERED_CURSOR))
            }
            TracerPhase::Enters {
                scan,
                counter,
                number,
            } => Some(Action::store(
                regions.remembered + number as u32,
                entry_word(heap_blocks(regions), counter, scan.place, scan.index),
            )),
            TracerPhase::FindsNothing => Some(Action::load(regions.cursors + TRACING_WORD)),
        }
    }

    ghost use Rattle.lxr_trace.specs.Lawful.{tracer_lawful};

    ghost lawful = { tracer_lawful };
}

impl Unit<TraceEnd> for TracerPhase {
    #[inline(always)]
    fn see(helper: &mut State, old: u64) {
        match helper.phase {
            TracerPhase::Resting => {}
            TracerPhase::AsksGray(place) => see_gray(helper, place, old),
            TracerPhase::AsksObject { place, gray } => {
                helper.see_start(place, gray, old, TracerPhase::Marks(place));
            }
            TracerPhase::Marks(place) => {
                helper.see_claim(place, old, TracerPhase::ReadsShape(place));
            }
            TracerPhase::ReadsShape(place) => see_header(helper, place, old),
            TracerPhase::Scans(scan) => see_reference(helper, scan, old),
            TracerPhase::AsksReferent { scan, referent } => see_referent(
                helper, scan, referent, old,
            ),
            TracerPhase::GraysReferent { scan, referent } => see_grayed(
                helper, scan, referent, old,
            ),
            TracerPhase::AsksBlock { scan, referent } => see_block(helper, scan, referent, old),
            TracerPhase::ReadsReuse(scan) => see_reuse(helper, scan, old),
            TracerPhase::DrawsNumber { scan, counter } => see_draw(helper, scan, counter, old),
            TracerPhase::Enters { scan, .. } => go_behind(helper, scan),
            TracerPhase::FindsNothing => helper.stop(TraceEnd::Nothing),
        }
    }
}

/// A gray bit that was asked for was loaded: the start bit comes next, whatever the gray bit was.
#[inline(always)]
fn see_gray(helper: &mut State, place: Place, word: u64)
    requires { IsIn helper.old.regions (TracerPhase.AsksGray place) }
    ensures { helper.new ≡ after_in tracer_work helper.old (TracerPhase.AsksGray place) word }
{
    let gray = has_bit(place, word);
    helper.go_on(TracerPhase::AsksObject { place, gray });
}

/// The header of the marked object was loaded: its references are scanned from the first on.
#[inline(always)]
fn see_header(helper: &mut State, place: Place, word: u64)
    requires indexes { HaveIndexes helper.old.regions }
    requires may { IsIn helper.old.regions (TracerPhase.ReadsShape place) }
    ensures { helper.new ≡ after_in tracer_work helper.old (TracerPhase.ReadsShape place) word }
{
    let refs = references_in(&helper.regions, place, word);
    go_on_scanning(
        helper,
        Scan {
            place,
            refs,
            index: 0,
            overflowed: false,
        },
    );
}

/// The reference of a scan comes, or the unit is through where that one is behind the last.
#[inline(always)]
fn go_on_scanning(helper: &mut State, scan: Scan)
    requires { IsObject helper.old.regions scan.place scan.refs }
    ensures { helper.new ≡ led tracer_work helper.old (at_reference scan) }
{
    if scan.index < scan.refs {
        helper.go_on(TracerPhase::Scans(scan));
    } else if scan.overflowed {
        helper.stop(TraceEnd::RememberFull);
    } else {
        helper.stop(TraceEnd::Worked);
    }
}

/// The reference of a scan is done with: the next one comes.
#[inline(always)]
fn go_behind(helper: &mut State, scan: Scan)
    requires { IsScan helper.old.regions scan }
    ensures { helper.new ≡ led tracer_work helper.old (scanned scan) }
{
    go_on_scanning(
        helper,
        Scan {
            index: scan.index + 1,
            ..scan
        },
    );
}

/// A reference was loaded: what it refers to is looked at.
#[inline(always)]
fn see_reference(helper: &mut State, scan: Scan, word: u64)
    requires { IsIn helper.old.regions (TracerPhase.Scans scan) }
    ensures { helper.new ≡ after_in tracer_work helper.old (TracerPhase.Scans scan) word }
{
    match referent_in(&helper.regions, word) {
        None => go_behind(helper, scan),
        Some(referent) => helper.go_on(TracerPhase::AsksReferent { scan, referent }),
    }
}

/// The start bit of a referent was loaded: where it is set, an unreclaimed object is there.
#[inline(always)]
fn see_referent(helper: &mut State, scan: Scan, referent: Place, word: u64)
    requires { IsIn helper.old.regions (TracerPhase.AsksReferent scan referent) }
    ensures { helper.new ≡ after_in tracer_work helper.old (TracerPhase.AsksReferent scan referent) word }
{
    if has_bit(referent, word) {
        helper.go_on(TracerPhase::GraysReferent { scan, referent });
    } else {
        go_behind(helper, scan);
    }
}

/// A referent was made gray: it goes into the pocket, unless it was gray before.
#[inline(always)]
fn see_grayed(helper: &mut State, scan: Scan, referent: Place, word: u64)
    requires { IsIn helper.old.regions (TracerPhase.GraysReferent scan referent) }
    ensures { helper.new ≡ after_in tracer_work helper.old (TracerPhase.GraysReferent scan referent) word }
{
    if !has_bit(referent, word) {
        helper.pocket.keep(referent);
    }
    helper.go_on(TracerPhase::AsksBlock { scan, referent });
}

/// The state of a referent's block was loaded: where it is Chosen, the reference is remembered.
#[inline(always)]
fn see_block(helper: &mut State, scan: Scan, referent: Place, word: u64)
    requires { IsIn helper.old.regions (TracerPhase.AsksBlock scan referent) }
    ensures { helper.new ≡ after_in tracer_work helper.old (TracerPhase.AsksBlock scan referent) word }
{
    if is_chosen(word) {
        helper.go_on(TracerPhase::ReadsReuse(scan));
    } else {
        go_behind(helper, scan);
    }
}

/// The reuse counter of the reference's line was loaded: a number of the remembered set is drawn.
#[inline(always)]
fn see_reuse(helper: &mut State, scan: Scan, word: u64)
    requires place { IsPlace scan.place }
    requires may { IsIn helper.old.regions (TracerPhase.ReadsReuse scan) }
    ensures { helper.new ≡ after_in tracer_work helper.old (TracerPhase.ReadsReuse scan) word }
{
    let counter = counter_in(word, line_of_field(scan.place, scan.index));
    helper.go_on(TracerPhase::DrawsNumber { scan, counter });
}

/// A number of the remembered set was drawn: the entry is stored where there is room for it.
#[inline(always)]
fn see_draw(helper: &mut State, scan: Scan, counter: u32, number: u64)
    requires indexes { HaveIndexes helper.old.regions }
    requires may { IsIn helper.old.regions (TracerPhase.DrawsNumber scan counter) }
    ensures { helper.new ≡ after_in tracer_work helper.old (TracerPhase.DrawsNumber scan counter) number }
{
    if number < remember_room(&helper.regions) {
        helper.go_on(TracerPhase::Enters {
            scan,
            counter,
            number,
        });
    } else {
        go_behind(
            helper,
            Scan {
                overflowed: true,
                ..scan
            },
        );
    }
}
