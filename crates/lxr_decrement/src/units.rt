//! Units: what each step of a decrementer does, and where it leads.
ghost use Rattle.std.specs.Prelude.{◌≡◌, ◌+◌, true};
ghost use Rattle.lxr_layout.specs.declared.limits.Regions.{Regions};
ghost use Rattle.lxr_helper.specs.Indexes.{HaveIndexes};
ghost use Rattle.lxr_helper.specs.Words.{InHeap};
ghost use Rattle.lxr_helper.specs.Helpers.{after_in, goes_to, keeping, led};
ghost use Rattle.lxr_decrement.specs.Phases.{IsHandled, IsIn};
ghost use Rattle.lxr_decrement.specs.Steps.{count_look, decrementer_work, handled, keeps_in, lowering};

use crate::phases::{DecEnd, DecrementerPhase, Handling};
use crate::words::{count_in, listed_in, shift_of};
use lxr_actor::{Action, Kindred};
use lxr_helper::{
    HelperState, Phase, Unit, bit_look, bit_setting, has_bit, references_in, referent_in,
};
use lxr_layout::{
    DECREMENT_COUNT, DECREMENT_CURSOR, Place, Regions, STUCK, TRACING_WORD, field_word, granule_of,
    word_of,
};
use lxr_tables::COUNTS_IN_WORD;

/// What a decrementer has at hand.
type State = HelperState<DecrementerPhase, DecEnd>;

impl Phase<DecEnd> for DecrementerPhase {
    ghost use Rattle.lxr_decrement.specs.Steps.{decrementer_work};

    ghost work = { decrementer_work };

    #[inline(always)]
    fn resting() -> DecrementerPhase {
        DecrementerPhase::Resting
    }

    #[inline(always)]
    fn rests(&self) -> bool {
        matches!(self, DecrementerPhase::Resting)
    }

    #[inline(always)]
    fn question(place: Option<Place>) -> DecrementerPhase {
        match place {
            Some(place) => DecrementerPhase::AsksCount(place),
            None => DecrementerPhase::AsksCursor,
        }
    }

    #[inline(always)]
    fn is_nothing(end: DecEnd) -> bool {
        matches!(end, DecEnd::Nothing)
    }

    #[inline(always)]
    fn action(&self, regions: &Regions) -> Option<Action> {
        let cursors = regions.cursors;
        match *self {
            DecrementerPhase::Resting => None,
            DecrementerPhase::AsksCount(place) => Some(count_look(regions, place)),
            DecrementerPhase::AsksStart { place, .. } => Some(bit_look(regions.starts, place)),
            DecrementerPhase::Claims(place) => Some(bit_setting(regions.dones, place)),
            DecrementerPhase::ReadsHeader(place) => {
                Some(Action::load(regions.heap + word_of(place)))
            }
            DecrementerPhase::AsksTracing { .. } => Some(Action::load(cursors + TRACING_WORD)),
            DecrementerPhase::ReadsReference { place, index, .. } => {
                Some(Action::load(regions.heap + field_word(place, index)))
            }
            DecrementerPhase::MakesGray { referent, .. } => Some(bit_setting(
                regions.grays,
                referent,
            )),
            DecrementerPhase::AsksLowered { referent, .. } => Some(count_look(regions, referent)),
            DecrementerPhase::Lowers { referent, .. } => Some(lowering(regions, referent)),
            DecrementerPhase::AsksCursor => Some(Action::load(cursors + DECREMENT_CURSOR)),
            DecrementerPhase::AsksNumber { .. } => Some(Action::load(cursors + DECREMENT_COUNT)),
            DecrementerPhase::Draws { .. } => Some(Action::draw(cursors + DECREMENT_CURSOR)),
            DecrementerPhase::ReadsEntry { number } => {
                Some(Action::load(regions.decs + number as u32))
            }
        }
    }

    ghost use Rattle.lxr_decrement.specs.Lawful.{decrementer_lawful};

    ghost lawful = { decrementer_lawful };
}

impl Unit<DecEnd> for DecrementerPhase {
    #[inline(always)]
    fn see(helper: &mut State, old: u64) {
        match helper.phase {
            DecrementerPhase::Resting => {}
            DecrementerPhase::AsksCount(place) => see_count(helper, place, old),
            DecrementerPhase::AsksStart { place, uncounted } => {
                helper.see_start(place, uncounted, old, DecrementerPhase::Claims(place));
            }
            DecrementerPhase::Claims(place) => {
                helper.see_claim(place, old, DecrementerPhase::ReadsHeader(place));
            }
            DecrementerPhase::ReadsHeader(place) => see_header(helper, place, old),
            DecrementerPhase::AsksTracing { place, refs } => see_tracing(helper, place, refs, old),
            DecrementerPhase::ReadsReference {
                place,
                refs,
                index,
                traced,
            } => see_reference(helper, place, refs, index, traced, old),
            DecrementerPhase::MakesGray {
                place,
                refs,
                index,
                referent,
            } => see_gray(helper, place, refs, index, referent),
            DecrementerPhase::AsksLowered { referent, then } => {
                see_lowered(helper, referent, then, old);
            }
            DecrementerPhase::Lowers { referent, then } => {
                keep_dead(helper, referent, then, old);
                go_on_handling(helper, then);
            }
            DecrementerPhase::AsksCursor => {
                helper.go_on(DecrementerPhase::AsksNumber { cursor: old });
            }
            DecrementerPhase::AsksNumber { cursor } => see_number(helper, cursor, old),
            DecrementerPhase::Draws { count } => see_draw(helper, count, old),
            DecrementerPhase::ReadsEntry { number } => see_entry(helper, number, old),
        }
    }
}

/// A load of the count at a place.
#[inline(always)]
fn count_look(regions: &Regions, place: Place) -> Action
    requires indexes { HaveIndexes regions.now }
    requires place { InHeap regions.now place }
    ensures { result ≡ count_look regions.now place }
{
    Action::load(regions.counts + granule_of(place) / COUNTS_IN_WORD as u32)
}

/// The lowering of the count at a place by one.
#[inline(always)]
fn lowering(regions: &Regions, place: Place) -> Action
    requires indexes { HaveIndexes regions.now }
    requires place { InHeap regions.now place }
    ensures { result ≡ lowering regions.now place }
{
    let granule = granule_of(place);
    Action {
        kind: Kindred::Sub,
        word: regions.counts + granule / COUNTS_IN_WORD as u32,
        operand: 1_u64 << shift_of(granule),
    }
}

/// A count that was asked for was loaded: the start bit comes next, whatever the count was.
#[inline(always)]
fn see_count(helper: &mut State, place: Place, word: u64)
    requires { IsIn helper.old.regions (DecrementerPhase.AsksCount place) }
    ensures { helper.new ≡ after_in decrementer_work helper.old (DecrementerPhase.AsksCount place) word }
{
    let uncounted = count_in(place, word) == 0;
    helper.go_on(DecrementerPhase::AsksStart { place, uncounted });
}

/// The header of the claimed object was loaded.
#[inline(always)]
fn see_header(helper: &mut State, place: Place, word: u64)
    requires indexes { HaveIndexes helper.old.regions }
    requires may { IsIn helper.old.regions (DecrementerPhase.ReadsHeader place) }
    ensures { helper.new ≡ after_in decrementer_work helper.old (DecrementerPhase.ReadsHeader place) word }
{
    let refs = references_in(&helper.regions, place, word);
    helper.go_on(DecrementerPhase::AsksTracing { place, refs });
}

/// The tracing word was loaded: the object's references are handled, the first of them next.
#[inline(always)]
fn see_tracing(helper: &mut State, place: Place, refs: u16, word: u64)
    requires { IsIn helper.old.regions (DecrementerPhase.AsksTracing place refs) }
    ensures { helper.new ≡ after_in decrementer_work helper.old (DecrementerPhase.AsksTracing place refs) word }
{
    go_on_handling(
        helper,
        Handling::References {
            place,
            refs,
            next: 0,
            traced: word == 1,
        },
    );
}

/// A reference or an entry is done with: the next reference comes, or the unit is through.
#[inline(always)]
fn go_on_handling(helper: &mut State, then: Handling)
    requires { IsHandled helper.old.regions «then» }
    ensures { helper.new ≡ led decrementer_work helper.old (handled «then») }
{
    match then {
        Handling::References {
            place,
            refs,
            next,
            traced,
        } if next < refs => helper.go_on(DecrementerPhase::ReadsReference {
            place,
            refs,
            index: next,
            traced,
        }),
        _ => helper.stop(DecEnd::Worked),
    }
}

/// A reference was loaded: what it refers to is lowered, and before that made gray where a trace runs.
#[inline(always)]
fn see_reference(helper: &mut State, place: Place, refs: u16, index: u16, traced: bool, word: u64)
    requires { IsIn helper.old.regions (DecrementerPhase.ReadsReference place refs index traced) }
    ensures { helper.new ≡ after_in decrementer_work helper.old (DecrementerPhase.ReadsReference place refs index traced) word }
{
    let then = Handling::References {
        place,
        refs,
        next: index + 1,
        traced,
    };
    match referent_in(&helper.regions, word) {
        None => go_on_handling(helper, then),
        Some(referent) if traced => helper.go_on(DecrementerPhase::MakesGray {
            place,
            refs,
            index,
            referent,
        }),
        Some(referent) => helper.go_on(DecrementerPhase::AsksLowered { referent, then }),
    }
}

/// What a reference refers to was made gray, and is lowered now.
#[inline(always)]
fn see_gray(helper: &mut State, place: Place, refs: u16, index: u16, referent: Place)
    requires { IsIn helper.old.regions (DecrementerPhase.MakesGray place refs index referent) }
    ensures { helper.new ≡ led decrementer_work helper.old (goes_to (DecrementerPhase.AsksLowered referent (Handling.References place refs (index + 1) true))) }
{
    helper.go_on(DecrementerPhase::AsksLowered {
        referent,
        then: Handling::References {
            place,
            refs,
            next: index + 1,
            traced: true,
        },
    });
}

/// The count of what is to be lowered was loaded: one that is 0 or stuck is left as it is.
#[inline(always)]
fn see_lowered(helper: &mut State, referent: Place, then: Handling, word: u64)
    requires { IsIn helper.old.regions (DecrementerPhase.AsksLowered referent «then») }
    ensures { helper.new ≡ after_in decrementer_work helper.old (DecrementerPhase.AsksLowered referent «then») word }
{
    let count = count_in(referent, word);
    if count == 0 || count == u64::from(STUCK) {
        go_on_handling(helper, then);
    } else {
        helper.go_on(DecrementerPhase::Lowers { referent, then });
    }
}

/// A count was lowered: an object whose last reference is gone goes into the pocket, while there is room.
#[inline(always)]
fn keep_dead(helper: &mut State, referent: Place, then: Handling, word: u64)
    requires { InHeap helper.old.regions referent }
    ensures { helper.new ≡ keeping decrementer_work helper.old (keeps_in (DecrementerPhase.Lowers referent «then») word) }
{
    if count_in(referent, word) == 1 {
        helper.pocket.keep(referent);
    }
}

/// The number of decrements was loaded: a number is drawn where the cursor is below it.
#[inline(always)]
fn see_number(helper: &mut State, cursor: u64, word: u64)
    requires indexes { HaveIndexes helper.old.regions }
    requires may { IsIn helper.old.regions (DecrementerPhase.AsksNumber cursor) }
    ensures { helper.new ≡ after_in decrementer_work helper.old (DecrementerPhase.AsksNumber cursor) word }
{
    let count = listed_in(&helper.regions, word);
    if cursor < count {
        helper.go_on(DecrementerPhase::Draws { count });
    } else {
        helper.stop(DecEnd::Nothing);
    }
}

/// A number was drawn: its entry is read where there is one.
#[inline(always)]
fn see_draw(helper: &mut State, count: u64, number: u64)
    requires { IsIn helper.old.regions (DecrementerPhase.Draws count) }
    ensures { helper.new ≡ after_in decrementer_work helper.old (DecrementerPhase.Draws count) number }
{
    if number < count {
        helper.go_on(DecrementerPhase::ReadsEntry { number });
    } else {
        helper.stop(DecEnd::Nothing);
    }
}

/// An entry was loaded: what it refers to is lowered.
#[inline(always)]
fn see_entry(helper: &mut State, number: u64, word: u64)
    requires { IsIn helper.old.regions (DecrementerPhase.ReadsEntry number) }
    ensures { helper.new ≡ after_in decrementer_work helper.old (DecrementerPhase.ReadsEntry number) word }
{
    match referent_in(&helper.regions, word) {
        None => helper.stop(DecEnd::Worked),
        Some(referent) => helper.go_on(DecrementerPhase::AsksLowered {
            referent,
            then: Handling::Entry,
        }),
    }
}
