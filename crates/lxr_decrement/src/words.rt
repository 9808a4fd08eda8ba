//! Words: what a decrementer makes of those about counts and the list of decrements.
ghost use Rattle.std.specs.Prelude.{◌≡◌, ◌*◌, ◌%◌, ◌^◌, ◌<◌, ◌≤◌};
ghost use Rattle.lxr_layout.specs.declared.TheConstants.{COUNT_BITS};
ghost use Rattle.lxr_tables.specs.declared.counts.TheConstants.{COUNTS_IN_WORD};
ghost use Rattle.lxr_decrement.specs.Words.{count_in, listed_in};

use lxr_layout::{COUNT_BITS, Place, Regions, STUCK, granule_of};
use lxr_tables::COUNTS_IN_WORD;

/// The lowest bit of the count of a granule in its word.
#[inline(always)]
pub(crate) fn shift_of(granule: u32) -> u32
    ensures shift { result ≡ COUNT_BITS * (granule % COUNTS_IN_WORD) }
    ensures within { result < 64 }
{
    COUNT_BITS * (granule % COUNTS_IN_WORD as u32)
}

/// The count at a place, in its word of the table of counts.
#[inline(always)]
pub(crate) fn count_in(place: Place, word: u64) -> u64
    requires { 1 ≤ place.0 }
    ensures { result ≡ count_in place word }
{
    word >> shift_of(granule_of(place)) & u64::from(STUCK)
}

/// How many decrements are listed, by the word that tells their number.
#[inline(always)]
pub(crate) fn listed_in(regions: &Regions, word: u64) -> u64
    requires { regions.now.remembered < 2 ^ 32 }
    ensures { result ≡ listed_in regions.now word }
{
    let end = u64::from(regions.remembered);
    if word <= end && u64::from(regions.decs) + word <= end {
        word
    } else {
        0
    }
}
