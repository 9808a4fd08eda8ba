//! Where a decrementer's unit is, and how units end.

use lxr_layout::Place;

/// How a unit ended.
#[derive(Clone, Copy, Debug, PartialEq, Eq)]
pub enum DecEnd {
    /// An entry of the list of decrements was drawn and lowered, or a dead object was claimed and handled whole.
    Worked,
    /// The list had no entry left, and no place of the pocket needed work.
    Nothing,
}

/// Whose references are lowered.
#[derive(Clone, Copy, Debug, PartialEq, Eq)]
pub enum Handling {
    /// Nobody's: an entry of the list of decrements is lowered.
    Entry,
    /// Those of the dead object at `place`, which has so many: `next` comes next. `traced` tells whether a trace runs.
    References {
        place: Place,
        refs: u16,
        next: u16,
        traced: bool,
    },
}

/// Where a unit is: which step is next, with what the unit has learned.
#[derive(Clone, Copy, Debug, PartialEq, Eq)]
pub enum DecrementerPhase {
    /// Between units. The next step begins one: with the pocket's last place, or else with the cursor of decrements. There
    /// is none where the decrementer is finished for the epoch.
    Resting,
    /// Loads the count at a place that was in the pocket.
    AsksCount(Place),
    /// Loads the start bit. `uncounted` tells whether the count was 0.
    AsksStart {
        place: Place,
        uncounted: bool,
    },
    /// The count was 0 and the start bit set. Claims the dead object by its done bit.
    Claims(Place),
    /// The done bit was clear. Loads the header.
    ReadsHeader(Place),
    /// Loads the tracing word.
    AsksTracing {
        place: Place,
        refs: u16,
    },
    /// Loads reference `index`.
    ReadsReference {
        place: Place,
        refs: u16,
        index: u16,
        traced: bool,
    },
    /// A trace runs. Makes gray what reference `index` refers to.
    MakesGray {
        place: Place,
        refs: u16,
        index: u16,
        referent: Place,
    },
    /// Loads the count of what is to be lowered.
    AsksLowered {
        referent: Place,
        then: Handling,
    },
    /// The count was neither 0 nor stuck. Lowers it by one.
    Lowers {
        referent: Place,
        then: Handling,
    },
    /// No place of the pocket needs work. Loads the cursor of decrements.
    AsksCursor,
    /// Loads the number of decrements.
    AsksNumber {
        cursor: u64,
    },
    /// Draws a number from the cursor of decrements, of which there are `count`.
    Draws {
        count: u64,
    },
    /// Loads the entry of this number.
    ReadsEntry {
        number: u64,
    },
}
