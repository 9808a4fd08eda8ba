//! Where a tracer's unit is, and how units end.

use lxr_layout::Place;

/// How a unit ended.
#[derive(Clone, Copy, Debug, PartialEq, Eq)]
pub enum TraceEnd {
    /// A gray object was marked and scanned whole.
    Worked,
    /// No place of the pocket needed work.
    Nothing,
    /// As `Worked`, but the remembered set had no room for one of the object's references.
    RememberFull,
}

/// Which reference of an object is scanned.
#[derive(Clone, Copy, Debug, PartialEq, Eq)]
pub struct Scan {
    /// The object.
    pub place: Place,
    /// How many references it has.
    pub refs: u16,
    /// The reference, counted from 0.
    pub index: u16,
    /// Whether the remembered set had no room for an earlier one.
    pub overflowed: bool,
}

/// Where a unit is: which step is next, with what the unit has learned.
#[derive(Clone, Copy, Debug, PartialEq, Eq)]
pub enum TracerPhase {
    /// Between units. The next step begins one: with the pocket's last place, or else with the tracing word. There is none
    /// where the tracer is finished for the epoch.
    Resting,
    /// Loads the gray bit at a place that was in the pocket.
    AsksGray(Place),
    /// Loads the start bit. `gray` tells whether the gray bit was set.
    AsksObject {
        place: Place,
        gray: bool,
    },
    /// The gray bit and the start bit were set. Marks the object.
    Marks(Place),
    /// The mark bit was clear. Loads the header.
    ReadsShape(Place),
    /// Loads the reference.
    Scans(Scan),
    /// Loads the start bit of what the reference refers to.
    AsksReferent {
        scan: Scan,
        referent: Place,
    },
    /// The start bit was set. Makes the referent gray.
    GraysReferent {
        scan: Scan,
        referent: Place,
    },
    /// Loads the state of the referent's block.
    AsksBlock {
        scan: Scan,
        referent: Place,
    },
    /// The block is Chosen. Loads the reuse counter of the reference's line.
    ReadsReuse(Scan),
    /// Draws a number of the remembered set.
    DrawsNumber {
        scan: Scan,
        counter: u32,
    },
    /// The set has room for this number. Stores the entry.
    Enters {
        scan: Scan,
        counter: u32,
        number: u64,
    },
    /// No place of the pocket needs work. Loads the tracing word.
    FindsNothing,
}
