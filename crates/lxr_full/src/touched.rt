//! Laws of the touched slots, by which a loop that places objects counts them: none at the opening, few more with each
//! run that is handed out, none with any other change, and all outside Chosen blocks once no run is left there.
ghost use Rattle.lxr_full.specs.TouchedLaws.{HandingOutTouchesFew, NoRunTouchesAll, OpenedTouchesNone, TouchedReadsLines};

/// No slot of an opened space is touched.
pub fn opened_touches_none()
    ensures { OpenedTouchesNone }
{}

/// A run that is handed out touches no more slots than its lines over k, rounded up, and one.
pub fn handing_out_touches_few()
    ensures { HandingOutTouchesFew }
{}

/// Two spaces with the same counts and the same lines handed out have the same slots touched.
pub fn touched_reads_lines()
    ensures { TouchedReadsLines }
{}

/// Where no run outside Chosen blocks has k free lines, all slots of k lines there are touched.
pub fn no_run_touches_all()
    ensures { NoRunTouchesAll }
{}
