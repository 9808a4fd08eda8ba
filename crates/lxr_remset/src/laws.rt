//! What remembering a reference means for the set, as the contract of a function that does nothing.
ghost use Rattle.lxr_remset.specs.Remembering.{ChosenAreRemembered, RememberingKeepsSet};

/// A reference is remembered after it was entered, unless the set has overflowed. What was remembered is, and each entry is
/// one of a reference.
pub fn remembering_keeps_set()
    ensures { RememberingKeepsSet }
{}

/// Where what a reference holds stands in a Chosen block, it is remembered then, unless the set has overflowed. All that was
/// remembered is.
pub fn chosen_are_remembered()
    ensures { ChosenAreRemembered }
{}
