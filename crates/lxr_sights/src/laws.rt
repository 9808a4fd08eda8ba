//! Laws of what is seen, each the contract of a function that does nothing.
ghost use Rattle.lxr_sights.specs.Copies.{RoomySpacesFit};

/// A space that has the registers of an opened space of its limits, and whose lists are no longer than the room that this one has, fits
/// that room.
pub fn roomy_spaces_fit()
    ensures { RoomySpacesFit }
{}
