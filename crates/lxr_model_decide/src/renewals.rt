//! Names may be renewed and a history goes on behind that; three renewals are refused.
ghost use Rattle.lxr_model_decide.specs.ExampleRenewals.{RenewalsAreRefused, RenewedGoesOn};

/// Behind a collecting pause the one object that is left gets the first name, the next object the second, and the next pause
/// is the first again.
pub fn renewed_goes_on()
    ensures { RenewedGoesOn }
{}

/// No names are renewed where terms forbid it, where an object that is left is left out, or behind a plain pause.
pub fn renewals_are_refused()
    ensures { RenewalsAreRefused }
{}
