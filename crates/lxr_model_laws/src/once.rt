//! Laws of legal histories: a name is promoted once, reclaimed once, and not promoted after it was reclaimed.
ghost use Rattle.lxr_model_laws.specs.OnceLaws.{DeadAreNotSwept, PromotedOnce, ReclaimedOnce};

/// What a pause reclaims no pause reclaimed before.
pub fn reclaimed_once()
    ensures { ReclaimedOnce }
{}

/// No pause reports a name as dead and as swept.
pub fn dead_are_not_swept()
    ensures { DeadAreNotSwept }
{}

/// What a pause promotes no pause promoted or reclaimed before.
pub fn promoted_once()
    ensures { PromotedOnce }
{}
