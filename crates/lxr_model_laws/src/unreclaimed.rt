//! Laws of the unreclaimed names: what a pause leaves, that it is closed under references, and what of it is garbage to
//! a trace that runs.
ghost use Rattle.lxr_model_laws.specs.UnreclaimedLaws.{GarbageStays, OnlyGarbageRefersToGarbage, ReachableWereSoOrAreYounger, StuckAreUnreclaimed, UnreclaimedAreClosed, UnreclaimedHaveObjects, UnreclaimedRemain, UnreclaimedWereSoOrAreYounger, UnstuckGarbageIsReferredTo};

/// What a pause leaves is what remains after its sweep, without its third dead; after a plain pause, the kept names.
pub fn unreclaimed_remain()
    ensures { UnreclaimedRemain }
{}

/// Right after a pause the unreclaimed names have the world, what registers hold and what their objects refer to.
pub fn unreclaimed_are_closed()
    ensures { UnreclaimedAreClosed }
{}

/// Unreclaimed names have objects.
pub fn unreclaimed_have_objects()
    ensures { UnreclaimedHaveObjects }
{}

/// Only unreclaimed names are stuck.
pub fn stuck_are_unreclaimed()
    ensures { StuckAreUnreclaimed }
{}

/// What is reachable while a trace runs was so when it began, or is younger.
pub fn reachable_were_so_or_are_younger()
    ensures { ReachableWereSoOrAreYounger }
{}

/// What is unreclaimed while a trace runs was so when it began, or is younger.
pub fn unreclaimed_were_so_or_are_younger()
    ensures { UnreclaimedWereSoOrAreYounger }
{}

/// What was unreclaimed and unreachable when a trace began is so as long as it runs, and keeps its object as it was.
pub fn garbage_stays()
    ensures { GarbageStays }
{}

/// While a trace runs, of the unreclaimed objects only garbage refers to its garbage.
pub fn only_garbage_refers_to_garbage()
    ensures { OnlyGarbageRefersToGarbage }
{}

/// While a trace runs, some garbage refers to each garbage name that isn't stuck.
pub fn unstuck_garbage_is_referred_to()
    ensures { UnstuckGarbageIsReferredTo }
{}
