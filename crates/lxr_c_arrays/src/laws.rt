//! What the elements of an array are after a call. The functions do nothing: the contract of each is a law of what the calls do.
ghost use Rattle.lxr_c_arrays.specs.Elements.{LengthCountsElements, LoadsGiveElements, StoresReachParts, StoresReplaceElements};
ghost use Rattle.lxr_c_arrays.specs.Elements.{ArraysKeepRegisters, CopiesEnterParts, CopiesReachParts, CopiesReplaceElements, FillsReachParts, FillsReplaceElements, NewElementsAreNil, NewKeepsReached, NewRootsHaveNils, WholeCallsDoAll};
ghost use Rattle.lxr_c_arrays.specs.Own.{ArraysKeepNil, OwnStayNil};

/// An array is as long as it has elements.
pub fn length_counts_elements()
    ensures { LengthCountsElements }
{}

/// A load that tells success has loaded an element of the array, and changed nothing else that the host may see.
pub fn loads_give_elements()
    ensures { LoadsGiveElements }
{}

/// A store to an array of one object that tells success has replaced the element, and changed nothing else that the host may see.
pub fn stores_replace_elements()
    ensures { StoresReplaceElements }
{}

/// A store to a root that tells success has replaced the element in its part, where the root isn't that part, and changed nothing else that the
/// host may see.
pub fn stores_reach_parts()
    ensures { StoresReachParts }
{}

/// A call that makes an array of up to 1,023 elements, and tells success, has made it: its elements are nil, and nothing else that the host may see
/// has changed.
pub fn new_elements_are_nil()
    ensures { NewElementsAreNil }
{}

/// A fill of an array of one object that tells success has filled the elements, and changed nothing else that the host's registers refer to.
pub fn fills_replace_elements()
    ensures { FillsReplaceElements }
{}

/// A fill of a root whose parts are its own, and that tells success, has filled the elements, and changed nothing else that the host's registers
/// refer to. The parts are its own still.
pub fn fills_reach_parts()
    ensures { FillsReachParts }
{}

/// A copy to an array of one object that tells success, from another such or from a root of which it is no part, has copied the elements, also where
/// the ranges overlap, and changed nothing else that the host's registers refer to.
pub fn copies_replace_elements()
    ensures { CopiesReplaceElements }
{}

/// A copy between roots that tells success, where they are one or apart, and the parts of the one that is written to are its own, has copied the
/// elements, also where the ranges overlap, and changed nothing else that the host's registers refer to. The parts are its own still.
pub fn copies_reach_parts()
    ensures { CopiesReachParts }
{}

/// A copy from an array of one object to a root that tells success, where the parts of the root are its own and that object is none of them, has
/// copied the elements, and changed nothing else that the host's registers refer to. The parts are its own still.
pub fn copies_enter_parts()
    ensures { CopiesEnterParts }
{}

/// A call that makes an array of more than 1,023 elements, and tells success, has made so many, which are nil and have each their place, in parts
/// that are its own and apart from those of other arrays.
pub fn new_roots_have_nils()
    ensures { NewRootsHaveNils }
{}

/// The library's own registers are nil after each call on arrays, where they were before it.
pub fn arrays_keep_nil()
    ensures { ArraysKeepNil }
{}

/// They are nil at the opening of a heap, and so after each call that a host makes on it.
pub fn own_stay_nil()
    ensures { OwnStayNil }
{}

/// Each call on arrays, also in roots and whatever it tells, leaves the host's registers, but for the one that it gives something where it tells
/// success, and bodies.
pub fn arrays_keep_registers()
    ensures { ArraysKeepRegisters }
{}

/// A call that makes an array, whatever it tells, leaves all that the host could reach, and its registers but for the one that it gives the array,
/// which is none of what it could reach: so all is as before where there is no room.
pub fn new_keeps_reached()
    ensures { NewKeepsReached }
{}

/// A fill of an array of one object, and a copy between two of them, that tells another code than that of success has changed nothing.
pub fn whole_calls_do_all()
    ensures { WholeCallsDoAll }
{}
