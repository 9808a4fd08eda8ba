//! What is said of renewed names, and a small example of them.
ghost use Rattle.lxr_renew.specs.Laws.{ExampleIsRenewed, NamesAreOneToOne, ObjectsAreRenamed, RenewalsAreLegal, RenewalsAreSound};

/// No two objects that are left get the same name.
pub fn names_are_one_to_one()
    ensures { NamesAreOneToOne }
{}

/// The object of a name is found under its new name, with its references renamed.
pub fn objects_are_renamed()
    ensures { ObjectsAreRenamed }
{}

/// After a draining pause of a legal history a history may begin with what all that is left becomes.
pub fn renewals_are_sound()
    ensures { RenewalsAreSound }
{}

/// After a draining pause of a legal history, while no trace runs, all that is left may be renewed where terms allow it, and the
/// history is legal with that.
pub fn renewals_are_legal()
    ensures { RenewalsAreLegal }
{}

/// Of three objects the first is unreachable, so the others become 1.1 and 1.2.
pub fn example_is_renewed()
    ensures { ExampleIsRenewed }
{}
