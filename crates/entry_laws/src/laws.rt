//! What holds of all spaces: each law is the contract of a function that does nothing.

ghost use Rattle.entry_laws.specs.Laws.{AllowedAreEnough, IdsTakeForms, IdsTakeTrees};

/// References that may be followed beyond those that are allowed change nothing.
pub fn allowed_are_enough()
    ensures { AllowedAreEnough }
{}

/// An id takes what the form of the entry there takes.
pub fn ids_take_forms()
    ensures { IdsTakeForms }
{}

/// An id takes what each tree takes that stands there, where the space holds the tree's table.
pub fn ids_take_trees()
    ensures { IdsTakeTrees }
{}
