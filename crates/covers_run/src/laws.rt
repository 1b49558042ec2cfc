//! What is printed by `covers`: each law is the contract of a function that does nothing.
ghost use Rattle.covers_run.specs.Laws.{NewItemsReadOldValues, OldValuesAreStillAdmitted};

/// Where the page says `covered`, the new items read each value that the old ones read, as the old ones write it.
pub fn new_items_read_old_values()
    ensures { NewItemsReadOldValues }
{}

/// Where besides the old report has no note that its items are narrower, and the new one none that they are wider, each small
/// value that the old schema admits settles to one that the new schema admits, where that is small.
pub fn old_values_are_still_admitted()
    ensures { OldValuesAreStillAdmitted }
{}
