//! What holds of the table of each document that was read: each law is the contract of a function that does nothing.
ghost use Rattle.apart_laws.specs.Laws.{PlansListScalars, PlansAreWrittenApart};

/// In the table that is emitted for a document that was read, rules list scalars, and the variants of an enum that writes
/// their names have different ones.
pub fn plans_list_scalars()
    ensures { PlansListScalars }
{}

/// So what is written of what it reads is read again, where untagged variants have disjoint kinds and stated defaults are
/// values that a JSON text may hold.
pub fn plans_are_written_apart()
    ensures { PlansAreWrittenApart }
{}
