//! What holds of the replacement: each law is the contract of a function that does nothing.

ghost use Rattle.derive_receiver.specs.Laws.{KeepsOthers, LeavesNone, Settles};

/// Where no `Self` stands, nothing changes.
pub fn keeps_others()
    ensures { KeepsOthers }
{}

/// No `Self` stands in what was replaced, unless the item or a parameter of it has that name.
pub fn leaves_none()
    ensures { LeavesNone }
{}

/// A second replacement changes nothing, unless the item or a parameter of it has that name.
pub fn settles()
    ensures { Settles }
{}
