//! What holds of all tables: each law is the contract of a function that does nothing.

ghost use Rattle.default_laws.specs.Laws.{FoundIsRead, StatedIsRead, StatedStands, LevelsAreRead, EndedIsSound, NamedStillEnd};

/// What the containers of an emitted table read is what the entries find.
pub fn found_is_read()
    ensures { FoundIsRead }
{}

/// So is what they read of a field with a stated default.
pub fn stated_is_read()
    ensures { StatedIsRead }
{}

/// A stated default stands at its place of the table of conversions.
pub fn stated_stands()
    ensures { StatedStands }
{}

/// Where each stated default is taken by its entry, so many read inside one another come to the same.
pub fn levels_are_read()
    ensures { LevelsAreRead }
{}

/// Where all stated defaults come to an end, they are sound once the emitted items are read back.
pub fn ended_is_sound()
    ensures { EndedIsSound }
{}

/// They still come to an end once the table is named.
pub fn named_still_end()
    ensures { NamedStillEnd }
{}
