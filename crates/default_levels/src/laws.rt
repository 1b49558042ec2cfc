//! What holds of all tables: each law is the contract of a function that does nothing.

ghost use Rattle.default_levels.specs.Laws.{EndedStays, MoreLevelsStay, EndlessStays, SuppliedIsRead};

/// More levels change nothing once reading ends or refuses.
pub fn ended_stays()
    ensures { EndedStays }
{}

/// More levels than are stated defaults come to the same.
pub fn more_levels_stay()
    ensures { MoreLevelsStay }
{}

/// What is told as endless is so, however many levels there are.
pub fn endless_stays()
    ensures { EndlessStays }
{}

/// What a value comes to is read by what each stated default comes to.
pub fn supplied_is_read()
    ensures { SuppliedIsRead }
{}
