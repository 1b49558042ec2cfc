//! What holds of the histories of a space: each law is the contract of a function that does nothing.

ghost use Rattle.typify_convert.specs.Laws.{HistoriesComeAbout};
ghost use Rattle.typify_convert.specs.Plain.{PlainHistoriesAreQuiet, PlainItemsMayBeAdded};

/// The table of each history is one that a space comes to, of which history_laws speaks.
pub fn histories_come_about()
    ensures { HistoriesComeAbout }
{}

/// A history to which only plain schemas of a plain document came has no note, and no stated value that isn't read.
pub fn plain_histories_are_quiet()
    ensures { PlainHistoriesAreQuiet }
{}

/// The root of a plain document and each of its definitions may come to one.
pub fn plain_items_may_be_added()
    ensures { PlainItemsMayBeAdded }
{}
