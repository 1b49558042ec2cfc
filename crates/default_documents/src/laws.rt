//! What holds of all documents: each law is the contract of a function that does nothing.

ghost use Rattle.default_documents.specs.Laws.{StatedDefaultsEnd, ReadDefaultsAreSound};

/// Where a document has no fault and each value that its schemas state is read, each stated default of its table is taken, and what it leaves out comes to an end.
pub fn stated_defaults_end()
    ensures { StatedDefaultsEnd }
{}

/// The items of such a document that was read, read back, have sound defaults.
pub fn read_defaults_are_sound()
    ensures { ReadDefaultsAreSound }
{}
