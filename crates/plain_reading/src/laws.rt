//! The laws on reading plain documents: each is the contract of a function that does nothing.

ghost use Rattle.plain_reading.specs.Laws.{HeightByNesting, PlainByNesting, PlainIsAccepted, PlainIsReadable, PlainTextsAreConverted, TextNamesDiffer};

/// No fault keeps the value from being read.
pub fn plain_is_readable()
    ensures { PlainIsReadable }
{}

/// Nor under any setting.
pub fn plain_is_accepted()
    ensures { PlainIsAccepted }
{}

/// In what is read from a text the names of an object differ.
pub fn text_names_differ()
    ensures { TextNamesDiffer }
{}

/// No more schemas stand in one another than lists and objects do, and one more.
pub fn height_by_nesting()
    ensures { HeightByNesting }
{}

/// So a plain document needs two levels for each of these.
pub fn plain_by_nesting()
    ensures { PlainByNesting }
{}

/// One that is read from a text has no fault at all, where there are 256 levels or more.
pub fn plain_texts_are_converted()
    ensures { PlainTextsAreConverted }
{}
