//! The laws on what conversion tells of plain documents: each is the contract of a function that does nothing.

ghost use Rattle.plain_told.specs.Laws.{PlainIsRead, PlainIsUncaused, PlainSchemasAreQuiet, PlainTargetsAreQuiet};

/// In a plain document no value is stated that isn't read.
pub fn plain_is_read()
    ensures { PlainIsRead }
{}

/// What refuses a plain document, beside a failure of the judge of texts, is want of memory.
pub fn plain_is_uncaused()
    ensures { PlainIsUncaused }
{}

/// So it is of the items that its references lead to, as they come to a space of types.
pub fn plain_targets_are_quiet()
    ensures { PlainTargetsAreQuiet }
{}

/// And of each row that is added to one.
pub fn plain_schemas_are_quiet()
    ensures { PlainSchemasAreQuiet }
{}
