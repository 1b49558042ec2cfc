//! What holds of the texts in emitted attributes: each law is the contract of a function that does nothing.

ghost use Rattle.emit_texts.specs.Laws.{FunctionsAreRead, TypesAreReadAgain};

/// The paths of functions are read as those paths.
pub fn functions_are_read()
    ensures { FunctionsAreRead }
{}

/// The text of an emitted type is read as one that means the same.
pub fn types_are_read_again()
    ensures { TypesAreReadAgain }
{}
