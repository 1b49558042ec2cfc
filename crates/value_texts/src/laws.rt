//! What is known of the texts of values: each law is the contract of a function that does nothing.

ghost use Rattle.value_texts.specs.Texts.{TextsAreExact, TextsDetermineValues};

/// A value without floats has one text.
pub fn texts_are_exact()
    ensures { TextsAreExact }
{}

/// A text is that of one value, of those that stand no deeper than is read.
pub fn texts_determine_values()
    ensures { TextsDetermineValues }
{}
