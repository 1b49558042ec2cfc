//! What holds of the texts that stand for native types: the law is the contract of a function that does nothing.
ghost use Rattle.example_tries.specs.Fixed.{FixedTextsHaveTheirFormats};

/// The text that a candidate has for a native type has the format of that type, as the judges of texts read formats.
pub fn fixed_texts_have_their_formats()
    ensures { FixedTextsHaveTheirFormats }
{}
