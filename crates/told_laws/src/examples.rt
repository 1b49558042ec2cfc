//! Worked examples of what the calls of merging tell, as the contract of a function that does nothing.

ghost use Rattle.told_laws.specs.Examples.{TellingExamples};

/// What a merge answers where it has no notes, and where one stands for what is lost; notes that are found twice and out of
/// order. Where the notes and refusals of schemas on two walks stand.
pub fn telling_examples()
    ensures { TellingExamples }
{}
