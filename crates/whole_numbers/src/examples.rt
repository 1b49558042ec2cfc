//! Worked examples of the definition: each group is the contract of a function that does nothing.

ghost use Rattle.whole_numbers.specs.Examples.{NumberExamples, StringExamples};

/// Runs that are numbers, and runs that aren't.
pub fn number_examples()
    ensures { NumberExamples }
{}

/// Strings, whose bytes stay.
pub fn string_examples()
    ensures { StringExamples }
{}
