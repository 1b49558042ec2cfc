//! Worked examples of the definition: each group is the contract of a function that does nothing.

ghost use Rattle.plain_patterns.specs.Examples.{OtherExamples, OtherPropertyExamples, PlainExamples, PropertyExamples, StopExamples};
ghost use Rattle.plain_patterns.specs.EndsExamples.{EndsExamples, OtherEndsExamples, StoppedEndsExamples};

/// Patterns that are plain, and how `regex` is to read them.
pub fn plain_examples()
    ensures { PlainExamples }
{}

/// Patterns that aren't.
pub fn other_examples()
    ensures { OtherExamples }
{}

/// Where reading those stops.
pub fn stop_examples()
    ensures { StopExamples }
{}

/// What `\p` and `\P` name.
pub fn property_examples()
    ensures { PropertyExamples }
{}

/// Names that aren't taken.
pub fn other_property_examples()
    ensures { OtherPropertyExamples }
{}

/// Patterns with lookaheads and lookbehinds at their ends.
pub fn ends_examples()
    ensures { EndsExamples }
{}

/// Those that have them elsewhere.
pub fn other_ends_examples()
    ensures { OtherEndsExamples }
{}

/// Where reading those stops.
pub fn stopped_ends_examples()
    ensures { StoppedEndsExamples }
{}
