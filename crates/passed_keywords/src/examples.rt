//! Worked examples of the definitions: the contract of a function that does nothing.

ghost use Rattle.passed_keywords.specs.Examples.{PassedExamples};

/// Which keywords are passed over, and where.
pub fn passed_examples()
    ensures { PassedExamples }
{}
