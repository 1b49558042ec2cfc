//! Worked examples of the definitions.
ghost use Rattle.printing_laws.specs.Examples.{PartsExamples};

/// Trees whose parts are such as texts have, and parts that aren't.
pub fn parts_examples()
    ensures { PartsExamples }
{}
