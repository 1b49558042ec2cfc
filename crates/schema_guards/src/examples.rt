//! Worked examples of the definitions, as the contract of a function that does nothing.
ghost use Rattle.schema_guards.specs.Examples.{GraphExamples};

/// Which graphs documents have.
pub fn graph_examples()
    ensures { GraphExamples }
{}
