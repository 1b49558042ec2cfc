//! Worked examples, as the contract of a function that does nothing.
ghost use Rattle.example_parts.specs.Examples.{WorkedNames};

/// By which names the fields and variants of small tables are found.
pub fn worked_names()
    ensures { WorkedNames }
{}
