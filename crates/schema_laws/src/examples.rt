//! Worked examples of the definitions: each group is the contract of a function that does nothing.

ghost use Rattle.schema_laws.specs.Examples.{PlaceExamples, ResolvedExamples};

/// What stands at a place of a value, and why the names of its members must differ.
pub fn place_examples()
    ensures { PlaceExamples }
{}

/// Which references have a target in the document that is read.
pub fn resolved_examples()
    ensures { ResolvedExamples }
{}
