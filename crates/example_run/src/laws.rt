//! What is printed by `example`: each law is the contract of a function that does nothing.

ghost use Rattle.example_run.specs.Laws.{ExamplesAreAdmitted, NoneIsAdmitted};

/// Where no note of the report says that the items are wider, the value that is printed is one that the schema admits.
pub fn examples_are_admitted()
    ensures { ExamplesAreAdmitted }
{}

/// Where no note of the report says that they are narrower, a schema for which `none` is printed admits no small value.
pub fn none_is_admitted()
    ensures { NoneIsAdmitted }
{}
