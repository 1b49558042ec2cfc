//! Worked examples of the definitions: each group is the contract of a function that does nothing.

ghost use Rattle.enum_defs.specs.ExamplesOfShapes.{OptionExamples, ExternalExamples, InternalExamples, AdjacentExamples};
ghost use Rattle.enum_defs.specs.ExamplesOfKinds.{KindsExamples, ExclusiveExamples};

/// Which schemas are options.
pub fn option_examples()
    ensures { OptionExamples }
{}

/// Which schemas have the external shape.
pub fn external_examples()
    ensures { ExternalExamples }
{}

/// Which schemas have the internal shape.
pub fn internal_examples()
    ensures { InternalExamples }
{}

/// Which schemas have the adjacent shape.
pub fn adjacent_examples()
    ensures { AdjacentExamples }
{}

/// Which kinds schemas leave open.
pub fn kinds_examples()
    ensures { KindsExamples }
{}

/// Which schemas are exclusive.
pub fn exclusive_examples()
    ensures { ExclusiveExamples }
{}
