//! Worked examples of the definitions: each group is the contract of a function that does nothing.

ghost use Rattle.schema_faults.specs.Examples.{SchemaExamples, MalformedExamples, ReferenceExamples, FloatExamples};

/// Where the schemas of a document stand, and their order.
pub fn schema_examples()
    ensures { SchemaExamples }
{}

/// Where a document is malformed.
pub fn malformed_examples()
    ensures { MalformedExamples }
{}

/// Which references lead nowhere.
pub fn reference_examples()
    ensures { ReferenceExamples }
{}

/// Where numbers are not whole.
pub fn float_examples()
    ensures { FloatExamples }
{}
