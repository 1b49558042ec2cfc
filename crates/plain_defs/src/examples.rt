//! Worked examples: the contract of each function is a table of documents that are plain and that are not.

ghost use Rattle.plain_defs.specs.ExamplesOfRows.{LeafExamples, OwnerExamples, NullExamples, ChoiceExamples};
ghost use Rattle.plain_defs.specs.ExamplesOfDocuments.{DocumentExamples};

/// Rows that hold no schema.
pub fn leaf_examples()
    ensures { LeafExamples }
{}

/// Rows that hold items or members.
pub fn owner_examples()
    ensures { OwnerExamples }
{}

/// Options.
pub fn null_examples()
    ensures { NullExamples }
{}

/// Choices by `oneOf`.
pub fn choice_examples()
    ensures { ChoiceExamples }
{}

/// Whole documents.
pub fn document_examples()
    ensures { DocumentExamples }
{}
