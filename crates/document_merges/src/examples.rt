//! Worked examples of what rows merge.
ghost use Rattle.document_merges.specs.Examples.{MergeExamples};

/// Rows that merge and rows that don't.
pub fn merge_examples()
    ensures { MergeExamples }
{}
