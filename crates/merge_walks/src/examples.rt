//! Worked examples of merges by walks: each group is the contract of a function that does nothing.

ghost use Rattle.merge_walks.specs.Examples.{WalkExamples, DepthExamples, CallExamples};
ghost use Rattle.merge_walks.specs.AlikeExamples.{AlikeExamples};

/// Which walks the schemas of an answer carry.
pub fn walk_examples()
    ensures { WalkExamples }
{}

/// The first walk met that has too many steps.
pub fn depth_examples()
    ensures { DepthExamples }
{}

/// Places of notes and faults.
pub fn call_examples()
    ensures { CallExamples }
{}

/// Schemas that are roughly alike.
pub fn alike_examples()
    ensures { AlikeExamples }
{}
