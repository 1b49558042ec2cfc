//! Worked examples: the group is the contract of a function that does nothing.

ghost use Rattle.convert_trees.specs.UnreadExamples.{UnreadExamples};

/// Values that the schemas of worked documents state, and that aren't read.
pub fn unread_examples()
    ensures { UnreadExamples }
{}
