//! Worked documents: the contract of a function that does nothing.

ghost use Rattle.conversion_laws.specs.LevelExamples.{LevelExamples};

/// Lists of lists whose items are too deep: faults are the same by two levels and by three, the entry isn't.
pub fn level_examples()
    ensures { LevelExamples }
{}
