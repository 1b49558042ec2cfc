//! Examples by computation.
ghost use Rattle.value_kinds.specs.Examples.{ThreeItems};

/// Which items hand a value on, and what kinds are found in rounds.
pub fn three_items()
    ensures { ThreeItems }
{}
