//! Examples by computation.
ghost use Rattle.name_tables.specs.Examples.{ThreeEntered};

/// A name that comes twice keeps its first place.
pub fn three_entered()
    ensures { ThreeEntered }
{}
