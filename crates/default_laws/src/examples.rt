//! Worked examples: the contract of a function that does nothing.

ghost use Rattle.default_laws.specs.Examples.{WorkedPlaces};

/// Where stated defaults stand, and what levels of them come to.
pub fn worked_places()
    ensures { WorkedPlaces }
{}
