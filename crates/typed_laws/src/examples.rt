//! Worked examples of the definitions: each group is the contract of a function that does nothing.
ghost use Rattle.typed_laws.specs.Examples.{TypedReadings};

/// What is read as a type, and is a typed value of it or, by tables whose writings aren't read back, isn't.
pub fn typed_readings()
    ensures { TypedReadings }
{}
