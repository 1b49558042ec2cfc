//! Worked examples of what is emitted for spaces.

ghost use Rattle.space_defs.specs.Examples.{EmittedAlike};

/// Spaces that hold tables.
pub fn emitted_alike()
    ensures { EmittedAlike }
{}
