//! Worked examples: the contract of a function that does nothing.

ghost use Rattle.default_defs.specs.Examples.{WorkedDefaults};

/// What defaults come to.
pub fn worked_defaults()
    ensures { WorkedDefaults }
{}
