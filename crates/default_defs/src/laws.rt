//! What holds of all defaults: each law is the contract of a function that does nothing.

ghost use Rattle.default_defs.specs.Laws.{FoundIsTaken};

/// Refused is what the entry doesn't take, and ended what it takes.
pub fn found_is_taken()
    ensures { FoundIsTaken }
{}
