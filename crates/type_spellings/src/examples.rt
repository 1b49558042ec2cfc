//! Worked examples of spellings.

ghost use Rattle.type_spellings.specs.Spellings.{Spellings};

/// What types are spelled.
pub fn spellings()
    ensures { Spellings }
{}
