//! Worked examples of names.

ghost use Rattle.naming_defs.specs.Examples.{GoodNames, DerivedNames, NamesInVariants};

/// Names that are kept, and names that aren't.
pub fn good_names()
    ensures { GoodNames }
{}

/// Names that derived code has for itself, and names that it hasn't.
pub fn derived_names()
    ensures { DerivedNames }
{}

/// Fields of variants that have the names of values, and items that come after such fields.
pub fn names_in_variants()
    ensures { NamesInVariants }
{}
