//! Worked examples of the definitions: each group is the contract of a function that does nothing.
ghost use Rattle.typed_defs.specs.Examples.{WrittenParts, WrittenStructs, WrittenEnums, FitModels, ValuesOfTypes, ValuesOfItems};

/// Scalars, options, lists, maps and tuples.
pub fn written_parts()
    ensures { WrittenParts }
{}

/// Structs: names, rests, and what is let out.
pub fn written_structs()
    ensures { WrittenStructs }
{}

/// Variants, by their representations.
pub fn written_enums()
    ensures { WrittenEnums }
{}

/// Models within the forms that are read, and some outside.
pub fn fit_models()
    ensures { FitModels }
{}

/// Typed values of plain types, options, lists, sets, maps and tuples.
pub fn values_of_types()
    ensures { ValuesOfTypes }
{}

/// Typed values of items.
pub fn values_of_items()
    ensures { ValuesOfItems }
{}
