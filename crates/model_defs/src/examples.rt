//! Worked examples of reading, of refusals and of settled values: each group is the contract of a function that does nothing.

ghost use Rattle.model_defs.specs.Examples.{BuiltInTypes, Structs, MissingFields, Enums, Rules, Items};
ghost use Rattle.model_defs.specs.ReachExamples.{Reaching};
ghost use Rattle.model_defs.specs.RefusalExamples.{PlacesOfRefusal};
ghost use Rattle.model_defs.specs.SettledExamples.{SettledParts, SettledStructs, SettledEnums};

/// Values of the built-in types.
pub fn built_in_types()
    ensures { BuiltInTypes }
{}

/// Values of structs with named fields.
pub fn structs()
    ensures { Structs }
{}

/// Fields that are missing, or null, under each attribute.
pub fn missing_fields()
    ensures { MissingFields }
{}

/// Values of enums, in each representation.
pub fn enums()
    ensures { Enums }
{}

/// Newtypes with a rule.
pub fn rules()
    ensures { Rules }
{}

/// Items, alone and in one another.
pub fn items_by_name()
    ensures { Items }
{}

/// What types settle values to.
pub fn settled_parts()
    ensures { SettledParts }
{}

/// What structs settle values to.
pub fn settled_structs()
    ensures { SettledStructs }
{}

/// What enums settle values to.
pub fn settled_enums()
    ensures { SettledEnums }
{}

/// Where reading stops.
pub fn places_of_refusal()
    ensures { PlacesOfRefusal }
{}

/// Items that reach themselves at one value, and one that does not.
pub fn reaching()
    ensures { Reaching }
{}
