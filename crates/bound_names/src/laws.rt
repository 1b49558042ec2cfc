//! No pattern of derived code binds a name that it can't, in the items of any table that gets names.

ghost use Rattle.bound_names.specs.Laws.{FieldsAreBindable, DerivedNamesAreFree};

/// No field of a variant has the name of an item that stands for a value, or of a value that every module has.
pub fn fields_are_bindable()
    ensures { FieldsAreBindable }
{}

/// No item, and no field of a variant, has a name that derived code has for itself.
pub fn derived_names_are_free()
    ensures { DerivedNamesAreFree }
{}
