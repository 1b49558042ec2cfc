//! What stands at the place of a name is what a scan finds.
ghost use Rattle.value_models.specs.Names.{ContainersAreFound, FieldsAreFound, VariantsAreFound};

/// The members at a field's place are those that the field takes once the fields before it took theirs; those without a
/// place are those that no field names.
pub fn fields_are_found()
    ensures { FieldsAreFound }
{}

/// The variant at the place of a name is the first that has the name.
pub fn variants_are_found()
    ensures { VariantsAreFound }
{}

/// The container at the place of a name is the first of that name.
pub fn containers_are_found()
    ensures { ContainersAreFound }
{}
