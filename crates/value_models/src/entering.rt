//! Names entered at one place.
ghost use Rattle.std.specs.Prelude.{◌≡◌, [], ◌∷◌, map, OnOk, string_bytes};
ghost use Rattle.name_tables.specs.Names.{all_entered};
ghost use Rattle.value_models.specs.FieldView.{field_view};
ghost use Rattle.value_models.specs.VariantView.{variant_view};
ghost use Rattle.value_models.specs.Names.{at_one_place, names_at};

use crate::field::Field;
use crate::variant::Variant;
use name_tables::NameTable;
use std::alloc::AllocError;

/// Enters a name at a place, which a table holds as a u32: there is no memory for more.
pub(crate) fn enter(names: &mut NameTable, name: &str, place: usize) -> Result<(), AllocError>
    ensures { OnOk result (names.new ≡ all_entered (at_one_place place (name.now ∷ [])) names.old) }
{
    match u32::try_from(place) {
        Ok(place) => {
            names.insert(name, place)?;
            Ok(())
        }
        Err(_) => Err(AllocError),
    }
}

/// Enters the names of a field, unless it is a rest.
pub(crate) fn enter_field(
    names: &mut NameTable,
    field: &Field,
    place: usize,
) -> Result<(), AllocError>
    ensures { OnOk result (names.new ≡ all_entered (names_at place (field_view field.now)) names.old) }
{
    if field.is_rest {
        return Ok(());
    }
    enter_names(names, &field.deserialize_names, place)?;
    Ok(())
}

/// Enters the names of a variant.
pub(crate) fn enter_variant(
    names: &mut NameTable,
    variant: &Variant,
    place: usize,
) -> Result<(), AllocError>
    ensures { OnOk result (names.new ≡ all_entered (at_one_place place (variant_view variant.now).deserialize_names) names.old) }
{
    enter_names(names, &variant.deserialize_names, place)?;
    Ok(())
}

#[tactic(auto, using(crate::proofs::Tables::name_turn, crate::proofs::Tables::name_end))]
// Enters several names at one place.
fn enter_names(names: &mut NameTable, several: &[String], place: usize) -> Result<(), AllocError>
    ensures { OnOk result (names.new ≡ all_entered (at_one_place place (map string_bytes several.now)) names.old) }
{
    for name in several {
        enter(names, name, place)?;
    }
    Ok(())
}
