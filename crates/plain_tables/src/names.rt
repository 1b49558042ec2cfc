//! Names of which none comes twice.
ghost use Rattle.std.specs.Prelude.{◌≡◌, ◌||◌, filter, map, not, if◌then◌else◌, IfOk, OnOk};
ghost use Rattle.name_tables.specs.Names.{entered as entered_in};
ghost use Rattle.value_models.specs.FieldView.{field_view, fields_view};
ghost use Rattle.value_models.specs.VariantView.{variants_view};
ghost use Rattle.describe_defs.specs.Plain.{serialize_names, stand_once};
ghost use Rattle.described_types.specs.Seen.{is_picked};
ghost use Rattle.plain_tables.specs.Apart.{is_entered};

use name_tables::NameTable;
use std::alloc::{AllocError, Global};
use value_models::{Field, Variant};

/// Enters a name. Whether it is new is the answer.
pub(crate) fn enter(names: &mut NameTable, name: &str) -> Result<bool, AllocError>
    ensures answer { IfOk result (λ b. b ≡ not (is_entered name.now names.old)) }
    ensures entered { OnOk result (names.new ≡ entered_in name.now 0 names.old) }
{
    let is_new = names.place(name).is_none();
    names.insert(name, 0)?;
    Ok(is_new)
}

// Enters the name of a field, unless it is passed over.
fn enter_field(names: &mut NameTable, all: bool, field: &Field) -> Result<bool, AllocError>
    ensures answer { let f = field_view field.now in
        IfOk result (λ b. b ≡ (not (is_picked all f) || not (is_entered f.serialize_name names.old))) }
    ensures entered { let f = field_view field.now in
        OnOk result (names.new ≡ (if is_picked all f then entered_in f.serialize_name 0 names.old else names.old)) }
{
    if !all && field.is_rest {
        return Ok(true);
    }
    let is_new = enter(names, &field.serialize_name)?;
    Ok(is_new)
}

/// Whether no serialize name of fields comes twice: of all, or of those that are no rest.
#[tactic(auto, using(crate::proofs::Once::begins, crate::proofs::Once::field_turn, crate::proofs::Once::field_stop, crate::proofs::Once::field_end))]
pub(crate) fn fields_stand_once(
    alloc: Global,
    all: bool,
    fields: &[Field],
) -> Result<bool, AllocError>
    ensures { IfOk result (λ b. b ≡ stand_once (serialize_names (filter (is_picked all) (fields_view fields.now)))) }
{
    let mut names = NameTable::new(alloc);
    for field in fields {
        if !enter_field(&mut names, all, field)? {
            return Ok(false);
        }
    }
    Ok(true)
}

/// Whether no serialize name of variants comes twice.
#[tactic(auto, using(crate::proofs::Once::begins, crate::proofs::Once::variant_turn, crate::proofs::Once::variant_stop, crate::proofs::Once::variant_end))]
pub(crate) fn variants_stand_once(alloc: Global, variants: &[Variant]) -> Result<bool, AllocError>
    ensures { IfOk result (λ b. b ≡ stand_once (map (λ w. w.serialize_name) (variants_view variants.now))) }
{
    let mut names = NameTable::new(alloc);
    for variant in variants {
        if !enter(&mut names, &variant.serialize_name)? {
            return Ok(false);
        }
    }
    Ok(true)
}
