//! Plain contents of variants.
ghost use Rattle.std.specs.Prelude.{◌≡◌, true, IfOk};
ghost use Rattle.std.specs.List.{list_all};
ghost use Rattle.model_defs.specs.Layer.{fields_content, variant_content};
ghost use Rattle.model_defs.specs.Model.{newtype_style};
ghost use Rattle.value_models.specs.FieldView.{fields_view};
ghost use Rattle.value_models.specs.VariantView.{variant_view};
ghost use Rattle.value_models.specs.ContainersView.{containers_in};
ghost use Rattle.describe_defs.specs.Plain.{is_plain_content as is_plain_content_in, is_plain_type as is_plain_type_in, is_plain_variant as is_plain_variant_in, several_places as several_places_in, types_in};
ghost use Rattle.plain_tables.specs.Among.{is_among, no_conversions};

use crate::fields::{are_plain_fields, is_only};
use crate::types::{GREATEST_LENGTH, is_plain_type};
use std::alloc::{AllocError, Global};
use value_kinds::ModelTable;
use value_models::{Containers, Field, Style, Variant};
use value_parts::is_unit;

#[tactic(auto, using(crate::proofs::Several::several_are))]
fn are_several(fields: &[Field]) -> bool
    ensures { result ≡ several_places_in (types_in (fields_view fields.now)) }
{
    let count = fields.len() as u64;
    2 <= count && count <= GREATEST_LENGTH
}

fn each_has_plain_type(containers: &Containers, fields: &[Field]) -> bool
    ensures { result ≡ list_all (is_plain_type_in (is_among (containers_in containers.now))) (types_in (fields_view fields.now)) }
{
    for field in fields {
        if !is_plain_type(containers, &field.field_type) {
            return false;
        }
    }
    true
}

fn is_only_plain(containers: &Containers, fields: &[Field]) -> bool
    ensures { result ≡ is_plain_content_in (containers_in containers.now) no_conversions (fields_content true newtype_style (fields_view fields.now)) }
{
    match fields {
        [field] => is_plain_type(containers, &field.field_type),
        _ => false,
    }
}

#[tactic(auto, using(crate::proofs::Several::all_picked))]
fn is_plain_content(
    alloc: Global,
    table: &ModelTable,
    closed: bool,
    variant: &Variant,
) -> Result<bool, AllocError>
    ensures { IfOk result (λ b. b ≡ is_plain_content_in (containers_in table.now.containers) no_conversions (variant_content closed (variant_view variant.now))) }
{
    match variant.style {
        Style::Struct => {
            let plain = are_plain_fields(alloc, table, true, variant.fields.fields())?;
            Ok(plain)
        }
        Style::Tuple => {
            let fields = variant.fields.fields();
            Ok(are_several(fields) && each_has_plain_type(&table.containers, fields))
        }
        Style::Newtype => Ok(is_only_plain(&table.containers, variant.fields.fields())),
        Style::Unit => Ok(false),
    }
}

/// Whether the variant has one name, and plain contents without null where it has some.
pub(crate) fn is_plain_variant(
    alloc: Global,
    table: &ModelTable,
    closed: bool,
    variant: &Variant,
) -> Result<bool, AllocError>
    ensures { IfOk result (λ b. b ≡ is_plain_variant_in (containers_in table.now.containers) no_conversions closed (variant_view variant.now)) }
{
    if !is_only(&variant.serialize_name, &variant.deserialize_names) {
        return Ok(false);
    }
    if is_unit(variant) {
        return Ok(true);
    }
    let plain = is_plain_content(alloc, table, closed, variant)?;
    Ok(plain && !table.content_kinds(variant).null)
}
