//! Plain fields.
ghost use Rattle.std.specs.Prelude.{◌≡◌, ◌&&◌, ◌||◌, filter, map, not, string_bytes, IfOk};
ghost use Rattle.std.specs.List.{list_all};
ghost use Rattle.model_defs.specs.Layer.{one_type};
ghost use Rattle.value_models.specs.FieldView.{default_view, field_view, fields_view, helper_view};
ghost use Rattle.value_models.specs.TypeView.{type_view};
ghost use Rattle.value_models.specs.ContainersView.{containers_in};
ghost use Rattle.describe_defs.specs.Plain.{are_plain_fields as are_plain_fields_in, are_plain_rests as are_plain_rests_in, is_absent_or_held as is_absent_or_held_in, is_bare as is_bare_in, is_collection as is_collection_in, is_empty_or_held as is_empty_or_held_in, is_map as is_map_in, is_null_free, is_nullable as is_nullable_in, is_only as is_only_in, is_option_of, is_own_default as is_own_default_in, is_plain_field as is_plain_field_in, is_plain_rest as is_plain_rest_in, is_plain_struct as is_plain_struct_in, is_plain_type as is_plain_type_in, is_required as is_required_in, is_some_helper as is_some_helper_in, is_stated as is_stated_in, is_undefaulted as is_undefaulted_in, rests_of};
ghost use Rattle.described_types.specs.Seen.{is_picked};
ghost use Rattle.plain_tables.specs.Among.{is_among, no_conversions};
ghost use Rattle.plain_tables.specs.Apart.{is_one_of_four as is_one_of_four_in};

use crate::leading::leads_to_option;
use crate::names::fields_stand_once;
use crate::types::is_plain_type;
use std::alloc::{AllocError, Global};
use value_kinds::ModelTable;
use value_models::{Containers, Field, FieldDefault, Helper, ValueType};

// ---- what is said of a field

pub(crate) fn is_undefaulted(default: FieldDefault) -> bool
    ensures { result ≡ is_undefaulted_in (default_view default) }
{
    match default {
        FieldDefault::Nothing => true,
        FieldDefault::Own | FieldDefault::Stated(_) => false,
    }
}

fn is_own_default(default: FieldDefault) -> bool
    ensures { result ≡ is_own_default_in (default_view default) }
{
    match default {
        FieldDefault::Own => true,
        FieldDefault::Nothing | FieldDefault::Stated(_) => false,
    }
}

fn is_stated(default: FieldDefault) -> bool
    ensures { result ≡ is_stated_in (default_view default) }
{
    match default {
        FieldDefault::Stated(_) => true,
        FieldDefault::Nothing | FieldDefault::Own => false,
    }
}

fn is_bare(helper: Helper) -> bool
    ensures { result ≡ is_bare_in (helper_view helper) }
{
    match helper {
        Helper::Nothing => true,
        Helper::Inner | Helper::Whole => false,
    }
}

fn is_some_helper(helper: Helper) -> bool
    ensures { result ≡ is_some_helper_in (helper_view helper) }
{
    match helper {
        Helper::Inner => true,
        Helper::Nothing | Helper::Whole => false,
    }
}

fn is_collection(ty: &ValueType) -> bool
    ensures { result ≡ is_collection_in (type_view ty.now) }
{
    match ty {
        ValueType::List(_) => true,
        ValueType::Map(_, _) => true,
        _ => false,
    }
}

fn is_map(ty: &ValueType) -> bool
    ensures { result ≡ is_map_in (type_view ty.now) }
{
    match ty {
        ValueType::Map(_, _) => true,
        _ => false,
    }
}

/// Whether the name is the only one by which it is read.
pub(crate) fn is_only(name: &str, names: &[String]) -> bool
    ensures { result ≡ is_only_in name.now (map string_bytes names.now) }
{
    match names {
        [only] => name == only.as_str(),
        _ => false,
    }
}

// ---- the four ways of a plain field

fn is_null_free_type(table: &ModelTable, ty: &ValueType) -> bool
    ensures { result ≡ is_null_free (containers_in table.now.containers) (one_type (type_view ty.now)) }
{
    !table.type_kinds(ty).null
}

fn holds_null_free(table: &ModelTable, ty: &ValueType) -> bool
    ensures { let ms = containers_in table.now.containers in
        result ≡ is_option_of (λ t. is_plain_type_in (is_among ms) t && is_null_free ms (one_type t)) (type_view ty.now) }
{
    match ty {
        ValueType::Optional(inner) => {
            is_plain_type(&table.containers, inner) && is_null_free_type(table, inner)
        }
        _ => false,
    }
}

fn holds_plain(containers: &Containers, ty: &ValueType) -> bool
    ensures { result ≡ is_option_of (is_plain_type_in (is_among (containers_in containers.now))) (type_view ty.now) }
{
    match ty {
        ValueType::Optional(inner) => is_plain_type(containers, inner),
        _ => false,
    }
}

fn is_required(table: &ModelTable, field: &Field) -> bool
    ensures { result ≡ is_required_in (containers_in table.now.containers) no_conversions (field_view field.now) }
{
    is_undefaulted(field.default)
        && !leads_to_option(&table.containers, &field.field_type)
        && !is_some_helper(field.helper)
        && is_plain_type(&table.containers, &field.field_type)
}

fn is_nullable(table: &ModelTable, field: &Field) -> bool
    ensures { result ≡ is_nullable_in (containers_in table.now.containers) no_conversions (field_view field.now) }
{
    is_own_default(field.default)
        && is_bare(field.helper)
        && holds_null_free(table, &field.field_type)
}

fn is_absent_or_held(table: &ModelTable, field: &Field) -> bool
    ensures { result ≡ is_absent_or_held_in (containers_in table.now.containers) no_conversions (field_view field.now) }
{
    is_own_default(field.default)
        && is_some_helper(field.helper)
        && holds_plain(&table.containers, &field.field_type)
}

fn is_empty_or_held(table: &ModelTable, field: &Field) -> bool
    ensures { result ≡ is_empty_or_held_in (containers_in table.now.containers) no_conversions (field_view field.now) }
{
    is_own_default(field.default)
        && is_bare(field.helper)
        && is_collection(&field.field_type)
        && is_plain_type(&table.containers, &field.field_type)
}

fn is_one_of_four(table: &ModelTable, field: &Field) -> bool
    ensures { result ≡ is_one_of_four_in (containers_in table.now.containers) no_conversions (field_view field.now) }
{
    is_required(table, field)
        || is_nullable(table, field)
        || is_absent_or_held(table, field)
        || is_empty_or_held(table, field)
}

fn is_plain_field(table: &ModelTable, field: &Field) -> bool
    ensures { result ≡ is_plain_field_in (containers_in table.now.containers) no_conversions (field_view field.now) }
{
    !field.is_rest
        && is_only(&field.serialize_name, &field.deserialize_names)
        && is_one_of_four(table, field)
}

fn is_plain_rest(containers: &Containers, field: &Field) -> bool
    ensures { result ≡ is_plain_rest_in (containers_in containers.now) no_conversions (field_view field.now) }
{
    field.is_rest
        && !is_stated(field.default)
        && is_map(&field.field_type)
        && is_plain_type(containers, &field.field_type)
}

// ---- several fields

// Whether the field is plain, unless it is passed over.
fn passes(table: &ModelTable, all: bool, field: &Field) -> bool
    ensures { let f = field_view field.now in
        result ≡ (not (is_picked all f) || is_plain_field_in (containers_in table.now.containers) no_conversions f) }
{
    if !all && field.is_rest {
        return true;
    }
    is_plain_field(table, field)
}

#[tactic(auto, using(crate::proofs::Picked::picked_turn, crate::proofs::Picked::picked_stop, crate::proofs::Picked::picked_end))]
fn each_is_plain(table: &ModelTable, all: bool, fields: &[Field]) -> bool
    ensures { result ≡ list_all (is_plain_field_in (containers_in table.now.containers) no_conversions) (filter (is_picked all) (fields_view fields.now)) }
{
    for field in fields {
        if !passes(table, all, field) {
            return false;
        }
    }
    true
}

/// Whether fields are plain, and no name comes twice: all of them, or those that are no rest.
pub(crate) fn are_plain_fields(
    alloc: Global,
    table: &ModelTable,
    all: bool,
    fields: &[Field],
) -> Result<bool, AllocError>
    ensures { IfOk result (λ b. b ≡ are_plain_fields_in (containers_in table.now.containers) no_conversions (filter (is_picked all) (fields_view fields.now))) }
{
    let once = fields_stand_once(alloc, all, fields)?;
    Ok(each_is_plain(table, all, fields) && once)
}

fn rest_passes(containers: &Containers, closed: bool, seen: bool, field: &Field) -> bool
    ensures { let f = field_view field.now in
        result ≡ (not f.is_rest || (not seen && (not closed && is_plain_rest_in (containers_in containers.now) no_conversions f))) }
{
    !field.is_rest || (!seen && (!closed && is_plain_rest(containers, field)))
}

// Whether a rest stands at most once, and in an open struct.
#[tactic(auto, using(crate::proofs::Picked::rest_begins, crate::proofs::Picked::rest_turn, crate::proofs::Picked::rest_stop, crate::proofs::Picked::rest_end))]
fn are_plain_rests(containers: &Containers, closed: bool, fields: &[Field]) -> bool
    ensures { result ≡ are_plain_rests_in (containers_in containers.now) no_conversions closed (rests_of (fields_view fields.now)) }
{
    let mut seen = false;
    for field in fields {
        if !rest_passes(containers, closed, seen, field) {
            return false;
        }
        seen = seen || field.is_rest;
    }
    true
}

/// Whether a struct with named fields is plain.
pub(crate) fn is_plain_struct(
    alloc: Global,
    table: &ModelTable,
    closed: bool,
    fields: &[Field],
) -> Result<bool, AllocError>
    ensures { IfOk result (λ b. b ≡ is_plain_struct_in (containers_in table.now.containers) no_conversions closed (fields_view fields.now)) }
{
    let plain = are_plain_fields(alloc, table, false, fields)?;
    Ok(plain && are_plain_rests(&table.containers, closed, fields))
}
