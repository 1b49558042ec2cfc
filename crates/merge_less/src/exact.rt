//! Whether nothing is lost where a schema is taken away from another.
ghost use Rattle.std.specs.Prelude.{◌≡◌, ◌&&◌, ◌||◌, not, is_some, map, option_map, string_bytes};
ghost use Rattle.std.specs.BTreeSet.{keys};
ghost use Rattle.json_value.specs.Value.{null};
ghost use Rattle.schema_defs.specs.Admits.{counts_as_absent};
ghost use Rattle.schema_defs.specs.Walks.{IsGuarded};
ghost use Rattle.schema_defs.specs.declared.InstanceType.TheVariants.{Object};
ghost use Rattle.schema_types.specs.View.{members_view, object_view, schema_view, types_view};
ghost use Rattle.schema_types.specs.DocumentView.{document_view};
ghost use Rattle.enum_defs.specs.Exclusive.{is_disjoint as is_disjoint_of};
ghost use Rattle.enum_defs.specs.Kinds.{kinds as kinds_of};
ghost use Rattle.enum_defs.specs.Words.{has_type, without_named};
ghost use Rattle.merge_defs.specs.Less.{is_one_name as is_one_name_of, kinds_apart as kinds_apart_of, no_leaves as no_leaves_of, object_or_none as object_or_none_of, one_name_alone as one_name_alone_of, no_sizes, one_required as one_required_of, subschema_alone as subschema_alone_of, values_alone as values_alone_of};
ghost use Rattle.merge_leaves.specs.Sizes.{member_sizes_view};
ghost use Rattle.schema_sameness.specs.Parts.{lists_in, named_in, plain_in, same_in};
ghost use Rattle.merge_members.specs.Plans.{maybe_members};
ghost use Rattle.merge_less.specs.Rows.{exact_by, exact_in, members_alone as members_alone_of, plain_alone as plain_alone_of};

use crate::refusal::is_one_subschema;
use enum_kinds::{KindSet, is_disjoint, kinds};
use merge_leaves::{MemberSizes, holds_no_schema, is_only, member_sizes};
use merge_sides::has_nulls;
use schema_types::{Document, InstanceType, ObjectValidation, Schema, SchemaObject, Types};
use std::collections::{BTreeMap, BTreeSet};

// ---- what doesn't stand

fn no_leaves(object: &SchemaObject) -> bool
    ensures { result ≡ no_leaves_of (plain_in (object_view object.now)) }
{
    object.const_value.is_none()
        && (object.format.is_none()
            && (object.number.is_none() && (object.string.is_none() && object.reference.is_none())))
}

fn plain_alone(object: &SchemaObject) -> bool
    ensures { result ≡ plain_alone_of (same_in (object_view object.now)) (lists_in (object_view object.now)) (named_in (object_view object.now)) }
{
    object.subschemas.is_none() && (object.array.is_none() && object.object.is_none())
}

fn members_alone(object: &SchemaObject) -> bool
    ensures { result ≡ members_alone_of (plain_in (object_view object.now)) (same_in (object_view object.now)) (lists_in (object_view object.now)) }
{
    object.enum_values.is_none()
        && (no_leaves(object) && (object.subschemas.is_none() && object.array.is_none()))
}

// ---- listed values

fn lists_values(object: &SchemaObject) -> bool
    ensures { result ≡ is_some (plain_in (object_view object.now)).enum_values }
{
    object.enum_values.is_some()
}

fn values_alone(object: &SchemaObject, taken: &SchemaObject) -> bool
    ensures { result ≡ values_alone_of (plain_in (object_view object.now)) (plain_in (object_view taken.now)) (same_in (object_view taken.now)) (lists_in (object_view taken.now)) (named_in (object_view taken.now)) }
{
    (lists_values(object) && lists_values(taken))
        && (taken.types.is_none() && (no_leaves(taken) && plain_alone(taken)))
}

// ---- a required name

#[tactic(auto, using(crate::proofs::Exactly::one_counted))]
fn is_one_name(names: &BTreeSet<String>) -> bool
    ensures { result ≡ is_one_name_of (map string_bytes (keys names.now)) }
{
    names.len() == 1
}

// One name, and no size.
fn has_one_name(sizes: &MemberSizes<'_>) -> bool
    ensures { result ≡ (no_sizes (member_sizes_view sizes.now) && is_one_name_of (member_sizes_view sizes.now).required) }
{
    (sizes.max_properties.is_none() && sizes.min_properties.is_none())
        && is_one_name(sizes.required)
}

#[tactic(auto, using(crate::proofs::Exactly::required_parts))]
fn requires_one(members: &ObjectValidation) -> bool
    ensures { result ≡ one_required_of (members_view members.now) }
{
    let sizes = member_sizes(members);
    holds_no_schema(members) && has_one_name(&sizes)
}

fn one_required(members: &Option<ObjectValidation>) -> bool
    ensures { result ≡ one_required_of (maybe_members members.now) }
{
    match members {
        None => false,
        Some(members) => requires_one(members),
    }
}

#[tactic(auto, using(crate::proofs::Exactly::type_only))]
fn is_object(types: &Option<Types>) -> bool
    ensures { result ≡ has_type Object (option_map types_view types.now) }
{
    is_only(InstanceType::Object, types)
}

fn object_or_none(types: &Option<Types>) -> bool
    ensures { result ≡ object_or_none_of (option_map types_view types.now) }
{
    types.is_none() || is_object(types)
}

fn is_object_with_members(object: &SchemaObject) -> bool
    ensures { result ≡ (has_type Object (plain_in (object_view object.now)).types && not (without_named (named_in (object_view object.now)))) }
{
    is_object(&object.types) && object.object.is_some()
}

fn one_name_alone(object: &SchemaObject, taken: &SchemaObject) -> bool
    ensures { result ≡ one_name_alone_of (plain_in (object_view object.now)) (named_in (object_view object.now)) (plain_in (object_view taken.now)) (same_in (object_view taken.now)) (lists_in (object_view taken.now)) (named_in (object_view taken.now)) }
{
    is_object_with_members(object)
        && (one_required(&taken.object) && (object_or_none(&taken.types) && members_alone(taken)))
}

fn name_alone(document: &Document, object: &SchemaObject, taken: &SchemaObject) -> bool
    ensures { result ≡ (not (counts_as_absent (document_view document.now).setting null) && one_name_alone_of (plain_in (object_view object.now)) (named_in (object_view object.now)) (plain_in (object_view taken.now)) (same_in (object_view taken.now)) (lists_in (object_view taken.now)) (named_in (object_view taken.now))) }
{
    !has_nulls(document) && one_name_alone(object, taken)
}

// ---- kinds

fn kinds_differ(document: &Document, first: &Schema, second: &Schema) -> bool
    requires { IsGuarded (document_view document.now) }
    ensures { result ≡ is_disjoint_of (kinds_of (document_view document.now) (schema_view first.now)) (kinds_of (document_view document.now) (schema_view second.now)) }
{
    is_disjoint(kinds(document, first), kinds(document, second))
}

fn kinds_apart(document: &Document, first: &Schema, second: &Schema, taken: &SchemaObject) -> bool
    requires { IsGuarded (document_view document.now) }
    ensures { result ≡ kinds_apart_of (document_view document.now) (schema_view first.now) (schema_view second.now) (plain_in (object_view taken.now)) (same_in (object_view taken.now)) (named_in (object_view taken.now)) }
{
    kinds_differ(document, first, second)
        && (taken.enum_values.is_none() && (taken.object.is_none() && taken.subschemas.is_none()))
}

// ---- subschemas

fn subschema_alone(taken: &SchemaObject) -> bool
    ensures { result ≡ subschema_alone_of (plain_in (object_view taken.now)) (same_in (object_view taken.now)) (lists_in (object_view taken.now)) (named_in (object_view taken.now)) }
{
    is_one_subschema(&taken.subschemas)
        && (taken.types.is_none()
            && (taken.enum_values.is_none()
                && (no_leaves(taken) && (taken.array.is_none() && taken.object.is_none()))))
}

// ---- all

fn kinds_or_subschema(
    document: &Document,
    first: &Schema,
    second: &Schema,
    taken: &SchemaObject,
) -> bool
    requires { IsGuarded (document_view document.now) }
    ensures { result ≡ (kinds_apart_of (document_view document.now) (schema_view first.now) (schema_view second.now) (plain_in (object_view taken.now)) (same_in (object_view taken.now)) (named_in (object_view taken.now)) || subschema_alone_of (plain_in (object_view taken.now)) (same_in (object_view taken.now)) (lists_in (object_view taken.now)) (named_in (object_view taken.now))) }
{
    kinds_apart(document, first, second, taken) || subschema_alone(taken)
}

fn objects_exact(
    document: &Document,
    first: &Schema,
    second: &Schema,
    object: &SchemaObject,
    taken: &SchemaObject,
) -> bool
    requires { IsGuarded (document_view document.now) }
    ensures { result ≡ exact_by (document_view document.now) (schema_view first.now) (schema_view second.now) (object_view object.now) (object_view taken.now) }
{
    values_alone(object, taken)
        || (name_alone(document, object, taken)
            || kinds_or_subschema(document, first, second, taken))
}

/// Whether nothing is lost where the second of two objects is taken away from the first.
#[tactic(auto, using(crate::proofs::Rowing::exact_seen))]
pub(crate) fn is_exact(document: &Document, first: &Schema, second: &Schema) -> bool
    requires { IsGuarded (document_view document.now) }
    ensures { result ≡ exact_in (document_view document.now) (schema_view first.now) (schema_view second.now) }
{
    match (first, second) {
        (Schema::Object(object), Schema::Object(taken)) => {
            objects_exact(document, first, second, object, taken)
        }
        _ => false,
    }
}
