//! Values made of types.
ghost use Rattle.std.specs.Prelude.{◌≡◌, map, IfOk, OnOk};
ghost use Rattle.json_value.specs.View.{kept_view};
ghost use Rattle.model_defs.specs.Layer.{one_type};
ghost use Rattle.conversion_table.specs.Conversions.{conversions_view};
ghost use Rattle.value_models.specs.ContainersView.{containers_in};
ghost use Rattle.value_models.specs.ContainerView.{body_view, container_view, tag_view, variants_in};
ghost use Rattle.value_models.specs.FieldView.{field_view, fields_view, style_view};
ghost use Rattle.value_models.specs.TypeView.{type_view, types_view};
ghost use Rattle.value_models.specs.VariantView.{fields_in, variant_view};
ghost use Rattle.value_writing.specs.Seen.{kept_members};
ghost use Rattle.example_values.specs.Made.{AreCopies, AreMade, AreMembers, IsBodyMade, IsContentMade, IsEnumMade, IsItemMade, IsMade, IsMemberPut, IsNamedMade, IsVariantMade, only_type};

use crate::counted::Counted;
use crate::leaves::{Shape, leaf_value, shape_of};
use crate::nodes::count_node;
use crate::pieces::{given_value, members_value, wrapped};
use described_types::list_value;
use example_parts::{found_field, may_be_missing, present_type};
use serde_json::Value;
use serde_json::value::Map;
use std::alloc::AllocError;
use value_models::{Body, Container, Field, Fields, Style, Tag, ValueType, Variant, Variants};
use value_parts::{MOST_LEVELS, is_unit};
use value_writing::put_member;

/// So many types values may be made of in one example, each as often as one is made of it: a type that holds another twice,
/// which holds another twice, has values that double with each.
pub const MOST_NODES: u32 = 1_000_000;

/// The example of a type: what is made of it in the fewest rounds in which it is built. Where it is built in no number of
/// rounds nothing is said of the value. It fails where memory runs out, as it does past `MOST_NODES` types.
pub(crate) fn make(counted: &Counted<'_>, ty: &ValueType) -> Result<Value, AllocError>
    ensures { IfOk result (λ v. IsMade (containers_in counted.now.places.containers.now) (conversions_view counted.now.conversions.now) (one_type (type_view ty.now)) (kept_view v)) }
{
    let mut nodes = MOST_NODES;
    let value = type_made(counted, MOST_LEVELS, &mut nodes, ty)?;
    Ok(value)
}

// Each way round leads through here, so that here levels and nodes are counted.
#[cycle(making)]
#[tactic(auto, using(crate::proofs::OfTypes::by_leaf, crate::proofs::OfTypes::by_same, crate::proofs::OfTypes::by_each, crate::proofs::OfTypes::by_copies, crate::proofs::OfTypes::by_item))]
fn type_made(
    counted: &Counted<'_>,
    levels: usize,
    nodes: &mut u32,
    ty: &ValueType,
) -> Result<Value, AllocError>
    ensures { IfOk result (λ v. IsMade (containers_in counted.now.places.containers.now) (conversions_view counted.now.conversions.now) (one_type (type_view ty.now)) (kept_view v)) }
{
    count_node(nodes)?;
    if levels == 0 {
        return Err(AllocError);
    }
    match shape_of(ty) {
        Shape::Leaf => Ok(leaf_value(counted.alloc, ty)),
        Shape::Same(inner) => {
            let value = type_made(counted, levels - 1, nodes, inner)?;
            Ok(value)
        }
        Shape::Each(parts) => {
            let values = types_made(counted, levels - 1, nodes, parts)?;
            Ok(list_value(values))
        }
        Shape::Copies(inner, count) => {
            let values = copies_made(counted, levels - 1, nodes, inner, count)?;
            Ok(list_value(values))
        }
        Shape::Item(name) => {
            let value = item_made(counted, levels - 1, nodes, name)?;
            Ok(value)
        }
    }
}

#[cycle(making)]
#[tactic(auto, using(crate::proofs::Lists::types_begin, crate::proofs::Lists::types_turn, crate::proofs::Lists::types_end))]
fn types_made(
    counted: &Counted<'_>,
    levels: usize,
    nodes: &mut u32,
    tys: &[ValueType],
) -> Result<Vec<Value>, AllocError>
    ensures { IfOk result (λ vs. AreMade (containers_in counted.now.places.containers.now) (conversions_view counted.now.conversions.now) (types_view tys.now) (map kept_view vs.items)) }
{
    let mut values = Vec::new(counted.alloc);
    for ty in tys {
        let value = type_made(counted, levels, nodes, ty)?;
        values.push(value)?;
    }
    Ok(values)
}

#[cycle(making)]
#[tactic(auto, using(crate::proofs::Lists::copies_begin, crate::proofs::Lists::copies_turn, crate::proofs::Lists::copies_end))]
fn copies_made(
    counted: &Counted<'_>,
    levels: usize,
    nodes: &mut u32,
    ty: &ValueType,
    count: u64,
) -> Result<Vec<Value>, AllocError>
    ensures { IfOk result (λ vs. AreCopies (containers_in counted.now.places.containers.now) (conversions_view counted.now.conversions.now) (type_view ty.now) count (map kept_view vs.items)) }
{
    let mut values = Vec::new(counted.alloc);
    for _copy in 0..count {
        let value = type_made(counted, levels, nodes, ty)?;
        values.push(value)?;
    }
    Ok(values)
}

// ---- items

#[cycle(making)]
#[tactic(auto, using(crate::proofs::Items::by_container))]
fn item_made(
    counted: &Counted<'_>,
    levels: usize,
    nodes: &mut u32,
    name: &str,
) -> Result<Value, AllocError>
    ensures { IfOk result (λ v. IsNamedMade (containers_in counted.now.places.containers.now) (conversions_view counted.now.conversions.now) name.now (kept_view v)) }
{
    let Some(container) = counted.places.containers.named(name) else {
        return Err(AllocError);
    };
    let value = container_made(counted, levels, nodes, container)?;
    Ok(value)
}

#[cycle(making)]
#[tactic(auto, using(crate::proofs::Items::by_rule, crate::proofs::Items::by_body))]
fn container_made(
    counted: &Counted<'_>,
    levels: usize,
    nodes: &mut u32,
    container: &Container,
) -> Result<Value, AllocError>
    ensures { IfOk result (λ v. IsItemMade (containers_in counted.now.places.containers.now) (conversions_view counted.now.conversions.now) (container_view container.now) (kept_view v)) }
{
    if container.try_from {
        let setting = counted.setting();
        let value = given_value(&setting, container)?;
        return Ok(value);
    }
    let value = body_made(counted, levels, nodes, &container.body)?;
    Ok(value)
}

// What is built in no number of rounds isn't made.
#[cycle(making)]
#[tactic(auto, using(crate::proofs::Items::by_struct, crate::proofs::Items::by_newtype))]
fn body_made(
    counted: &Counted<'_>,
    levels: usize,
    nodes: &mut u32,
    body: &Body,
) -> Result<Value, AllocError>
    ensures { IfOk result (λ v. IsBodyMade (containers_in counted.now.places.containers.now) (conversions_view counted.now.conversions.now) (body_view body.now) (kept_view v)) }
{
    match body {
        Body::Struct(Style::Struct, fields) => {
            let members = members_made(counted, levels, nodes, fields, fields.fields())?;
            Ok(members_value(members))
        }
        Body::Struct(Style::Newtype, fields) => {
            let value = newtype_made(counted, levels, nodes, fields)?;
            Ok(value)
        }
        Body::Struct(Style::Tuple | Style::Unit, _) => Err(AllocError),
        Body::Enum(tag, variants) => {
            let value = enum_made(counted, levels, nodes, tag, variants)?;
            Ok(value)
        }
    }
}

#[cycle(making)]
#[tactic(auto, using(crate::proofs::Items::by_variant))]
fn enum_made(
    counted: &Counted<'_>,
    levels: usize,
    nodes: &mut u32,
    tag: &Tag,
    variants: &Variants,
) -> Result<Value, AllocError>
    ensures { IfOk result (λ v. IsEnumMade (containers_in counted.now.places.containers.now) (conversions_view counted.now.conversions.now) (tag_view tag.now) (variants_in variants.now) (kept_view v)) }
{
    let found = counted.chosen(tag, variants)?;
    let Some(chosen) = found else {
        return Err(AllocError);
    };
    let value = variant_made(counted, levels, nodes, tag, chosen.name, chosen.variant)?;
    Ok(value)
}

#[cycle(making)]
#[tactic(auto, using(crate::proofs::Items::by_unit, crate::proofs::Items::by_contents))]
fn variant_made(
    counted: &Counted<'_>,
    levels: usize,
    nodes: &mut u32,
    tag: &Tag,
    name: &str,
    variant: &Variant,
) -> Result<Value, AllocError>
    ensures { IfOk result (λ v. IsVariantMade (containers_in counted.now.places.containers.now) (conversions_view counted.now.conversions.now) (tag_view tag.now) name.now (variant_view variant.now) (kept_view v)) }
{
    if is_unit(variant) {
        let value = wrapped(counted.alloc, tag, name, None)?;
        return Ok(value);
    }
    let contents = content_made(counted, levels, nodes, variant.style, &variant.fields)?;
    let value = wrapped(counted.alloc, tag, name, Some(contents))?;
    Ok(value)
}

// ---- contents

#[cycle(making)]
#[tactic(auto, using(crate::proofs::Items::by_named, crate::proofs::Items::by_places, crate::proofs::Items::by_only))]
fn content_made(
    counted: &Counted<'_>,
    levels: usize,
    nodes: &mut u32,
    style: Style,
    fields: &Fields,
) -> Result<Value, AllocError>
    ensures { IfOk result (λ v. IsContentMade (containers_in counted.now.places.containers.now) (conversions_view counted.now.conversions.now) (style_view style) (fields_in fields.now) (kept_view v)) }
{
    match style {
        Style::Struct => {
            let members = members_made(counted, levels, nodes, fields, fields.fields())?;
            Ok(members_value(members))
        }
        Style::Tuple => {
            let values = places_made(counted, levels, nodes, fields.fields())?;
            Ok(list_value(values))
        }
        Style::Newtype => {
            let value = newtype_made(counted, levels, nodes, fields)?;
            Ok(value)
        }
        Style::Unit => Err(AllocError),
    }
}

// Of one unnamed field.
#[cycle(making)]
#[tactic(auto, using(crate::proofs::Items::by_one_field))]
fn newtype_made(
    counted: &Counted<'_>,
    levels: usize,
    nodes: &mut u32,
    fields: &Fields,
) -> Result<Value, AllocError>
    ensures { IfOk result (λ v. IsMade (containers_in counted.now.places.containers.now) (conversions_view counted.now.conversions.now) (one_type (only_type (fields_in fields.now))) (kept_view v)) }
{
    match fields.fields() {
        [field] => {
            let value = type_made(counted, levels, nodes, &field.field_type)?;
            Ok(value)
        }
        _ => Err(AllocError),
    }
}

// Of unnamed fields, each in its place.
#[cycle(making)]
#[tactic(auto, using(crate::proofs::Lists::places_begin, crate::proofs::Lists::places_turn, crate::proofs::Lists::places_end))]
fn places_made(
    counted: &Counted<'_>,
    levels: usize,
    nodes: &mut u32,
    list: &[Field],
) -> Result<Vec<Value>, AllocError>
    ensures { IfOk result (λ vs. AreMade (containers_in counted.now.places.containers.now) (conversions_view counted.now.conversions.now) (map (λ f. f.field_type) (fields_view list.now)) (map kept_view vs.items)) }
{
    let mut values = Vec::new(counted.alloc);
    for field in list {
        let value = type_made(counted, levels, nodes, &field.field_type)?;
        values.push(value)?;
    }
    Ok(values)
}

// Of named fields: those that must be present.
#[cycle(making)]
#[tactic(auto, using(crate::proofs::Members::members_begin, crate::proofs::Members::members_turn, crate::proofs::Members::members_end))]
fn members_made(
    counted: &Counted<'_>,
    levels: usize,
    nodes: &mut u32,
    fields: &Fields,
    list: &[Field],
) -> Result<Map<String, Value>, AllocError>
    requires whole { fields_view list.now ≡ fields_in fields.now }
    ensures { IfOk result (λ es. AreMembers (containers_in counted.now.places.containers.now) (conversions_view counted.now.conversions.now) (fields_in fields.now) (kept_members es.entries)) }
{
    let mut members = Map::new(counted.alloc);
    let mut left = list.len();
    while left > 0 {
        left -= 1;
        put_field(
            counted,
            levels,
            nodes,
            fields,
            left,
            &list[left],
            &mut members,
        )?;
    }
    Ok(members)
}

#[cycle(making)]
#[tactic(auto, using(crate::proofs::Members::rest_kept, crate::proofs::Members::missing_kept, crate::proofs::Members::member_put))]
fn put_field(
    counted: &Counted<'_>,
    levels: usize,
    nodes: &mut u32,
    fields: &Fields,
    place: usize,
    field: &Field,
    members: &mut Map<String, Value>,
) -> Result<(), AllocError>
    ensures { OnOk result (IsMemberPut (containers_in counted.now.places.containers.now) (conversions_view counted.now.conversions.now) (fields_in fields.now) place (field_view field.now) (kept_members members.old.entries) (kept_members members.new.entries)) }
{
    if field.is_rest {
        return Ok(());
    }
    if may_be_missing(counted.places.containers, field) {
        return Ok(());
    }
    let Some(name) = found_field(fields, place) else {
        return Err(AllocError);
    };
    let Some(ty) = present_type(field) else {
        return Err(AllocError);
    };
    let value = type_made(counted, levels, nodes, ty)?;
    put_member(counted.alloc, members, name, value)?;
    Ok(())
}
