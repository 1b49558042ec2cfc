//! Typed values written.
ghost use Rattle.std.specs.Prelude.{◌≡◌, [], ◌∷◌, IfOk, OnOk, map, slice_get};
ghost use Rattle.json_value.specs.Value.{list as list_value, object as object_value, items as items_in};
ghost use Rattle.model_defs.specs.Settled.{put_all};
ghost use Rattle.typed_defs.specs.Typed.{typeds};
ghost use Rattle.typed_defs.specs.Written.{chosen_writes, each_writes, enum_writes, fields_of, fields_write, first_writes, map_writes, members_written, option_writes, parts_of, places_write, rests_write, struct_writes, variant_writes, written};
ghost use Rattle.model_defs.specs.Model.{struct_style};
ghost use Rattle.value_writing.specs.Shape.{newtype_writes};
ghost use Rattle.value_models.specs.TypeView.{type_view, types_view};
ghost use Rattle.value_models.specs.TypedView.{typed_view, typeds_view, pairs_view};
ghost use Rattle.value_models.specs.FieldView.{field_view, fields_view};
ghost use Rattle.value_models.specs.VariantView.{variant_view, variants_view};
ghost use Rattle.value_models.specs.ContainerView.{tag_view};
ghost use Rattle.value_models.specs.ContainersView.{containers_in};
ghost use Rattle.json_value.specs.View.{kept_view};
ghost use Rattle.value_writing.specs.Seen.{kept_members};
ghost use Rattle.value_writing.specs.Pieces.{pairs_written, placed_written, unnamed_written, field_put, rest_put};

use crate::copies::write_scalar;
use crate::fields::is_let_out;
use crate::members::{put_member, put_named};
use crate::shape::{Shape, shape_of};
use crate::wrap::wrapped;
use serde_json::Value;
use serde_json::value::Map;
use std::alloc::{AllocError, Global};
use value_models::{Containers, Field, Style, Tag, Typed, ValueType, Variant};

/// The typed value as it is written by its type, by the serialize names and the representations. One that is of another
/// type is written as null. It takes memory for what is written.
#[cycle(write)]
pub fn write(
    alloc: Global,
    containers: &Containers,
    typed: &Typed,
    ty: &ValueType,
) -> Result<Value, AllocError>
    ensures { IfOk result (λ v. kept_view v ≡ written (containers_in containers.now) (type_view ty.now) (typed_view typed.now)) }
{
    match shape_of(containers, ty) {
        Shape::Plain => {
            let value = write_scalar(containers, typed)?;
            Ok(value)
        }
        Shape::Optional(inner) => {
            let value = write_optional(alloc, containers, typed, inner)?;
            Ok(value)
        }
        Shape::Each(inner) => {
            let value = write_each(alloc, containers, typed, inner)?;
            Ok(value)
        }
        Shape::Named(key, held) => {
            let value = write_map(alloc, containers, typed, key, held)?;
            Ok(value)
        }
        Shape::Places(types) => {
            let value = write_tuple(alloc, containers, typed, types)?;
            Ok(value)
        }
        Shape::Struct(fields) => {
            let value = write_struct(alloc, containers, typed, fields)?;
            Ok(value)
        }
        Shape::Newtype(inner) => {
            let value = write_newtype(alloc, containers, typed, inner)?;
            Ok(value)
        }
        Shape::Enum(tag, variants) => {
            let value = write_enum(alloc, containers, typed, tag, variants)?;
            Ok(value)
        }
        Shape::Nothing => Ok(Value::Null),
    }
}

#[cycle(write)]
fn write_optional(
    alloc: Global,
    containers: &Containers,
    typed: &Typed,
    inner: &ValueType,
) -> Result<Value, AllocError>
    ensures { IfOk result (λ v. kept_view v ≡ option_writes (type_view inner.now) (parts_of (containers_in containers.now) (typed_view typed.now))) }
{
    match typed {
        Typed::Some(held) => {
            let value = write(alloc, containers, held, inner)?;
            Ok(value)
        }
        _ => Ok(Value::Null),
    }
}

#[cycle(write)]
fn write_newtype(
    alloc: Global,
    containers: &Containers,
    typed: &Typed,
    inner: &ValueType,
) -> Result<Value, AllocError>
    ensures { IfOk result (λ v. kept_view v ≡ newtype_writes (type_view inner.now) (parts_of (containers_in containers.now) (typed_view typed.now))) }
{
    match typed {
        Typed::Newtype(held) => {
            let value = write(alloc, containers, held, inner)?;
            Ok(value)
        }
        _ => Ok(Value::Null),
    }
}

#[cycle(write)]
fn write_each(
    alloc: Global,
    containers: &Containers,
    typed: &Typed,
    inner: &ValueType,
) -> Result<Value, AllocError>
    ensures { IfOk result (λ v. kept_view v ≡ each_writes (type_view inner.now) (parts_of (containers_in containers.now) (typed_view typed.now))) }
{
    match typed {
        Typed::List(items) => {
            let value = write_items(alloc, containers, items, inner)?;
            Ok(value)
        }
        _ => Ok(Value::Null),
    }
}

#[cycle(write)]
fn write_map(
    alloc: Global,
    containers: &Containers,
    typed: &Typed,
    key: &ValueType,
    held: &ValueType,
) -> Result<Value, AllocError>
    ensures { IfOk result (λ v. kept_view v ≡ map_writes (type_view key.now) (type_view held.now) (parts_of (containers_in containers.now) (typed_view typed.now))) }
{
    match typed {
        Typed::Map(pairs) => {
            let mut members = Map::new(alloc);
            put_pairs(alloc, containers, pairs, key, held, &mut members)?;
            Ok(Value::Object(members))
        }
        _ => Ok(Value::Null),
    }
}

#[cycle(write)]
fn write_tuple(
    alloc: Global,
    containers: &Containers,
    typed: &Typed,
    types: &[ValueType],
) -> Result<Value, AllocError>
    ensures { IfOk result (λ v. kept_view v ≡ places_write (types_view types.now) (parts_of (containers_in containers.now) (typed_view typed.now))) }
{
    match typed {
        Typed::List(items) => {
            let value = write_in_places(alloc, containers, items, types)?;
            Ok(value)
        }
        _ => Ok(Value::Null),
    }
}

#[cycle(write)]
fn write_struct(
    alloc: Global,
    containers: &Containers,
    typed: &Typed,
    fields: &[Field],
) -> Result<Value, AllocError>
    ensures { IfOk result (λ v. kept_view v ≡ struct_writes struct_style (fields_view fields.now) (parts_of (containers_in containers.now) (typed_view typed.now))) }
{
    match typed {
        Typed::Struct(values) => {
            let value = write_object(alloc, containers, values, fields)?;
            Ok(value)
        }
        _ => Ok(Value::Null),
    }
}

#[cycle(write)]
fn write_enum(
    alloc: Global,
    containers: &Containers,
    typed: &Typed,
    tag: &Tag,
    variants: &[Variant],
) -> Result<Value, AllocError>
    ensures { IfOk result (λ v. kept_view v ≡ enum_writes (tag_view tag.now) (variants_view variants.now) (parts_of (containers_in containers.now) (typed_view typed.now))) }
{
    match typed {
        Typed::Variant(place, values) => {
            let value = write_chosen(alloc, containers, values, *place as usize, tag, variants)?;
            Ok(value)
        }
        _ => Ok(Value::Null),
    }
}

#[cycle(write)]
#[tactic(auto, using(crate::proofs::Loops::chosen_there, crate::proofs::Loops::chosen_past))]
fn write_chosen(
    alloc: Global,
    containers: &Containers,
    values: &[Typed],
    place: usize,
    tag: &Tag,
    variants: &[Variant],
) -> Result<Value, AllocError>
    ensures { IfOk result (λ v. kept_view v ≡ chosen_writes (tag_view tag.now) (slice_get (variants_view variants.now) place) (fields_of (containers_in containers.now) (typeds (typeds_view values.now)))) }
{
    if place < variants.len() {
        let value = write_variant(alloc, containers, values, tag, &variants[place])?;
        return Ok(value);
    }
    Ok(Value::Null)
}

#[cycle(write)]
#[tactic(auto, using(crate::proofs::Loops::item_turn, crate::proofs::Loops::items_end))]
fn write_items(
    alloc: Global,
    containers: &Containers,
    items: &[Typed],
    inner: &ValueType,
) -> Result<Value, AllocError>
    ensures { IfOk result (λ v. kept_view v ≡ list_value (items_in (map (λ x. written (containers_in containers.now) (type_view inner.now) x) (typeds_view items.now)))) }
{
    let mut values = Vec::with_capacity(alloc, items.len())?;
    for item in items {
        values.push(write(alloc, containers, item, inner)?)?;
    }
    Ok(Value::Array(values))
}

#[cycle(write)]
#[tactic(auto, using(crate::proofs::Loops::pair_turn, crate::proofs::Loops::pairs_end))]
fn put_pairs(
    alloc: Global,
    containers: &Containers,
    pairs: &[(Typed, Typed)],
    key: &ValueType,
    value: &ValueType,
    members: &mut Map<String, Value>,
) -> Result<(), AllocError>
    ensures { OnOk result (kept_members members.new.entries ≡ put_all (pairs_written (containers_in containers.now) (type_view key.now) (type_view value.now) (pairs_view pairs.now)) (kept_members members.old.entries)) }
{
    for (name, held) in pairs {
        let name = write(alloc, containers, name, key)?;
        let written = write(alloc, containers, held, value)?;
        put_named(alloc, members, &name, written)?;
    }
    Ok(())
}

#[cycle(write)]
#[tactic(auto, using(crate::proofs::Loops::place_turn, crate::proofs::Loops::place_skip, crate::proofs::Loops::places_end))]
fn write_in_places(
    alloc: Global,
    containers: &Containers,
    items: &[Typed],
    types: &[ValueType],
) -> Result<Value, AllocError>
    ensures { IfOk result (λ v. kept_view v ≡ list_value (items_in (placed_written (containers_in containers.now) (types_view types.now) (typeds_view items.now)))) }
{
    let mut values = Vec::new(alloc);
    for (place, item) in items.iter().enumerate() {
        if place < types.len() {
            values.push(write(alloc, containers, item, &types[place])?)?;
        }
    }
    Ok(Value::Array(values))
}

#[cycle(write)]
fn write_object(
    alloc: Global,
    containers: &Containers,
    values: &[Typed],
    fields: &[Field],
) -> Result<Value, AllocError>
    ensures { IfOk result (λ v. kept_view v ≡ object_value (members_written (fields_view fields.now) (fields_of (containers_in containers.now) (typeds (typeds_view values.now))))) }
{
    let mut members = Map::new(alloc);
    put_rests(alloc, containers, values, fields, &mut members)?;
    put_fields(alloc, containers, values, fields, &mut members)?;
    Ok(Value::Object(members))
}

#[cycle(write)]
#[tactic(auto, using(crate::proofs::Loops::field_turn, crate::proofs::Loops::field_skip, crate::proofs::Loops::fields_end))]
fn put_fields(
    alloc: Global,
    containers: &Containers,
    values: &[Typed],
    fields: &[Field],
    members: &mut Map<String, Value>,
) -> Result<(), AllocError>
    ensures { OnOk result (kept_members members.new.entries ≡ fields_write (fields_view fields.now) (fields_of (containers_in containers.now) (typeds (typeds_view values.now))) (kept_members members.old.entries)) }
{
    for (place, value) in values.iter().enumerate() {
        if place < fields.len() {
            put_field(alloc, containers, value, &fields[place], members)?;
        }
    }
    Ok(())
}

#[cycle(write)]
fn put_field(
    alloc: Global,
    containers: &Containers,
    value: &Typed,
    field: &Field,
    members: &mut Map<String, Value>,
) -> Result<(), AllocError>
    ensures { OnOk result (kept_members members.new.entries ≡ field_put (containers_in containers.now) (field_view field.now) (typed_view value.now) (kept_members members.old.entries)) }
{
    if field.is_rest || is_let_out(field, value) {
        return Ok(());
    }
    let written = write(alloc, containers, value, &field.field_type)?;
    put_member(alloc, members, &field.serialize_name, written)?;
    Ok(())
}

#[cycle(write)]
#[tactic(auto, using(crate::proofs::Loops::rest_turn, crate::proofs::Loops::rest_skip, crate::proofs::Loops::rests_end))]
fn put_rests(
    alloc: Global,
    containers: &Containers,
    values: &[Typed],
    fields: &[Field],
    members: &mut Map<String, Value>,
) -> Result<(), AllocError>
    ensures { OnOk result (kept_members members.new.entries ≡ rests_write (fields_view fields.now) (fields_of (containers_in containers.now) (typeds (typeds_view values.now))) (kept_members members.old.entries)) }
{
    for (place, value) in values.iter().enumerate() {
        if place < fields.len() {
            put_rest(alloc, containers, value, &fields[place], members)?;
        }
    }
    Ok(())
}

#[cycle(write)]
fn put_rest(
    alloc: Global,
    containers: &Containers,
    value: &Typed,
    field: &Field,
    members: &mut Map<String, Value>,
) -> Result<(), AllocError>
    ensures { OnOk result (kept_members members.new.entries ≡ rest_put (containers_in containers.now) (field_view field.now) (typed_view value.now) (kept_members members.old.entries)) }
{
    match (field.is_rest, &field.field_type, value) {
        (true, ValueType::Map(key, held), Typed::Map(pairs)) => {
            put_pairs(alloc, containers, pairs, key, held, members)?;
            Ok(())
        }
        _ => Ok(()),
    }
}

#[cycle(write)]
#[tactic(auto, using(crate::proofs::Parts::first_of_one))]
fn write_only(
    alloc: Global,
    containers: &Containers,
    values: &[Typed],
    fields: &[Field],
) -> Result<Value, AllocError>
    ensures { IfOk result (λ v. kept_view v ≡ first_writes (fields_view fields.now) (fields_of (containers_in containers.now) (typeds (typeds_view values.now)))) }
{
    if values.len() == 1 {
        let written = write_first(alloc, containers, &values[0], fields)?;
        return Ok(written);
    }
    Ok(Value::Null)
}

#[cycle(write)]
#[tactic(auto, using(crate::proofs::Parts::first_of_none))]
fn write_first(
    alloc: Global,
    containers: &Containers,
    value: &Typed,
    fields: &[Field],
) -> Result<Value, AllocError>
    ensures { IfOk result (λ v. kept_view v ≡ first_writes (fields_view fields.now) (fields_of (containers_in containers.now) (typeds (typed_view value.now ∷ [])))) }
{
    match fields {
        [field] => {
            let written = write(alloc, containers, value, &field.field_type)?;
            Ok(written)
        }
        _ => Ok(Value::Null),
    }
}

#[cycle(write)]
#[tactic(auto, using(crate::proofs::Loops::unnamed_turn, crate::proofs::Loops::unnamed_skip, crate::proofs::Loops::unnamed_end))]
fn write_unnamed(
    alloc: Global,
    containers: &Containers,
    values: &[Typed],
    fields: &[Field],
) -> Result<Value, AllocError>
    ensures { IfOk result (λ v. kept_view v ≡ list_value (items_in (unnamed_written (containers_in containers.now) (fields_view fields.now) (typeds_view values.now)))) }
{
    let mut written = Vec::new(alloc);
    for (place, value) in values.iter().enumerate() {
        if place < fields.len() {
            written.push(write(alloc, containers, value, &fields[place].field_type)?)?;
        }
    }
    Ok(Value::Array(written))
}

#[cycle(write)]
#[tactic(auto, using(crate::proofs::Parts::unnamed_list))]
fn write_variant(
    alloc: Global,
    containers: &Containers,
    values: &[Typed],
    tag: &Tag,
    chosen: &Variant,
) -> Result<Value, AllocError>
    ensures { IfOk result (λ v. kept_view v ≡ variant_writes (tag_view tag.now) (variant_view chosen.now) (fields_of (containers_in containers.now) (typeds (typeds_view values.now)))) }
{
    let fields = chosen.fields.fields();
    match chosen.style {
        Style::Struct => {
            let content = write_object(alloc, containers, values, fields)?;
            let value = wrapped(alloc, tag, chosen, content)?;
            Ok(value)
        }
        Style::Tuple => {
            let content = write_unnamed(alloc, containers, values, fields)?;
            let value = wrapped(alloc, tag, chosen, content)?;
            Ok(value)
        }
        Style::Newtype => {
            let content = write_only(alloc, containers, values, fields)?;
            let value = wrapped(alloc, tag, chosen, content)?;
            Ok(value)
        }
        Style::Unit => {
            let value = wrapped(alloc, tag, chosen, Value::Null)?;
            Ok(value)
        }
    }
}
