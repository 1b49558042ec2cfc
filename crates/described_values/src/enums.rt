//! Variants of enums as schemas.
ghost use Rattle.std.specs.Prelude.{◌≡◌, [], ◌∷◌, IfOk};
ghost use Rattle.json_value.specs.View.{kept_view};
ghost use Rattle.value_models.specs.VariantView.{variant_view, variants_view};
ghost use Rattle.value_models.specs.ContainerView.{tag_view};
ghost use Rattle.model_defs.specs.Layer.{variant_content};
ghost use Rattle.describe_defs.specs.Written.{adjacent_value as adjacent_value_of, content_value as content_value_of, external_value as external_value_of, internal_value as internal_value_of, never_value, object_value as object_value_of, one_of_value, one_text_value, required_value, tag_value, variant_value as variant_value_of, variant_values as variant_values_of};
ghost use Rattle.described_types.specs.Seen.{kept_items};
ghost use Rattle.described_values.specs.Shown.{beside_adjacent, beside_internal, entries_view, object_of, shown, shown_with};

use crate::contents::content_value;
use crate::entries::{Entries, add_required, gather_fields, no_entries};
use crate::objects::object_value;
use described_types::{list_value, text_value};
use serde_json::Value;
use serde_json::value::Map;
use std::alloc::{AllocError, Global};
use value_models::{Tag, Variant};
use value_parts::is_unit;
use value_writing::put_member;

// An enumeration of one text.
fn one_text(alloc: Global, name: &str) -> Result<Value, AllocError>
    ensures { IfOk result (λ v. kept_view v ≡ one_text_value name.now) }
{
    let kind = text_value(alloc, "string")?;
    let listed = text_value(alloc, name)?;
    let mut members = Map::new(alloc);
    put_member(alloc, &mut members, "type", kind)?;
    put_member(
        alloc,
        &mut members,
        "enum",
        Value::Array(vec![in alloc; listed]?),
    )?;
    Ok(Value::Object(members))
}

// An object that is closed.
fn closed_object(alloc: Global, entries: Entries) -> Result<Value, AllocError>
    ensures { IfOk result (λ v. kept_view v ≡ object_of (entries_view entries) never_value) }
{
    let value = object_value(alloc, entries, Some(Value::Bool(false)))?;
    Ok(value)
}

// An object of one member with the name of the variant.
#[tactic(auto, using(crate::proofs::Tagged::one_member))]
fn named_content(alloc: Global, closed: bool, variant: &Variant) -> Result<Value, AllocError>
    ensures { let w = variant_view variant.now in
        IfOk result (λ v. kept_view v ≡ object_value_of (required_value w.serialize_name (content_value_of (variant_content closed w)) ∷ []) never_value) }
{
    let content = content_value(alloc, closed, variant)?;
    let mut entries = no_entries(alloc);
    add_required(alloc, &mut entries, &variant.serialize_name, content)?;
    let value = closed_object(alloc, entries)?;
    Ok(value)
}

fn external_value(alloc: Global, closed: bool, variant: &Variant) -> Result<Value, AllocError>
    ensures { IfOk result (λ v. kept_view v ≡ external_value_of closed (variant_view variant.now)) }
{
    if is_unit(variant) {
        let value = one_text(alloc, &variant.serialize_name)?;
        return Ok(value);
    }
    let value = named_content(alloc, closed, variant)?;
    Ok(value)
}

// The properties beside an internal tag.
#[tactic(auto, using(crate::proofs::Gathered::all_picked))]
fn beside_tag(alloc: Global, variant: &Variant) -> Result<Entries, AllocError>
    ensures { IfOk result (λ e. entries_view e ≡ shown (beside_internal (variant_view variant.now))) }
{
    if is_unit(variant) {
        return Ok(no_entries(alloc));
    }
    let entries = gather_fields(alloc, true, variant.fields.fields())?;
    Ok(entries)
}

// The property beside an adjacent tag.
fn beside_content(
    alloc: Global,
    closed: bool,
    content: &str,
    variant: &Variant,
) -> Result<Entries, AllocError>
    ensures { IfOk result (λ e. entries_view e ≡ shown (beside_adjacent closed content.now (variant_view variant.now))) }
{
    if is_unit(variant) {
        return Ok(no_entries(alloc));
    }
    let value = content_value(alloc, closed, variant)?;
    let mut entries = no_entries(alloc);
    add_required(alloc, &mut entries, content, value)?;
    Ok(entries)
}

// A closed object with the tag beside other properties.
fn tagged_value(
    alloc: Global,
    tag: &str,
    variant: &Variant,
    entries: Entries,
) -> Result<Value, AllocError>
    ensures { IfOk result (λ v. kept_view v ≡ object_of (shown_with (tag_value tag.now (variant_view variant.now)) (entries_view entries)) never_value) }
{
    let named = one_text(alloc, &variant.serialize_name)?;
    let mut entries = entries;
    add_required(alloc, &mut entries, tag, named)?;
    let value = closed_object(alloc, entries)?;
    Ok(value)
}

fn internal_value(alloc: Global, tag: &str, variant: &Variant) -> Result<Value, AllocError>
    ensures { IfOk result (λ v. kept_view v ≡ internal_value_of tag.now (variant_view variant.now)) }
{
    let entries = beside_tag(alloc, variant)?;
    let value = tagged_value(alloc, tag, variant, entries)?;
    Ok(value)
}

#[tactic(auto, using(crate::proofs::Tagged::tagged_is))]
fn adjacent_value(
    alloc: Global,
    closed: bool,
    tag: &str,
    content: &str,
    variant: &Variant,
) -> Result<Value, AllocError>
    ensures { IfOk result (λ v. kept_view v ≡ adjacent_value_of closed tag.now content.now (variant_view variant.now)) }
{
    let entries = beside_content(alloc, closed, content, variant)?;
    let value = tagged_value(alloc, tag, variant, entries)?;
    Ok(value)
}

fn variant_value(
    alloc: Global,
    closed: bool,
    tag: &Tag,
    variant: &Variant,
) -> Result<Value, AllocError>
    ensures { IfOk result (λ v. kept_view v ≡ variant_value_of closed (tag_view tag.now) (variant_view variant.now)) }
{
    match tag {
        Tag::External => {
            let value = external_value(alloc, closed, variant)?;
            Ok(value)
        }
        Tag::Internal(tag) => {
            let value = internal_value(alloc, tag, variant)?;
            Ok(value)
        }
        Tag::Adjacent(tag, content) => {
            let value = adjacent_value(alloc, closed, tag, content, variant)?;
            Ok(value)
        }
        Tag::Untagged => {
            let value = content_value(alloc, closed, variant)?;
            Ok(value)
        }
    }
}

#[tactic(auto, using(crate::proofs::Tagged::one_more))]
fn variant_values(
    alloc: Global,
    closed: bool,
    tag: &Tag,
    variants: &[Variant],
) -> Result<Vec<Value>, AllocError>
    ensures { IfOk result (λ v. kept_items v.items ≡ variant_values_of (variant_value_of closed (tag_view tag.now)) (variants_view variants.now)) }
{
    let mut values = Vec::new(alloc);
    for variant in variants {
        values.push(variant_value(alloc, closed, tag, variant)?)?;
    }
    Ok(values)
}

/// An enum: one of its variants.
pub(crate) fn enum_value(
    alloc: Global,
    closed: bool,
    tag: &Tag,
    variants: &[Variant],
) -> Result<Value, AllocError>
    ensures { IfOk result (λ v. kept_view v ≡ one_of_value (variant_values_of (variant_value_of closed (tag_view tag.now)) (variants_view variants.now))) }
{
    let values = variant_values(alloc, closed, tag, variants)?;
    let mut members = Map::new(alloc);
    put_member(alloc, &mut members, "oneOf", list_value(values))?;
    Ok(Value::Object(members))
}
