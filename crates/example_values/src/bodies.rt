//! In how few rounds contents and items are built.
ghost use Rattle.std.specs.Prelude.{◌≡◌, [], false, map, IfOk};
ghost use Rattle.model_defs.specs.Types.{types};
ghost use Rattle.model_defs.specs.Model.{newtype_style};
ghost use Rattle.model_defs.specs.Layer.{fields_content, present_type as present_in};
ghost use Rattle.model_defs.specs.Reads.{leads_to_option};
ghost use Rattle.value_models.specs.ContainersView.{containers_in};
ghost use Rattle.value_models.specs.ContainerView.{body_view, container_view, tag_view, variants_in};
ghost use Rattle.value_models.specs.FieldView.{field_view, fields_view, style_view};
ghost use Rattle.value_models.specs.VariantView.{fields_in, variant_view, variants_view};
ghost use Rattle.example_values.specs.Fewest.{body_fewest, container_fewest, content_fewest, fields_fewest, found_fewest, places_fewest, ready_fewest, type_fewest, variant_fewest, variants_fewest};
ghost use Rattle.example_values.specs.Known.{field_before, field_fewest_at, rounds_of, variant_before};

use crate::rounds::{before_first, both, either, later};
use crate::types::type_rounds;
use example_parts::{found_field, found_variant, may_be_missing, present_type};
use item_uses::Places;
use std::alloc::AllocError;
use value_models::{Body, Container, Field, Fields, Style, Tag, Variant, Variants};
use value_parts::is_unit;

// ---- fields

// Of the type as which a field is read.
#[tactic(auto, using(crate::proofs::Branches::present_there, crate::proofs::Branches::present_nowhere))]
fn present_rounds(
    places: &Places<'_>,
    rounds: &[Option<u64>],
    field: &Field,
) -> Result<Option<u64>, AllocError>
    ensures { let ms = containers_in places.now.containers.now in
        IfOk result (λ r. r ≡ type_fewest (rounds_of ms rounds.now) (present_in (field_view field.now))) }
{
    match present_type(field) {
        Some(ty) => {
            let own = type_rounds(places, rounds, ty)?;
            Ok(own)
        }
        None => Ok(None),
    }
}

// Of a field that is no rest.
#[tactic(auto, using(crate::proofs::Branches::field_missing, crate::proofs::Branches::field_there, crate::proofs::Branches::field_nowhere))]
fn field_rounds(
    places: &Places<'_>,
    rounds: &[Option<u64>],
    fields: &Fields,
    place: usize,
    field: &Field,
) -> Result<Option<u64>, AllocError>
    ensures { let ms = containers_in places.now.containers.now in
        IfOk result (λ r. r ≡ field_fewest_at (leads_to_option ms) (rounds_of ms rounds.now) (fields_in fields.now) place (field_view field.now)) }
{
    if may_be_missing(places.containers, field) {
        return Ok(Some(0));
    }
    match found_field(fields, place) {
        Some(_) => {
            let own = present_rounds(places, rounds, field)?;
            Ok(own)
        }
        None => Ok(None),
    }
}

// Of a field and of those behind it.
fn with_field(
    places: &Places<'_>,
    rounds: &[Option<u64>],
    fields: &Fields,
    place: usize,
    field: &Field,
    behind: Option<u64>,
) -> Result<Option<u64>, AllocError>
    ensures { let ms = containers_in places.now.containers.now in
        IfOk result (λ r. r ≡ field_before (leads_to_option ms) (rounds_of ms rounds.now) (fields_in fields.now) place (field_view field.now) behind) }
{
    if field.is_rest {
        return Ok(behind);
    }
    let own = field_rounds(places, rounds, fields, place, field)?;
    Ok(both(own, behind))
}

#[tactic(auto, using(crate::proofs::Backwards::one_field, crate::proofs::Backwards::all_fields))]
fn fields_rounds_among(
    places: &Places<'_>,
    rounds: &[Option<u64>],
    fields: &Fields,
    list: &[Field],
) -> Result<Option<u64>, AllocError>
    requires whole { fields_view list.now ≡ fields_in fields.now }
    ensures { let ms = containers_in places.now.containers.now in
        IfOk result (λ r. r ≡ fields_fewest (leads_to_option ms) (rounds_of ms rounds.now) [] (fields_in fields.now)) }
{
    let mut whole = Some(0);
    let mut left = list.len();
    while left > 0 {
        left -= 1;
        let behind = whole;
        whole = with_field(places, rounds, fields, left, &list[left], behind)?;
    }
    Ok(whole)
}

fn fields_rounds(
    places: &Places<'_>,
    rounds: &[Option<u64>],
    fields: &Fields,
) -> Result<Option<u64>, AllocError>
    ensures { let ms = containers_in places.now.containers.now in
        IfOk result (λ r. r ≡ fields_fewest (leads_to_option ms) (rounds_of ms rounds.now) [] (fields_in fields.now)) }
{
    let whole = fields_rounds_among(places, rounds, fields, fields.fields())?;
    Ok(whole)
}

// ---- contents

// Of unnamed fields, each in its place.
#[tactic(auto, using(crate::proofs::Backwards::one_place, crate::proofs::Backwards::all_places))]
fn tuple_rounds(
    places: &Places<'_>,
    rounds: &[Option<u64>],
    list: &[Field],
) -> Result<Option<u64>, AllocError>
    ensures { let ms = containers_in places.now.containers.now in
        IfOk result (λ r. r ≡ places_fewest (rounds_of ms rounds.now) (types (map (λ f. f.field_type) (fields_view list.now)))) }
{
    let mut whole = Some(0);
    let mut left = list.len();
    while left > 0 {
        left -= 1;
        let part = type_rounds(places, rounds, &list[left].field_type)?;
        whole = both(part, whole);
    }
    Ok(whole)
}

// Of one unnamed field.
fn newtype_rounds(
    places: &Places<'_>,
    rounds: &[Option<u64>],
    fields: &Fields,
) -> Result<Option<u64>, AllocError>
    ensures { let ms = containers_in places.now.containers.now in
        IfOk result (λ r. r ≡ content_fewest (leads_to_option ms) (rounds_of ms rounds.now) (fields_content false newtype_style (fields_in fields.now))) }
{
    match fields.fields() {
        [field] => {
            let own = type_rounds(places, rounds, &field.field_type)?;
            Ok(own)
        }
        _ => Ok(None),
    }
}

pub(crate) fn content_rounds(
    places: &Places<'_>,
    rounds: &[Option<u64>],
    style: Style,
    fields: &Fields,
) -> Result<Option<u64>, AllocError>
    ensures { let ms = containers_in places.now.containers.now in
        IfOk result (λ r. r ≡ content_fewest (leads_to_option ms) (rounds_of ms rounds.now) (fields_content false (style_view style) (fields_in fields.now))) }
{
    match style {
        Style::Struct => {
            let inner = fields_rounds(places, rounds, fields)?;
            let whole = later(inner)?;
            Ok(whole)
        }
        Style::Tuple => {
            let inner = tuple_rounds(places, rounds, fields.fields())?;
            let whole = later(inner)?;
            Ok(whole)
        }
        Style::Newtype => {
            let whole = newtype_rounds(places, rounds, fields)?;
            Ok(whole)
        }
        Style::Unit => Ok(Some(1)),
    }
}

// ---- variants

/// Of a variant's contents; a unit takes no round.
pub(crate) fn variant_rounds(
    places: &Places<'_>,
    rounds: &[Option<u64>],
    variant: &Variant,
) -> Result<Option<u64>, AllocError>
    ensures { let ms = containers_in places.now.containers.now in
        IfOk result (λ r. r ≡ variant_fewest (leads_to_option ms) (rounds_of ms rounds.now) (variant_view variant.now)) }
{
    if is_unit(variant) {
        return Ok(Some(0));
    }
    let whole = content_rounds(places, rounds, variant.style, &variant.fields)?;
    Ok(whole)
}

// Of a variant, where a name finds it, or of those behind it.
#[tactic(auto, using(crate::proofs::Branches::variant_there, crate::proofs::Branches::variant_nowhere))]
fn with_variant(
    places: &Places<'_>,
    rounds: &[Option<u64>],
    variants: &Variants,
    place: usize,
    variant: &Variant,
    behind: Option<u64>,
) -> Result<Option<u64>, AllocError>
    ensures { let ms = containers_in places.now.containers.now in
        IfOk result (λ r. r ≡ variant_before (leads_to_option ms) (rounds_of ms rounds.now) (variants_in variants.now) place (variant_view variant.now) behind) }
{
    match found_variant(variants, place) {
        Some(_) => {
            let own = variant_rounds(places, rounds, variant)?;
            Ok(either(own, behind))
        }
        None => Ok(behind),
    }
}

#[tactic(auto, using(crate::proofs::Backwards::one_found, crate::proofs::Backwards::all_found))]
fn found_rounds(
    places: &Places<'_>,
    rounds: &[Option<u64>],
    variants: &Variants,
    list: &[Variant],
) -> Result<Option<u64>, AllocError>
    requires whole { variants_view list.now ≡ variants_in variants.now }
    ensures { let ms = containers_in places.now.containers.now in
        IfOk result (λ r. r ≡ found_fewest (leads_to_option ms) (rounds_of ms rounds.now) [] (variants_in variants.now)) }
{
    let mut whole = None;
    let mut left = list.len();
    while left > 0 {
        left -= 1;
        let behind = whole;
        whole = with_variant(places, rounds, variants, left, &list[left], behind)?;
    }
    Ok(whole)
}

#[tactic(auto, using(crate::proofs::Backwards::one_ready, crate::proofs::Backwards::all_ready))]
fn ready_rounds(
    places: &Places<'_>,
    rounds: &[Option<u64>],
    list: &[Variant],
) -> Result<Option<u64>, AllocError>
    ensures { let ms = containers_in places.now.containers.now in
        IfOk result (λ r. r ≡ ready_fewest (leads_to_option ms) (rounds_of ms rounds.now) (variants_view list.now)) }
{
    let mut whole = None;
    let mut left = list.len();
    while left > 0 {
        left -= 1;
        let own = variant_rounds(places, rounds, &list[left])?;
        whole = either(own, whole);
    }
    Ok(whole)
}

/// Of an enum, by the variant that takes the fewest.
pub(crate) fn variants_rounds(
    places: &Places<'_>,
    rounds: &[Option<u64>],
    tag: &Tag,
    variants: &Variants,
) -> Result<Option<u64>, AllocError>
    ensures { let ms = containers_in places.now.containers.now in
        IfOk result (λ r. r ≡ variants_fewest (leads_to_option ms) (rounds_of ms rounds.now) (tag_view tag.now) (variants_in variants.now)) }
{
    match tag {
        Tag::Untagged => {
            let whole = ready_rounds(places, rounds, variants.variants())?;
            Ok(whole)
        }
        Tag::External | Tag::Internal(_) | Tag::Adjacent(_, _) => {
            let whole = found_rounds(places, rounds, variants, variants.variants())?;
            Ok(whole)
        }
    }
}

// ---- items

fn body_rounds(
    places: &Places<'_>,
    rounds: &[Option<u64>],
    body: &Body,
) -> Result<Option<u64>, AllocError>
    ensures { let ms = containers_in places.now.containers.now in
        IfOk result (λ r. r ≡ body_fewest (leads_to_option ms) (rounds_of ms rounds.now) (body_view body.now)) }
{
    match body {
        Body::Struct(Style::Struct, fields) => {
            let whole = fields_rounds(places, rounds, fields)?;
            Ok(whole)
        }
        Body::Struct(Style::Newtype, fields) => {
            let whole = newtype_rounds(places, rounds, fields)?;
            Ok(whole)
        }
        Body::Struct(Style::Tuple | Style::Unit, _) => Ok(None),
        Body::Enum(tag, variants) => {
            let whole = variants_rounds(places, rounds, tag, variants)?;
            Ok(whole)
        }
    }
}

/// Of an item, where it is known whether its rule gives a value.
pub(crate) fn container_rounds(
    places: &Places<'_>,
    rounds: &[Option<u64>],
    given: bool,
    container: &Container,
) -> Result<Option<u64>, AllocError>
    ensures { let ms = containers_in places.now.containers.now in
        IfOk result (λ r. r ≡ container_fewest (leads_to_option ms) (rounds_of ms rounds.now) given (container_view container.now)) }
{
    if container.try_from {
        let whole = later(before_first(given))?;
        return Ok(whole);
    }
    let inner = body_rounds(places, rounds, &container.body)?;
    let whole = later(inner)?;
    Ok(whole)
}
