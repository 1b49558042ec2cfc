//! Plain enums.
ghost use Rattle.std.specs.Prelude.{◌≡◌, ◌&&◌, not, bytes_eq, IfOk};
ghost use Rattle.std.specs.List.{list_all};
ghost use Rattle.value_models.specs.FieldView.{fields_view};
ghost use Rattle.value_models.specs.VariantView.{variant_view, variants_view};
ghost use Rattle.value_models.specs.ContainerView.{tag_view};
ghost use Rattle.value_models.specs.ContainersView.{containers_in};
ghost use Rattle.writing_laws.specs.Kinds.{variants_are_apart as variants_are_apart_in};
ghost use Rattle.describe_defs.specs.Plain.{are_plain_variants as are_plain_variants_in, is_lone_required as is_lone_required_in, is_plain_enum as is_plain_enum_in, is_plain_variant as is_plain_variant_in, is_struct as is_struct_in, is_told_apart as is_told_apart_in, stands_beside as stands_beside_in};
ghost use Rattle.plain_tables.specs.Among.{no_conversions};

use crate::contents::is_plain_variant;
use crate::fields::is_undefaulted;
use crate::names::variants_stand_once;
use std::alloc::{AllocError, Global};
use value_kinds::{ModelTable, TypeKinds};
use value_models::{Field, Style, Tag, Variant};
use value_parts::is_unit;

fn is_struct(variant: &Variant) -> bool
    ensures { result ≡ is_struct_in (variant_view variant.now) }
{
    match variant.style {
        Style::Struct => true,
        Style::Tuple | Style::Newtype | Style::Unit => false,
    }
}

fn each_is_plain(
    alloc: Global,
    table: &ModelTable,
    closed: bool,
    variants: &[Variant],
) -> Result<bool, AllocError>
    ensures { IfOk result (λ b. b ≡ list_all (is_plain_variant_in (containers_in table.now.containers) no_conversions closed) (variants_view variants.now)) }
{
    for variant in variants {
        if !is_plain_variant(alloc, table, closed, variant)? {
            return Ok(false);
        }
    }
    Ok(true)
}

fn are_plain_variants(
    alloc: Global,
    table: &ModelTable,
    closed: bool,
    variants: &[Variant],
) -> Result<bool, AllocError>
    ensures { IfOk result (λ b. b ≡ are_plain_variants_in (containers_in table.now.containers) no_conversions closed (variants_view variants.now)) }
{
    let plain = each_is_plain(alloc, table, closed, variants)?;
    let once = variants_stand_once(alloc, variants)?;
    Ok(plain && once)
}

// ---- beside a tag

fn no_field_named(name: &str, fields: &[Field]) -> bool
    ensures { result ≡ list_all (λ f. not (bytes_eq name.now f.serialize_name)) (fields_view fields.now) }
{
    for field in fields {
        if name == field.serialize_name.as_str() {
            return false;
        }
    }
    true
}

fn stands_beside(tag: &str, variant: &Variant) -> bool
    ensures { result ≡ stands_beside_in tag.now (variant_view variant.now) }
{
    is_unit(variant) || (is_struct(variant) && no_field_named(tag, variant.fields.fields()))
}

fn each_stands_beside(tag: &str, variants: &[Variant]) -> bool
    ensures { result ≡ list_all (stands_beside_in tag.now) (variants_view variants.now) }
{
    for variant in variants {
        if !stands_beside(tag, variant) {
            return false;
        }
    }
    true
}

// ---- without a tag

fn is_lone_required(fields: &[Field]) -> bool
    ensures { result ≡ is_lone_required_in (fields_view fields.now) }
{
    match fields {
        [field] => is_undefaulted(field.default),
        _ => false,
    }
}

fn is_told_apart(closed: bool, variant: &Variant) -> bool
    ensures { result ≡ is_told_apart_in closed (variant_view variant.now) }
{
    !is_unit(variant)
        && (closed || !(is_struct(variant) && is_lone_required(variant.fields.fields())))
}

fn each_is_told_apart(closed: bool, variants: &[Variant]) -> bool
    ensures { result ≡ list_all (is_told_apart_in closed) (variants_view variants.now) }
{
    for variant in variants {
        if !is_told_apart(closed, variant) {
            return false;
        }
    }
    true
}

// Whether no two variants may read a kind in common: each is asked once, beside the kinds of those before it.
#[tactic(auto, using(crate::proofs::KindsApart::clear_begins, crate::proofs::KindsApart::clear_turn, crate::proofs::KindsApart::clear_stop, crate::proofs::KindsApart::clear_end))]
fn variants_are_apart(table: &ModelTable, closed: bool, variants: &[Variant]) -> bool
    ensures { result ≡ variants_are_apart_in (containers_in table.now.containers) closed (variants_view variants.now) }
{
    let mut seen = TypeKinds::none();
    for variant in variants {
        let kinds = table.content_kinds(variant);
        if !seen.is_apart(kinds) {
            return false;
        }
        seen = seen.either(kinds);
    }
    true
}

/// Whether an enum is plain.
pub(crate) fn is_plain_enum(
    alloc: Global,
    table: &ModelTable,
    closed: bool,
    tag: &Tag,
    variants: &[Variant],
) -> Result<bool, AllocError>
    ensures { IfOk result (λ b. b ≡ is_plain_enum_in (containers_in table.now.containers) no_conversions closed (tag_view tag.now) (variants_view variants.now)) }
{
    let plain = are_plain_variants(alloc, table, closed, variants)?;
    let count = variants.len();
    match tag {
        Tag::External => Ok(1 <= count && plain),
        Tag::Internal(tag) => {
            Ok(2 <= count && closed && plain && each_stands_beside(tag, variants))
        }
        Tag::Adjacent(tag, content) => {
            Ok(2 <= count && closed && plain && tag.as_str() != content.as_str())
        }
        Tag::Untagged => Ok(
            2 <= count
                && plain
                && each_is_told_apart(closed, variants)
                && variants_are_apart(table, closed, variants),
        ),
    }
}
