//! Names of tags, of contents, and of the fields beside them (`check_internal_tag_field_name_conflict`,
//! `check_adjacent_tag_conflict`).
//!
//! An internal tag is a member beside the fields of a struct variant. A field of its name would be a second
//! member of one name where the variant is written, and either could be meant where it is read:
//!
//!     #[serde(tag = "kind")]
//!     enum Event { Key { kind: u8 } }
//!
//! What isn't written has no name there, and what isn't read none here. For the same reason an adjacent
//! tag and its content differ in name; this is told:
//!
//!     #[serde(tag = "t", content = "t")]
//!     enum Event { Key(u8) }
ghost use Rattle.std.specs.Prelude.{◌≡◌, ◌++◌, ◌||◌, bytes_eq, map, string_bytes, OnOk, OnErr};
ghost use Rattle.std.specs.BTreeSet.{keys};
ghost use Rattle.std.specs.List.{list_any};
ghost use Rattle.attr_parts.specs.Diagnostics.{diagnostics, same_tags, tag_conflict};
ghost use Rattle.attr_parts.specs.Names.{attr_name};
ghost use Rattle.attr_parts.specs.Values.{tag_view};
ghost use Rattle.container_defs.specs.Checks.{told_if, has_text, is_written_as, is_read_as, has_tag_name, tag_conflict_by, check_internal_tag_field_name_conflict, same_tags_by, check_adjacent_tag_conflict, at_item, variants_in};
ghost use Rattle.derive_ast.specs.Views.{field_view, variant_view, data_view, container_view};

use crate::container::{Container, Data, Field, Variant};
use attr_parts::{Ctxt, DiagKind, Name, TagType, place_of_item};
use container_defs::Style;
use std::alloc::AllocError;
use std::collections::BTreeSet;

fn has_value(name: &Name, text: &str) -> bool
    ensures { result ≡ has_text text.now (attr_name name.now) }
{
    name.value.as_str() == text
}

fn is_among(names: &BTreeSet<Name>, text: &str) -> bool
    ensures { result ≡ list_any (has_text text.now) (map attr_name (keys names.now)) }
{
    for name in names {
        if has_value(name, text) {
            return true;
        }
    }
    false
}

// Whether the field is written by that name.
fn writes(variant: &Variant, field: &Field, text: &str) -> bool
    ensures { result ≡ is_written_as text.now (variant_view variant.now) (field_view field.now) }
{
    if field.attrs.skip_serializing() || variant.attrs.skip_serializing() {
        return false;
    }
    has_value(field.attrs.name().serialize_name(), text)
}

// Whether it is read by that name.
fn reads(variant: &Variant, field: &Field, text: &str) -> bool
    ensures { result ≡ is_read_as text.now (variant_view variant.now) (field_view field.now) }
{
    if field.attrs.skip_deserializing() || variant.attrs.skip_deserializing() {
        return false;
    }
    is_among(field.attrs.aliases(), text)
}

// Whether it is written or read by that name.
fn is_called(variant: &Variant, field: &Field, text: &str) -> bool
    ensures { result ≡ (is_written_as text.now (variant_view variant.now) (field_view field.now) || is_read_as text.now (variant_view variant.now) (field_view field.now)) }
{
    writes(variant, field, text) || reads(variant, field, text)
}

fn has_name(variant: &Variant, fields: &[Field], text: &str) -> bool
    ensures { result ≡ list_any (λ f. is_written_as text.now (variant_view variant.now) f || is_read_as text.now (variant_view variant.now) f) (map field_view fields.now) }
{
    for field in fields {
        if is_called(variant, field, text) {
            return true;
        }
    }
    false
}

// Whether a field with a name stands beside the tag, and has its name.
fn conflicts(variant: &Variant, tag: &str) -> bool
    ensures { result ≡ has_tag_name tag.now (variant_view variant.now) }
{
    match variant.style {
        Style::Struct => !variant.attrs.untagged() && has_name(variant, &variant.fields, tag),
        Style::Tuple => false,
        Style::Newtype => false,
        Style::Unit => false,
    }
}

fn any_conflicts(variants: &[Variant], tag: &str) -> bool
    ensures { result ≡ list_any (has_tag_name tag.now) (map variant_view variants.now) }
{
    for variant in variants {
        if conflicts(variant, tag) {
            return true;
        }
    }
    false
}

fn body_conflicts(body: &Data, tag: &str) -> bool
    ensures { result ≡ list_any (has_tag_name tag.now) (variants_in (data_view body.now)) }
{
    match body {
        Data::Enum(variants) => any_conflicts(variants, tag),
        Data::Struct(_, _) => false,
    }
}

fn tell_conflict(cx: &mut Ctxt, cont: &Container, tag: &String) -> Result<(), AllocError>
    ensures ok { OnOk result (diagnostics cx.new ≡ diagnostics cx.old ++ told_if (list_any (has_tag_name (string_bytes tag.now)) (variants_in (container_view cont.now).body)) (tag_conflict (string_bytes tag.now)) (at_item (container_view cont.now))) }
    ensures err { OnErr result (diagnostics cx.new ≡ diagnostics cx.old) }
{
    if !body_conflicts(&cont.body, tag) {
        return Ok(());
    }
    let name = tag.clone()?;
    cx.error_spanned_by(place_of_item(cont.original), DiagKind::TagConflict(name))
}

/// A field that has the name of the tag beside which it stands is told, once.
pub(crate) fn check_tag_names(cx: &mut Ctxt, cont: &Container) -> Result<(), AllocError>
    ensures ok { OnOk result (diagnostics cx.new ≡ diagnostics cx.old ++ check_internal_tag_field_name_conflict (container_view cont.now)) }
    ensures err { OnErr result (diagnostics cx.new ≡ diagnostics cx.old) }
{
    match cont.attrs.tag() {
        TagType::External => Ok(()),
        TagType::Internal { tag } => tell_conflict(cx, cont, tag),
        TagType::Adjacent { .. } => Ok(()),
        TagType::None => Ok(()),
    }
}

fn tell_same(
    cx: &mut Ctxt,
    cont: &Container,
    tag: &String,
    content: &String,
) -> Result<(), AllocError>
    ensures ok { OnOk result (diagnostics cx.new ≡ diagnostics cx.old ++ told_if (bytes_eq (string_bytes tag.now) (string_bytes content.now)) (same_tags (string_bytes tag.now)) (at_item (container_view cont.now))) }
    ensures err { OnErr result (diagnostics cx.new ≡ diagnostics cx.old) }
{
    if *tag != *content {
        return Ok(());
    }
    let name = tag.clone()?;
    cx.error_spanned_by(place_of_item(cont.original), DiagKind::SameTags(name))
}

/// A tag and its content that have one name are told.
pub(crate) fn check_same_tags(cx: &mut Ctxt, cont: &Container) -> Result<(), AllocError>
    ensures ok { OnOk result (diagnostics cx.new ≡ diagnostics cx.old ++ check_adjacent_tag_conflict (container_view cont.now)) }
    ensures err { OnErr result (diagnostics cx.new ≡ diagnostics cx.old) }
{
    match cont.attrs.tag() {
        TagType::External => Ok(()),
        TagType::Internal { .. } => Ok(()),
        TagType::Adjacent { tag, content } => tell_same(cx, cont, tag, content),
        TagType::None => Ok(()),
    }
}
