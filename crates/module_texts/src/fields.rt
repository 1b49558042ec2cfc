//! Fields and variants, line by line.
ghost use Rattle.std.specs.Prelude.{◌≡◌, ◌++◌, OnOk, map, option_map, string_bytes};
ghost use Rattle.token_trees.specs.View.{name_view};
ghost use Rattle.syntax_trees.specs.Item.{attribute_view, field_view, fields_view, variant_view};
ghost use Rattle.module_texts.specs.Fields.{attributes_inline, braced_text, broken_field, broken_label, declared_field, field_line, field_lines, label, more_places, place_text, places_text, plain_field, variant_fields, variant_line, variant_lines, variants_text};

use crate::attributes::push_attributes;
use crate::tokens::{push_attribute, push_type, width};
use std::alloc::{AllocError, Global};
use syntax_trees::{Attribute, Field, Fields, Variant};
use token_trees::Ident;

// A field's name, and what stands before its type.
#[tactic(auto, using(crate::proofs::Parts::assoc))]
fn push_label(out: &mut String, name: &Option<Ident>) -> Result<(), AllocError>
    ensures { OnOk result (string_bytes out.new ≡ string_bytes out.old ++ label (option_map name_view name.now)) }
{
    match name {
        Some(name) => {
            out.push_str(&name.text)?;
            out.push_str(": ")?;
            Ok(())
        }
        None => Ok(()),
    }
}

// A field's name, with the type on the next line.
#[tactic(auto, using(crate::proofs::Parts::assoc))]
fn push_broken_label(out: &mut String, indent: &str, name: &Option<Ident>) -> Result<(), AllocError>
    ensures { OnOk result (string_bytes out.new ≡ string_bytes out.old ++ broken_label indent.now (option_map name_view name.now)) }
{
    match name {
        Some(name) => {
            out.push_str(&name.text)?;
            out.push_str(":\n")?;
            out.push_str(indent)?;
            out.push_str("    ")?;
            Ok(())
        }
        None => Ok(()),
    }
}

#[tactic(auto, using(crate::proofs::Parts::assoc))]
fn push_plain_field(
    out: &mut String,
    alloc: Global,
    indent: &str,
    visibility: &str,
    field: &Field,
) -> Result<(), AllocError>
    ensures { OnOk result (string_bytes out.new ≡ string_bytes out.old ++ plain_field indent.now visibility.now (field_view field.now)) }
{
    out.push_str(indent)?;
    out.push_str(visibility)?;
    push_label(out, &field.ident)?;
    push_type(out, alloc, &field.ty)?;
    out.push_str(",\n")?;
    Ok(())
}

#[tactic(auto, using(crate::proofs::Parts::assoc))]
fn push_broken_field(
    out: &mut String,
    alloc: Global,
    indent: &str,
    visibility: &str,
    field: &Field,
) -> Result<(), AllocError>
    ensures { OnOk result (string_bytes out.new ≡ string_bytes out.old ++ broken_field indent.now visibility.now (field_view field.now)) }
{
    out.push_str(indent)?;
    out.push_str(visibility)?;
    push_broken_label(out, indent, &field.ident)?;
    push_type(out, alloc, &field.ty)?;
    out.push_str(",\n")?;
    Ok(())
}

// A field without its attributes.
fn push_declared(
    out: &mut String,
    alloc: Global,
    indent: &str,
    visibility: &str,
    field: &Field,
) -> Result<(), AllocError>
    ensures { OnOk result (string_bytes out.new ≡ string_bytes out.old ++ declared_field indent.now visibility.now (field_view field.now)) }
{
    let mut line = String::new(alloc);
    push_plain_field(&mut line, alloc, indent, visibility, field)?;
    if width(&line) > 101 {
        return push_broken_field(out, alloc, indent, visibility, field);
    }
    push_plain_field(out, alloc, indent, visibility, field)
}

#[tactic(auto, using(crate::proofs::Parts::assoc))]
fn push_field(
    out: &mut String,
    alloc: Global,
    indent: &str,
    visibility: &str,
    field: &Field,
) -> Result<(), AllocError>
    ensures { OnOk result (string_bytes out.new ≡ string_bytes out.old ++ field_line indent.now visibility.now (field_view field.now)) }
{
    push_attributes(out, alloc, indent, &field.attrs)?;
    push_declared(out, alloc, indent, visibility, field)?;
    Ok(())
}

#[tactic(auto, using(crate::proofs::Parts::assoc))]
fn push_fields(
    out: &mut String,
    alloc: Global,
    indent: &str,
    visibility: &str,
    fields: &[Field],
) -> Result<(), AllocError>
    ensures { OnOk result (string_bytes out.new ≡ string_bytes out.old ++ field_lines indent.now visibility.now (map field_view fields.now)) }
{
    for field in fields {
        push_field(out, alloc, indent, visibility, field)?;
    }
    Ok(())
}

/// Appends fields with names between braces, each on lines of its own.
#[tactic(auto, using(crate::proofs::Parts::assoc))]
pub(crate) fn push_braced(
    out: &mut String,
    alloc: Global,
    indent: &str,
    inner: &str,
    visibility: &str,
    fields: &[Field],
) -> Result<(), AllocError>
    ensures { OnOk result (string_bytes out.new ≡ string_bytes out.old ++ braced_text indent.now inner.now visibility.now (map field_view fields.now)) }
{
    match fields.split_first() {
        Some((first, rest)) => {
            out.push_str(" {\n")?;
            push_field(out, alloc, inner, visibility, first)?;
            push_fields(out, alloc, inner, visibility, rest)?;
            out.push_str(indent)?;
            out.push_str("}")?;
            Ok(())
        }
        None => out.push_str(" {}"),
    }
}

#[tactic(auto, using(crate::proofs::Parts::assoc))]
fn push_inline(out: &mut String, alloc: Global, attributes: &[Attribute]) -> Result<(), AllocError>
    ensures { OnOk result (string_bytes out.new ≡ string_bytes out.old ++ attributes_inline (map attribute_view attributes.now)) }
{
    for attribute in attributes {
        push_attribute(out, alloc, attribute)?;
        out.push_str(" ")?;
    }
    Ok(())
}

#[tactic(auto, using(crate::proofs::Parts::assoc))]
fn push_place(
    out: &mut String,
    alloc: Global,
    visibility: &str,
    field: &Field,
) -> Result<(), AllocError>
    ensures { OnOk result (string_bytes out.new ≡ string_bytes out.old ++ place_text visibility.now (field_view field.now)) }
{
    push_inline(out, alloc, &field.attrs)?;
    out.push_str(visibility)?;
    push_label(out, &field.ident)?;
    push_type(out, alloc, &field.ty)?;
    Ok(())
}

#[tactic(auto, using(crate::proofs::Parts::assoc))]
fn push_more(
    out: &mut String,
    alloc: Global,
    visibility: &str,
    fields: &[Field],
) -> Result<(), AllocError>
    ensures { OnOk result (string_bytes out.new ≡ string_bytes out.old ++ more_places visibility.now (map field_view fields.now)) }
{
    for field in fields {
        out.push_str(", ")?;
        push_place(out, alloc, visibility, field)?;
    }
    Ok(())
}

/// Appends fields without names between parentheses, on one line.
#[tactic(auto, using(crate::proofs::Parts::assoc))]
pub(crate) fn push_places(
    out: &mut String,
    alloc: Global,
    visibility: &str,
    fields: &[Field],
) -> Result<(), AllocError>
    ensures { OnOk result (string_bytes out.new ≡ string_bytes out.old ++ places_text visibility.now (map field_view fields.now)) }
{
    match fields.split_first() {
        Some((first, rest)) => {
            out.push_str("(")?;
            push_place(out, alloc, visibility, first)?;
            push_more(out, alloc, visibility, rest)?;
            out.push_str(")")?;
            Ok(())
        }
        None => out.push_str("()"),
    }
}

// What a variant holds.
fn push_contents(out: &mut String, alloc: Global, fields: &Fields) -> Result<(), AllocError>
    ensures { OnOk result (string_bytes out.new ≡ string_bytes out.old ++ variant_fields (fields_view fields.now)) }
{
    match fields {
        Fields::Named(fields) => push_braced(out, alloc, "    ", "        ", "", fields),
        Fields::Unnamed(fields) => push_places(out, alloc, "", fields),
        Fields::Unit => Ok(()),
    }
}

#[tactic(auto, using(crate::proofs::Parts::assoc))]
fn push_variant(out: &mut String, alloc: Global, variant: &Variant) -> Result<(), AllocError>
    ensures { OnOk result (string_bytes out.new ≡ string_bytes out.old ++ variant_line (variant_view variant.now)) }
{
    push_attributes(out, alloc, "    ", &variant.attrs)?;
    out.push_str("    ")?;
    out.push_str(&variant.ident.text)?;
    push_contents(out, alloc, &variant.fields)?;
    out.push_str(",\n")?;
    Ok(())
}

#[tactic(auto, using(crate::proofs::Parts::assoc))]
fn push_each_variant(
    out: &mut String,
    alloc: Global,
    variants: &[Variant],
) -> Result<(), AllocError>
    ensures { OnOk result (string_bytes out.new ≡ string_bytes out.old ++ variant_lines (map variant_view variants.now)) }
{
    for variant in variants {
        push_variant(out, alloc, variant)?;
    }
    Ok(())
}

/// Appends the variants of an enum between braces, each on lines of its own.
#[tactic(auto, using(crate::proofs::Parts::assoc))]
pub(crate) fn push_variants(
    out: &mut String,
    alloc: Global,
    variants: &[Variant],
) -> Result<(), AllocError>
    ensures { OnOk result (string_bytes out.new ≡ string_bytes out.old ++ variants_text (map variant_view variants.now)) }
{
    match variants.split_first() {
        Some((first, rest)) => {
            out.push_str(" {\n")?;
            push_variant(out, alloc, first)?;
            push_each_variant(out, alloc, rest)?;
            out.push_str("}")?;
            Ok(())
        }
        None => out.push_str(" {}"),
    }
}
