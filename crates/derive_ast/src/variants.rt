//! Variants read with their attributes and fields.
ghost use Rattle.std.specs.Prelude.{◌≡◌, ◌++◌, ◌&&◌, ◌-◌, ℕ, List, map, not, cond, nat_lt, IfOk, OnOk, OnErr};
ghost use Rattle.std.specs.List.{flat_map};
ghost use Rattle.token_trees.specs.View.{name_view};
ghost use Rattle.syntax_trees.specs.Item.{variant_view as variant_tree};
ghost use Rattle.attr_parts.specs.Diagnostics.{diagnostics, untagged_order, TellsFront};
ghost use Rattle.attr_defs.specs.Texts.{lexed};
ghost use Rattle.derive_attr.specs.ContainerView.{container_view as attrs_view};
ghost use Rattle.container_defs.specs.Checks.{told_if};
ghost use Rattle.container_defs.specs.Model.{variant_told, variants_told, order_told};
ghost use Rattle.container_defs.specs.Reading.{variant_of, name_variant};
ghost use Rattle.derive_ast.specs.Tagged.{tagged_number, left_behind, order_of};
ghost use Rattle.derive_ast.specs.Views.{variant_view};

use crate::container::Variant;
use crate::fields::{each_of, read_fields, style_of};
use attr_parts::{Ctxt, DiagKind, Renamer};
use derive_attr::attr;
use std::alloc::{AllocError, Global};
use token_trees::Ident;

// A variant, with the names that the container's rules give it, and its fields, with those that its own or the container's give.
fn read_variant<'a, R: Renamer>(
    alloc: Global,
    cx: &mut Ctxt,
    variant: &'a syntax_trees::Variant,
    container: &attr::Container,
    private: &Ident,
    renamer: &R,
) -> Result<Variant<'a>, AllocError>
    ensures variant { IfOk result (λ v. variant_view v ≡ name_variant R.variant_name R.field_name (attrs_view container.now) (variant_of lexed (name_view private.now) (attrs_view container.now).default (variant_tree variant.now))) }
    ensures told { OnOk result (diagnostics cx.new ≡ diagnostics cx.old ++ variant_told lexed (variant_tree variant.now)) }
    ensures err { OnErr result (TellsFront (diagnostics cx.old) (diagnostics cx.new) (variant_told lexed (variant_tree variant.now))) }
{
    let mut attrs = attr::Variant::from_ast(alloc, cx, variant)?;
    let own = attrs.rename_all_rules();
    let outer = container.rename_all_fields_rules();
    let rules = own.or(outer);
    let default = container.default();
    let each = each_of(&variant.fields);
    let style = style_of(&variant.fields);
    let held = Some(&attrs);
    let fields = read_fields(alloc, cx, each, held, default, private, rules, renamer)?;
    let naming = container.rename_all_rules();
    attrs.rename_by_rules(naming, renamer)?;
    let ident = variant.ident.try_clone(alloc)?;
    Ok(Variant {
        ident,
        attrs,
        style,
        fields,
        original: variant,
    })
}

// The variants in order.
fn read_variants<'a, R: Renamer>(
    alloc: Global,
    cx: &mut Ctxt,
    variants: &'a [syntax_trees::Variant],
    container: &attr::Container,
    private: &Ident,
    renamer: &R,
) -> Result<Vec<Variant<'a>>, AllocError>
    ensures variants { IfOk result (λ v. map variant_view v.items ≡ map (name_variant R.variant_name R.field_name (attrs_view container.now)) (map (variant_of lexed (name_view private.now) (attrs_view container.now).default) (map variant_tree variants.now))) }
    ensures told { OnOk result (diagnostics cx.new ≡ diagnostics cx.old ++ variants_told lexed (map variant_tree variants.now)) }
    ensures err { OnErr result (TellsFront (diagnostics cx.old) (diagnostics cx.new) (variants_told lexed (map variant_tree variants.now))) }
{
    let mut read = Vec::with_capacity(alloc, variants.len())?;
    for variant in variants {
        read.push(read_variant(alloc, cx, variant, container, private, renamer)?)?;
    }
    Ok(read)
}

// How many variants are tagged.
fn count_tagged(variants: &[Variant]) -> usize
    ensures { result ≡ tagged_number (map variant_view variants.now) }
{
    let mut number = 0;
    for variant in variants {
        if !variant.attrs.untagged() {
            number += 1;
        }
    }
    number
}

// How many tagged variants stand behind this one, of so many from it on.
fn behind(variant: &Variant, number: usize) -> usize
    ensures { result ≡ left_behind number (variant_view variant.now) }
{
    if variant.attrs.untagged() || number == 0 {
        return number;
    }
    number - 1
}

// An untagged variant is told at its name where a tagged one stands behind it.
fn tell_untagged(cx: &mut Ctxt, variant: &Variant, number: usize) -> Result<(), AllocError>
    ensures ok { OnOk result (diagnostics cx.new ≡ diagnostics cx.old ++ told_if ((variant_view variant.now).attrs.untagged && nat_lt 0 number) untagged_order (variant_view variant.now).name.span) }
    ensures err { OnErr result (diagnostics cx.new ≡ diagnostics cx.old) }
{
    if variant.attrs.untagged() && number > 0 {
        return cx.error_spanned_by(variant.ident.span, DiagKind::UntaggedOrder);
    }
    Ok(())
}

// Each untagged variant that stands before a tagged one is told.
fn tell_order(cx: &mut Ctxt, variants: &[Variant]) -> Result<(), AllocError>
    ensures ok { OnOk result (diagnostics cx.new ≡ diagnostics cx.old ++ order_of (map variant_view variants.now)) }
    ensures err { OnErr result (TellsFront (diagnostics cx.old) (diagnostics cx.new) (order_of (map variant_view variants.now))) }
{
    let mut number = count_tagged(variants);
    for variant in variants {
        tell_untagged(cx, variant, number)?;
        number = behind(variant, number);
    }
    Ok(())
}

/// The variants of an enum in order; untagged ones that stand before a tagged one are told.
pub(crate) fn read_enum<'a, R: Renamer>(
    alloc: Global,
    cx: &mut Ctxt,
    variants: &'a [syntax_trees::Variant],
    container: &attr::Container,
    private: &Ident,
    renamer: &R,
) -> Result<Vec<Variant<'a>>, AllocError>
    ensures variants { IfOk result (λ v. map variant_view v.items ≡ map (name_variant R.variant_name R.field_name (attrs_view container.now)) (map (variant_of lexed (name_view private.now) (attrs_view container.now).default) (map variant_tree variants.now))) }
    ensures told { OnOk result (diagnostics cx.new ≡ diagnostics cx.old ++ (variants_told lexed (map variant_tree variants.now) ++ order_told lexed (map variant_tree variants.now))) }
    ensures err { OnErr result (TellsFront (diagnostics cx.old) (diagnostics cx.new) (variants_told lexed (map variant_tree variants.now) ++ order_told lexed (map variant_tree variants.now))) }
{
    let read = read_variants(alloc, cx, variants, container, private, renamer)?;
    tell_order(cx, &read)?;
    Ok(read)
}
