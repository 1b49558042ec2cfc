//! Items, with the stated defaults that they have.
ghost use Rattle.std.specs.Prelude.{◌≡◌, ◌++◌, ℕ, Bool, None, Some, length, map, flat_map, IfOk, OnOk, option_map, string_bytes};
ghost use Rattle.token_trees.specs.Text.{text_of};
ghost use Rattle.syntax_trees.specs.View.{ty};
ghost use Rattle.syntax_trees.specs.Item.{variant_view as tree_view, item_view};
ghost use Rattle.syntax_printing.specs.Print.{print_ty};
ghost use Rattle.json_value.specs.View.{kept_view};
ghost use Rattle.schema_tree.specs.Conversions.{rule_view};
ghost use Rattle.entry_defs.specs.Space.{Id, struct_shape_at, enum_shape_at, newtype_shape_at};
ghost use Rattle.entry_types.specs.View.{id_view, tag_view, field_view, rest_at, variant_view, shape_view};
ghost use Rattle.space_defs.specs.Trees.{field_defaults_at, contents_defaults_at, shape_defaults_at, variant_tree_at, variant_trees_at, item_tree_at};
ghost use Rattle.emit_types.specs.Asked.{space_view, same_part, leads_by, placed_item};

use crate::fields::{content_fields, struct_fields};
use emit_trees::{enum_item, item_metas, newtype_fields, struct_item, variant};
use emit_types::{ends_in_phantom, type_at};
use entry_types::{FieldEntry, ItemEntry, ItemShape, TypeEntry, TypeId, VariantEntry};
use rust_syntax::ToTokens;
use schema_tree::Rule;
use serde_json::Value;
use std::alloc::{AllocError, Global};
use syntax_trees::{DeriveInput, Fields, Ty, Variant};
use tag_kinds::TagType;
use token_trees::TokenStream;

// The text of a type's tokens.
fn type_text(alloc: Global, of: &Ty) -> Result<String, AllocError>
    ensures { IfOk result (λ s. string_bytes s ≡ text_of (print_ty (ty of.now))) }
{
    let mut tokens = TokenStream::new(alloc);
    of.to_tokens(&mut tokens)?;
    tokens.text(alloc)
}

// A newtype without a rule.
#[tactic(auto, using(crate::proofs::Made::bare_made))]
fn bare_newtype(
    alloc: Global,
    entries: &[TypeEntry],
    parts: &[u32],
    owner: usize,
    name: &str,
    inner: TypeId,
) -> Result<DeriveInput, AllocError>
    ensures { IfOk result (λ d. (leads : Id → Bool) (n : ℕ) → item_view d ≡ item_tree_at (space_view entries.now) (same_part parts.now) leads n (placed_item owner name.now (newtype_shape_at inner.0 None))) }
{
    let held = type_at(alloc, entries, parts, Some(owner), inner)?;
    let transparent = !ends_in_phantom(entries, parts, owner, inner);
    let metas = item_metas(alloc, &TagType::External, transparent, None, false)?;
    let fields = newtype_fields(alloc, held)?;
    let item = struct_item(alloc, name, metas, fields)?;
    Ok(item)
}

// A newtype with a rule, which its constraint holds.
#[tactic(auto, using(crate::proofs::Made::ruled_made))]
fn ruled_newtype(
    alloc: Global,
    entries: &[TypeEntry],
    parts: &[u32],
    owner: usize,
    name: &str,
    inner: TypeId,
    rule: &Rule,
) -> Result<DeriveInput, AllocError>
    ensures { IfOk result (λ d. (leads : Id → Bool) (n : ℕ) → item_view d ≡ item_tree_at (space_view entries.now) (same_part parts.now) leads n (placed_item owner name.now (newtype_shape_at inner.0 (Some (rule_view rule.now))))) }
{
    let held = type_at(alloc, entries, parts, Some(owner), inner)?;
    let text = type_text(alloc, &held)?;
    let metas = item_metas(alloc, &TagType::External, false, Some(text), false)?;
    let fields = newtype_fields(alloc, held)?;
    let item = struct_item(alloc, name, metas, fields)?;
    Ok(item)
}

// A newtype, with a rule or without.
fn newtype_item(
    alloc: Global,
    entries: &[TypeEntry],
    parts: &[u32],
    owner: usize,
    name: &str,
    inner: TypeId,
    rule: &Option<Rule>,
) -> Result<DeriveInput, AllocError>
    ensures { IfOk result (λ d. (leads : Id → Bool) (n : ℕ) → item_view d ≡ item_tree_at (space_view entries.now) (same_part parts.now) leads n (placed_item owner name.now (newtype_shape_at inner.0 (option_map rule_view rule.now)))) }
{
    match rule {
        None => Ok(bare_newtype(alloc, entries, parts, owner, name, inner)?),
        Some(rule) => Ok(ruled_newtype(alloc, entries, parts, owner, name, inner, rule)?),
    }
}

// A struct, and its defaults kept.
#[tactic(auto, using(crate::proofs::Made::struct_made))]
fn struct_of(
    alloc: Global,
    entries: &[TypeEntry],
    parts: &[u32],
    leads: &[bool],
    owner: usize,
    name: &str,
    fields: &[FieldEntry],
    closed: bool,
    rest: Option<TypeId>,
    defaults: &mut Vec<Value>,
) -> Result<DeriveInput, AllocError>
    ensures tree { IfOk result (λ d. item_view d ≡ item_tree_at (space_view entries.now) (same_part parts.now) (leads_by leads.now) (length defaults.old.items) (placed_item owner name.now (struct_shape_at closed (map field_view fields.now) (rest_at (map field_view fields.now) rest)))) }
    ensures defaults { OnOk result (map kept_view defaults.new.items ≡ map kept_view defaults.old.items ++ field_defaults_at (map field_view fields.now)) }
{
    let trees = struct_fields(alloc, entries, parts, leads, owner, fields, rest, defaults)?;
    let metas = item_metas(alloc, &TagType::External, false, None, closed)?;
    let item = struct_item(alloc, name, metas, Fields::Named(trees))?;
    Ok(item)
}

// A variant, and its defaults kept.
fn variant_of(
    alloc: Global,
    entries: &[TypeEntry],
    parts: &[u32],
    leads: &[bool],
    owner: usize,
    from: &VariantEntry,
    defaults: &mut Vec<Value>,
) -> Result<Variant, AllocError>
    ensures tree { IfOk result (λ w. tree_view w ≡ variant_tree_at (space_view entries.now) (same_part parts.now) (leads_by leads.now) owner (length defaults.old.items) (variant_view from.now)) }
    ensures defaults { OnOk result (map kept_view defaults.new.items ≡ map kept_view defaults.old.items ++ contents_defaults_at (variant_view from.now).contents) }
{
    let fields = content_fields(alloc, entries, parts, leads, owner, &from.content, defaults)?;
    let tree = variant(alloc, &from.ident, &from.name, fields)?;
    Ok(tree)
}

// The variants of an enum, and their defaults kept.
#[tactic(auto, using(crate::proofs::Loops::variants_end, crate::proofs::Loops::kept_by_end))]
fn variants_of(
    alloc: Global,
    entries: &[TypeEntry],
    parts: &[u32],
    leads: &[bool],
    owner: usize,
    variants: &[VariantEntry],
    defaults: &mut Vec<Value>,
) -> Result<Vec<Variant>, AllocError>
    ensures trees { IfOk result (λ ws. map tree_view ws.items ≡ variant_trees_at (space_view entries.now) (same_part parts.now) (leads_by leads.now) owner (length defaults.old.items) (map variant_view variants.now)) }
    ensures defaults { OnOk result (map kept_view defaults.new.items ≡ map kept_view defaults.old.items ++ flat_map (λ x. contents_defaults_at x.contents) (map variant_view variants.now)) }
{
    let mut trees = Vec::new(alloc);
    for from in variants {
        trees.push(variant_of(alloc, entries, parts, leads, owner, from, defaults)?)?;
    }
    Ok(trees)
}

// An enum, and its defaults kept.
#[tactic(auto, using(crate::proofs::Made::enum_made))]
fn enum_of(
    alloc: Global,
    entries: &[TypeEntry],
    parts: &[u32],
    leads: &[bool],
    owner: usize,
    name: &str,
    tag: &TagType,
    variants: &[VariantEntry],
    closed: bool,
    defaults: &mut Vec<Value>,
) -> Result<DeriveInput, AllocError>
    ensures tree { IfOk result (λ d. item_view d ≡ item_tree_at (space_view entries.now) (same_part parts.now) (leads_by leads.now) (length defaults.old.items) (placed_item owner name.now (enum_shape_at closed (tag_view tag.now) (map variant_view variants.now)))) }
    ensures defaults { OnOk result (map kept_view defaults.new.items ≡ map kept_view defaults.old.items ++ flat_map (λ x. contents_defaults_at x.contents) (map variant_view variants.now)) }
{
    let trees = variants_of(alloc, entries, parts, leads, owner, variants, defaults)?;
    let metas = item_metas(alloc, tag, false, None, closed)?;
    let item = enum_item(alloc, name, metas, trees)?;
    Ok(item)
}

/// The item at an id, and its stated defaults kept.
pub fn item_of(
    alloc: Global,
    entries: &[TypeEntry],
    parts: &[u32],
    leads: &[bool],
    id: usize,
    item: &ItemEntry,
    defaults: &mut Vec<Value>,
) -> Result<DeriveInput, AllocError>
    ensures tree { IfOk result (λ d. item_view d ≡ item_tree_at (space_view entries.now) (same_part parts.now) (leads_by leads.now) (length defaults.old.items) (placed_item id (string_bytes item.now.name) (shape_view item.now.shape))) }
    ensures defaults { OnOk result (map kept_view defaults.new.items ≡ map kept_view defaults.old.items ++ shape_defaults_at (shape_view item.now.shape)) }
{
    match &item.shape {
        ItemShape::Struct {
            fields,
            closed,
            rest,
        } => {
            let name = &item.name;
            let tree = struct_of(
                alloc, entries, parts, leads, id, name, fields, *closed, *rest, defaults,
            )?;
            Ok(tree)
        }
        ItemShape::Enum {
            tag,
            variants,
            closed,
        } => {
            let name = &item.name;
            let tree = enum_of(
                alloc, entries, parts, leads, id, name, tag, variants, *closed, defaults,
            )?;
            Ok(tree)
        }
        ItemShape::Newtype { inner, rule } => {
            let tree = newtype_item(alloc, entries, parts, id, &item.name, *inner, rule)?;
            Ok(tree)
        }
    }
}
