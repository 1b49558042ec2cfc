//! Fields, with the stated defaults that they have.
ghost use Rattle.std.specs.Prelude.{◌≡◌, ◌++◌, ◌∷◌, [], Some, length, map, IfOk, OnOk};
ghost use Rattle.syntax_trees.specs.Item.{field_view as tree_view, fields_view};
ghost use Rattle.json_value.specs.View.{kept_view};
ghost use Rattle.entry_defs.specs.Space.{entry_at};
ghost use Rattle.entry_types.specs.View.{id_view, state_view, field_view, rest_at, content_view, entry_view};
ghost use Rattle.emit_defs.specs.Models.{state_defaults};
ghost use Rattle.emit_trees.specs.MannerView.{empty_view, manner_view};
ghost use Rattle.space_defs.specs.Trees.{field_defaults_at, contents_defaults_at, optional_manner_at, manner_at, field_tree_at, field_trees_at, struct_trees_at, contents_tree_at};
ghost use Rattle.emit_types.specs.Asked.{space_view, same_part, leads_by};
ghost use Rattle.emit_items.specs.Rests.{rest_trees};

use emit_trees::{Empty, Manner, named_field, newtype_fields, rest_field, tuple_fields};
use emit_types::{entry_of, leads_to_option, rest_name, type_at, types_at};
use entry_types::{Content, FieldEntry, State, TypeEntry, TypeId};
use serde_json::Value;
use std::alloc::{AllocError, Global};
use syntax_trees::{Field, Fields};

// Keeps the default that is stated.
fn keep_default(state: &State, defaults: &mut Vec<Value>) -> Result<(), AllocError>
    ensures { OnOk result (map kept_view defaults.new.items ≡ map kept_view defaults.old.items ++ state_defaults (state_view state.now)) }
{
    match state {
        State::Required | State::Optional => Ok(()),
        State::Stated(value) => {
            defaults.push(value.clone()?)?;
            Ok(())
        }
    }
}

// How an optional field of that entry is written.
fn manner_beside(entry: &TypeEntry) -> Manner
    ensures { manner_view result ≡ optional_manner_at (Some (entry_view entry.now)) }
{
    match entry {
        TypeEntry::Option(_) => Manner::Skipped(Empty::Option),
        TypeEntry::Vec(_) => Manner::Skipped(Empty::Vec),
        TypeEntry::Set(_) => Manner::Skipped(Empty::Set),
        TypeEntry::Map(_, _) => Manner::Skipped(Empty::Map),
        _ => Manner::Held,
    }
}

// The same of the entry at an id.
fn optional_manner(entries: &[TypeEntry], id: usize) -> Manner
    ensures { manner_view result ≡ optional_manner_at (entry_at (space_view entries.now) id) }
{
    match entry_of(entries, id) {
        Some(entry) => manner_beside(entry),
        None => Manner::Held,
    }
}

// How a field is written.
#[tactic(auto, using(crate::proofs::Manners::of_optional, crate::proofs::Manners::of_stated))]
fn manner_of(entries: &[TypeEntry], leads: &[bool], field: &FieldEntry) -> Manner
    ensures { manner_view result ≡ manner_at (leads_by leads.now (id_view field.now.ty)) (state_view field.now.state) (entry_at (space_view entries.now) (id_view field.now.ty)) }
{
    match field.state {
        State::Required => {
            if leads_to_option(leads, field.ty) {
                Manner::Whole
            } else {
                Manner::Plain
            }
        }
        State::Optional => optional_manner(entries, field.ty.0 as usize),
        State::Stated(_) => Manner::Defaulted,
    }
}

// A field of an item, and its default kept.
#[tactic(auto, using(crate::proofs::Written::field_written))]
fn field_of(
    alloc: Global,
    entries: &[TypeEntry],
    parts: &[u32],
    leads: &[bool],
    owner: usize,
    field: &FieldEntry,
    defaults: &mut Vec<Value>,
) -> Result<Field, AllocError>
    ensures tree { IfOk result (λ f. tree_view f ≡ field_tree_at (space_view entries.now) (same_part parts.now) (leads_by leads.now) owner (length defaults.old.items) (field_view field.now)) }
    ensures defaults { OnOk result (map kept_view defaults.new.items ≡ map kept_view defaults.old.items ++ state_defaults (state_view field.now.state)) }
{
    let inner = type_at(alloc, entries, parts, Some(owner), field.ty)?;
    let place = defaults.len();
    keep_default(&field.state, defaults)?;
    let manner = manner_of(entries, leads, field);
    let tree = named_field(alloc, &field.ident, &field.name, place, manner, inner)?;
    Ok(tree)
}

// The fields of an item, and their defaults kept.
#[tactic(auto, using(crate::proofs::Loops::fields_turn, crate::proofs::Loops::fields_end, crate::proofs::Loops::kept_turn, crate::proofs::Loops::kept_end))]
fn fields_of(
    alloc: Global,
    entries: &[TypeEntry],
    parts: &[u32],
    leads: &[bool],
    owner: usize,
    fields: &[FieldEntry],
    defaults: &mut Vec<Value>,
) -> Result<Vec<Field>, AllocError>
    ensures trees { IfOk result (λ fs. map tree_view fs.items ≡ field_trees_at (space_view entries.now) (same_part parts.now) (leads_by leads.now) owner (length defaults.old.items) (map field_view fields.now)) }
    ensures defaults { OnOk result (map kept_view defaults.new.items ≡ map kept_view defaults.old.items ++ field_defaults_at (map field_view fields.now)) }
{
    let mut trees = Vec::new(alloc);
    for field in fields {
        trees.push(field_of(alloc, entries, parts, leads, owner, field, defaults)?)?;
    }
    Ok(trees)
}

// The field that keeps the members which no field names, appended where there is one.
fn add_rest(
    trees: &mut Vec<Field>,
    alloc: Global,
    entries: &[TypeEntry],
    parts: &[u32],
    fields: &[FieldEntry],
    rest: Option<TypeId>,
) -> Result<(), AllocError>
    ensures { OnOk result (map tree_view trees.new.items ≡ map tree_view trees.old.items ++ rest_trees (space_view entries.now) (rest_at (map field_view fields.now) rest)) }
{
    match rest {
        None => Ok(()),
        Some(id) => {
            let name = rest_name(alloc, fields)?;
            let value = type_at(alloc, entries, parts, None, id)?;
            trees.push(rest_field(alloc, &name, value)?)?;
            Ok(())
        }
    }
}

/// The fields of a struct, and their defaults kept.
#[tactic(auto, using(crate::proofs::Written::struct_written))]
pub(crate) fn struct_fields(
    alloc: Global,
    entries: &[TypeEntry],
    parts: &[u32],
    leads: &[bool],
    owner: usize,
    fields: &[FieldEntry],
    rest: Option<TypeId>,
    defaults: &mut Vec<Value>,
) -> Result<Vec<Field>, AllocError>
    ensures trees { IfOk result (λ fs. map tree_view fs.items ≡ struct_trees_at (space_view entries.now) (same_part parts.now) (leads_by leads.now) owner (length defaults.old.items) (map field_view fields.now) (rest_at (map field_view fields.now) rest)) }
    ensures defaults { OnOk result (map kept_view defaults.new.items ≡ map kept_view defaults.old.items ++ field_defaults_at (map field_view fields.now)) }
{
    let mut trees = fields_of(alloc, entries, parts, leads, owner, fields, defaults)?;
    add_rest(&mut trees, alloc, entries, parts, fields, rest)?;
    Ok(trees)
}

/// What a variant holds, as fields, and their defaults kept.
#[tactic(auto, using(crate::proofs::Contents::tuple_held, crate::proofs::Contents::struct_held))]
pub(crate) fn content_fields(
    alloc: Global,
    entries: &[TypeEntry],
    parts: &[u32],
    leads: &[bool],
    owner: usize,
    content: &Content,
    defaults: &mut Vec<Value>,
) -> Result<Fields, AllocError>
    ensures tree { IfOk result (λ f. fields_view f ≡ contents_tree_at (space_view entries.now) (same_part parts.now) (leads_by leads.now) owner (length defaults.old.items) (content_view content.now)) }
    ensures defaults { OnOk result (map kept_view defaults.new.items ≡ map kept_view defaults.old.items ++ contents_defaults_at (content_view content.now)) }
{
    match content {
        Content::Unit => Ok(Fields::Unit),
        Content::Newtype(id) => {
            let inner = type_at(alloc, entries, parts, Some(owner), *id)?;
            Ok(newtype_fields(alloc, inner)?)
        }
        Content::Tuple(ids) => {
            let types = types_at(alloc, entries, parts, owner, ids)?;
            Ok(tuple_fields(alloc, types)?)
        }
        Content::Struct(fields) => {
            let trees = struct_fields(alloc, entries, parts, leads, owner, fields, None, defaults)?;
            Ok(Fields::Named(trees))
        }
    }
}
