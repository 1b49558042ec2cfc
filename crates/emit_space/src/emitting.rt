//! Emission.
ghost use Rattle.std.specs.Prelude.{◌≡◌, ◌++◌, [], length, map, flat_map, IfOk, OnOk, string_bytes};
ghost use Rattle.syntax_trees.specs.View.{ty};
ghost use Rattle.syntax_trees.specs.Item.{item_view};
ghost use Rattle.json_value.specs.View.{kept_view};
ghost use Rattle.schema_tree.specs.Conversions.{constraint_view};
ghost use Rattle.entry_types.specs.View.{id_view, shape_view, entry_view};
ghost use Rattle.space_defs.specs.Items.{item_then, items_at};
ghost use Rattle.space_defs.specs.Trees.{shape_defaults_at, item_constraints_at, item_trees_at};
ghost use Rattle.space_defs.specs.Emission.{emission_by, emission_at};
ghost use Rattle.emit_types.specs.Asked.{space_view, same_part, leads_by, placed_item};
ghost use Rattle.emit_space.specs.View.{emission_view};

use emit_items::item_of;
use emit_types::{nexts, type_at, uses};
use entry_types::{ItemEntry, ItemShape, TypeEntry, TypeId};
use schema_tree::{Constraint, Conversions};
use serde_json::Value;
use std::alloc::{AllocError, Global};
use syntax_trees::{DeriveInput, Ty};
use use_graph::{leads, parts};

/// What is emitted: the items in the order of their ids, the table of conversions in that order, and the type of one entry.
#[derive(Drop)]
pub struct Emission {
    pub items: Vec<DeriveInput>,
    pub conversions: Conversions,
    pub root: Ty,
}

// The constraint of an item that has a rule.
fn add_rule(
    constraints: &mut Vec<Constraint>,
    alloc: Global,
    id: usize,
    item: &ItemEntry,
) -> Result<(), AllocError>
    ensures { OnOk result (map constraint_view constraints.new.items ≡ map constraint_view constraints.old.items ++ item_constraints_at (placed_item id (string_bytes item.now.name) (shape_view item.now.shape))) }
{
    match &item.shape {
        ItemShape::Newtype {
            rule: Some(rule),
            ..
        } => {
            let name = String::from_str(alloc, &item.name)?;
            let rule = rule.try_clone(alloc)?;
            constraints.push(Constraint { item: name, rule })?;
            Ok(())
        }
        ItemShape::Newtype { .. } | ItemShape::Struct { .. } | ItemShape::Enum { .. } => Ok(()),
    }
}

// The constraint of the item at an id, where an item is there and has a rule.
fn add_constraint(
    constraints: &mut Vec<Constraint>,
    alloc: Global,
    id: usize,
    entry: &TypeEntry,
) -> Result<(), AllocError>
    ensures { OnOk result (map constraint_view constraints.new.items ≡ map constraint_view constraints.old.items ++ flat_map item_constraints_at (item_then id (entry_view entry.now) [])) }
{
    match entry {
        TypeEntry::Item(item) => {
            add_rule(constraints, alloc, id, item)?;
            Ok(())
        }
        _ => Ok(()),
    }
}

// The item at an id, where an item is there, its stated defaults and its constraint.
fn add_item(
    alloc: Global,
    entries: &[TypeEntry],
    parts: &[u32],
    leads: &[bool],
    id: usize,
    entry: &TypeEntry,
    items: &mut Vec<DeriveInput>,
    defaults: &mut Vec<Value>,
) -> Result<(), AllocError>
    ensures items { OnOk result (map item_view items.new.items ≡ map item_view items.old.items ++ item_trees_at (space_view entries.now) (same_part parts.now) (leads_by leads.now) (length defaults.old.items) (item_then id (entry_view entry.now) [])) }
    ensures defaults { OnOk result (map kept_view defaults.new.items ≡ map kept_view defaults.old.items ++ flat_map (λ i. shape_defaults_at i.shape) (item_then id (entry_view entry.now) [])) }
{
    match entry {
        TypeEntry::Item(item) => {
            items.push(item_of(alloc, entries, parts, leads, id, item, defaults)?)?;
            Ok(())
        }
        _ => Ok(()),
    }
}

#[tactic(auto, using(crate::proofs::Placed::trees_end, crate::proofs::Placed::defaults_end))]
fn items_of(
    alloc: Global,
    entries: &[TypeEntry],
    parts: &[u32],
    leads: &[bool],
    defaults: &mut Vec<Value>,
) -> Result<Vec<DeriveInput>, AllocError>
    ensures items { IfOk result (λ v. map item_view v.items ≡ item_trees_at (space_view entries.now) (same_part parts.now) (leads_by leads.now) (length defaults.old.items) (items_at (space_view entries.now))) }
    ensures defaults { OnOk result (map kept_view defaults.new.items ≡ map kept_view defaults.old.items ++ flat_map (λ i. shape_defaults_at i.shape) (items_at (space_view entries.now))) }
{
    let mut items = Vec::new(alloc);
    for (id, entry) in entries.iter().enumerate() {
        add_item(
            alloc, entries, parts, leads, id, entry, &mut items, defaults,
        )?;
    }
    Ok(items)
}

#[tactic(auto, using(crate::proofs::Placed::constraints_turn, crate::proofs::Placed::constraints_end))]
fn constraints_of(alloc: Global, entries: &[TypeEntry]) -> Result<Vec<Constraint>, AllocError>
    ensures { IfOk result (λ v. map constraint_view v.items ≡ flat_map item_constraints_at (items_at (space_view entries.now))) }
{
    let mut constraints = Vec::new(alloc);
    for (id, entry) in entries.iter().enumerate() {
        add_constraint(&mut constraints, alloc, id, entry)?;
    }
    Ok(constraints)
}

// What is emitted where it is known in which parts entries lie, and which lead to an option.
#[tactic(auto, using(crate::proofs::Whole::made))]
fn emit_by(
    alloc: Global,
    entries: &[TypeEntry],
    parts: &[u32],
    leads: &[bool],
    root: TypeId,
) -> Result<Emission, AllocError>
    ensures { IfOk result (λ e. emission_view e ≡ emission_by (space_view entries.now) (same_part parts.now) (leads_by leads.now) root.0) }
{
    let mut defaults = Vec::new(alloc);
    let items = items_of(alloc, entries, parts, leads, &mut defaults)?;
    let constraints = constraints_of(alloc, entries)?;
    let root = type_at(alloc, entries, parts, None, root)?;
    Ok(Emission {
        items,
        conversions: Conversions {
            constraints,
            defaults,
        },
        root,
    })
}

/// What is emitted for a space of entries by their ids, with the type of the entry `root`. It takes time that goes with the size of the space
/// and of what is emitted. Fails only for want of memory.
pub fn emit(alloc: Global, entries: &[TypeEntry], root: TypeId) -> Result<Emission, AllocError>
    ensures { IfOk result (λ e. emission_view e ≡ emission_at (space_view entries.now) root.0) }
{
    let rows = uses(alloc, entries)?;
    let numbers = parts(alloc, &rows)?;
    let next = nexts(alloc, entries, &numbers)?;
    let answers = leads(alloc, &next)?;
    let emission = emit_by(alloc, entries, &numbers, &answers, root)?;
    Ok(emission)
}
