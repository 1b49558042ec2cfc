//! The tree of a row.
ghost use Rattle.std.specs.Prelude.{◌≡◌, ◌≤◌, ℕ, List, Some, IfOk, IsErrOf, map, option_map};
ghost use Rattle.schema_defs.specs.Faults.{Rises};
ghost use Rattle.schema_defs.specs.Texts.{Relations};
ghost use Rattle.entry_defs.specs.Entry.{any_entry, item, struct_shape};
ghost use Rattle.convert_defs.specs.Convert.{entry_of};
ghost use Rattle.convert_defs.specs.Table.{reference_row};
ghost use Rattle.row_findings.specs.View.{row_view, rule_view, field_view, outside_view};
ghost use Rattle.tree_types.specs.View.{rule_view as tree_rule_view, tree_view};
ghost use Rattle.row_trees.specs.Build.{built, built_fields, built_outside, after_fields};

use crate::lists::{fields_of, tuple_of, with_outside};
use crate::supply::first_tree;
use crate::variants::enum_of;
use row_findings::{FieldRow, OutsideRow, Row, RowRule};
use schema_tree::{TextFault, Texts};
use std::alloc::{AllocError, Global};
use std::collections::VecDeque;
use tree_parts::{
    as_option, atom, leaf_tree, map_tree, newtype, one, pattern_keys, struct_tree, target_named,
};
use tree_types::{Atom, Tree, TreeRule, Wrap};

/// The tree of the row, whose item gets that name where it makes one, of the trees of its parts in their order. Of fewer
/// trees than parts the answer is want of memory. A refused row, and one that needs a merge, are any value.
pub fn row_tree<'d, T: Texts>(
    alloc: Global,
    name: &'d str,
    row: &Row<'d>,
    trees: VecDeque<Tree<'d>>,
    texts: &mut T,
) -> Result<Tree<'d>, TextFault>
    ensures answer { IfOk result (λ t. tree_view t ≡ built name.now (row_view (T.relations texts.old) row.now) (map tree_view trees.entry.items)) }
    ensures keeps { T.relations texts.new ≡ T.relations texts.old }
    ensures failed { IsErrOf result TextFault.Failed → Rises (T.faults texts.old) (T.faults texts.new) }
    ensures counts { T.faults texts.old ≤ T.faults texts.new }
{
    match row {
        Row::Leaf(leaf) => {
            let tree = leaf_tree(alloc, name, leaf, texts)?;
            Ok(tree)
        }
        _ => match tree_of_parts(alloc, name, row, trees) {
            Ok(tree) => Ok(tree),
            Err(_) => Err(TextFault::Memory),
        },
    }
}

// The same, of a row that asks nothing of the judge of texts.
fn tree_of_parts<'d>(
    alloc: Global,
    name: &'d str,
    row: &Row<'d>,
    trees: VecDeque<Tree<'d>>,
) -> Result<Tree<'d>, AllocError>
    ensures { IfOk result (λ t. (r : Relations) → tree_view t ≡ built name.now (row_view r row.now) (map tree_view trees.entry.items)) }
{
    let mut trees = trees;
    match row {
        Row::Leaf(_) => Err(AllocError),
        Row::Reference(reference) => {
            let tree = reference_tree(alloc, reference.as_str())?;
            Ok(tree)
        }
        Row::AsItIs(_) => {
            let tree = first_tree(&mut trees)?;
            Ok(tree)
        }
        Row::Option(_) => {
            let tree = first_tree(&mut trees)?;
            let held = as_option(alloc, tree)?;
            Ok(held)
        }
        Row::Ruled(_, rule) => {
            let tree = first_tree(&mut trees)?;
            let held = newtype(alloc, name, Some(tree_rule(rule)), tree)?;
            Ok(held)
        }
        Row::Vec(_) => {
            let tree = first_tree(&mut trees)?;
            let held = one(alloc, Wrap::Vec, tree)?;
            Ok(held)
        }
        Row::Set(_) => {
            let tree = first_tree(&mut trees)?;
            let held = one(alloc, Wrap::Set, tree)?;
            Ok(held)
        }
        Row::Array(_, count) => {
            let tree = first_tree(&mut trees)?;
            let held = one(alloc, Wrap::Array(*count), tree)?;
            Ok(held)
        }
        Row::Tuple { listed, more, .. } => {
            let tree = tuple_of(alloc, listed, *more, &mut trees)?;
            Ok(tree)
        }
        Row::Map(_, _) => {
            let keys = first_tree(&mut trees)?;
            let values = first_tree(&mut trees)?;
            let held = map_tree(alloc, keys, values)?;
            Ok(held)
        }
        Row::PatternMap(patterns, _) => {
            let keys = pattern_keys(alloc, *patterns)?;
            let values = first_tree(&mut trees)?;
            let held = map_tree(alloc, keys, values)?;
            Ok(held)
        }
        Row::Struct {
            closed,
            fields,
            outside,
        } => {
            let tree = struct_of(alloc, name, *closed, fields, outside, &mut trees)?;
            Ok(tree)
        }
        Row::Enum {
            tag,
            closing,
            variants,
        } => {
            let tree = enum_of(alloc, name, tag, closing, variants, &mut trees)?;
            Ok(tree)
        }
        Row::Merged(_) => Ok(atom(Atom::Any)),
        Row::Refused(_) => Ok(atom(Atom::Any)),
    }
}

fn tree_rule<'d>(rule: &RowRule<'d>) -> TreeRule<'d>
    ensures { tree_rule_view result ≡ rule_view rule.now }
{
    match rule {
        RowRule::Allow(values) => TreeRule::Allow(*values),
        RowRule::Deny(values) => TreeRule::Deny(*values),
    }
}

fn reference_tree<'d>(alloc: Global, reference: &str) -> Result<Tree<'d>, AllocError>
    ensures { IfOk result (λ t. (name : List ℕ) → tree_view t ≡ entry_of (λ p. any_entry) name (reference_row (Some reference.now))) }
{
    match target_named(alloc, reference)? {
        Some(target) => Ok(atom(Atom::Reference(target))),
        None => Ok(atom(Atom::Any)),
    }
}

fn struct_of<'d>(
    alloc: Global,
    name: &'d str,
    closed: bool,
    rows: &Vec<FieldRow<'d>>,
    outside: &Option<OutsideRow<'d>>,
    trees: &mut VecDeque<Tree<'d>>,
) -> Result<Tree<'d>, AllocError>
    ensures { IfOk result (λ t. tree_view t ≡ item name.now (struct_shape closed (built_fields (map field_view rows.now.items) (map tree_view trees.old.items) (built_outside (option_map outside_view outside.now) (after_fields (map field_view rows.now.items) (map tree_view trees.old.items)))))) }
{
    let named = fields_of(alloc, rows, trees)?;
    let (fields, rest) = with_outside(alloc, named, outside, trees)?;
    Ok(struct_tree(name, closed, fields, rest))
}
