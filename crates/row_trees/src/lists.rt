//! Fields and places.
ghost use Rattle.std.specs.Prelude.{◌≡◌, IfOk, map, option_map};
ghost use Rattle.entry_defs.specs.Entry.{Entries, Fields};
ghost use Rattle.row_findings.specs.View.{field_view, outside_view, part_view};
ghost use Rattle.tree_types.specs.View.{fields_view, parts_of, places_then, rest_fields, tree_view};
ghost use Rattle.row_trees.specs.Build.{after_fields, after_parts, built_fields, built_outside, built_places, built_tuple};

use crate::supply::first_tree;
use row_findings::{FieldRow, OutsideRow, Part};
use std::alloc::{AllocError, Global};
use std::collections::VecDeque;
use tree_parts::{alike_places, nullable, outside, tuple_tree, with_field, with_place};
use tree_types::{FieldHead, Label, Tree};

/// The fields, each of the first tree that is left.
pub(crate) fn fields_of<'d>(
    alloc: Global,
    rows: &Vec<FieldRow<'d>>,
    trees: &mut VecDeque<Tree<'d>>,
) -> Result<Vec<(FieldHead<'d>, Option<Tree<'d>>)>, AllocError>
    ensures fields { IfOk result (λ v. (more : Fields) → fields_view (parts_of v.items) more ≡ built_fields (map field_view rows.now.items) (map tree_view trees.old.items) more) }
    ensures left { IfOk result (λ v. map tree_view trees.new.items ≡ after_fields (map field_view rows.now.items) (map tree_view trees.old.items)) }
{
    let mut fields = Vec::new(alloc);
    for row in rows {
        let tree = first_tree(trees)?;
        let held = nullable(alloc, row.nullable, tree)?;
        fields = with_field(fields, row.name, row.state, held)?;
    }
    Ok(fields)
}

/// The fields, and then those outside `properties` and the rest, of the first tree that is left.
pub(crate) fn with_outside<'d>(
    alloc: Global,
    fields: Vec<(FieldHead<'d>, Option<Tree<'d>>)>,
    row: &Option<OutsideRow<'d>>,
    trees: &mut VecDeque<Tree<'d>>,
) -> Result<
    (
        Vec<(FieldHead<'d>, Option<Tree<'d>>)>,
        Option<(Label<'d>, Box<Tree<'d>>)>,
    ),
    AllocError,
>
    ensures { IfOk result (λ p. fields_view (parts_of p.0.items) (rest_fields p.1) ≡ fields_view (parts_of fields.entry.items) (built_outside (option_map outside_view row.now) (map tree_view trees.old.items))) }
{
    match row {
        Some(row) => {
            let tree = first_tree(trees)?;
            let both = outside(alloc, fields, &row.names, row.keeps_rest, tree)?;
            Ok(both)
        }
        None => Ok((fields, None)),
    }
}

/// The places, each of the first tree that is left.
fn places_of<'d>(
    alloc: Global,
    parts: &Vec<Part<'d>>,
    trees: &mut VecDeque<Tree<'d>>,
) -> Result<Vec<(FieldHead<'d>, Option<Tree<'d>>)>, AllocError>
    ensures places { IfOk result (λ v. (more : Entries) → places_then (parts_of v.items) more ≡ built_places (map part_view parts.now.items) (map tree_view trees.old.items) more) }
    ensures left { IfOk result (λ v. map tree_view trees.new.items ≡ after_parts (map part_view parts.now.items) (map tree_view trees.old.items)) }
{
    let mut places = Vec::new(alloc);
    for part in parts {
        let _ = part;
        let tree = first_tree(trees)?;
        places = with_place(places, tree)?;
    }
    Ok(places)
}

/// A tuple: the places that are listed, and then so many of one tree.
pub(crate) fn tuple_of<'d>(
    alloc: Global,
    listed: &Vec<Part<'d>>,
    more: u32,
    trees: &mut VecDeque<Tree<'d>>,
) -> Result<Tree<'d>, AllocError>
    ensures { IfOk result (λ t. tree_view t ≡ built_tuple (map part_view listed.now.items) more (map tree_view trees.old.items)) }
{
    let places = places_of(alloc, listed, trees)?;
    if more == 0 {
        return Ok(tuple_tree(places));
    }
    let tree = first_tree(trees)?;
    let all = alike_places(places, more, tree)?;
    Ok(tuple_tree(all))
}
