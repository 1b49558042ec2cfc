//! Variants of enums.
ghost use Rattle.std.specs.Prelude.{◌≡◌, [], IfOk, map, option_map};
ghost use Rattle.std.specs.List.{list_any};
ghost use Rattle.convert_defs.specs.Standing.{words_or};
ghost use Rattle.tree_types.specs.View.{cases_of, contents_view, parts_of, tree_view, variants_view};
ghost use Rattle.row_findings.specs.View.{body_view, closing_view, tag_view, variant_view};
ghost use Rattle.row_trees.specs.Build.{after_body, bodies_held, body_held, built_enum, closed_by, held_content, held_variants, is_closed_held};
ghost use Rattle.row_trees.specs.Held.{bodies_view, body_seen, held_view};

use crate::bodies::{Body, Held};
use crate::lists::fields_of;
use crate::supply::first_tree;
use row_findings::{Closing, TagRow, VariantBody, VariantRow};
use std::alloc::{AllocError, Global};
use std::collections::VecDeque;
use tree_parts::{content, enum_tree, is_closed_struct, with_variant};
use tree_types::{ContentKind, FieldHead, Tree, VariantHead};

// What the variant holds, of the first trees that are left.
fn held_of<'d>(
    alloc: Global,
    body: &VariantBody<'d>,
    trees: &mut VecDeque<Tree<'d>>,
) -> Result<Held<'d>, AllocError>
    ensures held { IfOk result (λ h. held_view h ≡ body_held (body_view body.now) (map tree_view trees.old.items)) }
    ensures left { IfOk result (λ h. map tree_view trees.new.items ≡ after_body (body_view body.now) (map tree_view trees.old.items)) }
{
    match body {
        VariantBody::Unit => Ok(Held::Nothing),
        VariantBody::Part(_) => {
            let tree = first_tree(trees)?;
            Ok(Held::Tree(tree))
        }
        VariantBody::Fields(rows) => {
            let fields = fields_of(alloc, rows, trees)?;
            Ok(Held::Fields(fields))
        }
    }
}

// A variant of an untagged enum has no name.
fn name_or_none<'d>(name: Option<&'d str>) -> &'d str
    ensures { result.now ≡ words_or (option_map (λ n. n.now) name.entry) [] }
{
    match name {
        Some(name) => name,
        None => "",
    }
}

fn body_of<'d>(
    alloc: Global,
    row: &VariantRow<'d>,
    trees: &mut VecDeque<Tree<'d>>,
) -> Result<Body<'d>, AllocError>
    ensures body { IfOk result (λ b. body_seen b ≡ ((variant_view row.now).name, body_held (body_view row.now.body) (map tree_view trees.old.items))) }
    ensures left { IfOk result (λ b. map tree_view trees.new.items ≡ after_body (body_view row.now.body) (map tree_view trees.old.items)) }
{
    let held = held_of(alloc, &row.body, trees)?;
    Ok(Body {
        name: name_or_none(row.name),
        held,
    })
}

fn bodies_of<'d>(
    alloc: Global,
    rows: &Vec<VariantRow<'d>>,
    trees: &mut VecDeque<Tree<'d>>,
) -> Result<Vec<Body<'d>>, AllocError>
    ensures { IfOk result (λ v. bodies_view v.items ≡ bodies_held (map variant_view rows.now.items) (map tree_view trees.old.items)) }
{
    let mut bodies = Vec::new(alloc);
    for row in rows {
        let body = body_of(alloc, row, trees)?;
        bodies.push(body)?;
    }
    Ok(bodies)
}

// Whether it is a closed struct.
fn is_closed_body(body: &Body<'_>) -> bool
    ensures { result ≡ is_closed_held (body_seen body.now).1 }
{
    match &body.held {
        Held::Tree(tree) => is_closed_struct(tree),
        Held::Nothing => false,
        Held::Fields(_) => false,
    }
}

fn any_is_closed(bodies: &Vec<Body<'_>>) -> bool
    ensures { result ≡ list_any (λ b. is_closed_held b.1) (bodies_view bodies.now.items) }
{
    for body in bodies {
        if is_closed_body(body) {
            return true;
        }
    }
    false
}

fn is_closed(closing: &Closing, bodies: &Vec<Body<'_>>) -> bool
    ensures { result ≡ closed_by (closing_view closing.now) (bodies_view bodies.now.items) }
{
    match closing {
        Closing::ByShape(closed) => *closed,
        Closing::ByContents => any_is_closed(bodies),
    }
}

// What a variant of a tag holds.
fn content_of<'d>(
    alloc: Global,
    tag: &TagRow<'d>,
    closed: bool,
    held: Held<'d>,
) -> Result<(ContentKind, Vec<(FieldHead<'d>, Option<Tree<'d>>)>), AllocError>
    ensures { IfOk result (λ c. contents_view c.0 (parts_of c.1.items) ≡ held_content (tag_view tag.now) closed (held_view held.entry)) }
{
    match held {
        Held::Nothing => Ok((ContentKind::Unit, Vec::new(alloc))),
        Held::Tree(tree) => {
            let both = content(alloc, tag, closed, tree)?;
            Ok(both)
        }
        Held::Fields(fields) => Ok((ContentKind::Struct, fields)),
    }
}

fn variants_of<'d>(
    alloc: Global,
    tag: &TagRow<'d>,
    closed: bool,
    bodies: Vec<Body<'d>>,
) -> Result<Vec<(VariantHead<'d>, Vec<(FieldHead<'d>, Option<Tree<'d>>)>)>, AllocError>
    ensures { IfOk result (λ ws. variants_view (tag_view tag.now) (cases_of ws.items) ≡ held_variants (tag_view tag.now) closed (bodies_view bodies.entry.items)) }
{
    let mut variants = Vec::new(alloc);
    for body in bodies {
        let Body { name, held } = body;
        let both = content_of(alloc, tag, closed, held)?;
        let (kind, parts) = both;
        variants = with_variant(variants, name, kind, parts)?;
    }
    Ok(variants)
}

/// An enum of that wanted name, of the trees that are left.
pub(crate) fn enum_of<'d>(
    alloc: Global,
    name: &'d str,
    tag: &TagRow<'d>,
    closing: &Closing,
    rows: &Vec<VariantRow<'d>>,
    trees: &mut VecDeque<Tree<'d>>,
) -> Result<Tree<'d>, AllocError>
    ensures { IfOk result (λ t. tree_view t ≡ built_enum name.now (tag_view tag.now) (closing_view closing.now) (map variant_view rows.now.items) (map tree_view trees.old.items)) }
{
    let bodies = bodies_of(alloc, rows, trees)?;
    let closed = is_closed(closing, &bodies);
    let variants = variants_of(alloc, tag, closed, bodies)?;
    Ok(enum_tree(name, closed, *tag, variants))
}
