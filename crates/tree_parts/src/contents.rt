//! What a variant holds.
ghost use Rattle.std.specs.Prelude.{◌≡◌, IfOk};
ghost use Rattle.entry_defs.specs.Entry.{item, newtype_contents, struct_shape, tuple_entry};
ghost use Rattle.convert_defs.specs.Convert.{content_of, is_closed_struct as is_closed_struct_of};
ghost use Rattle.row_findings.specs.View.{tag_view};
ghost use Rattle.tree_types.specs.View.{label_view, atom_view, wrapped, places_view, fields_view, rest_fields, contents_view, tree_view, parts_of};
ghost use Rattle.tree_parts.specs.Options.{is_unit as is_unit_of, is_untagged as is_untagged_of};

use crate::build::{atom, enum_of, map_of, one_of, struct_of, tuple_tree};
use crate::lists::head;
use row_findings::{FieldState, TagRow};
use std::alloc::{AllocError, Global};
use tree_types::{Atom, ContentKind, FieldHead, Label, Tree, Wrap};

/// Whether it is a struct that is closed. It takes no memory.
pub fn is_closed_struct(tree: &Tree<'_>) -> bool
    ensures { result ≡ is_closed_struct_of (tree_view tree.now) }
{
    match tree {
        Tree::Struct {
            name: _,
            closed,
            fields: _,
            rest: _,
        } => *closed,
        Tree::Atom(_) => false,
        Tree::One(_, _) => false,
        Tree::Map(_, _) => false,
        Tree::Tuple(_) => false,
        Tree::Enum {
            name: _,
            closed: _,
            tag: _,
            variants: _,
        } => false,
    }
}

// It is held whole.
#[tactic(auto, using(crate::proofs::Holding::held_whole))]
fn whole<'d>(
    alloc: Global,
    tree: Tree<'d>,
) -> Result<(ContentKind, Vec<(FieldHead<'d>, Option<Tree<'d>>)>), AllocError>
    ensures { IfOk result (λ c. contents_view c.0 (parts_of c.1.items) ≡ newtype_contents (tree_view tree.entry)) }
{
    let mut parts = Vec::new(alloc);
    parts.push((head("", FieldState::Required), Some(tree)))?;
    Ok((ContentKind::Newtype, parts))
}

fn is_untagged(tag: &TagRow<'_>) -> bool
    ensures { result ≡ is_untagged_of (tag_view tag.now) }
{
    match tag {
        TagRow::External => false,
        TagRow::Internal(_) => false,
        TagRow::Adjacent(_, _) => false,
        TagRow::Untagged => true,
    }
}

fn is_unit(atom: &Atom) -> bool
    ensures { result ≡ is_unit_of (atom_view atom.now) }
{
    match atom {
        Atom::Unit => true,
        Atom::Bool => false,
        Atom::Integer(_) => false,
        Atom::Text => false,
        Atom::Native(_) => false,
        Atom::Any => false,
        Atom::Reference(_) => false,
    }
}

#[tactic(auto, using(crate::proofs::Holding::unit_held, crate::proofs::Holding::atom_held))]
fn atom_content<'d>(
    alloc: Global,
    tag: &TagRow<'d>,
    closed: bool,
    held: Atom,
) -> Result<(ContentKind, Vec<(FieldHead<'d>, Option<Tree<'d>>)>), AllocError>
    ensures { IfOk result (λ c. contents_view c.0 (parts_of c.1.items) ≡ content_of (tag_view tag.now) closed (atom_view held)) }
{
    if is_unit(&held) && is_untagged(tag) {
        return Ok((ContentKind::Unit, Vec::new(alloc)));
    }
    let parts = whole(alloc, atom(held))?;
    Ok(parts)
}

#[tactic(auto, using(crate::proofs::Holding::places_held, crate::proofs::Holding::tuple_held))]
fn tuple_content<'d>(
    alloc: Global,
    tag: &TagRow<'d>,
    closed: bool,
    places: Vec<(FieldHead<'d>, Option<Tree<'d>>)>,
) -> Result<(ContentKind, Vec<(FieldHead<'d>, Option<Tree<'d>>)>), AllocError>
    ensures { IfOk result (λ c. contents_view c.0 (parts_of c.1.items) ≡ content_of (tag_view tag.now) closed (tuple_entry (places_view (parts_of places.entry.items)))) }
{
    if places.len() >= 2 {
        return Ok((ContentKind::Tuple, places));
    }
    let parts = whole(alloc, tuple_tree(places))?;
    Ok(parts)
}

#[tactic(auto, using(crate::proofs::Holding::fields_held, crate::proofs::Holding::struct_held))]
fn struct_content<'d>(
    alloc: Global,
    tag: &TagRow<'d>,
    closed: bool,
    name: Label<'d>,
    own: bool,
    fields: Vec<(FieldHead<'d>, Option<Tree<'d>>)>,
    rest: Option<(Label<'d>, Box<Tree<'d>>)>,
) -> Result<(ContentKind, Vec<(FieldHead<'d>, Option<Tree<'d>>)>), AllocError>
    ensures { IfOk result (λ c. contents_view c.0 (parts_of c.1.items) ≡ content_of (tag_view tag.now) closed (item (label_view name.entry) (struct_shape own (fields_view (parts_of fields.entry.items) (rest_fields rest.entry))))) }
{
    if own == closed && rest.is_none() {
        return Ok((ContentKind::Struct, fields));
    }
    let parts = whole(alloc, struct_of(name, own, fields, rest))?;
    Ok(parts)
}

#[tactic(auto, using(crate::proofs::Holding::one_held))]
fn one_content<'d>(
    alloc: Global,
    tag: &TagRow<'d>,
    closed: bool,
    wrap: Wrap<'d>,
    held: Box<Tree<'d>>,
) -> Result<(ContentKind, Vec<(FieldHead<'d>, Option<Tree<'d>>)>), AllocError>
    ensures { IfOk result (λ c. contents_view c.0 (parts_of c.1.items) ≡ content_of (tag_view tag.now) closed (wrapped wrap.entry (tree_view held.entry.value))) }
{
    let parts = whole(alloc, one_of(wrap, held))?;
    Ok(parts)
}

#[tactic(auto, using(tree_types::proofs::Seen::enum_seen))]
/// What a variant holds that holds it: a tuple's places, nothing, a struct's fields where it is closed as the enum is and keeps no
/// rest, or else it.
pub fn content<'d>(
    alloc: Global,
    tag: &TagRow<'d>,
    closed: bool,
    tree: Tree<'d>,
) -> Result<(ContentKind, Vec<(FieldHead<'d>, Option<Tree<'d>>)>), AllocError>
    ensures { IfOk result (λ c. contents_view c.0 (parts_of c.1.items) ≡ content_of (tag_view tag.now) closed (tree_view tree.entry)) }
{
    match tree {
        Tree::Atom(held) => {
            let parts = atom_content(alloc, tag, closed, held)?;
            Ok(parts)
        }
        Tree::One(wrap, held) => {
            let parts = one_content(alloc, tag, closed, wrap, held)?;
            Ok(parts)
        }
        Tree::Map(keys, values) => {
            let parts = whole(alloc, map_of(keys, values))?;
            Ok(parts)
        }
        Tree::Tuple(places) => {
            let parts = tuple_content(alloc, tag, closed, places)?;
            Ok(parts)
        }
        Tree::Struct {
            name,
            closed: own,
            fields,
            rest,
        } => {
            let parts = struct_content(alloc, tag, closed, name, own, fields, rest)?;
            Ok(parts)
        }
        Tree::Enum {
            name,
            closed: own,
            tag: by,
            variants,
        } => {
            let parts = whole(alloc, enum_of(name, own, by, variants))?;
            Ok(parts)
        }
    }
}
