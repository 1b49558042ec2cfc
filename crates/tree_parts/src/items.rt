//! Items of what references lead to.
ghost use Rattle.std.specs.Prelude.{◌≡◌, None, IfOk};
ghost use Rattle.entry_defs.specs.Entry.{item, newtype_shape};
ghost use Rattle.convert_defs.specs.Convert.{as_item as as_item_of};
ghost use Rattle.tree_types.specs.View.{atom_view, wrapped, tree_view, item_in, item_entry};

use crate::build::{atom, enum_tree, label, map_of, newtype, one_of, struct_tree, tuple_tree};
use std::alloc::{AllocError, Global};
use tree_types::{Atom, Tree, Wrap};

/// It as an item of that name: a struct, an enum or a newtype, or else one that holds it.
#[tactic(auto, using(crate::proofs::AsItems::item_is))]
pub fn as_item<'d>(alloc: Global, name: &'d str, tree: Tree<'d>) -> Result<Tree<'d>, AllocError>
    ensures entry { IfOk result (λ t. tree_view t ≡ item_entry (as_item_of name.now (tree_view tree.entry))) }
    ensures item { IfOk result (λ t. item_in (tree_view t) ≡ as_item_of name.now (tree_view tree.entry)) }
{
    let found = item_of(alloc, name, tree)?;
    Ok(found)
}

#[tactic(auto, using(tree_types::proofs::Seen::enum_seen))]
fn item_of<'d>(alloc: Global, name: &'d str, tree: Tree<'d>) -> Result<Tree<'d>, AllocError>
    ensures { IfOk result (λ t. tree_view t ≡ item_entry (as_item_of name.now (tree_view tree.entry))) }
{
    match tree {
        Tree::Atom(held) => {
            let found = atom_item(alloc, name, held)?;
            Ok(found)
        }
        Tree::One(wrap, held) => {
            let found = one_item(alloc, name, wrap, held)?;
            Ok(found)
        }
        Tree::Map(keys, values) => {
            let found = held_by(alloc, name, map_of(keys, values))?;
            Ok(found)
        }
        Tree::Tuple(places) => {
            let found = held_by(alloc, name, tuple_tree(places))?;
            Ok(found)
        }
        Tree::Struct {
            name: _wanted,
            closed,
            fields,
            rest,
        } => Ok(struct_tree(name, closed, fields, rest)),
        Tree::Enum {
            name: _wanted,
            closed,
            tag,
            variants,
        } => Ok(enum_tree(name, closed, tag, variants)),
    }
}

// An item that holds it.
fn held_by<'d>(alloc: Global, name: &'d str, tree: Tree<'d>) -> Result<Tree<'d>, AllocError>
    ensures { IfOk result (λ t. tree_view t ≡ item name.now (newtype_shape (tree_view tree.entry) None)) }
{
    let found = newtype(alloc, name, None, tree)?;
    Ok(found)
}

#[tactic(auto, using(crate::proofs::AsItems::atom_item))]
fn atom_item<'d>(alloc: Global, name: &'d str, held: Atom) -> Result<Tree<'d>, AllocError>
    ensures { IfOk result (λ t. tree_view t ≡ item_entry (as_item_of name.now (atom_view held))) }
{
    let found = held_by(alloc, name, atom(held))?;
    Ok(found)
}

fn one_item<'d>(
    alloc: Global,
    name: &'d str,
    wrap: Wrap<'d>,
    held: Box<Tree<'d>>,
) -> Result<Tree<'d>, AllocError>
    ensures { IfOk result (λ t. tree_view t ≡ item_entry (as_item_of name.now (wrapped wrap.entry (tree_view held.entry.value)))) }
{
    match wrap {
        Wrap::Option => {
            let found = held_by(alloc, name, one_of(Wrap::Option, held))?;
            Ok(found)
        }
        Wrap::Vec => {
            let found = held_by(alloc, name, one_of(Wrap::Vec, held))?;
            Ok(found)
        }
        Wrap::Set => {
            let found = held_by(alloc, name, one_of(Wrap::Set, held))?;
            Ok(found)
        }
        Wrap::Array(count) => {
            let found = held_by(alloc, name, one_of(Wrap::Array(count), held))?;
            Ok(found)
        }
        Wrap::Newtype {
            name: _wanted,
            rule,
        } => Ok(one_of(
            Wrap::Newtype {
                name: label(name),
                rule,
            },
            held,
        )),
    }
}
