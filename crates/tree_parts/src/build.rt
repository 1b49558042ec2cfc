//! Trees of their parts.
ghost use Rattle.std.specs.Prelude.{◌≡◌, None, Some, IfOk, map, option_map};
ghost use Rattle.schema_types.specs.View.{properties_view};
ghost use Rattle.entry_defs.specs.Entry.{Entry, item, map_entry, option_entry, tuple_entry, struct_shape, enum_shape, newtype_shape};
ghost use Rattle.convert_defs.specs.Convert.{pattern_key, nullable_entry};
ghost use Rattle.convert_defs.specs.Owners.{pattern_names};
ghost use Rattle.row_findings.specs.View.{tag_view};
ghost use Rattle.tree_types.specs.View.{label_view, atom_view, rule_view, wrapped, places_view, fields_view, rest_fields, variants_view, tree_view, parts_of, cases_of};
ghost use Rattle.tree_parts.specs.Options.{is_option_entry};

use row_findings::TagRow;
use schema_types::Schema;
use std::alloc::{AllocError, Global};
use std::collections::BTreeMap;
use tree_types::{Atom, FieldHead, Label, Tree, TreeRule, VariantHead, Wrap};

/// The wanted name. It takes no memory.
pub fn label<'d>(wanted: &'d str) -> Label<'d>
    ensures name { label_view result ≡ wanted.now }
    ensures wanted { result.wanted.now ≡ wanted.now }
{
    Label {
        wanted,
        given: None,
    }
}

/// An entry without parts. It takes no memory.
#[tactic(auto, using(tree_types::proofs::Seen::atom_seen))]
pub fn atom<'d>(atom: Atom) -> Tree<'d>
    ensures { tree_view result ≡ atom_view atom }
{
    Tree::Atom(atom)
}

/// What is made of one part.
pub fn one<'d>(alloc: Global, wrap: Wrap<'d>, tree: Tree<'d>) -> Result<Tree<'d>, AllocError>
    ensures { IfOk result (λ t. tree_view t ≡ wrapped wrap.entry (tree_view tree.entry)) }
{
    let held = Box::new(alloc, tree)?;
    Ok(one_of(wrap, held))
}

#[tactic(auto, using(tree_types::proofs::Seen::one_seen))]
pub(crate) fn one_of<'d>(wrap: Wrap<'d>, held: Box<Tree<'d>>) -> Tree<'d>
    ensures { tree_view result ≡ wrapped wrap.entry (tree_view held.entry.value) }
{
    Tree::One(wrap, held)
}

/// An option of it.
pub fn as_option<'d>(alloc: Global, tree: Tree<'d>) -> Result<Tree<'d>, AllocError>
    ensures { IfOk result (λ t. tree_view t ≡ option_entry (tree_view tree.entry)) }
{
    let held = one(alloc, Wrap::Option, tree)?;
    Ok(held)
}

fn is_option_wrap(wrap: &Wrap<'_>) -> bool
    ensures { (e : Entry) → result ≡ is_option_entry (wrapped wrap.now e) }
{
    match wrap {
        Wrap::Option => true,
        Wrap::Vec => false,
        Wrap::Set => false,
        Wrap::Array(_) => false,
        Wrap::Newtype { name: _, rule: _ } => false,
    }
}

fn is_option_atom(atom: &Atom) -> bool
    ensures { result ≡ is_option_entry (atom_view atom.now) }
{
    match atom {
        Atom::Bool => false,
        Atom::Integer(_) => false,
        Atom::Text => false,
        Atom::Native(_) => false,
        Atom::Any => false,
        Atom::Unit => false,
        Atom::Reference(_) => false,
    }
}

fn is_option(tree: &Tree<'_>) -> bool
    ensures { result ≡ is_option_entry (tree_view tree.now) }
{
    match tree {
        Tree::Atom(atom) => is_option_atom(atom),
        Tree::One(wrap, _) => is_option_wrap(wrap),
        Tree::Map(_, _) => false,
        Tree::Tuple(_) => false,
        Tree::Struct {
            name: _,
            closed: _,
            fields: _,
            rest: _,
        } => false,
        Tree::Enum {
            name: _,
            closed: _,
            tag: _,
            variants: _,
        } => false,
    }
}

/// An option of it where it is nullable, unless it is one.
pub fn nullable<'d>(alloc: Global, nullable: bool, tree: Tree<'d>) -> Result<Tree<'d>, AllocError>
    ensures { IfOk result (λ t. tree_view t ≡ nullable_entry nullable (tree_view tree.entry)) }
{
    if !nullable || is_option(&tree) {
        return Ok(tree);
    }
    let held = as_option(alloc, tree)?;
    Ok(held)
}

/// An item of that wanted name that holds it, with the rule.
pub fn newtype<'d>(
    alloc: Global,
    name: &'d str,
    rule: Option<TreeRule<'d>>,
    tree: Tree<'d>,
) -> Result<Tree<'d>, AllocError>
    ensures { IfOk result (λ t. tree_view t ≡ item name.now (newtype_shape (tree_view tree.entry) (option_map rule_view rule.entry))) }
{
    let held = one(
        alloc,
        Wrap::Newtype {
            name: label(name),
            rule,
        },
        tree,
    )?;
    Ok(held)
}

/// A map, by its keys and its values.
pub fn map_tree<'d>(alloc: Global, keys: Tree<'d>, values: Tree<'d>) -> Result<Tree<'d>, AllocError>
    ensures { IfOk result (λ t. tree_view t ≡ map_entry (tree_view keys.entry) (tree_view values.entry)) }
{
    let keys = Box::new(alloc, keys)?;
    let values = Box::new(alloc, values)?;
    Ok(map_of(keys, values))
}

#[tactic(auto, using(tree_types::proofs::Seen::map_seen))]
pub(crate) fn map_of<'d>(keys: Box<Tree<'d>>, values: Box<Tree<'d>>) -> Tree<'d>
    ensures { tree_view result ≡ map_entry (tree_view keys.entry.value) (tree_view values.entry.value) }
{
    Tree::Map(keys, values)
}

/// Texts that have one of the patterns that stand for names there.
pub fn pattern_keys<'d>(
    alloc: Global,
    patterns: &'d BTreeMap<String, Schema>,
) -> Result<Tree<'d>, AllocError>
    ensures { IfOk result (λ t. tree_view t ≡ pattern_key (pattern_names (properties_view patterns.now.entries))) }
{
    let held = newtype(alloc, "", Some(TreeRule::Keys(patterns)), atom(Atom::Text))?;
    Ok(held)
}

/// A tuple of the places. It takes no memory.
#[tactic(auto, using(tree_types::proofs::Seen::tuple_seen))]
pub fn tuple_tree<'d>(places: Vec<(FieldHead<'d>, Option<Tree<'d>>)>) -> Tree<'d>
    ensures { tree_view result ≡ tuple_entry (places_view (parts_of places.entry.items)) }
{
    Tree::Tuple(places)
}

/// A struct of that wanted name. It takes no memory.
pub fn struct_tree<'d>(
    name: &'d str,
    closed: bool,
    fields: Vec<(FieldHead<'d>, Option<Tree<'d>>)>,
    rest: Option<(Label<'d>, Box<Tree<'d>>)>,
) -> Tree<'d>
    ensures { tree_view result ≡ item name.now (struct_shape closed (fields_view (parts_of fields.entry.items) (rest_fields rest.entry))) }
{
    struct_of(label(name), closed, fields, rest)
}

#[tactic(auto, using(tree_types::proofs::Seen::struct_seen))]
pub(crate) fn struct_of<'d>(
    name: Label<'d>,
    closed: bool,
    fields: Vec<(FieldHead<'d>, Option<Tree<'d>>)>,
    rest: Option<(Label<'d>, Box<Tree<'d>>)>,
) -> Tree<'d>
    ensures { tree_view result ≡ item (label_view name.entry) (struct_shape closed (fields_view (parts_of fields.entry.items) (rest_fields rest.entry))) }
{
    Tree::Struct {
        name,
        closed,
        fields,
        rest,
    }
}

/// An enum of that wanted name. It takes no memory.
pub fn enum_tree<'d>(
    name: &'d str,
    closed: bool,
    tag: TagRow<'d>,
    variants: Vec<(VariantHead<'d>, Vec<(FieldHead<'d>, Option<Tree<'d>>)>)>,
) -> Tree<'d>
    ensures { tree_view result ≡ item name.now (enum_shape closed (tag_view tag.entry) (variants_view (tag_view tag.entry) (cases_of variants.entry.items))) }
{
    enum_of(label(name), closed, tag, variants)
}

#[tactic(auto, using(tree_types::proofs::Seen::enum_seen))]
pub(crate) fn enum_of<'d>(
    name: Label<'d>,
    closed: bool,
    tag: TagRow<'d>,
    variants: Vec<(VariantHead<'d>, Vec<(FieldHead<'d>, Option<Tree<'d>>)>)>,
) -> Tree<'d>
    ensures { tree_view result ≡ item (label_view name.entry) (enum_shape closed (tag_view tag.entry) (variants_view (tag_view tag.entry) (cases_of variants.entry.items))) }
{
    Tree::Enum {
        name,
        closed,
        tag,
        variants,
    }
}
