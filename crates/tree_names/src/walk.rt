//! The walk that names the items of trees. It copies, so that what it is given stays.
ghost use Rattle.std.specs.Prelude.{IfOk, map, codes};
ghost use Rattle.good_names.specs.Given.{Does};
ghost use Rattle.tree_types.specs.View.{rest_fields, wrapped, tree_view};
ghost use Rattle.tree_names.specs.Seen.{part_view, part_named, parts_named, contents_named, variant_view, variant_named, variants_named, entry_named, rest_named};

use crate::identify::{
    bound_contents, has_no_fields, identified_members, identified_variants, take_bound,
};
use crate::labels::{copy_atom, copy_label, item_label};
use good_names::GivenNames;
use std::alloc::{AllocError, Global};
use tree_types::{ContentKind, FieldHead, Label, Tree, VariantHead, Wrap};

/// The tree with the names of its items and within them. Items are named in the order in which they are come to, after those that
/// have their names. Fails only for want of memory.
#[cycle(naming)]
#[tactic(auto, using(crate::proofs::Walks::atom_does, crate::proofs::Walks::map_does, crate::proofs::Walks::tuple_does, crate::proofs::Walks::enum_whole, crate::proofs::Walks::one_whole, tree_types::proofs::Sizes::one_falls, tree_types::proofs::Sizes::keys_fall, tree_types::proofs::Sizes::values_fall, tree_types::proofs::Sizes::tuple_falls, tree_types::proofs::Sizes::fields_fall, tree_types::proofs::Sizes::rest_falls, tree_types::proofs::Sizes::variants_fall))]
pub fn named_tree<'d>(
    alloc: Global,
    names: &mut GivenNames,
    from: &Tree<'d>,
) -> Result<Tree<'d>, AllocError>
    ensures { IfOk result (λ e. Does (codes "Type") names.old names.new (tree_view e) (entry_named (tree_view from.now))) }
{
    match from {
        Tree::Atom(atom) => Ok(Tree::Atom(copy_atom(alloc, atom)?)),
        Tree::One(wrap, inner) => {
            let one = named_one(alloc, names, wrap, inner)?;
            Ok(one)
        }
        Tree::Map(keys, values) => {
            let keys = named_box(alloc, names, keys)?;
            let values = named_box(alloc, names, values)?;
            Ok(Tree::Map(keys, values))
        }
        Tree::Tuple(places) => {
            let places = named_parts(alloc, names, places)?;
            Ok(Tree::Tuple(places))
        }
        Tree::Struct {
            name,
            closed,
            fields,
            rest,
        } => {
            let is_value = has_no_fields(fields, rest);
            let name = item_label(alloc, names, name, is_value)?;
            let fields = named_parts(alloc, names, fields)?;
            let rest = named_rest(alloc, names, rest)?;
            let members = identified_members(alloc, fields, rest)?;
            Ok(Tree::Struct {
                name,
                closed: *closed,
                fields: members.fields,
                rest: members.rest,
            })
        }
        Tree::Enum {
            name,
            closed,
            tag,
            variants,
        } => {
            let name = item_label(alloc, names, name, false)?;
            let variants = named_variants(alloc, names, variants)?;
            let variants = identified_variants(alloc, *tag, variants)?;
            Ok(Tree::Enum {
                name,
                closed: *closed,
                tag: *tag,
                variants,
            })
        }
    }
}

#[cycle(naming)]
pub(crate) fn named_box<'d>(
    alloc: Global,
    names: &mut GivenNames,
    from: &Box<Tree<'d>>,
) -> Result<Box<Tree<'d>>, AllocError>
    ensures { IfOk result (λ e. Does (codes "Type") names.old names.new (tree_view e.value) (entry_named (tree_view from.now.value))) }
{
    Ok(Box::new(alloc, named_tree(alloc, names, from)?)?)
}

// What is made of one part.
#[cycle(naming)]
#[tactic(auto, using(crate::proofs::Walks::option_does, crate::proofs::Walks::vec_does, crate::proofs::Walks::set_does, crate::proofs::Walks::array_does, crate::proofs::Walks::newtype_whole))]
fn named_one<'d>(
    alloc: Global,
    names: &mut GivenNames,
    wrap: &Wrap<'d>,
    inner: &Box<Tree<'d>>,
) -> Result<Tree<'d>, AllocError>
    ensures { IfOk result (λ e. Does (codes "Type") names.old names.new (tree_view e) (entry_named (wrapped wrap.now (tree_view inner.now.value)))) }
{
    match wrap {
        Wrap::Option => {
            let inner = named_box(alloc, names, inner)?;
            Ok(Tree::One(Wrap::Option, inner))
        }
        Wrap::Vec => {
            let inner = named_box(alloc, names, inner)?;
            Ok(Tree::One(Wrap::Vec, inner))
        }
        Wrap::Set => {
            let inner = named_box(alloc, names, inner)?;
            Ok(Tree::One(Wrap::Set, inner))
        }
        Wrap::Array(count) => {
            let inner = named_box(alloc, names, inner)?;
            Ok(Tree::One(Wrap::Array(*count), inner))
        }
        Wrap::Newtype { name, rule } => {
            let name = item_label(alloc, names, name, true)?;
            let inner = named_box(alloc, names, inner)?;
            Ok(Tree::One(Wrap::Newtype { name, rule: *rule }, inner))
        }
    }
}

#[cycle(naming)]
#[tactic(auto, using(crate::proofs::Walks::none_does, crate::proofs::Walks::some_does, tree_types::proofs::Sizes::tree_in_part))]
fn named_part<'d>(
    alloc: Global,
    names: &mut GivenNames,
    from: &(FieldHead<'d>, Option<Tree<'d>>),
) -> Result<(FieldHead<'d>, Option<Tree<'d>>), AllocError>
    ensures { IfOk result (λ p. Does (codes "Type") names.old names.new (part_view p) (part_named (part_view from.now))) }
{
    let head = FieldHead {
        label: copy_label(alloc, &from.0.label)?,
        state: from.0.state,
    };
    match &from.1 {
        None => Ok((head, None)),
        Some(tree) => {
            let tree = named_tree(alloc, names, tree)?;
            Ok((head, Some(tree)))
        }
    }
}

#[cycle(naming)]
#[tactic(auto, using(crate::proofs::Turns::parts_begin, crate::proofs::Turns::parts_turn, crate::proofs::Turns::parts_end))]
pub(crate) fn named_parts<'d>(
    alloc: Global,
    names: &mut GivenNames,
    from: &Vec<(FieldHead<'d>, Option<Tree<'d>>)>,
) -> Result<Vec<(FieldHead<'d>, Option<Tree<'d>>)>, AllocError>
    ensures { IfOk result (λ v. Does (codes "Type") names.old names.new (map part_view v.items) (parts_named (map part_view from.now.items))) }
{
    let mut named = Vec::with_capacity(alloc, from.len())?;
    for part in from {
        let part = named_part(alloc, names, part)?;
        named.push(part)?;
    }
    Ok(named)
}

#[cycle(naming)]
#[tactic(auto, using(crate::proofs::Walks::no_front_does, crate::proofs::Walks::front_does))]
fn named_front<'d>(
    alloc: Global,
    names: &mut GivenNames,
    from: &Vec<(FieldHead<'d>, Option<Tree<'d>>)>,
) -> Result<Vec<(FieldHead<'d>, Option<Tree<'d>>)>, AllocError>
    ensures { IfOk result (λ v. Does (codes "Type") names.old names.new (map part_view v.items) (contents_named ContentKind.Newtype (map part_view from.now.items))) }
{
    match from.first() {
        None => Ok(Vec::new(alloc)),
        Some(part) => {
            let part = named_part(alloc, names, part)?;
            let mut named = Vec::new(alloc);
            named.push(part)?;
            Ok(named)
        }
    }
}

// What a variant holds, where the fields of a struct have their identifiers.
#[cycle(naming)]
#[tactic(auto, using(crate::proofs::Walks::unit_does, crate::proofs::Walks::fields_do))]
fn named_contents<'d>(
    alloc: Global,
    names: &mut GivenNames,
    kind: ContentKind,
    from: &Vec<(FieldHead<'d>, Option<Tree<'d>>)>,
) -> Result<Vec<(FieldHead<'d>, Option<Tree<'d>>)>, AllocError>
    ensures { IfOk result (λ v. Does (codes "Type") names.old names.new (map part_view v.items) (contents_named kind (map part_view from.now.items))) }
{
    match kind {
        ContentKind::Unit => Ok(Vec::new(alloc)),
        ContentKind::Newtype => {
            let parts = named_front(alloc, names, from)?;
            Ok(parts)
        }
        ContentKind::Tuple => {
            let parts = named_parts(alloc, names, from)?;
            Ok(parts)
        }
        ContentKind::Struct => {
            let parts = named_parts(alloc, names, from)?;
            let parts = bound_contents(alloc, names, parts)?;
            take_bound(alloc, names, &parts)?;
            Ok(parts)
        }
    }
}

#[cycle(naming)]
#[tactic(auto, using(crate::proofs::Walks::variant_does))]
fn named_variant<'d>(
    alloc: Global,
    names: &mut GivenNames,
    from: &(VariantHead<'d>, Vec<(FieldHead<'d>, Option<Tree<'d>>)>),
) -> Result<(VariantHead<'d>, Vec<(FieldHead<'d>, Option<Tree<'d>>)>), AllocError>
    ensures { IfOk result (λ w. Does (codes "Type") names.old names.new (variant_view w) (variant_named (variant_view from.now))) }
{
    let head = VariantHead {
        label: copy_label(alloc, &from.0.label)?,
        kind: from.0.kind,
    };
    let parts = named_contents(alloc, names, from.0.kind, &from.1)?;
    Ok((head, parts))
}

#[cycle(naming)]
#[tactic(auto, using(crate::proofs::Turns::variants_begin, crate::proofs::Turns::variants_turn, crate::proofs::Turns::variants_end))]
pub(crate) fn named_variants<'d>(
    alloc: Global,
    names: &mut GivenNames,
    from: &Vec<(VariantHead<'d>, Vec<(FieldHead<'d>, Option<Tree<'d>>)>)>,
) -> Result<Vec<(VariantHead<'d>, Vec<(FieldHead<'d>, Option<Tree<'d>>)>)>, AllocError>
    ensures { IfOk result (λ v. Does (codes "Type") names.old names.new (map variant_view v.items) (variants_named (map variant_view from.now.items))) }
{
    let mut named = Vec::with_capacity(alloc, from.len())?;
    for variant in from {
        let variant = named_variant(alloc, names, variant)?;
        named.push(variant)?;
    }
    Ok(named)
}

#[cycle(naming)]
#[tactic(auto, using(crate::proofs::Walks::rest_does, crate::proofs::Walks::no_rest_does))]
pub(crate) fn named_rest<'d>(
    alloc: Global,
    names: &mut GivenNames,
    from: &Option<(Label<'d>, Box<Tree<'d>>)>,
) -> Result<Option<(Label<'d>, Box<Tree<'d>>)>, AllocError>
    ensures { IfOk result (λ o. Does (codes "Type") names.old names.new (rest_fields o) (rest_named (rest_fields from.now))) }
{
    match from {
        None => Ok(None),
        Some((label, tree)) => {
            let label = copy_label(alloc, label)?;
            let tree = named_box(alloc, names, tree)?;
            Ok(Some((label, tree)))
        }
    }
}
