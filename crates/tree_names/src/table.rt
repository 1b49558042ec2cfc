//! Tables of trees with their names.
ghost use Rattle.std.specs.Prelude.{◌≡◌, ◌++◌, ℕ, List, [], ◌∷◌, true, IfOk, OnOk, map, option_map, length, codes};
ghost use Rattle.entry_defs.specs.Entry.{newtype_shape};
ghost use Rattle.naming_defs.specs.Names.{Names, keys, named_table as table_named};
ghost use Rattle.naming_defs.specs.Good.{is_good_name};
ghost use Rattle.good_names.specs.Given.{Stands, Does, item_given};
ghost use Rattle.tree_types.specs.View.{label_view, rule_view, wrapped, tree_view, item_in, target_entry, table_view};
ghost use Rattle.tree_names.specs.Folded.{targets_first};
ghost use Rattle.tree_names.specs.Seen.{item_named, item_given_to, target_named, targets_given, targets_named, trees_named, with_names};

use crate::identify::{has_no_fields, identified_members, identified_variants};
use crate::labels::{copy_label, copy_target, item_label};
use crate::walk::{named_parts, named_rest, named_tree, named_variants};
use good_names::GivenNames;
use std::alloc::{AllocError, Global};
use tree_types::{Label, Target, Tree, TreeRule, TreeTable, Wrap};

fn want_key(
    alloc: Global,
    names: &mut GivenNames,
    target: &(Target, Tree<'_>),
) -> Result<(), AllocError>
    ensures { OnOk result ((prefix : List ℕ) (given beside : Names) → Stands names.old prefix given beside → Stands names.new prefix given (beside ++ keys is_good_name (target_entry target.now ∷ []))) }
{
    match &target.0 {
        Target::Root => Ok(()),
        Target::Definition(key) => {
            names.want(alloc, key)?;
            Ok(())
        }
    }
}

// The keys of the definitions that references lead to.
#[tactic(auto, using(crate::proofs::Turns::keys_wanted_turn, crate::proofs::Turns::keys_wanted_end))]
fn wanted_of_keys<'d>(
    alloc: Global,
    targets: &Vec<(Target, Tree<'d>)>,
) -> Result<GivenNames, AllocError>
    ensures { IfOk result (λ s. (prefix : List ℕ) → Stands s prefix [] (keys is_good_name (map target_entry targets.now.items))) }
{
    let mut names = GivenNames::new(alloc);
    for target in targets {
        want_key(alloc, &mut names, target)?;
    }
    Ok(names)
}

// The label of a tree that is no item.
fn other_label<'d>(alloc: Global, names: &mut GivenNames) -> Result<Label<'d>, AllocError>
    ensures { IfOk result (λ l. Does (codes "Type") names.old names.new (label_view l) (item_given true [])) }
{
    let given = names.give_item(alloc, "", true)?;
    Ok(Label {
        wanted: "",
        given: Some(given),
    })
}

fn wrap_label<'d>(
    alloc: Global,
    names: &mut GivenNames,
    wrap: &Wrap<'d>,
    inner: &Tree<'d>,
) -> Result<Label<'d>, AllocError>
    ensures { IfOk result (λ l. Does (codes "Type") names.old names.new (label_view l) (item_given_to (item_in (wrapped wrap.now (tree_view inner.now))))) }
{
    match wrap {
        Wrap::Newtype { name, .. } => {
            let label = item_label(alloc, names, name, true)?;
            Ok(label)
        }
        Wrap::Option => {
            let label = other_label(alloc, names)?;
            Ok(label)
        }
        Wrap::Vec => {
            let label = other_label(alloc, names)?;
            Ok(label)
        }
        Wrap::Set => {
            let label = other_label(alloc, names)?;
            Ok(label)
        }
        Wrap::Array(_) => {
            let label = other_label(alloc, names)?;
            Ok(label)
        }
    }
}

// The name of the item that a reference leads to.
#[tactic(auto, using(crate::proofs::Led::enum_label, crate::proofs::Led::one_label, crate::proofs::Led::atom_label, crate::proofs::Led::map_label, crate::proofs::Led::tuple_label))]
fn target_label<'d>(
    alloc: Global,
    names: &mut GivenNames,
    tree: &Tree<'d>,
) -> Result<Label<'d>, AllocError>
    ensures { IfOk result (λ l. Does (codes "Type") names.old names.new (label_view l) (item_given_to (item_in (tree_view tree.now)))) }
{
    match tree {
        Tree::Struct {
            name,
            fields,
            rest,
            ..
        } => {
            let is_value = has_no_fields(fields, rest);
            let label = item_label(alloc, names, name, is_value)?;
            Ok(label)
        }
        Tree::Enum { name, .. } => {
            let label = item_label(alloc, names, name, false)?;
            Ok(label)
        }
        Tree::One(wrap, inner) => {
            let label = wrap_label(alloc, names, wrap, inner)?;
            Ok(label)
        }
        Tree::Atom(_) => {
            let label = other_label(alloc, names)?;
            Ok(label)
        }
        Tree::Map(_, _) => {
            let label = other_label(alloc, names)?;
            Ok(label)
        }
        Tree::Tuple(_) => {
            let label = other_label(alloc, names)?;
            Ok(label)
        }
    }
}

// The names of the items that references lead to, in their order.
#[tactic(auto, using(crate::proofs::Turns::labels_begin, crate::proofs::Turns::labels_turn, crate::proofs::Turns::labels_end))]
fn target_labels<'d>(
    alloc: Global,
    names: &mut GivenNames,
    targets: &Vec<(Target, Tree<'d>)>,
) -> Result<Vec<Label<'d>>, AllocError>
    ensures { IfOk result (λ v. Does (codes "Type") names.old names.new (map label_view v.items) (targets_given (map target_entry targets.now.items))) }
{
    let mut labels = Vec::with_capacity(alloc, targets.len())?;
    for target in targets {
        let label = target_label(alloc, names, &target.1)?;
        labels.push(label)?;
    }
    Ok(labels)
}

// The newtype of that name.
#[tactic(auto, using(crate::proofs::Walks::newtype_does))]
fn named_newtype<'d>(
    alloc: Global,
    names: &mut GivenNames,
    name: Label<'d>,
    rule: Option<TreeRule<'d>>,
    inner: &Tree<'d>,
) -> Result<Tree<'d>, AllocError>
    ensures { IfOk result (λ e. Does (codes "Type") names.old names.new (tree_view e) (item_named (label_view name.entry) (newtype_shape (tree_view inner.now) (option_map rule_view rule.entry)))) }
{
    let inner = named_tree(alloc, names, inner)?;
    let inner = Box::new(alloc, inner)?;
    Ok(Tree::One(Wrap::Newtype { name, rule }, inner))
}

// The tree as the item of that name, where it is made of one part.
#[tactic(auto, using(crate::proofs::Led::newtype_led, crate::proofs::Led::option_led, crate::proofs::Led::vec_led, crate::proofs::Led::set_led, crate::proofs::Led::array_led))]
fn named_wrap<'d>(
    alloc: Global,
    names: &mut GivenNames,
    name: Label<'d>,
    wrap: &Wrap<'d>,
    inner: &Tree<'d>,
    tree: &Tree<'d>,
) -> Result<Tree<'d>, AllocError>
    requires { tree_view tree.now ≡ wrapped wrap.now (tree_view inner.now) }
    ensures { IfOk result (λ e. Does (codes "Type") names.old names.new (tree_view e) (item_named (label_view name.entry) (item_in (tree_view tree.now)).shape)) }
{
    match wrap {
        Wrap::Newtype { rule, .. } => {
            let item = named_newtype(alloc, names, name, *rule, inner)?;
            Ok(item)
        }
        Wrap::Option => {
            let item = named_newtype(alloc, names, name, None, tree)?;
            Ok(item)
        }
        Wrap::Vec => {
            let item = named_newtype(alloc, names, name, None, tree)?;
            Ok(item)
        }
        Wrap::Set => {
            let item = named_newtype(alloc, names, name, None, tree)?;
            Ok(item)
        }
        Wrap::Array(_) => {
            let item = named_newtype(alloc, names, name, None, tree)?;
            Ok(item)
        }
    }
}

// The tree as the item of that name.
#[tactic(auto, using(crate::proofs::Led::atom_led, crate::proofs::Led::map_led, crate::proofs::Led::tuple_led, tree_types::proofs::Seen::one_seen))]
fn named_item<'d>(
    alloc: Global,
    names: &mut GivenNames,
    name: Label<'d>,
    tree: &Tree<'d>,
) -> Result<Tree<'d>, AllocError>
    ensures { IfOk result (λ e. Does (codes "Type") names.old names.new (tree_view e) (item_named (label_view name.entry) (item_in (tree_view tree.now)).shape)) }
{
    match tree {
        Tree::Struct {
            closed,
            fields,
            rest,
            ..
        } => {
            let fields = named_parts(alloc, names, fields)?;
            let rest = named_rest(alloc, names, rest)?;
            let members = identified_members(alloc, fields, rest)?;
            Ok(Tree::Struct {
                name,
                closed: *closed,
                fields: members.fields,
                rest: members.rest,
            })
        }
        Tree::Enum {
            closed,
            tag,
            variants,
            ..
        } => {
            let variants = named_variants(alloc, names, variants)?;
            let variants = identified_variants(alloc, *tag, variants)?;
            Ok(Tree::Enum {
                name,
                closed: *closed,
                tag: *tag,
                variants,
            })
        }
        Tree::One(wrap, inner) => {
            let item = named_wrap(alloc, names, name, wrap, inner, tree)?;
            Ok(item)
        }
        Tree::Atom(_) => {
            let item = named_newtype(alloc, names, name, None, tree)?;
            Ok(item)
        }
        Tree::Map(_, _) => {
            let item = named_newtype(alloc, names, name, None, tree)?;
            Ok(item)
        }
        Tree::Tuple(_) => {
            let item = named_newtype(alloc, names, name, None, tree)?;
            Ok(item)
        }
    }
}

#[tactic(auto, using(crate::proofs::Tables::target_does))]
fn named_target<'d>(
    alloc: Global,
    names: &mut GivenNames,
    name: &Label<'d>,
    target: &(Target, Tree<'d>),
) -> Result<(Target, Tree<'d>), AllocError>
    ensures { IfOk result (λ p. Does (codes "Type") names.old names.new (target_entry p) (target_named (target_entry target.now, label_view name.now))) }
{
    let key = copy_target(alloc, &target.0)?;
    let name = copy_label(alloc, name)?;
    let item = named_item(alloc, names, name, &target.1)?;
    Ok((key, item))
}

#[tactic(auto, using(crate::proofs::Turns::targets_begin, crate::proofs::Turns::targets_turn, crate::proofs::Turns::targets_end))]
fn labeled_targets<'d>(
    alloc: Global,
    names: &mut GivenNames,
    targets: &Vec<(Target, Tree<'d>)>,
    labels: &Vec<Label<'d>>,
) -> Result<Vec<(Target, Tree<'d>)>, AllocError>
    requires { length labels.now.items ≡ length targets.now.items }
    ensures { IfOk result (λ v. Does (codes "Type") names.old names.new (map target_entry v.items) (targets_named (with_names (map target_entry targets.now.items) (map label_view labels.now.items)))) }
{
    let mut named = Vec::with_capacity(alloc, targets.len())?;
    for at in 0..targets.len() {
        let target = named_target(alloc, names, &labels[at], &targets[at])?;
        named.push(target)?;
    }
    Ok(named)
}

#[tactic(auto, using(crate::proofs::Turns::trees_begin, crate::proofs::Turns::trees_turn, crate::proofs::Turns::trees_end))]
fn named_trees<'d>(
    alloc: Global,
    names: &mut GivenNames,
    trees: &Vec<Tree<'d>>,
) -> Result<Vec<Tree<'d>>, AllocError>
    ensures { IfOk result (λ v. Does (codes "Type") names.old names.new (map tree_view v.items) (trees_named (map tree_view trees.now.items))) }
{
    let mut named = Vec::with_capacity(alloc, trees.len())?;
    for tree in trees {
        let tree = named_tree(alloc, names, tree)?;
        named.push(tree)?;
    }
    Ok(named)
}

/// Targets with their names, and the names that are given then.
#[derive(Drop)]
pub struct NamedTargets<'d> {
    pub targets: Vec<(Target, Tree<'d>)>,
    pub names: GivenNames,
}

/// The targets of a table with their names. Its trees come after them, one after another, each by `named_tree`. Fails only for
/// want of memory.
pub fn named_targets<'d>(
    alloc: Global,
    targets: &Vec<(Target, Tree<'d>)>,
) -> Result<NamedTargets<'d>, AllocError>
    ensures targets { IfOk result (λ n. map target_entry n.targets.items ≡ (targets_first (map target_entry targets.now.items)).1) }
    ensures names { IfOk result (λ n. Stands n.names (codes "Type") (targets_first (map target_entry targets.now.items)).0 (keys is_good_name (map target_entry targets.now.items))) }
{
    let mut names = wanted_of_keys(alloc, targets)?;
    let labels = target_labels(alloc, &mut names, targets)?;
    let named = labeled_targets(alloc, &mut names, targets, &labels)?;
    Ok(NamedTargets {
        targets: named,
        names,
    })
}

/// The table with its names. Items are named in the order in which they are come to, first those that references lead to; fields
/// and variants are named within what holds them. Fails only for want of memory.
pub fn named_table<'d>(alloc: Global, table: &TreeTable<'d>) -> Result<TreeTable<'d>, AllocError>
    ensures { IfOk result (λ t. table_view t ≡ table_named is_good_name (table_view table.now)) }
{
    let named = named_targets(alloc, &table.targets)?;
    let mut names = named.names;
    let trees = named_trees(alloc, &mut names, &table.trees)?;
    Ok(TreeTable {
        targets: named.targets,
        trees,
    })
}
