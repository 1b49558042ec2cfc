//! Tables that are entered into a space.
ghost use Rattle.std.specs.Prelude.{◌≡◌, Some, IfOk, OnOk, map, option_map};
ghost use Rattle.std.specs.List.{IsDistinct};
ghost use Rattle.entry_defs.specs.Entry.{Target as TargetD};
ghost use Rattle.entry_defs.specs.Table.{root_of};
ghost use Rattle.entry_defs.specs.Sound.{IsSound};
ghost use Rattle.emit_defs.specs.Emission.{emission};
ghost use Rattle.space_defs.specs.Emission.{emission_at};
ghost use Rattle.space_defs.specs.Held.{HoldsTable, Stands};
ghost use Rattle.entry_types.specs.View.{id_view};
ghost use Rattle.entry_space.specs.Keys.{same_key};
ghost use Rattle.entry_space.specs.Seen.{seen};
ghost use Rattle.tree_types.specs.View.{target_view, target_entry, atom_view, tree_view, item_in, item_entry, table_view};
ghost use Rattle.space_trees.specs.Placed.{placed};
ghost use Rattle.space_trees.specs.Filled.{leads_in, led_from, opened_targets, filled_targets, placed_targets, placed_tree, placed_rest, placed_trees, placed_table};
ghost use Rattle.space_trees.specs.Formed.{IsFormed};
ghost use Rattle.space_trees.specs.Leading.{found_led, ids_of};
ghost use Rattle.space_trees.specs.Parts.{is_item_entry, is_newtype_wrap, wrap_name, name_in, reference_in};

use crate::copies::label_text;
use crate::entering::{open_item, put};
use crate::led::{Led, led_by, led_to};
use crate::trees::place_tree;
use entry_space::{EntrySpace, ItemShape, TypeEntry, TypeId};
use space_defs::laws::spaces_emit_tables;
use std::alloc::{AllocError, Global};
use tree_types::{Atom, Target, Tree, TreeTable, Wrap};

/// A space that holds a table of trees.
#[derive(Drop)]
pub struct Planned {
    pub space: EntrySpace,
    /// The id of the first tree.
    pub root: TypeId,
}

#[tactic(auto, using(crate::proofs::Forms::atom_item, crate::proofs::Forms::one_item, crate::proofs::Forms::map_item, crate::proofs::Forms::tuple_item, crate::proofs::Forms::struct_item, crate::proofs::Forms::enum_item))]
fn is_item(tree: &Tree<'_>) -> bool
    ensures { result ≡ is_item_entry (tree_view tree.now) }
{
    match tree {
        Tree::Struct { .. } => true,
        Tree::Enum { .. } => true,
        Tree::One(wrap, _) => is_newtype(wrap),
        Tree::Atom(_) => false,
        Tree::Map(_, _) => false,
        Tree::Tuple(_) => false,
    }
}

fn is_newtype(wrap: &Wrap<'_>) -> bool
    ensures { result ≡ is_newtype_wrap wrap.now }
{
    match wrap {
        Wrap::Newtype { .. } => true,
        _ => false,
    }
}

fn wrap_name<'t>(wrap: &'t Wrap<'_>) -> &'t str
    ensures { result.now ≡ wrap_name wrap.now }
{
    match wrap {
        Wrap::Newtype { name, .. } => label_text(name),
        _ => "",
    }
}

// The name of the item that a target's tree is, or that holds it.
#[tactic(auto, using(crate::proofs::Forms::atom_unnamed, crate::proofs::Forms::one_named, crate::proofs::Forms::map_unnamed, crate::proofs::Forms::tuple_unnamed, crate::proofs::Forms::struct_named, crate::proofs::Forms::enum_named))]
fn item_name<'t>(tree: &'t Tree<'_>) -> &'t str
    ensures { result.now ≡ name_in (tree_view tree.now) }
{
    match tree {
        Tree::Struct { name, .. } => label_text(name),
        Tree::Enum { name, .. } => label_text(name),
        Tree::One(wrap, _) => wrap_name(wrap),
        Tree::Atom(_) => "",
        Tree::Map(_, _) => "",
        Tree::Tuple(_) => "",
    }
}

#[tactic(auto, using(crate::proofs::LoopTurns::opened_turn, crate::proofs::LoopTurns::opened_end))]
fn open_targets<'d>(
    space: &mut EntrySpace,
    alloc: Global,
    targets: &Vec<(Target, Tree<'d>)>,
) -> Result<(), AllocError>
    ensures { OnOk result (seen space.new ≡ opened_targets (map target_entry targets.now.items) (seen space.old)) }
{
    for target in targets {
        open_item(space, alloc, item_name(&target.1))?;
    }
    Ok(())
}

// Fills the item of a target.
#[tactic(auto, using(crate::proofs::Steps::item_again, crate::proofs::Steps::item_around))]
fn fill_target(
    space: &mut EntrySpace,
    alloc: Global,
    led: &Led,
    id: TypeId,
    tree: &Tree<'_>,
) -> Result<(), AllocError>
    ensures { OnOk result (seen space.new ≡ (placed (ids_of led.now) (Some (id_view id)) (item_entry (item_in (tree_view tree.now))) (seen space.old)).0) }
{
    if is_item(tree) {
        place_tree(space, alloc, led, Some(id), tree)?;
        return Ok(());
    }
    let inner = place_tree(space, alloc, led, None, tree)?;
    space.fill(id, ItemShape::Newtype { inner, rule: None });
    Ok(())
}

#[tactic(auto, using(crate::proofs::LoopTurns::filled_turn, crate::proofs::LoopTurns::filled_end))]
fn fill_targets<'d>(
    space: &mut EntrySpace,
    alloc: Global,
    led: &Led,
    targets: &Vec<(Target, Tree<'d>)>,
) -> Result<(), AllocError>
    ensures { OnOk result (seen space.new ≡ filled_targets (ids_of led.now) 0 (map target_entry targets.now.items) (seen space.old)) }
{
    let mut place: u32 = 0;
    for target in targets {
        fill_target(space, alloc, led, TypeId(place), &target.1)?;
        let Some(next) = place.checked_add(1) else {
            return Err(AllocError);
        };
        place = next;
    }
    Ok(())
}

fn atom_reference<'t>(atom: &'t Atom) -> Option<&'t Target>
    ensures { option_map (λ q. target_view q.now) result ≡ reference_in (atom_view atom.now) }
{
    match atom {
        Atom::Reference(target) => Some(target),
        Atom::Bool => None,
        Atom::Integer(_) => None,
        Atom::Text => None,
        Atom::Native(_) => None,
        Atom::Any => None,
        Atom::Unit => None,
    }
}

#[tactic(auto, using(crate::proofs::Forms::atom_leads, crate::proofs::Forms::one_ends, crate::proofs::Forms::map_ends, crate::proofs::Forms::tuple_ends, crate::proofs::Forms::struct_ends, crate::proofs::Forms::enum_ends))]
fn reference_of<'t>(tree: &'t Tree<'_>) -> Option<&'t Target>
    ensures { option_map (λ q. target_view q.now) result ≡ reference_in (tree_view tree.now) }
{
    match tree {
        Tree::Atom(atom) => atom_reference(atom),
        Tree::One(_, _) => None,
        Tree::Map(_, _) => None,
        Tree::Tuple(_) => None,
        Tree::Struct { .. } => None,
        Tree::Enum { .. } => None,
    }
}

// Enters a tree of a table, behind what stands there, and answers its id; for a reference nothing is entered, and the id is that of
// the item that it leads to.
#[tactic(auto, using(crate::proofs::Steps::no_reference, crate::proofs::Steps::a_reference))]
fn place_alone(
    space: &mut EntrySpace,
    alloc: Global,
    led: &Led,
    tree: &Tree<'_>,
) -> Result<TypeId, AllocError>
    ensures { IfOk result (λ i. placed_tree (ids_of led.now) (tree_view tree.now) (seen space.old) ≡ (seen space.new, id_view i)) }
{
    match reference_of(tree) {
        Some(target) => match led_to(led, target) {
            Some(id) => Ok(id),
            None => Err(AllocError),
        },
        None => {
            let id = place_tree(space, alloc, led, None, tree)?;
            Ok(id)
        }
    }
}

#[tactic(auto, using(crate::proofs::LoopTurns::rest_turn, crate::proofs::LoopTurns::rest_end))]
fn place_rest<'d>(
    space: &mut EntrySpace,
    alloc: Global,
    led: &Led,
    trees: &[Tree<'d>],
) -> Result<(), AllocError>
    ensures { OnOk result (seen space.new ≡ placed_rest (ids_of led.now) (map tree_view trees.now) (seen space.old)) }
{
    for tree in trees {
        place_alone(space, alloc, led, tree)?;
    }
    Ok(())
}

#[tactic(auto, using(crate::proofs::Steps::all_trees))]
fn place_trees<'d>(
    space: &mut EntrySpace,
    alloc: Global,
    led: &Led,
    trees: &Vec<Tree<'d>>,
) -> Result<TypeId, AllocError>
    ensures { IfOk result (λ i. placed_trees (ids_of led.now) (map tree_view trees.now.items) (seen space.old) ≡ (seen space.new, id_view i)) }
{
    let Some((first, rest)) = trees.split_first() else {
        let id = put(space, TypeEntry::Unit)?;
        return Ok(id);
    };
    let id = place_alone(space, alloc, led, first)?;
    place_rest(space, alloc, led, rest)?;
    Ok(id)
}

/// A space that holds targets, and where references lead in it.
#[derive(Drop)]
pub struct LedSpace {
    pub space: EntrySpace,
    pub led: Led,
}

/// The space of the targets of a table, which have their names. The trees of the table come after them, one after another, each by
/// `place_tree`. Fails only for want of memory, or of an id.
#[tactic(auto, using(crate::proofs::Steps::targets_placed))]
pub fn targets_space<'d>(
    alloc: Global,
    targets: &Vec<(Target, Tree<'d>)>,
) -> Result<LedSpace, AllocError>
    ensures space { IfOk result (λ o. seen o.space ≡ placed_targets (ids_of o.led) (map target_entry targets.now.items)) }
    ensures led { IfOk result (λ o. (q : TargetD) → found_led o.led q ≡ led_from 0 (map target_entry targets.now.items) q) }
{
    let led = led_by(alloc, targets)?;
    let mut space = EntrySpace::new(alloc);
    open_targets(&mut space, alloc, targets)?;
    fill_targets(&mut space, alloc, &led, targets)?;
    Ok(LedSpace { space, led })
}

fn place_table<'d>(alloc: Global, table: &TreeTable<'d>) -> Result<Planned, AllocError>
    ensures placed { IfOk result (λ p. placed_table (table_view table.now) ≡ (seen p.space, id_view p.root)) }
    ensures apart { IfOk result (λ p. IsDistinct same_key (seen p.space)) }
{
    let opened = targets_space(alloc, &table.targets)?;
    let mut space = opened.space;
    let root = place_trees(&mut space, alloc, &opened.led, &table.trees)?;
    let _ = space.iter();
    Ok(Planned { space, root })
}

/// The space that holds a table whose trees have their names, with the id of the first tree: where that is a reference, the id of
/// the item that it leads to. The items stand in the order in which they were named: first those of the targets, then those in
/// each of them, then those in the trees. Equal entries have one id. Fails only for want of memory, or of an id: there are
/// 4,294,967,295 of them.
pub fn space_of<'d>(alloc: Global, table: &TreeTable<'d>) -> Result<Planned, AllocError>
    requires sound { IsSound (table_view table.now) }
    requires formed { IsFormed (table_view table.now) }
    ensures holds { IfOk result (λ p. HoldsTable (leads_in (table_view table.now)) (seen p.space) (table_view table.now)) }
    ensures root { IfOk result (λ p. Stands (leads_in (table_view table.now)) (seen p.space) (root_of (table_view table.now)) (id_view p.root)) }
    ensures emitted { IfOk result (λ p. emission_at (seen p.space) (id_view p.root) ≡ emission (table_view table.now) (root_of (table_view table.now))) }
    ensures apart { IfOk result (λ p. IsDistinct same_key (seen p.space)) }
{
    spaces_emit_tables();
    let planned = place_table(alloc, table)?;
    Ok(planned)
}
