//! Trees that are entered into a space.
ghost use Rattle.std.specs.Prelude.{◌≡◌, None, IfOk, map, option_map};
ghost use Rattle.entry_defs.specs.Entry.{reference};
ghost use Rattle.entry_types.specs.View.{id_view, content_view, variant_view};
ghost use Rattle.entry_space.specs.Seen.{seen};
ghost use Rattle.row_findings.specs.View.{tag_view};
ghost use Rattle.tree_types.specs.View.{target_view, atom_view, first_part, contents_view, variants_view, tree_view, parts_of};
ghost use Rattle.space_trees.specs.Placed.{placed, placed_contents, placed_variants};
ghost use Rattle.space_trees.specs.Leading.{ids_of};
ghost use Rattle.space_trees.specs.Parts.{placed_parts, placed_variant, tree_seen, case_seen};

use crate::copies::{label_text, variant_text};
use crate::entering::{open_at, put};
use crate::finish::{close_wrap, field_entries, fill_enum, fill_struct, open_wrap, resolve_ids};
use crate::led::{Led, led_to};
use entry_space::{Content, EntrySpace, TypeEntry, TypeId, VariantEntry};
use row_findings::TagRow;
use std::alloc::{AllocError, Global};
use tree_types::{Atom, ContentKind, FieldHead, Target, Tree, VariantHead};

#[tactic(auto, using(crate::proofs::Steps::reference_placed))]
fn place_reference(space: &mut EntrySpace, led: &Led, target: &Target) -> Result<TypeId, AllocError>
    ensures { IfOk result (λ i. placed (ids_of led.now) None (reference (target_view target.now)) (seen space.old) ≡ (seen space.new, id_view i)) }
{
    match led_to(led, target) {
        Some(id) => {
            let id = put(space, TypeEntry::Reference(id))?;
            Ok(id)
        }
        None => Err(AllocError),
    }
}

fn place_atom(space: &mut EntrySpace, led: &Led, atom: &Atom) -> Result<TypeId, AllocError>
    ensures { IfOk result (λ i. placed (ids_of led.now) None (atom_view atom.now) (seen space.old) ≡ (seen space.new, id_view i)) }
{
    match atom {
        Atom::Bool => {
            let id = put(space, TypeEntry::Bool)?;
            Ok(id)
        }
        Atom::Integer(name) => {
            let id = put(space, TypeEntry::Integer(*name))?;
            Ok(id)
        }
        Atom::Text => {
            let id = put(space, TypeEntry::Text)?;
            Ok(id)
        }
        Atom::Native(format) => {
            let id = put(space, TypeEntry::Native(*format))?;
            Ok(id)
        }
        Atom::Any => {
            let id = put(space, TypeEntry::Any)?;
            Ok(id)
        }
        Atom::Unit => {
            let id = put(space, TypeEntry::Unit)?;
            Ok(id)
        }
        Atom::Reference(target) => {
            let id = place_reference(space, led, target)?;
            Ok(id)
        }
    }
}

/// Enters a tree, its parts before it, and answers its id; an item may have been opened before. Fails only for want of memory, or of an
/// id, and where a reference leads nowhere.
#[tactic(auto, using(crate::proofs::Arms::atom_arm, crate::proofs::Arms::map_arm, crate::proofs::Arms::one_arm, crate::proofs::Arms::tuple_arm, crate::proofs::Falls::one_falls, crate::proofs::Falls::keys_fall, crate::proofs::Falls::values_fall, tree_types::proofs::Sizes::tuple_falls, tree_types::proofs::Sizes::fields_fall, crate::proofs::Falls::rest_falls, tree_types::proofs::Sizes::variants_fall))]
#[cycle(placing)]
pub fn place_tree(
    space: &mut EntrySpace,
    alloc: Global,
    led: &Led,
    at: Option<TypeId>,
    tree: &Tree<'_>,
) -> Result<TypeId, AllocError>
    ensures { IfOk result (λ i. placed (ids_of led.now) (option_map id_view at) (tree_view tree.now) (seen space.old) ≡ (seen space.new, id_view i)) }
{
    match tree {
        Tree::Atom(atom) => {
            let id = place_atom(space, led, atom)?;
            Ok(id)
        }
        Tree::One(wrap, inner) => {
            let opened = open_wrap(space, alloc, at, wrap)?;
            let part = place_tree(space, alloc, led, None, inner)?;
            let id = close_wrap(space, alloc, wrap, opened, part)?;
            Ok(id)
        }
        Tree::Map(keys, values) => {
            let keys = place_tree(space, alloc, led, None, keys)?;
            let values = place_tree(space, alloc, led, None, values)?;
            let id = put(space, TypeEntry::Map(keys, values))?;
            Ok(id)
        }
        Tree::Tuple(places) => {
            let ids = place_parts(space, alloc, led, places)?;
            let ids = resolve_ids(alloc, &ids, None)?;
            let id = put(space, TypeEntry::Tuple(ids))?;
            Ok(id)
        }
        Tree::Struct {
            name,
            closed,
            fields,
            rest,
        } => {
            let id = open_at(space, alloc, at, label_text(name))?;
            let ids = place_parts(space, alloc, led, fields)?;
            match rest {
                Some(rest) => {
                    let rest = place_tree(space, alloc, led, None, &rest.1)?;
                    let id = fill_struct(space, alloc, id, *closed, fields, ids, Some(rest))?;
                    Ok(id)
                }
                None => {
                    let id = fill_struct(space, alloc, id, *closed, fields, ids, None)?;
                    Ok(id)
                }
            }
        }
        Tree::Enum {
            name,
            closed,
            tag,
            variants,
        } => {
            let id = open_at(space, alloc, at, label_text(name))?;
            let variants = place_variants(space, alloc, led, tag, variants)?;
            let id = fill_enum(space, alloc, id, *closed, tag, variants)?;
            Ok(id)
        }
    }
}

// The ids of the parts that have trees.
#[tactic(auto, using(crate::proofs::LoopTurns::part_turn, crate::proofs::LoopTurns::bare_turn, crate::proofs::LoopTurns::parts_end))]
#[cycle(placing)]
fn place_parts<'d>(
    space: &mut EntrySpace,
    alloc: Global,
    led: &Led,
    parts: &Vec<(FieldHead<'d>, Option<Tree<'d>>)>,
) -> Result<Vec<Option<TypeId>>, AllocError>
    ensures { IfOk result (λ v. placed_parts (ids_of led.now) (map tree_seen parts.now.items) (seen space.old) ≡ (seen space.new, map (option_map id_view) v.items)) }
{
    let mut ids = Vec::with_capacity(alloc, parts.len())?;
    for part in parts {
        match &part.1 {
            Some(tree) => {
                let id = place_tree(space, alloc, led, None, tree)?;
                ids.push(Some(id))?;
            }
            None => ids.push(None)?,
        }
    }
    Ok(ids)
}

// What a variant of one part holds: the first one.
#[tactic(auto, using(crate::proofs::Arms::first_arm, crate::proofs::Arms::bare_first_arm, crate::proofs::Arms::no_first_arm))]
#[cycle(placing)]
fn place_first<'d>(
    space: &mut EntrySpace,
    alloc: Global,
    led: &Led,
    parts: &Vec<(FieldHead<'d>, Option<Tree<'d>>)>,
) -> Result<TypeId, AllocError>
    ensures { IfOk result (λ i. placed (ids_of led.now) None (first_part (parts_of parts.now.items)) (seen space.old) ≡ (seen space.new, id_view i)) }
{
    let Some(part) = parts.first() else {
        let id = put(space, TypeEntry::Any)?;
        return Ok(id);
    };
    match &part.1 {
        Some(tree) => {
            let id = place_tree(space, alloc, led, None, tree)?;
            Ok(id)
        }
        None => {
            let id = put(space, TypeEntry::Any)?;
            Ok(id)
        }
    }
}

#[cycle(placing)]
fn place_contents<'d>(
    space: &mut EntrySpace,
    alloc: Global,
    led: &Led,
    kind: ContentKind,
    parts: &Vec<(FieldHead<'d>, Option<Tree<'d>>)>,
) -> Result<Content, AllocError>
    ensures { IfOk result (λ c. placed_contents (ids_of led.now) (contents_view kind (parts_of parts.now.items)) (seen space.old) ≡ (seen space.new, content_view c)) }
{
    match kind {
        ContentKind::Unit => Ok(Content::Unit),
        ContentKind::Newtype => {
            let id = place_first(space, alloc, led, parts)?;
            Ok(Content::Newtype(id))
        }
        ContentKind::Tuple => {
            let ids = place_parts(space, alloc, led, parts)?;
            let ids = resolve_ids(alloc, &ids, None)?;
            Ok(Content::Tuple(ids))
        }
        ContentKind::Struct => {
            let ids = place_parts(space, alloc, led, parts)?;
            let ids = resolve_ids(alloc, &ids, None)?;
            let fields = field_entries(alloc, parts, &ids)?;
            Ok(Content::Struct(fields))
        }
    }
}

#[tactic(auto, using(crate::proofs::Finishing::variant_made))]
#[cycle(placing)]
fn place_variant<'d>(
    space: &mut EntrySpace,
    alloc: Global,
    led: &Led,
    tag: &TagRow<'_>,
    head: &VariantHead<'d>,
    parts: &Vec<(FieldHead<'d>, Option<Tree<'d>>)>,
) -> Result<VariantEntry, AllocError>
    ensures { IfOk result (λ w. placed_variant (ids_of led.now) (tag_view tag.now) (head.now, parts_of parts.now.items) (seen space.old) ≡ (seen space.new, variant_view w)) }
{
    let ident = String::from_str(alloc, label_text(&head.label))?;
    let name = String::from_str(alloc, variant_text(tag, &head.label))?;
    let content = place_contents(space, alloc, led, head.kind, parts)?;
    Ok(VariantEntry {
        ident,
        name,
        content,
    })
}

#[tactic(auto, using(crate::proofs::LoopTurns::variants_turn, crate::proofs::LoopTurns::variants_end))]
#[cycle(placing)]
fn place_variants<'d>(
    space: &mut EntrySpace,
    alloc: Global,
    led: &Led,
    tag: &TagRow<'_>,
    variants: &Vec<(VariantHead<'d>, Vec<(FieldHead<'d>, Option<Tree<'d>>)>)>,
) -> Result<Vec<VariantEntry>, AllocError>
    ensures { IfOk result (λ v. placed_variants (ids_of led.now) (variants_view (tag_view tag.now) (map case_seen variants.now.items)) (seen space.old) ≡ (seen space.new, map variant_view v.items)) }
{
    let mut entries = Vec::with_capacity(alloc, variants.len())?;
    for variant in variants {
        let entry = place_variant(space, alloc, led, tag, &variant.0, &variant.1)?;
        entries.push(entry)?;
    }
    Ok(entries)
}
