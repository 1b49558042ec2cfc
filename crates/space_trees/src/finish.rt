//! Items that are filled once their parts have ids.
ghost use Rattle.std.specs.Prelude.{◌≡◌, ◌++◌, IfOk, OnOk, map, option_map};
ghost use Rattle.entry_defs.specs.Space.{struct_shape_at, enum_shape_at};
ghost use Rattle.entry_types.specs.View.{id_view, state_view as state_seen, field_view, variant_view};
ghost use Rattle.entry_space.specs.Seen.{seen};
ghost use Rattle.row_findings.specs.View.{tag_view};
ghost use Rattle.tree_types.specs.View.{tree_view, parts_of};
ghost use Rattle.space_trees.specs.Placed.{rest_or_first, rest_given};
ghost use Rattle.space_trees.specs.Parts.{part_seen, part_state, resolved, times, field_at, fields_at, struct_given, struct_filled, wrap_opened, wrap_closed};

use crate::copies::{copy_rules, copy_state, copy_tag, label_text};
use crate::entering::{open_at, put};
use entry_space::{EntrySpace, FieldEntry, ItemShape, State, TypeEntry, TypeId, VariantEntry};
use row_findings::TagRow;
use std::alloc::{AllocError, Global};
use tree_types::{FieldHead, Tree, Wrap};

// The id so many times more.
#[tactic(auto, using(crate::proofs::PartSteps::one_more_time))]
fn push_times(ids: &mut Vec<TypeId>, count: usize, id: TypeId) -> Result<(), AllocError>
    ensures { OnOk result (map id_view ids.new.items ≡ map id_view ids.old.items ++ times count (id_view id)) }
{
    for turn in 0..count {
        let _ = turn;
        ids.push(id)?;
    }
    Ok(())
}

fn id_or_first(id: Option<TypeId>) -> TypeId
    ensures { id_view result ≡ rest_or_first (option_map id_view id) }
{
    match id {
        Some(id) => id,
        None => TypeId(0),
    }
}

/// The ids of all parts, where some have that of the next one, or of the rest.
#[tactic(auto, using(crate::proofs::PartSteps::waits_on, crate::proofs::PartSteps::waits_for, crate::proofs::PartSteps::waits_end))]
pub(crate) fn resolve_ids(
    alloc: Global,
    ids: &Vec<Option<TypeId>>,
    rest: Option<TypeId>,
) -> Result<Vec<TypeId>, AllocError>
    ensures { IfOk result (λ v. map id_view v.items ≡ resolved (map (option_map id_view) ids.now.items) (option_map id_view rest)) }
{
    let last = id_or_first(rest);
    let mut resolved = Vec::with_capacity(alloc, ids.len())?;
    let mut waiting: usize = 0;
    for id in ids {
        waiting += 1;
        if let Some(id) = id {
            push_times(&mut resolved, waiting, *id)?;
            waiting = 0;
        }
    }
    push_times(&mut resolved, waiting, last)?;
    Ok(resolved)
}

fn part_state(part: &(FieldHead<'_>, Option<Tree<'_>>)) -> Result<State, AllocError>
    ensures { IfOk result (λ s. state_seen s ≡ part_state part.now.0 (option_map tree_view part.now.1)) }
{
    match &part.1 {
        Some(_) => {
            let state = copy_state(&part.0.state)?;
            Ok(state)
        }
        None => Ok(State::Required),
    }
}

#[tactic(auto, using(crate::proofs::Finishing::field_made))]
fn field_entry(
    alloc: Global,
    part: &(FieldHead<'_>, Option<Tree<'_>>),
    id: TypeId,
) -> Result<FieldEntry, AllocError>
    ensures { IfOk result (λ f. field_view f ≡ field_at (part_seen part.now) (id_view id)) }
{
    let ident = String::from_str(alloc, label_text(&part.0.label))?;
    let name = String::from_str(alloc, part.0.label.wanted)?;
    let state = part_state(part)?;
    Ok(FieldEntry {
        ident,
        name,
        ty: id,
        state,
    })
}

/// Fields of those ids.
#[tactic(auto, using(crate::proofs::LoopTurns::fields_turn, crate::proofs::LoopTurns::fields_end, crate::proofs::LoopTurns::fields_short))]
pub(crate) fn field_entries<'d>(
    alloc: Global,
    parts: &Vec<(FieldHead<'d>, Option<Tree<'d>>)>,
    ids: &Vec<TypeId>,
) -> Result<Vec<FieldEntry>, AllocError>
    ensures { IfOk result (λ v. map field_view v.items ≡ fields_at (parts_of parts.now.items) (map id_view ids.now.items)) }
{
    let mut fields = Vec::with_capacity(alloc, ids.len())?;
    let mut left = ids.as_slice();
    for part in parts {
        let Some((id, rest)) = left.split_first() else {
            return Ok(fields);
        };
        let field = field_entry(alloc, part, *id)?;
        fields.push(field)?;
        left = rest;
    }
    Ok(fields)
}

/// Makes a struct of the item.
#[tactic(auto, using(crate::proofs::Finishing::struct_made))]
pub(crate) fn fill_struct<'d>(
    space: &mut EntrySpace,
    alloc: Global,
    id: TypeId,
    closed: bool,
    parts: &Vec<(FieldHead<'d>, Option<Tree<'d>>)>,
    ids: Vec<Option<TypeId>>,
    rest: Option<TypeId>,
) -> Result<TypeId, AllocError>
    ensures { IfOk result (λ i. struct_filled (id_view id) (seen space.old) (struct_shape_at closed (struct_given (parts_of parts.now.items) (map (option_map id_view) ids.items) (option_map id_view rest)) (rest_given (struct_given (parts_of parts.now.items) (map (option_map id_view) ids.items) (option_map id_view rest)) (option_map id_view rest))) ≡ (seen space.new, id_view i)) }
{
    let ids = resolve_ids(alloc, &ids, rest)?;
    let fields = field_entries(alloc, parts, &ids)?;
    space.fill(
        id,
        ItemShape::Struct {
            fields,
            closed,
            rest,
        },
    );
    Ok(id)
}

/// Makes an enum of the item.
#[tactic(auto, using(crate::proofs::Finishing::enum_made))]
pub(crate) fn fill_enum(
    space: &mut EntrySpace,
    alloc: Global,
    id: TypeId,
    closed: bool,
    tag: &TagRow<'_>,
    variants: Vec<VariantEntry>,
) -> Result<TypeId, AllocError>
    ensures { IfOk result (λ i. struct_filled (id_view id) (seen space.old) (enum_shape_at closed (tag_view tag.now) (map variant_view variants.items)) ≡ (seen space.new, id_view i)) }
{
    let tag = copy_tag(alloc, tag)?;
    space.fill(
        id,
        ItemShape::Enum {
            tag,
            variants,
            closed,
        },
    );
    Ok(id)
}

/// Opens the item that is made of one part, where an item is.
#[tactic(auto, using(crate::proofs::Finishing::wrap_open))]
pub(crate) fn open_wrap(
    space: &mut EntrySpace,
    alloc: Global,
    at: Option<TypeId>,
    wrap: &Wrap<'_>,
) -> Result<Option<TypeId>, AllocError>
    ensures { IfOk result (λ o. wrap_opened (option_map id_view at) wrap.now (seen space.old) ≡ (seen space.new, option_map id_view o)) }
{
    match wrap {
        Wrap::Option => Ok(None),
        Wrap::Vec => Ok(None),
        Wrap::Set => Ok(None),
        Wrap::Array(_) => Ok(None),
        Wrap::Newtype { name, .. } => {
            let id = open_at(space, alloc, at, label_text(name))?;
            Ok(Some(id))
        }
    }
}

/// What is made of the part of that id.
#[tactic(auto, using(crate::proofs::Finishing::newtype_closed))]
pub(crate) fn close_wrap(
    space: &mut EntrySpace,
    alloc: Global,
    wrap: &Wrap<'_>,
    opened: Option<TypeId>,
    part: TypeId,
) -> Result<TypeId, AllocError>
    ensures { IfOk result (λ i. wrap_closed wrap.now (option_map id_view opened) (id_view part) (seen space.old) ≡ (seen space.new, id_view i)) }
{
    match wrap {
        Wrap::Option => {
            let id = put(space, TypeEntry::Option(part))?;
            Ok(id)
        }
        Wrap::Vec => {
            let id = put(space, TypeEntry::Vec(part))?;
            Ok(id)
        }
        Wrap::Set => {
            let id = put(space, TypeEntry::Set(part))?;
            Ok(id)
        }
        Wrap::Array(places) => {
            let id = put(space, TypeEntry::Array(part, *places))?;
            Ok(id)
        }
        Wrap::Newtype { rule, .. } => {
            let rule = copy_rules(alloc, rule)?;
            let id = id_or_first(opened);
            space.fill(id, ItemShape::Newtype { inner: part, rule });
            Ok(id)
        }
    }
}
