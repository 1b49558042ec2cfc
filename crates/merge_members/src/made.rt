//! The keywords of members, made of what was merged.
ghost use Rattle.std.specs.Prelude.{◌≡◌, [], false, option_map};
ghost use Rattle.schema_defs.specs.Schema.{boolean, named, no_properties, no_schema};
ghost use Rattle.schema_types.specs.View.{maybe_view, members_view, properties_view, schema_view};
ghost use Rattle.merge_defs.specs.Outcome.{and_then, answer, mapped, or_else};
ghost use Rattle.merge_defs.specs.Objects.{kept_if, two_member_rules};
ghost use Rattle.merge_leaves.specs.Sizes.{merged_sizes_view};
ghost use Rattle.merge_parts.specs.View.{notes_view};
ghost use Rattle.merge_parts.specs.Steps.{given};
ghost use Rattle.merge_steps.specs.Ends.{Ends};
ghost use Rattle.merge_members.specs.Plans.{gathered_outcome, maybe_members, properties_in};

use crate::gathered::{Gathered, all_gathered};
use crate::plan::Frame;
use merge_leaves::{MemberSizes, MergedSizes, kept_named, two_member_sizes};
use merge_parts::MergeNote;
use merge_steps::{Stop, answered};
use schema_types::{ObjectValidation, Schema};
use std::alloc::Global;
use std::collections::BTreeMap;

/// What was merged, and `false` for never.
pub fn or_false(found: Option<Schema>) -> Schema
    ensures { or_else (boolean false) (given [] (option_map schema_view found)) ≡ answer [] (schema_view result) }
{
    match found {
        Some(schema) => schema,
        None => Schema::Bool(false),
    }
}

fn object_of(
    alloc: Global,
    sizes: MergedSizes,
    properties: BTreeMap<String, Schema>,
    rest: Option<Box<Schema>>,
) -> ObjectValidation
    ensures { members_view result ≡ named (properties_view properties.entries) no_properties (maybe_view rest) no_schema (merged_sizes_view sizes) }
{
    let MergedSizes {
        max_properties,
        min_properties,
        required,
    } = sizes;
    ObjectValidation {
        max_properties,
        min_properties,
        required,
        properties,
        pattern_properties: BTreeMap::new(alloc),
        additional_properties: rest,
        property_names: None,
    }
}

fn kept(is_dropped: bool, members: ObjectValidation) -> Option<ObjectValidation>
    ensures { maybe_members result ≡ kept_if is_dropped (members_view members) }
{
    if is_dropped {
        kept_named(members)
    } else {
        Some(members)
    }
}

#[tactic(auto, using(merge_steps::proofs::Ending::answered_ends, merge_steps::proofs::Ending::memory))]
fn two_sizes(alloc: Global, notes: &mut Vec<MergeNote>, frame: &Frame) -> Result<MergedSizes, Stop>
    ensures { Ends merged_sizes_view (notes_view notes.old.items) (notes_view notes.new.items) (two_member_rules frame.now.is_object (merged_sizes_view frame.now.sizes) (merged_sizes_view frame.now.others)) result }
{
    let first = MemberSizes {
        max_properties: frame.sizes.max_properties,
        min_properties: frame.sizes.min_properties,
        required: &frame.sizes.required,
    };
    let second = MemberSizes {
        max_properties: frame.others.max_properties,
        min_properties: frame.others.min_properties,
        required: &frame.others.required,
    };
    let found = two_member_sizes(alloc, notes, frame.is_object, &first, &second)?;
    answered(found)
}

/// The keywords of members, made of what binds the rest and of the properties, absent where none is left.
pub fn made_members(
    alloc: Global,
    notes: &mut Vec<MergeNote>,
    frame: Frame,
    rest: Option<Box<Schema>>,
    gathered: Gathered,
) -> Result<Option<ObjectValidation>, Stop>
    ensures { Ends maybe_members (notes_view notes.old.items) (notes_view notes.new.items) (mapped (kept_if frame.is_dropped) (and_then (gathered_outcome frame.is_object gathered.clashes (properties_in gathered) (answer [] no_properties)) (λ props. mapped (λ rules. named props no_properties (maybe_view rest) no_schema rules) (two_member_rules frame.is_object (merged_sizes_view frame.sizes) (merged_sizes_view frame.others))))) result }
{
    let properties = all_gathered(notes, frame.is_object, gathered)?;
    let sizes = two_sizes(alloc, notes, &frame)?;
    let members = object_of(alloc, sizes, properties, rest);
    Ok(kept(frame.is_dropped, members))
}
