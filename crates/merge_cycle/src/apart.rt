//! Steps of the floors below, each called at two places. Rattle's own compiler puts a function that is called at one place into its caller, and
//! each level would then hold on the stack what a step needs only while it runs.
ghost use Rattle.std.specs.Prelude.{Bool, IfErr, IfOk, List, OnOk, [], get_or, length, option_map, string_bytes, true, ◌++◌, ◌+◌, ◌<◌, ◌≡◌};
ghost use Rattle.schema_defs.specs.Schema.{Properties, Schema as SchemaOf, boolean, named, no_properties, no_schema};
ghost use Rattle.schema_defs.specs.Walks.{IsGuarded};
ghost use Rattle.schema_types.specs.View.{array_view, lists_of, maybe_list_view, maybe_view, members_view, named_of, object_view, schema_view, schemas_view, subschemas_view};
ghost use Rattle.schema_types.specs.DocumentView.{document_view};
ghost use Rattle.merge_defs.specs.Outcome.{Note, Outcome, and_then, answer, mapped, turned};
ghost use Rattle.merge_defs.specs.Merge.{tidied as tidied_of};
ghost use Rattle.merge_defs.specs.Arrays.{clash_at, two_lists_parts};
ghost use Rattle.merge_defs.specs.Objects.{kept_if, put_property, two_member_rules, two_named};
ghost use Rattle.merge_walks.specs.Walked.{walked_join, walked_less};
ghost use Rattle.merge_walks.specs.Made.{settled as settled_of};
ghost use Rattle.merge_leaves.specs.Sizes.{list_sizes_view, merged_sizes_view};
ghost use Rattle.merge_parts.specs.View.{notes_view};
ghost use Rattle.merge_parts.specs.Steps.{Steps, given};
ghost use Rattle.merge_parts.specs.declared.fault.MergeFault.TheVariants.{Memory};
ghost use Rattle.merge_steps.specs.Ends.{Ends, Goes, Leads};
ghost use Rattle.merge_steps.specs.declared.stop.Stop.TheVariants.{Fault};
ghost use Rattle.merge_apart.specs.View.{parted_view, IsSettled};
ghost use Rattle.merge_lists.specs.Plans.{each_outcome, ending_outcome, list_outcome, maybe_array, merged_view, put_front};
ghost use Rattle.merge_members.specs.Plans.{gathered_outcome, maybe_members, member_outcome, properties_in, unsaid_view};
ghost use Rattle.merge_branches.specs.Parts.{all_listed, any_listed, none_listed, one_listed};
ghost use Rattle.merge_branches.specs.Kept.{fates_from, finish_of, kept_view};
ghost use Rattle.merge_sides.specs.Leaves.{leaves_view};
ghost use Rattle.merge_sides.specs.Met.{body_outcome, met_outcome, referred_outcome, referred_view, walk_or};
ghost use Rattle.merge_less.specs.Taking.{taking_outcome, with_properties as with_properties_of};

use crate::how::{How, Scope};
use crate::outside::keeps_aside;
use merge_apart::Parted;
use merge_branches::{Branch, Kept, SameParts};
use merge_less::Taking;
use merge_lists::{Around, ListPlan, MergedPlaces};
use merge_members::{Frame, Gathered, MemberPlan};
use merge_parts::MergeNote;
use merge_sides::{Leaves, Met, Referred};
use merge_steps::Stop;
use schema_types::{
    ArrayValidation, Document, ObjectValidation, Schema, SchemaObject, Subschemas, Walk,
};
use std::alloc::{AllocError, Global};

/// What is left of the merge of two schemas: each is opened on its walk, which may have so many steps; the left side is met first.
#[inline(never)]
pub(crate) fn meet(
    alloc: Global,
    document: &Document,
    most: usize,
    notes: &mut Vec<MergeNote>,
    first: &Schema,
    second: &Schema,
) -> Result<Met, Stop>
    ensures { (join less : SchemaOf → SchemaOf → Outcome SchemaOf) → Goes (met_outcome (document_view document.now) join less) (notes_view notes.old.items) (notes_view notes.new.items) (walked_join (document_view document.now) most join less (schema_view first.now) (schema_view second.now)) result }
{
    if most == 0 {
        merge_sides::meet(alloc, document, most, notes, first, second)
    } else {
        merge_sides::meet(alloc, document, most, notes, first, second)
    }
}

/// What the merge of a reference's target with the other side is answered as: the reference, where the merge is roughly its target.
#[inline(never)]
pub(crate) fn stand_for(
    alloc: Global,
    document: &Document,
    notes: &mut Vec<MergeNote>,
    referred: Referred,
    merge: Schema,
) -> Result<Schema, Stop>
    ensures { Ends schema_view (notes_view notes.old.items) (notes_view notes.new.items) (referred_outcome (document_view document.now) (referred_view referred) (schema_view merge)) result }
{
    if notes.is_empty() {
        merge_sides::stand_for(alloc, document, notes, referred, merge)
    } else {
        merge_sides::stand_for(alloc, document, notes, referred, merge)
    }
}

/// The object of merged leaves, lists and members, with the values that both sides list, or never.
#[inline(never)]
pub(crate) fn body_of(
    alloc: Global,
    leaves: Leaves,
    array: Option<ArrayValidation>,
    members: Option<ObjectValidation>,
) -> Result<Schema, Stop>
    ensures { (ns : List Note) → Ends schema_view ns ns (body_outcome (leaves_view leaves) (lists_of (option_map array_view array)) (named_of (option_map members_view members))) result }
{
    if array.is_none() {
        merge_sides::body_of(alloc, leaves, array, members)
    } else {
        merge_sides::body_of(alloc, leaves, array, members)
    }
}

/// The merge of two objects once the subschemas of both are in it: tidied, and settled on the walk.
#[inline(never)]
pub(crate) fn finished(
    alloc: Global,
    walk: &Option<Walk>,
    body: Schema,
) -> Result<Schema, AllocError>
    ensures { IfOk result (λ s. schema_view s ≡ walk_or settled_of walk.now (tidied_of (schema_view body))) }
{
    if walk.is_none() {
        merge_sides::finished(alloc, walk, body)
    } else {
        merge_sides::finished(alloc, walk, body)
    }
}

/// What is left to merge of the keywords of lists of two sides, where `is_array` says that the merged type is array; where one side alone
/// has some, nothing.
#[inline(never)]
pub(crate) fn two_lists(
    alloc: Global,
    notes: &mut Vec<MergeNote>,
    is_array: bool,
    first: Option<ArrayValidation>,
    second: Option<ArrayValidation>,
) -> Result<ListPlan, Stop>
    ensures { (join : SchemaOf → SchemaOf → Outcome SchemaOf) → Goes (list_outcome join) (notes_view notes.old.items) (notes_view notes.new.items) (two_lists_parts join is_array (maybe_array first) (maybe_array second)) result }
{
    if is_array {
        merge_lists::two_lists(alloc, notes, is_array, first, second)
    } else {
        merge_lists::two_lists(alloc, notes, is_array, first, second)
    }
}

/// What is made of the merge of one schema for each item; never, unless the empty list is refused.
#[inline(never)]
pub(crate) fn each_front(
    alloc: Global,
    notes: &mut Vec<MergeNote>,
    around: Around,
    found: Option<Schema>,
) -> Result<Option<ArrayValidation>, Stop>
    ensures { (join : SchemaOf → SchemaOf → Outcome SchemaOf) → Ends maybe_array (notes_view notes.old.items) (notes_view notes.new.items) (each_outcome join around (given [] (option_map schema_view found))) result }
{
    if found.is_none() {
        merge_lists::each_front(alloc, notes, around, found)
    } else {
        merge_lists::each_front(alloc, notes, around, found)
    }
}

/// What is made of merged items, and of the merge of what binds the rest, where they go on.
#[inline(never)]
pub(crate) fn ended(
    alloc: Global,
    notes: &mut Vec<MergeNote>,
    around: Around,
    is_placed: bool,
    merged: MergedPlaces,
    found: Option<Schema>,
) -> Result<Option<ArrayValidation>, Stop>
    ensures { (join : SchemaOf → SchemaOf → Outcome SchemaOf) → Ends maybe_array (notes_view notes.old.items) (notes_view notes.new.items) (ending_outcome join around is_placed (given [] (option_map schema_view found)) (merged_view merged)) result }
{
    if is_placed {
        merge_lists::ended(alloc, notes, around, is_placed, merged, found)
    } else {
        merge_lists::ended(alloc, notes, around, is_placed, merged, found)
    }
}

/// The items before the place of two that clash, or never where more must be there.
#[inline(never)]
pub(crate) fn clashed(
    notes: &mut Vec<MergeNote>,
    around: &Around,
    items: Vec<Schema>,
) -> Result<MergedPlaces, Stop>
    ensures { (join : SchemaOf → SchemaOf → Outcome SchemaOf) → Ends merged_view (notes_view notes.old.items) (notes_view notes.new.items) (mapped (put_front (schemas_view items.items)) (clash_at join around.now.is_array (list_sizes_view around.now.sizes) (length items.items))) result }
{
    if items.is_empty() {
        merge_lists::clashed(notes, around, items)
    } else {
        merge_lists::clashed(notes, around, items)
    }
}

/// What is left to merge of the keywords of members of two sides, where `has_nulls` says that null may stand for an absent member, and
/// `is_object` that the merged type is object; where one side alone has some, nothing.
#[inline(never)]
pub(crate) fn two_members(
    alloc: Global,
    notes: &mut Vec<MergeNote>,
    has_nulls: bool,
    is_object: bool,
    first: Option<ObjectValidation>,
    second: Option<ObjectValidation>,
) -> Result<MemberPlan, Stop>
    ensures { (join : SchemaOf → SchemaOf → Outcome SchemaOf) → Goes (member_outcome join) (notes_view notes.old.items) (notes_view notes.new.items) (two_named join has_nulls is_object (maybe_members first) (maybe_members second)) result }
{
    if is_object {
        merge_members::two_members(alloc, notes, has_nulls, is_object, first, second)
    } else {
        merge_members::two_members(alloc, notes, has_nulls, is_object, first, second)
    }
}

/// The keywords of members, made of what binds the rest and of the properties, absent where none is left.
#[inline(never)]
pub(crate) fn made_members(
    alloc: Global,
    notes: &mut Vec<MergeNote>,
    frame: Frame,
    rest: Option<Box<Schema>>,
    gathered: Gathered,
) -> Result<Option<ObjectValidation>, Stop>
    ensures { Ends maybe_members (notes_view notes.old.items) (notes_view notes.new.items) (mapped (kept_if frame.is_dropped) (and_then (gathered_outcome frame.is_object gathered.clashes (properties_in gathered) (answer [] no_properties)) (λ props. mapped (λ rules. named props no_properties (maybe_view rest) no_schema rules) (two_member_rules frame.is_object (merged_sizes_view frame.sizes) (merged_sizes_view frame.others))))) result }
{
    if rest.is_none() {
        merge_members::made_members(alloc, notes, frame, rest, gathered)
    } else {
        merge_members::made_members(alloc, notes, frame, rest, gathered)
    }
}

/// What is made of the schema that binds a name: the name is left out, has the schema, or is such that nothing is admitted. `is_closed`
/// says that names without a property are refused.
#[inline(never)]
pub(crate) fn gather(
    notes: &mut Vec<MergeNote>,
    gathered: &mut Gathered,
    is_closed: bool,
    is_needed: bool,
    is_unsaid: bool,
    name: String,
    schema: Schema,
) -> Result<(), Stop>
    ensures gathered { OnOk result ((object_type : Bool) (after : Outcome Properties) → Leads (notes_view notes.old.items) (notes_view notes.new.items) (gathered_outcome object_type gathered.old.clashes (properties_in gathered.old) (put_property object_type is_needed is_closed (unsaid_view is_unsaid) (string_bytes name) (schema_view schema) after)) (gathered_outcome object_type gathered.new.clashes (properties_in gathered.new) after)) }
    ensures memory { IfErr result (λ e. e ≡ Fault Memory) }
{
    if is_closed {
        let unit = merge_members::gather(
            notes, gathered, is_closed, is_needed, is_unsaid, name, schema,
        )?;
        Ok(unit)
    } else {
        let unit = merge_members::gather(
            notes, gathered, is_closed, is_needed, is_unsaid, name, schema,
        )?;
        Ok(unit)
    }
}

/// The parts of subschemas.
#[inline(never)]
pub(crate) fn parts_of(alloc: Global, same: Subschemas) -> Result<SameParts, AllocError>
    ensures all { IfOk result (λ p. schemas_view p.all.items ≡ all_listed (subschemas_view same)) }
    ensures none { IfOk result (λ p. schemas_view p.none.items ≡ none_listed (subschemas_view same)) }
    ensures any { IfOk result (λ p. maybe_list_view (option_map (λ v. v.items) p.any) ≡ any_listed (subschemas_view same)) }
    ensures one { IfOk result (λ p. maybe_list_view (option_map (λ v. v.items) p.one) ≡ one_listed (subschemas_view same)) }
{
    if same.conditional {
        merge_branches::parts_of(alloc, same)
    } else {
        merge_branches::parts_of(alloc, same)
    }
}

/// One member more: `found` is its merge with the body, and `told` are the notes of that merge alone.
#[inline(never)]
pub(crate) fn judge(
    alloc: Global,
    notes: &mut Vec<MergeNote>,
    told: &Vec<MergeNote>,
    kept: &mut Kept,
    body: &Schema,
    members: &Vec<Schema>,
    place: usize,
    found: Option<Schema>,
) -> Result<(), AllocError>
    requires { place < length members.now.items }
    ensures { OnOk result ((join : SchemaOf → SchemaOf → Outcome SchemaOf) → Steps [] (notes_view told.now.items) (join (schema_view body.now) (get_or (schemas_view members.now.items) place (boolean true))) (option_map schema_view found) → Leads (notes_view notes.old.items) (notes_view notes.new.items) (fates_from join (schema_view body.now) (schemas_view members.now.items) place (kept_view kept.old)) (fates_from join (schema_view body.now) (schemas_view members.now.items) (place + 1) (kept_view kept.new))) }
{
    if place == 0 {
        let unit = merge_branches::judge(alloc, notes, told, kept, body, members, place, found)?;
        Ok(unit)
    } else {
        let unit = merge_branches::judge(alloc, notes, told, kept, body, members, place, found)?;
        Ok(unit)
    }
}

/// None of the members that are left is never, one is that, and more are `anyOf` or `oneOf` of all.
#[inline(never)]
pub(crate) fn finish(
    alloc: Global,
    document: &Document,
    notes: &mut Vec<MergeNote>,
    branch: Branch,
    kept: Kept,
    members: &Vec<Schema>,
) -> Result<Schema, Stop>
    requires { IsGuarded (document_view document.now) }
    ensures { Ends schema_view (notes_view notes.old.items) (notes_view notes.new.items) (finish_of (document_view document.now) branch (schemas_view members.now.items) (kept_view kept)) result }
{
    if members.is_empty() {
        merge_branches::finish(alloc, document, notes, branch, kept, members)
    } else {
        merge_branches::finish(alloc, document, notes, branch, kept, members)
    }
}

/// What is left where the second schema is taken away from the first: each is opened on its walk, which may have so many steps; the left side
/// is met first.
#[inline(never)]
pub(crate) fn meet_less(
    alloc: Global,
    document: &Document,
    most: usize,
    notes: &mut Vec<MergeNote>,
    first: &Schema,
    second: &Schema,
) -> Result<Taking, Stop>
    requires { IsGuarded (document_view document.now) }
    ensures { (join less : SchemaOf → SchemaOf → Outcome SchemaOf) → Goes (taking_outcome join less) (notes_view notes.old.items) (notes_view notes.new.items) (walked_less (document_view document.now) most join less (schema_view first.now) (schema_view second.now)) result }
{
    if most == 0 {
        merge_less::meet_less(alloc, document, most, notes, first, second)
    } else {
        merge_less::meet_less(alloc, document, most, notes, first, second)
    }
}

/// The object with the properties that are left, or never where one that is required is `false`.
#[inline(never)]
pub(crate) fn left_of(
    alloc: Global,
    notes: &mut Vec<MergeNote>,
    object: SchemaObject,
    gathered: Gathered,
) -> Result<Schema, Stop>
    ensures { Ends schema_view (notes_view notes.old.items) (notes_view notes.new.items) (mapped (with_properties_of (object_view object)) (gathered_outcome true gathered.clashes (properties_in gathered) (answer [] no_properties))) result }
{
    if gathered.clashes {
        merge_less::left_of(alloc, notes, object, gathered)
    } else {
        merge_less::left_of(alloc, notes, object, gathered)
    }
}

/// The notes of a merge that is taken away, behind those before it: what it admits less, the rest admits more.
#[inline(never)]
pub(crate) fn add_turned(
    notes: &mut Vec<MergeNote>,
    more: &Vec<MergeNote>,
) -> Result<(), AllocError>
    ensures { OnOk result (notes_view notes.new.items ≡ notes_view notes.old.items ++ turned (notes_view more.now.items)) }
{
    if more.is_empty() {
        let unit = merge_parts::add_turned(notes, more)?;
        Ok(unit)
    } else {
        let unit = merge_parts::add_turned(notes, more)?;
        Ok(unit)
    }
}

/// Where they are merged, what the other schema doesn't name goes aside, as far as it may; else all stays.
#[inline(never)]
pub(crate) fn set_apart(
    scope: &Scope<'_>,
    how: How,
    parted: Parted,
    other: &Schema,
) -> Result<Parted, AllocError>
    ensures whole { IfOk result (λ p. parted_view p ≡ parted_view parted) }
    ensures settled { IsSettled parted.aside → IfOk result (λ p. IsSettled p.aside) }
{
    if !keeps_aside(scope, how) {
        return Ok(parted);
    }
    if parted.aside.required.is_empty() {
        merge_apart::set_apart(scope.alloc, parted, other)
    } else {
        merge_apart::set_apart(scope.alloc, parted, other)
    }
}
