//! The cycle of calls: a merge asks for merges of its parts, and so does a subtraction.
ghost use Rattle.std.specs.Prelude.{[], Bool, IfOk, option_map};
ghost use Rattle.schema_defs.specs.Schema.{no_properties, schemas};
ghost use Rattle.schema_defs.specs.Walks.{IsGuarded};
ghost use Rattle.schema_types.specs.View.{maybe_list_view, maybe_view, same_of, schema_view, schemas_view, subschemas_view};
ghost use Rattle.merge_defs.specs.Outcome.{answer};
ghost use Rattle.merge_defs.specs.Arrays.{two_lists_parts};
ghost use Rattle.merge_defs.specs.Objects.{two_named};
ghost use Rattle.merge_defs.specs.Members.{fates as fates_of, with_same as with_same_of};
ghost use Rattle.merge_parts.specs.View.{notes_view};
ghost use Rattle.merge_steps.specs.Ends.{Ends, Goes};
ghost use Rattle.merge_apart.specs.View.{parted_view, IsSettled};
ghost use Rattle.merge_lists.specs.Plans.{each_outcome, list_outcome, maybe_array, merged_view, pairs_outcome, pairs_view};
ghost use Rattle.merge_lists.specs.declared.plan.ListPlan.TheVariants.{ByPlace};
ghost use Rattle.merge_members.specs.Plans.{bound_outcome, entries_then, gathered_outcome, maybe_members, member_outcome, members_outcome, properties_in, rest_outcome};
ghost use Rattle.merge_branches.specs.Kept.{branches_outcome, kept_view};
ghost use Rattle.merge_sides.specs.Met.{asked_outcome, bodies_outcome, met_outcome};
ghost use Rattle.merge_less.specs.Taking.{less_all_outcome, less_listed_outcome, taken_outcome, taking_outcome};
ghost use Rattle.merge_cycle.specs.declared.how.How.TheVariants.{Join, Less};
ghost use Rattle.merge_cycle.specs.Finds.{Finds};
ghost use Rattle.merge_cycle.specs.Within.{asked_in, document_in, folded, join_in, less_in};

use crate::apart::{
    add_turned, body_of, clashed, each_front, ended, finish, finished, gather, judge, left_of,
    made_members, meet, meet_less, parts_of, set_apart, stand_for, two_lists, two_members,
};
use crate::how::{How, Scope};
use crate::outside::{boxed, merges_beside, too_few, used_up};
use merge_apart::{Parted, unparted, whole};
use merge_branches::{Branch, Kept, SameParts, none_kept};
use merge_less::{Listed, Taken, Taking};
use merge_lists::{Around, ListPlan, MergedPlaces, Pair, Places, at_end, goes_on, is_full};
use merge_members::{
    Bound, Entry, Gathered, MemberPlan, Members, RestPlan, no_rest, none_gathered, or_false,
};
use merge_parts::MergeNote;
use merge_sides::{Asked, Bodies, Met, part_on};
use merge_steps::{Stop, or_never};
use schema_types::{ArrayValidation, ObjectValidation, Schema, Subschemas, Walk};

// ---- two schemas

// The merge of two schemas, where so many levels are left.
#[cycle(merge)]
pub(crate) fn join(
    scope: &Scope<'_>,
    notes: &mut Vec<MergeNote>,
    left: usize,
    first: Schema,
    second: Schema,
) -> Result<Schema, Stop>
    requires { IsGuarded (document_in scope.now) }
    ensures { Ends schema_view (notes_view notes.old.items) (notes_view notes.new.items) (join_in scope.now left (schema_view first) (schema_view second)) result }
{
    if left == 0 {
        return too_few(scope.alloc);
    }
    if !scope.budget.spend(&first, &second) {
        return used_up();
    }
    let met = meet(
        scope.alloc,
        scope.document,
        scope.most,
        notes,
        &first,
        &second,
    )?;
    join_met(scope, notes, left - 1, met)
}

// What is left once both sides are met.
#[cycle(merge)]
fn join_met(
    scope: &Scope<'_>,
    notes: &mut Vec<MergeNote>,
    left: usize,
    met: Met,
) -> Result<Schema, Stop>
    requires { IsGuarded (document_in scope.now) }
    ensures { Ends schema_view (notes_view notes.old.items) (notes_view notes.new.items) (met_outcome (document_in scope.now) (join_in scope.now left) (less_in scope.now left) met) result }
{
    match met {
        Met::Told(schema) => Ok(schema),
        Met::Target(asked) => join_target(scope, notes, left, asked),
        Met::Objects(bodies) => join_bodies(scope, notes, left, bodies),
    }
}

// A reference's target with the other side.
#[cycle(merge)]
fn join_target(
    scope: &Scope<'_>,
    notes: &mut Vec<MergeNote>,
    left: usize,
    asked: Asked,
) -> Result<Schema, Stop>
    requires { IsGuarded (document_in scope.now) }
    ensures { Ends schema_view (notes_view notes.old.items) (notes_view notes.new.items) (asked_outcome (document_in scope.now) (join_in scope.now left) (less_in scope.now left) asked) result }
{
    let Asked {
        target,
        other,
        rest,
    } = asked;
    let merge = join(scope, notes, left, target, other)?;
    stand_for(scope.alloc, scope.document, notes, rest, merge)
}

// Two objects without references, whose leaves are merged.
#[cycle(merge)]
fn join_bodies(
    scope: &Scope<'_>,
    notes: &mut Vec<MergeNote>,
    left: usize,
    bodies: Bodies,
) -> Result<Schema, Stop>
    requires { IsGuarded (document_in scope.now) }
    ensures { Ends schema_view (notes_view notes.old.items) (notes_view notes.new.items) (bodies_outcome (document_in scope.now) (join_in scope.now left) (less_in scope.now left) bodies) result }
{
    let Bodies {
        walk,
        is_array,
        is_object,
        has_nulls,
        leaves,
        array,
        other_array,
        members,
        other_members,
        subschemas,
        other_subschemas,
    } = bodies;
    let walk = Some(walk);
    let array = join_arrays(scope, notes, left, &walk, is_array, array, other_array)?;
    let members = join_members(
        scope,
        notes,
        left,
        &walk,
        has_nulls,
        is_object,
        members,
        other_members,
    )?;
    let body = body_of(scope.alloc, leaves, array, members)?;
    let body = with_same(scope, notes, left, &walk, body, subschemas)?;
    let body = with_same(scope, notes, left, &walk, body, other_subschemas)?;
    let schema = finished(scope.alloc, &walk, body)?;
    Ok(schema)
}

// Two parts, either of which may have been made on the way.
#[cycle(merge)]
fn ask(
    scope: &Scope<'_>,
    notes: &mut Vec<MergeNote>,
    left: usize,
    walk: &Option<Walk>,
    how: How,
    first: Schema,
    second: Schema,
) -> Result<Schema, Stop>
    requires { IsGuarded (document_in scope.now) }
    ensures { Ends schema_view (notes_view notes.old.items) (notes_view notes.new.items) (asked_in scope.now left walk.now how (schema_view first) (schema_view second)) result }
{
    let first = part_on(scope.alloc, walk, first)?;
    let second = part_on(scope.alloc, walk, second)?;
    match how {
        How::Join => join(scope, notes, left, first, second),
        How::Less => less(scope, notes, left, first, second),
    }
}

// Two parts, where never is nothing.
#[cycle(merge)]
fn find(
    scope: &Scope<'_>,
    notes: &mut Vec<MergeNote>,
    left: usize,
    walk: &Option<Walk>,
    how: How,
    first: Schema,
    second: Schema,
) -> Result<Option<Schema>, Stop>
    requires { IsGuarded (document_in scope.now) }
    ensures { Finds (notes_view notes.old.items) (notes_view notes.new.items) (asked_in scope.now left walk.now how (schema_view first) (schema_view second)) result }
{
    or_never(ask(scope, notes, left, walk, how, first, second))
}

// One more of several that come one after another. What it doesn't name stands aside, where it may.
#[cycle(merge)]
fn fold_one(
    scope: &Scope<'_>,
    notes: &mut Vec<MergeNote>,
    left: usize,
    walk: &Option<Walk>,
    how: How,
    parted: Parted,
    schema: Schema,
) -> Result<Parted, Stop>
    requires guarded { IsGuarded (document_in scope.now) }
    requires settled { IsSettled parted.aside }
    ensures ends { Ends parted_view (notes_view notes.old.items) (notes_view notes.new.items) (asked_in scope.now left walk.now how (parted_view parted) (schema_view schema)) result }
    ensures stays { IfOk result (λ p. IsSettled p.aside) }
{
    let parted = set_apart(scope, how, parted, &schema)?;
    if merges_beside(scope, how, &parted, &schema) {
        let Parted { body, aside } = parted;
        let body = ask(scope, notes, left, walk, how, body, schema)?;
        return Ok(Parted { body, aside });
    }
    let body = whole(parted)?;
    let body = ask(scope, notes, left, walk, how, body, schema)?;
    Ok(unparted(scope.alloc, body))
}

// One after another.
#[cycle(merge)]
pub(crate) fn fold(
    scope: &Scope<'_>,
    notes: &mut Vec<MergeNote>,
    left: usize,
    walk: &Option<Walk>,
    how: How,
    body: Schema,
    list: Vec<Schema>,
) -> Result<Schema, Stop>
    requires { IsGuarded (document_in scope.now) }
    ensures { Ends schema_view (notes_view notes.old.items) (notes_view notes.new.items) (folded (asked_in scope.now left walk.now how) (schemas (schemas_view list.items)) (schema_view body)) result }
{
    let mut parted = unparted(scope.alloc, body);
    for schema in list {
        parted = fold_one(scope, notes, left, walk, how, parted, schema)?;
    }
    let body = whole(parted)?;
    Ok(body)
}

// ---- lists

#[cycle(merge)]
fn join_arrays(
    scope: &Scope<'_>,
    notes: &mut Vec<MergeNote>,
    left: usize,
    walk: &Option<Walk>,
    is_array: bool,
    first: Option<ArrayValidation>,
    second: Option<ArrayValidation>,
) -> Result<Option<ArrayValidation>, Stop>
    requires { IsGuarded (document_in scope.now) }
    ensures { Ends maybe_array (notes_view notes.old.items) (notes_view notes.new.items) (two_lists_parts (asked_in scope.now left walk.now Join) is_array (maybe_array first) (maybe_array second)) result }
{
    let plan = two_lists(scope.alloc, notes, is_array, first, second)?;
    join_lists(scope, notes, left, walk, plan)
}

#[cycle(merge)]
fn join_lists(
    scope: &Scope<'_>,
    notes: &mut Vec<MergeNote>,
    left: usize,
    walk: &Option<Walk>,
    plan: ListPlan,
) -> Result<Option<ArrayValidation>, Stop>
    requires { IsGuarded (document_in scope.now) }
    ensures { Ends maybe_array (notes_view notes.old.items) (notes_view notes.new.items) (list_outcome (asked_in scope.now left walk.now Join) plan) result }
{
    match plan {
        ListPlan::Told(array) => Ok(array),
        ListPlan::Each(pair, around) => join_each(scope, notes, left, walk, pair, around),
        ListPlan::ByPlace(places) => join_places(scope, notes, left, walk, places),
    }
}

// One schema for each item.
#[cycle(merge)]
fn join_each(
    scope: &Scope<'_>,
    notes: &mut Vec<MergeNote>,
    left: usize,
    walk: &Option<Walk>,
    pair: Pair,
    around: Around,
) -> Result<Option<ArrayValidation>, Stop>
    requires { IsGuarded (document_in scope.now) }
    ensures { Ends maybe_array (notes_view notes.old.items) (notes_view notes.new.items) (each_outcome (asked_in scope.now left walk.now Join) around (asked_in scope.now left walk.now Join (schema_view pair.first) (schema_view pair.second))) result }
{
    let Pair { first, second } = pair;
    let found = find(scope, notes, left, walk, How::Join, first, second)?;
    each_front(scope.alloc, notes, around, found)
}

// Schemas by place, and what binds the rest.
#[cycle(merge)]
fn join_places(
    scope: &Scope<'_>,
    notes: &mut Vec<MergeNote>,
    left: usize,
    walk: &Option<Walk>,
    places: Places,
) -> Result<Option<ArrayValidation>, Stop>
    requires { IsGuarded (document_in scope.now) }
    ensures { Ends maybe_array (notes_view notes.old.items) (notes_view notes.new.items) (list_outcome (asked_in scope.now left walk.now Join) (ByPlace places)) result }
{
    let Places {
        pairs,
        after,
        is_placed,
        around,
    } = places;
    let merged = join_pairs(scope, notes, left, walk, &around, pairs)?;
    if !goes_on(&merged) {
        return ended(scope.alloc, notes, around, is_placed, merged, None);
    }
    let Pair { first, second } = after;
    let found = find(scope, notes, left, walk, How::Join, first, second)?;
    ended(scope.alloc, notes, around, is_placed, merged, found)
}

// Place by place, up to the first that clashes.
#[cycle(merge)]
fn join_pairs(
    scope: &Scope<'_>,
    notes: &mut Vec<MergeNote>,
    left: usize,
    walk: &Option<Walk>,
    around: &Around,
    pairs: Vec<Pair>,
) -> Result<MergedPlaces, Stop>
    requires { IsGuarded (document_in scope.now) }
    ensures { Ends merged_view (notes_view notes.old.items) (notes_view notes.new.items) (pairs_outcome (asked_in scope.now left walk.now Join) around.now (pairs_view pairs.items)) result }
{
    let mut items = Vec::new(scope.alloc);
    for pair in pairs {
        if is_full(around, &items) {
            return Ok(at_end(around, items));
        }
        let Pair { first, second } = pair;
        match find(scope, notes, left, walk, How::Join, first, second)? {
            Some(schema) => items.push(schema)?,
            None => return clashed(notes, around, items),
        }
    }
    Ok(at_end(around, items))
}

// ---- members

#[cycle(merge)]
fn join_members(
    scope: &Scope<'_>,
    notes: &mut Vec<MergeNote>,
    left: usize,
    walk: &Option<Walk>,
    has_nulls: bool,
    is_object: bool,
    first: Option<ObjectValidation>,
    second: Option<ObjectValidation>,
) -> Result<Option<ObjectValidation>, Stop>
    requires { IsGuarded (document_in scope.now) }
    ensures { Ends maybe_members (notes_view notes.old.items) (notes_view notes.new.items) (two_named (asked_in scope.now left walk.now Join) has_nulls is_object (maybe_members first) (maybe_members second)) result }
{
    let plan = two_members(scope.alloc, notes, has_nulls, is_object, first, second)?;
    join_named(scope, notes, left, walk, plan)
}

#[cycle(merge)]
fn join_named(
    scope: &Scope<'_>,
    notes: &mut Vec<MergeNote>,
    left: usize,
    walk: &Option<Walk>,
    plan: MemberPlan,
) -> Result<Option<ObjectValidation>, Stop>
    requires { IsGuarded (document_in scope.now) }
    ensures { Ends maybe_members (notes_view notes.old.items) (notes_view notes.new.items) (member_outcome (asked_in scope.now left walk.now Join) plan) result }
{
    match plan {
        MemberPlan::Told(members) => Ok(members),
        MemberPlan::Named(members) => join_both(scope, notes, left, walk, members),
    }
}

// What binds the rest, then the names of both sides.
#[cycle(merge)]
fn join_both(
    scope: &Scope<'_>,
    notes: &mut Vec<MergeNote>,
    left: usize,
    walk: &Option<Walk>,
    members: Members,
) -> Result<Option<ObjectValidation>, Stop>
    requires { IsGuarded (document_in scope.now) }
    ensures { Ends maybe_members (notes_view notes.old.items) (notes_view notes.new.items) (members_outcome (asked_in scope.now left walk.now Join) members) result }
{
    let Members {
        rest,
        entries,
        frame,
    } = members;
    let rest = join_rest(scope, notes, left, walk, rest)?;
    let is_closed = no_rest(&rest);
    let gathered = join_entries(scope, notes, left, walk, How::Join, is_closed, entries)?;
    made_members(scope.alloc, notes, frame, rest, gathered)
}

#[cycle(merge)]
fn join_rest(
    scope: &Scope<'_>,
    notes: &mut Vec<MergeNote>,
    left: usize,
    walk: &Option<Walk>,
    rest: RestPlan,
) -> Result<Option<Box<Schema>>, Stop>
    requires { IsGuarded (document_in scope.now) }
    ensures { Ends maybe_view (notes_view notes.old.items) (notes_view notes.new.items) (rest_outcome (asked_in scope.now left walk.now Join) rest) result }
{
    match rest {
        RestPlan::Rest(rest) => Ok(boxed(scope.alloc, rest)?),
        RestPlan::Rests(first, second) => {
            let both = Bound::Both(first, second);
            let rest = join_bound(scope, notes, left, walk, How::Join, both)?;
            Ok(boxed(scope.alloc, Some(rest))?)
        }
    }
}

// Name by name.
#[cycle(merge)]
fn join_entries(
    scope: &Scope<'_>,
    notes: &mut Vec<MergeNote>,
    left: usize,
    walk: &Option<Walk>,
    how: How,
    is_closed: bool,
    entries: Vec<Entry>,
) -> Result<Gathered, Stop>
    requires { IsGuarded (document_in scope.now) }
    ensures { (object_type : Bool) → Goes (λ g. gathered_outcome object_type g.clashes (properties_in g) (answer [] no_properties)) (notes_view notes.old.items) (notes_view notes.new.items) (entries_then (asked_in scope.now left walk.now how) object_type is_closed entries.items (answer [] no_properties)) result }
{
    let mut gathered = none_gathered(scope.alloc);
    for entry in entries {
        let Entry {
            name,
            is_needed,
            is_unsaid,
            bound,
        } = entry;
        let schema = join_bound(scope, notes, left, walk, how, bound)?;
        gather(
            notes,
            &mut gathered,
            is_closed,
            is_needed,
            is_unsaid,
            name,
            schema,
        )?;
    }
    Ok(gathered)
}

#[cycle(merge)]
fn join_bound(
    scope: &Scope<'_>,
    notes: &mut Vec<MergeNote>,
    left: usize,
    walk: &Option<Walk>,
    how: How,
    bound: Bound,
) -> Result<Schema, Stop>
    requires { IsGuarded (document_in scope.now) }
    ensures { Ends schema_view (notes_view notes.old.items) (notes_view notes.new.items) (bound_outcome (asked_in scope.now left walk.now how) bound) result }
{
    match bound {
        Bound::Alone(schema) => Ok(schema),
        Bound::Both(first, second) => {
            let found = find(scope, notes, left, walk, how, first, second)?;
            Ok(or_false(found))
        }
    }
}

// ---- subschemas

// The body with the subschemas of a side.
#[cycle(merge)]
pub(crate) fn with_same(
    scope: &Scope<'_>,
    notes: &mut Vec<MergeNote>,
    left: usize,
    walk: &Option<Walk>,
    body: Schema,
    same: Option<Subschemas>,
) -> Result<Schema, Stop>
    requires { IsGuarded (document_in scope.now) }
    ensures { Ends schema_view (notes_view notes.old.items) (notes_view notes.new.items) (with_same_of (document_in scope.now) (asked_in scope.now left walk.now Join) (asked_in scope.now left walk.now Less) (same_of (option_map subschemas_view same)) (schema_view body)) result }
{
    match same {
        None => Ok(body),
        Some(same) => with_parts(scope, notes, left, walk, body, same),
    }
}

#[cycle(merge)]
fn with_parts(
    scope: &Scope<'_>,
    notes: &mut Vec<MergeNote>,
    left: usize,
    walk: &Option<Walk>,
    body: Schema,
    same: Subschemas,
) -> Result<Schema, Stop>
    requires { IsGuarded (document_in scope.now) }
    ensures { Ends schema_view (notes_view notes.old.items) (notes_view notes.new.items) (with_same_of (document_in scope.now) (asked_in scope.now left walk.now Join) (asked_in scope.now left walk.now Less) (subschemas_view same) (schema_view body)) result }
{
    let parts = parts_of(scope.alloc, same)?;
    let SameParts {
        all,
        none,
        any,
        one,
    } = parts;
    let body = fold(scope, notes, left, walk, How::Join, body, all)?;
    let body = fold(scope, notes, left, walk, How::Less, body, none)?;
    let body = with_branches(scope, notes, left, walk, Branch::Any, body, any)?;
    with_branches(scope, notes, left, walk, Branch::One, body, one)
}

#[cycle(merge)]
fn with_branches(
    scope: &Scope<'_>,
    notes: &mut Vec<MergeNote>,
    left: usize,
    walk: &Option<Walk>,
    branch: Branch,
    body: Schema,
    members: Option<Vec<Schema>>,
) -> Result<Schema, Stop>
    requires { IsGuarded (document_in scope.now) }
    ensures { Ends schema_view (notes_view notes.old.items) (notes_view notes.new.items) (branches_outcome (document_in scope.now) (asked_in scope.now left walk.now Join) branch (maybe_list_view (option_map (λ v. v.items) members)) (schema_view body)) result }
{
    match members {
        None => Ok(body),
        Some(members) => {
            let kept = fates(scope, notes, left, walk, &body, &members)?;
            finish(scope.alloc, scope.document, notes, branch, kept, &members)
        }
    }
}

// What becomes of each member of anyOf or oneOf.
#[cycle(merge)]
fn fates(
    scope: &Scope<'_>,
    notes: &mut Vec<MergeNote>,
    left: usize,
    walk: &Option<Walk>,
    body: &Schema,
    members: &Vec<Schema>,
) -> Result<Kept, Stop>
    requires { IsGuarded (document_in scope.now) }
    ensures { Ends kept_view (notes_view notes.old.items) (notes_view notes.new.items) (fates_of (asked_in scope.now left walk.now Join) (schema_view body.now) [] (schemas_view members.now.items)) result }
{
    let mut kept = none_kept(scope.alloc);
    for place in 0..members.len() {
        let first = body.try_clone(scope.alloc)?;
        let second = members[place].try_clone(scope.alloc)?;
        let mut told = Vec::new(scope.alloc);
        let found = find(scope, &mut told, left, walk, How::Join, first, second)?;
        judge(
            scope.alloc,
            notes,
            &told,
            &mut kept,
            body,
            members,
            place,
            found,
        )?;
    }
    Ok(kept)
}

// ---- taking away

// What is left of a schema where another is taken away, where so many levels are left.
#[cycle(merge)]
pub(crate) fn less(
    scope: &Scope<'_>,
    notes: &mut Vec<MergeNote>,
    left: usize,
    first: Schema,
    second: Schema,
) -> Result<Schema, Stop>
    requires { IsGuarded (document_in scope.now) }
    ensures { Ends schema_view (notes_view notes.old.items) (notes_view notes.new.items) (less_in scope.now left (schema_view first) (schema_view second)) result }
{
    if left == 0 {
        return too_few(scope.alloc);
    }
    if !scope.budget.spend(&first, &second) {
        return used_up();
    }
    let taking = meet_less(
        scope.alloc,
        scope.document,
        scope.most,
        notes,
        &first,
        &second,
    )?;
    less_met(scope, notes, left - 1, taking)
}

#[cycle(merge)]
fn less_met(
    scope: &Scope<'_>,
    notes: &mut Vec<MergeNote>,
    left: usize,
    taking: Taking,
) -> Result<Schema, Stop>
    requires { IsGuarded (document_in scope.now) }
    ensures { Ends schema_view (notes_view notes.old.items) (notes_view notes.new.items) (taking_outcome (join_in scope.now left) (less_in scope.now left) taking) result }
{
    match taking {
        Taking::Told(schema) => Ok(schema),
        Taking::Objects(taken) => less_object(scope, notes, left, taken),
    }
}

// An object from an object: listed values, properties, and one of anyOf, not and allOf.
#[cycle(merge)]
fn less_object(
    scope: &Scope<'_>,
    notes: &mut Vec<MergeNote>,
    left: usize,
    taken: Taken,
) -> Result<Schema, Stop>
    requires { IsGuarded (document_in scope.now) }
    ensures { Ends schema_view (notes_view notes.old.items) (notes_view notes.new.items) (taken_outcome (join_in scope.now left) (less_in scope.now left) taken) result }
{
    let Taken {
        entries,
        object,
        any,
        none,
        all,
    } = taken;
    let gathered = join_entries(scope, notes, left, &None, How::Less, false, entries)?;
    let schema = left_of(scope.alloc, notes, object, gathered)?;
    let schema = fold(scope, notes, left, &None, How::Less, schema, any)?;
    let schema = fold(scope, notes, left, &None, How::Join, schema, none)?;
    less_all(scope, notes, left, schema, all)
}

#[cycle(merge)]
fn less_all(
    scope: &Scope<'_>,
    notes: &mut Vec<MergeNote>,
    left: usize,
    schema: Schema,
    all: Option<Listed>,
) -> Result<Schema, Stop>
    requires { IsGuarded (document_in scope.now) }
    ensures { Ends schema_view (notes_view notes.old.items) (notes_view notes.new.items) (less_all_outcome (join_in scope.now left) (less_in scope.now left) all (schema_view schema)) result }
{
    match all {
        None => Ok(schema),
        Some(listed) => less_listed(scope, notes, left, schema, listed),
    }
}

// The merge of allOf is taken away, and where it is never, nothing.
#[cycle(merge)]
fn less_listed(
    scope: &Scope<'_>,
    notes: &mut Vec<MergeNote>,
    left: usize,
    schema: Schema,
    listed: Listed,
) -> Result<Schema, Stop>
    requires { IsGuarded (document_in scope.now) }
    ensures { Ends schema_view (notes_view notes.old.items) (notes_view notes.new.items) (less_listed_outcome (join_in scope.now left) (less_in scope.now left) listed (schema_view schema)) result }
{
    let Listed { first, rest } = listed;
    let mut inner = Vec::new(scope.alloc);
    let found = or_never(fold(scope, &mut inner, left, &None, How::Join, first, rest))?;
    add_turned(notes, &inner)?;
    match found {
        None => Ok(schema),
        Some(merge) => less(scope, notes, left, schema, merge),
    }
}
