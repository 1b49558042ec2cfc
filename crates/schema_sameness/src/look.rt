//! Whether two schemas are alike, wholly or but for the keywords of lists other than `items`.
ghost use Rattle.std.specs.Prelude.{◌≡◌, option_map};
ghost use Rattle.schema_defs.specs.Schema.{schemas};
ghost use Rattle.schema_types.specs.View.{schema_view, object_view, subschemas_view, items_view, array_view, members_view, schemas_view, properties_view, maybe_view, same_of, lists_of, named_of, places_of};
ghost use Rattle.merge_defs.specs.Alike.{roughly as roughly_of, wholly as wholly_of, same_schemas as same_schemas_of, alike, alike_same, alike_lists, alike_named, alike_maybe, alike_list, alike_all, alike_places, alike_properties};
ghost use Rattle.schema_sameness.specs.Parts.{plain_in, all_in, any_in, one_in};
ghost use Rattle.schema_sameness.specs.Looks.{look_of, members_alike, rest_alike};

use crate::absent::is_bare;
use crate::plain::{same_constraints, same_count, same_names, same_sizes};
use schema_types::{ArrayValidation, Items, ObjectValidation, Schema, SchemaObject, Subschemas};
use std::collections::BTreeMap;

/// Whether the schemas are alike, but for annotations, walks and the keywords of lists other than `items`.
#[tactic(auto, unfolding(crate::specs::Looks::look_of))]
pub fn roughly(a: &Schema, b: &Schema) -> bool
    ensures { result ≡ roughly_of (schema_view a.now) (schema_view b.now) }
{
    alike_schemas(a, b, Look::Roughly)
}

/// Whether the schemas are alike, but for annotations and walks.
#[tactic(auto, unfolding(crate::specs::Looks::look_of))]
pub fn wholly(a: &Schema, b: &Schema) -> bool
    ensures { result ≡ wholly_of (schema_view a.now) (schema_view b.now) }
{
    alike_schemas(a, b, Look::Wholly)
}

/// Whether the schemas are the same in all but walks.
pub fn same_schemas(a: &Schema, b: &Schema) -> bool
    ensures { result ≡ same_schemas_of (schema_view a.now) (schema_view b.now) }
{
    a.same(b)
}

// How schemas are compared: `Roughly`, the keywords of lists other than `items` don't count.
#[derive(Clone, Copy)]
pub(crate) enum Look {
    Roughly,
    Wholly,
}

// ---- one level

#[tactic(auto, unfolding(crate::specs::Looks::look_of))]
fn same_keywords(a: &SchemaObject, b: &SchemaObject, look: Look) -> bool
    ensures { result ≡ (look_of look).plain (plain_in (object_view a.now)) (plain_in (object_view b.now)) }
{
    same_constraints(a, b)
}

#[tactic(auto, unfolding(crate::specs::Looks::look_of))]
fn stands_for_true(object: &SchemaObject, look: Look) -> bool
    ensures { result ≡ (look_of look).as_true (object_view object.now) }
{
    is_bare(object)
}

#[tactic(auto, unfolding(crate::specs::Looks::look_of))]
fn counts_all(look: Look) -> bool
    ensures { result ≡ (look_of look).whole_lists }
{
    match look {
        Look::Roughly => false,
        Look::Wholly => true,
    }
}

// ---- schemas

#[cycle(alike)]
fn alike_schemas(a: &Schema, b: &Schema, look: Look) -> bool
    ensures { result ≡ alike (look_of look) (schema_view a.now) (schema_view b.now) }
{
    match (a, b) {
        (Schema::Bool(x), Schema::Bool(y)) => *x == *y,
        (Schema::Bool(x), Schema::Object(y)) => *x && stands_for_true(y, look),
        (Schema::Object(x), Schema::Bool(y)) => *y && stands_for_true(x, look),
        (Schema::Object(x), Schema::Object(y)) => alike_objects(x, y, look),
    }
}

#[cycle(alike)]
fn alike_objects(a: &SchemaObject, b: &SchemaObject, look: Look) -> bool
    ensures { result ≡ alike (look_of look) (object_view a.now) (object_view b.now) }
{
    same_keywords(a, b, look)
        && alike_maybe_subschemas(&a.subschemas, &b.subschemas, look)
        && alike_maybe_arrays(&a.array, &b.array, look)
        && alike_maybe_members(&a.object, &b.object, look)
}

#[cycle(alike)]
fn alike_maybe_subschemas(a: &Option<Subschemas>, b: &Option<Subschemas>, look: Look) -> bool
    ensures { result ≡ alike_same (look_of look) (same_of (option_map subschemas_view a.now)) (same_of (option_map subschemas_view b.now)) }
{
    match (a, b) {
        (None, None) => true,
        (Some(x), Some(y)) => alike_subschemas(x, y, look),
        _ => false,
    }
}

#[cycle(alike)]
fn alike_subschemas(a: &Subschemas, b: &Subschemas, look: Look) -> bool
    ensures { result ≡ alike_same (look_of look) (subschemas_view a.now) (subschemas_view b.now) }
{
    alike_members_of(a, b, look)
        && alike_boxes(&a.not, &b.not, look)
        && a.conditional == b.conditional
}

// `allOf`, `anyOf` and `oneOf`.
#[cycle(alike)]
fn alike_members_of(a: &Subschemas, b: &Subschemas, look: Look) -> bool
    ensures { result ≡ members_alike (look_of look) (subschemas_view a.now) (subschemas_view b.now) }
{
    alike_all_of(a, b, look) && alike_any_of(a, b, look) && alike_one_of(a, b, look)
}

#[cycle(alike)]
fn alike_all_of(a: &Subschemas, b: &Subschemas, look: Look) -> bool
    ensures { result ≡ alike_list (look_of look) (all_in (subschemas_view a.now)) (all_in (subschemas_view b.now)) }
{
    match (&a.all_of, &b.all_of) {
        (None, None) => true,
        (Some(x), Some(y)) => alike_lists_of_schemas(x, y, look),
        _ => false,
    }
}

#[cycle(alike)]
fn alike_any_of(a: &Subschemas, b: &Subschemas, look: Look) -> bool
    ensures { result ≡ alike_list (look_of look) (any_in (subschemas_view a.now)) (any_in (subschemas_view b.now)) }
{
    match (&a.any_of, &b.any_of) {
        (None, None) => true,
        (Some(x), Some(y)) => alike_lists_of_schemas(x, y, look),
        _ => false,
    }
}

#[cycle(alike)]
fn alike_one_of(a: &Subschemas, b: &Subschemas, look: Look) -> bool
    ensures { result ≡ alike_list (look_of look) (one_in (subschemas_view a.now)) (one_in (subschemas_view b.now)) }
{
    match (&a.one_of, &b.one_of) {
        (None, None) => true,
        (Some(x), Some(y)) => alike_lists_of_schemas(x, y, look),
        _ => false,
    }
}

#[cycle(alike)]
fn alike_maybe_arrays(a: &Option<ArrayValidation>, b: &Option<ArrayValidation>, look: Look) -> bool
    ensures { result ≡ alike_lists (look_of look) (lists_of (option_map array_view a.now)) (lists_of (option_map array_view b.now)) }
{
    match (a, b) {
        (None, None) => true,
        (Some(x), Some(y)) => alike_arrays(x, y, look),
        _ => false,
    }
}

#[cycle(alike)]
fn alike_arrays(a: &ArrayValidation, b: &ArrayValidation, look: Look) -> bool
    ensures { result ≡ alike_lists (look_of look) (array_view a.now) (array_view b.now) }
{
    alike_items(&a.items, &b.items, look) && alike_rests(a, b, look)
}

// The keywords of lists beside `items`, where they count.
#[cycle(alike)]
fn alike_rests(a: &ArrayValidation, b: &ArrayValidation, look: Look) -> bool
    ensures { result ≡ rest_alike (look_of look) (array_view a.now) (array_view b.now) }
{
    if !counts_all(look) {
        return true;
    }
    alike_boxes(&a.additional_items, &b.additional_items, look)
        && alike_boxes(&a.contains, &b.contains, look)
        && same_sizes(a, b)
}

#[cycle(alike)]
fn alike_items(a: &Option<Items>, b: &Option<Items>, look: Look) -> bool
    ensures { result ≡ alike_places (look_of look) (places_of (option_map items_view a.now)) (places_of (option_map items_view b.now)) }
{
    match (a, b) {
        (None, None) => true,
        (Some(Items::One(x)), Some(Items::One(y))) => alike_schemas(x, y, look),
        (Some(Items::Many(x)), Some(Items::Many(y))) => alike_lists_of_schemas(x, y, look),
        _ => false,
    }
}

#[cycle(alike)]
fn alike_maybe_members(
    a: &Option<ObjectValidation>,
    b: &Option<ObjectValidation>,
    look: Look,
) -> bool
    ensures { result ≡ alike_named (look_of look) (named_of (option_map members_view a.now)) (named_of (option_map members_view b.now)) }
{
    match (a, b) {
        (None, None) => true,
        (Some(x), Some(y)) => alike_members(x, y, look),
        _ => false,
    }
}

#[cycle(alike)]
fn alike_members(a: &ObjectValidation, b: &ObjectValidation, look: Look) -> bool
    ensures { result ≡ alike_named (look_of look) (members_view a.now) (members_view b.now) }
{
    alike_maps(&a.properties, &b.properties, look)
        && alike_maps(&a.pattern_properties, &b.pattern_properties, look)
        && alike_boxes(&a.additional_properties, &b.additional_properties, look)
        && alike_boxes(&a.property_names, &b.property_names, look)
        && same_count(a.max_properties, b.max_properties)
        && same_count(a.min_properties, b.min_properties)
        && same_names(&a.required, &b.required)
}

#[cycle(alike)]
fn alike_boxes(a: &Option<Box<Schema>>, b: &Option<Box<Schema>>, look: Look) -> bool
    ensures { result ≡ alike_maybe (look_of look) (maybe_view a.now) (maybe_view b.now) }
{
    match (a, b) {
        (None, None) => true,
        (Some(x), Some(y)) => alike_schemas(x, y, look),
        _ => false,
    }
}

#[cycle(alike)]
fn alike_lists_of_schemas(a: &Vec<Schema>, b: &Vec<Schema>, look: Look) -> bool
    ensures { result ≡ alike_all (look_of look) (schemas (schemas_view a.now.items)) (schemas (schemas_view b.now.items)) }
{
    if a.len() != b.len() {
        return false;
    }
    for i in 0..a.len() {
        if !alike_schemas(&a[i], &b[i], look) {
            return false;
        }
    }
    true
}

#[cycle(alike)]
fn alike_maps(a: &BTreeMap<String, Schema>, b: &BTreeMap<String, Schema>, look: Look) -> bool
    ensures { result ≡ alike_properties (look_of look) (properties_view a.now.entries) (properties_view b.now.entries) }
{
    let mut others = b.iter();
    for (name, x) in a.iter() {
        match others.next() {
            Some((other, y)) => if name.as_str() != other.as_str() || !alike_schemas(x, y, look) {
                return false;
            },
            None => return false,
        }
    }
    others.next().is_none()
}
