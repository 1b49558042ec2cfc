//! Copies of what stands inside a schema, each schema on its walk.
ghost use Rattle.std.specs.Prelude.{◌≡◌, [], ◌∷◌, IfOk, option_map, unwrap_or};
ghost use Rattle.schema_defs.specs.Schema.{schemas};
ghost use Rattle.schema_types.specs.View.{schema_view, object_view, subschemas_view, items_view, array_view, members_view, schemas_view, properties_view, maybe_view, maybe_list_view, same_of, lists_of, named_of, places_of};
ghost use Rattle.merge_walks.specs.Carried.{root_walk as root_walk_of, to_child as to_child_of, carried, maybe_inside, all_inside, list_inside, names_inside, places_inside, same_inside, lists_inside, named_inside, opened as opened_of};
ghost use Rattle.merge_walked.specs.Seen.{side_view, with_parts as with_parts_of};

use crate::side::{Side, child_side, member_side, place_side};
use crate::walks::{own_walk, root_walk};
use schema_types::{
    ArrayValidation, Items, ObjectValidation, Schema, SchemaObject, Subschemas, Walk, as_schema,
    copy_names,
};
use std::alloc::{AllocError, Global};
use std::collections::BTreeMap;

/// A copy of the schema under a keyword.
pub fn copy_child(
    alloc: Global,
    walk: &Walk,
    keyword: &str,
    schema: &Schema,
) -> Result<Schema, AllocError>
    ensures { IfOk result (λ s. schema_view s ≡ carried (to_child_of walk.now (keyword.now ∷ [])) (schema_view schema.now)) }
{
    let side = child_side(alloc, walk, keyword, schema)?;
    let copy = side.copy(alloc)?;
    Ok(copy)
}

/// A copy of the schema under a keyword, if one stands there.
pub fn copy_maybe(
    alloc: Global,
    walk: &Walk,
    keyword: &str,
    schema: &Option<Box<Schema>>,
) -> Result<Option<Box<Schema>>, AllocError>
    ensures { IfOk result (λ s. maybe_view s ≡ maybe_inside walk.now keyword.now (maybe_view schema.now)) }
{
    match schema {
        Some(schema) => {
            let copy = copy_child(alloc, walk, keyword, schema)?;
            Ok(Some(Box::new(alloc, copy)?))
        }
        None => Ok(None),
    }
}

/// Copies of the schemas of the list under a keyword.
pub fn copy_list(
    alloc: Global,
    walk: &Walk,
    keyword: &str,
    list: &Vec<Schema>,
) -> Result<Vec<Schema>, AllocError>
    ensures { IfOk result (λ v. schemas (schemas_view v.items) ≡ all_inside walk.now keyword.now 0 (schemas (schemas_view list.now.items))) }
{
    let mut copies = Vec::with_capacity(alloc, list.len())?;
    for (place, schema) in list.iter().enumerate() {
        let side = place_side(alloc, walk, keyword, place, schema)?;
        let copy = side.copy(alloc)?;
        copies.push(copy)?;
    }
    Ok(copies)
}

/// Copies of the schemas of the list under a keyword, if one stands there.
pub fn copy_maybe_list(
    alloc: Global,
    walk: &Walk,
    keyword: &str,
    list: &Option<Vec<Schema>>,
) -> Result<Option<Vec<Schema>>, AllocError>
    ensures { IfOk result (λ o. maybe_list_view (option_map (λ v. v.items) o) ≡ list_inside walk.now keyword.now (maybe_list_view (option_map (λ v. v.items) list.now))) }
{
    match list {
        Some(list) => {
            let copies = copy_list(alloc, walk, keyword, list)?;
            Ok(Some(copies))
        }
        None => Ok(None),
    }
}

/// Copies of the schemas by name under a keyword.
#[tactic(auto, using(crate::proofs::Maps::inside_each))]
pub fn copy_properties(
    alloc: Global,
    walk: &Walk,
    keyword: &str,
    from: &BTreeMap<String, Schema>,
) -> Result<BTreeMap<String, Schema>, AllocError>
    ensures { IfOk result (λ m. properties_view m.entries ≡ names_inside walk.now keyword.now (properties_view from.now.entries)) }
{
    let mut copies = BTreeMap::new(alloc);
    for (name, schema) in from.iter() {
        let key = String::from_str(alloc, name)?;
        let side = member_side(alloc, walk, keyword, name, schema)?;
        let copy = side.copy(alloc)?;
        drop(copies.insert(key, copy)?);
    }
    Ok(copies)
}

/// A copy of what `items` holds.
pub fn copy_items(
    alloc: Global,
    walk: &Walk,
    items: &Option<Items>,
) -> Result<Option<Items>, AllocError>
    ensures { IfOk result (λ i. places_of (option_map items_view i) ≡ places_inside walk.now (places_of (option_map items_view items.now))) }
{
    match items {
        Some(Items::One(schema)) => {
            let copy = copy_child(alloc, walk, "items", schema)?;
            Ok(Some(Items::One(Box::new(alloc, copy)?)))
        }
        Some(Items::Many(list)) => {
            let copies = copy_list(alloc, walk, "items", list)?;
            Ok(Some(Items::Many(copies)))
        }
        None => Ok(None),
    }
}

// ---- the parts of a schema

/// A copy of subschemas.
pub fn copy_subschemas(
    alloc: Global,
    walk: &Walk,
    from: &Subschemas,
) -> Result<Subschemas, AllocError>
    ensures { IfOk result (λ s. subschemas_view s ≡ same_inside walk.now (subschemas_view from.now)) }
{
    let all_of = copy_maybe_list(alloc, walk, "allOf", &from.all_of)?;
    let any_of = copy_maybe_list(alloc, walk, "anyOf", &from.any_of)?;
    let one_of = copy_maybe_list(alloc, walk, "oneOf", &from.one_of)?;
    let not = copy_maybe(alloc, walk, "not", &from.not)?;
    Ok(Subschemas {
        all_of,
        any_of,
        one_of,
        not,
        conditional: from.conditional,
    })
}

/// A copy of the keywords of lists.
pub fn copy_array(
    alloc: Global,
    walk: &Walk,
    from: &ArrayValidation,
) -> Result<ArrayValidation, AllocError>
    ensures { IfOk result (λ a. array_view a ≡ lists_inside walk.now (array_view from.now)) }
{
    let items = copy_items(alloc, walk, &from.items)?;
    let additional_items = copy_maybe(alloc, walk, "additionalItems", &from.additional_items)?;
    let contains = copy_maybe(alloc, walk, "contains", &from.contains)?;
    Ok(ArrayValidation {
        items,
        additional_items,
        contains,
        max_items: from.max_items,
        min_items: from.min_items,
        unique_items: from.unique_items,
    })
}

/// A copy of the keywords of objects.
pub fn copy_members(
    alloc: Global,
    walk: &Walk,
    from: &ObjectValidation,
) -> Result<ObjectValidation, AllocError>
    ensures { IfOk result (λ o. members_view o ≡ named_inside walk.now (members_view from.now)) }
{
    let required = copy_names(alloc, &from.required)?;
    let properties = copy_properties(alloc, walk, "properties", &from.properties)?;
    let pattern_properties = copy_properties(
        alloc,
        walk,
        "patternProperties",
        &from.pattern_properties,
    )?;
    let additional_properties = copy_maybe(
        alloc,
        walk,
        "additionalProperties",
        &from.additional_properties,
    )?;
    let property_names = copy_maybe(alloc, walk, "propertyNames", &from.property_names)?;
    Ok(ObjectValidation {
        max_properties: from.max_properties,
        min_properties: from.min_properties,
        required,
        properties,
        pattern_properties,
        additional_properties,
        property_names,
    })
}

/// Subschemas, if they stand there.
pub fn copy_maybe_subschemas(
    alloc: Global,
    walk: &Walk,
    from: &Option<Subschemas>,
) -> Result<Option<Subschemas>, AllocError>
    ensures { IfOk result (λ s. same_of (option_map subschemas_view s) ≡ same_inside walk.now (same_of (option_map subschemas_view from.now))) }
{
    match from {
        Some(from) => Ok(Some(copy_subschemas(alloc, walk, from)?)),
        None => Ok(None),
    }
}

/// The keywords of lists, if they stand there.
pub fn copy_maybe_array(
    alloc: Global,
    walk: &Walk,
    from: &Option<ArrayValidation>,
) -> Result<Option<ArrayValidation>, AllocError>
    ensures { IfOk result (λ a. lists_of (option_map array_view a) ≡ lists_inside walk.now (lists_of (option_map array_view from.now))) }
{
    match from {
        Some(from) => Ok(Some(copy_array(alloc, walk, from)?)),
        None => Ok(None),
    }
}

/// The keywords of objects, if they stand there.
pub fn copy_maybe_members(
    alloc: Global,
    walk: &Walk,
    from: &Option<ObjectValidation>,
) -> Result<Option<ObjectValidation>, AllocError>
    ensures { IfOk result (λ o. named_of (option_map members_view o) ≡ named_inside walk.now (named_of (option_map members_view from.now))) }
{
    match from {
        Some(from) => Ok(Some(copy_members(alloc, walk, from)?)),
        None => Ok(None),
    }
}

// ---- a whole schema

// A copy of the walk that is there, or the root's.
fn walk_or_root(alloc: Global, walk: &Option<Walk>) -> Result<Walk, AllocError>
    ensures { IfOk result (λ w. w ≡ unwrap_or walk.now root_walk_of) }
{
    match walk {
        Some(walk) => walk.try_clone(alloc),
        None => root_walk(alloc),
    }
}

// The object on a walk, with these parts.
#[tactic(auto, using(crate::proofs::Objects::parts_put))]
fn with_parts(
    object: SchemaObject,
    subschemas: Option<Subschemas>,
    array: Option<ArrayValidation>,
    members: Option<ObjectValidation>,
    walk: Walk,
) -> SchemaObject
    ensures { object_view result ≡ with_parts_of walk (same_of (option_map subschemas_view subschemas)) (lists_of (option_map array_view array)) (named_of (option_map members_view members)) (object_view object) }
{
    let SchemaObject {
        title,
        description,
        default,
        const_value,
        types,
        format,
        enum_values,
        subschemas: _subschemas,
        number,
        string,
        array: _array,
        object: _members,
        reference,
        walk: _walk,
    } = object;
    SchemaObject {
        title,
        description,
        default,
        const_value,
        types,
        format,
        enum_values,
        subschemas,
        number,
        string,
        array,
        object: members,
        reference,
        walk: Some(walk),
    }
}

// The object with each schema directly inside on its walk.
fn open_object(alloc: Global, object: SchemaObject) -> Result<SchemaObject, AllocError>
    ensures { IfOk result (λ o. object_view o ≡ opened_of (object_view object)) }
{
    let own = own_walk(alloc, &object.walk)?;
    let walk = walk_or_root(alloc, &object.walk)?;
    let subschemas = copy_maybe_subschemas(alloc, &own, &object.subschemas)?;
    let array = copy_maybe_array(alloc, &own, &object.array)?;
    let members = copy_maybe_members(alloc, &own, &object.object)?;
    Ok(with_parts(object, subschemas, array, members, walk))
}

fn open_schema(alloc: Global, schema: Schema) -> Result<Schema, AllocError>
    ensures { IfOk result (λ s. schema_view s ≡ opened_of (schema_view schema)) }
{
    match schema {
        Schema::Bool(b) => Ok(Schema::Bool(b)),
        Schema::Object(object) => {
            let open = open_object(alloc, Box::into_inner(object))?;
            let boxed = Box::new(alloc, open)?;
            Ok(as_schema(boxed))
        }
    }
}

/// A copy of the schema that the side stands for, on its walk, with each schema directly inside on its own.
pub fn opened(alloc: Global, side: &Side<'_>) -> Result<Schema, AllocError>
    ensures { IfOk result (λ s. schema_view s ≡ opened_of (side_view side.now)) }
{
    let copy = side.copy(alloc)?;
    let open = open_schema(alloc, copy)?;
    Ok(open)
}
