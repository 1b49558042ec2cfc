//! Schemas whose walks carry no marks of what was made.
ghost use Rattle.std.specs.Prelude.{◌≡◌, IfOk, option_map};
ghost use Rattle.schema_defs.specs.Schema.{schemas};
ghost use Rattle.schema_defs.specs.Mapped.{mapped, mapped_all, mapped_lists, mapped_named, mapped_places, mapped_properties, mapped_same};
ghost use Rattle.schema_types.specs.View.{array_view, items_view, lists_of, members_view, named_of, object_view, places_of, properties_view, same_of, schema_view, schemas_view, subschemas_view};
ghost use Rattle.merge_walks.specs.Carried.{unmarked as unmarked_of};
ghost use Rattle.merge_walks.specs.Told.{unmark as unmark_of};

use merge_walked::unmarked;
use schema_types::{
    ArrayValidation, Items, ObjectValidation, Schema, SchemaObject, Subschemas, Walk, as_schema,
};
use std::alloc::{AllocError, Global};
use std::collections::BTreeMap;

fn boxed_object(alloc: Global, object: SchemaObject) -> Result<Box<SchemaObject>, AllocError>
    ensures { IfOk result (λ b. object_view b.value ≡ object_view object) }
{
    let boxed = Box::new(alloc, object)?;
    Ok(boxed)
}

fn bare_walk(walk: Option<Walk>) -> Option<Walk>
    ensures { result ≡ option_map unmarked_of walk }
{
    match walk {
        None => None,
        Some(walk) => Some(unmarked(walk)),
    }
}

/// The schema, where each walk in it is as it is outside of merges.
#[cycle(unmark)]
pub(crate) fn unmark(alloc: Global, schema: Schema) -> Result<Schema, AllocError>
    ensures { IfOk result (λ s. schema_view s ≡ mapped unmark_of (schema_view schema)) }
{
    match schema {
        Schema::Bool(b) => Ok(Schema::Bool(b)),
        Schema::Object(object) => {
            let object = unmark_object(alloc, object)?;
            Ok(as_schema(object))
        }
    }
}

#[cycle(unmark)]
fn unmark_object(alloc: Global, object: Box<SchemaObject>) -> Result<Box<SchemaObject>, AllocError>
    ensures { IfOk result (λ o. object_view o.value ≡ mapped unmark_of (object_view object.value)) }
{
    let SchemaObject {
        title,
        description,
        default,
        const_value,
        types,
        format,
        enum_values,
        subschemas,
        number,
        string,
        array,
        object: members,
        reference,
        walk,
    } = Box::into_inner(object);
    let subschemas = unmark_subschemas(alloc, subschemas)?;
    let array = unmark_array(alloc, array)?;
    let members = unmark_members(alloc, members)?;
    let walk = bare_walk(walk);
    let object = SchemaObject {
        title,
        description,
        default,
        const_value,
        types,
        format,
        enum_values,
        subschemas,
        number,
        string,
        array,
        object: members,
        reference,
        walk,
    };
    let boxed = boxed_object(alloc, object)?;
    Ok(boxed)
}

#[cycle(unmark)]
fn unmark_subschemas(
    alloc: Global,
    subschemas: Option<Subschemas>,
) -> Result<Option<Subschemas>, AllocError>
    ensures { IfOk result (λ s. same_of (option_map subschemas_view s) ≡ mapped_same unmark_of (same_of (option_map subschemas_view subschemas))) }
{
    match subschemas {
        None => Ok(None),
        Some(subschemas) => {
            let found = unmark_parts(alloc, subschemas)?;
            Ok(Some(found))
        }
    }
}

#[cycle(unmark)]
fn unmark_parts(alloc: Global, subschemas: Subschemas) -> Result<Subschemas, AllocError>
    ensures { IfOk result (λ s. subschemas_view s ≡ mapped_same unmark_of (subschemas_view subschemas)) }
{
    let Subschemas {
        all_of,
        any_of,
        one_of,
        not,
        conditional,
    } = subschemas;
    let all_of = match all_of {
        Some(list) => Some(unmark_list(alloc, list)?),
        None => None,
    };
    let any_of = match any_of {
        Some(list) => Some(unmark_list(alloc, list)?),
        None => None,
    };
    let one_of = match one_of {
        Some(list) => Some(unmark_list(alloc, list)?),
        None => None,
    };
    let not = match not {
        Some(schema) => Some(unmark_box(alloc, schema)?),
        None => None,
    };
    Ok(Subschemas {
        all_of,
        any_of,
        one_of,
        not,
        conditional,
    })
}

#[cycle(unmark)]
fn unmark_array(
    alloc: Global,
    array: Option<ArrayValidation>,
) -> Result<Option<ArrayValidation>, AllocError>
    ensures { IfOk result (λ a. lists_of (option_map array_view a) ≡ mapped_lists unmark_of (lists_of (option_map array_view array))) }
{
    match array {
        None => Ok(None),
        Some(array) => {
            let found = unmark_lists(alloc, array)?;
            Ok(Some(found))
        }
    }
}

#[cycle(unmark)]
fn unmark_lists(alloc: Global, array: ArrayValidation) -> Result<ArrayValidation, AllocError>
    ensures { IfOk result (λ a. array_view a ≡ mapped_lists unmark_of (array_view array)) }
{
    let ArrayValidation {
        items,
        additional_items,
        contains,
        max_items,
        min_items,
        unique_items,
    } = array;
    let items = unmark_maybe_items(alloc, items)?;
    let additional_items = match additional_items {
        Some(schema) => Some(unmark_box(alloc, schema)?),
        None => None,
    };
    let contains = match contains {
        Some(schema) => Some(unmark_box(alloc, schema)?),
        None => None,
    };
    Ok(ArrayValidation {
        items,
        additional_items,
        contains,
        max_items,
        min_items,
        unique_items,
    })
}

#[cycle(unmark)]
fn unmark_maybe_items(alloc: Global, items: Option<Items>) -> Result<Option<Items>, AllocError>
    ensures { IfOk result (λ i. places_of (option_map items_view i) ≡ mapped_places unmark_of (places_of (option_map items_view items))) }
{
    match items {
        None => Ok(None),
        Some(items) => {
            let found = unmark_items(alloc, items)?;
            Ok(Some(found))
        }
    }
}

#[cycle(unmark)]
fn unmark_items(alloc: Global, items: Items) -> Result<Items, AllocError>
    ensures { IfOk result (λ i. items_view i ≡ mapped_places unmark_of (items_view items)) }
{
    match items {
        Items::One(schema) => {
            let found = unmark_box(alloc, schema)?;
            Ok(Items::One(found))
        }
        Items::Many(list) => {
            let found = unmark_list(alloc, list)?;
            Ok(Items::Many(found))
        }
    }
}

#[cycle(unmark)]
fn unmark_members(
    alloc: Global,
    members: Option<ObjectValidation>,
) -> Result<Option<ObjectValidation>, AllocError>
    ensures { IfOk result (λ o. named_of (option_map members_view o) ≡ mapped_named unmark_of (named_of (option_map members_view members))) }
{
    match members {
        None => Ok(None),
        Some(members) => {
            let found = unmark_named(alloc, members)?;
            Ok(Some(found))
        }
    }
}

#[cycle(unmark)]
fn unmark_named(alloc: Global, members: ObjectValidation) -> Result<ObjectValidation, AllocError>
    ensures { IfOk result (λ o. members_view o ≡ mapped_named unmark_of (members_view members)) }
{
    let ObjectValidation {
        max_properties,
        min_properties,
        required,
        properties,
        pattern_properties,
        additional_properties,
        property_names,
    } = members;
    let properties = unmark_properties(alloc, properties)?;
    let pattern_properties = unmark_properties(alloc, pattern_properties)?;
    let additional_properties = match additional_properties {
        Some(schema) => Some(unmark_box(alloc, schema)?),
        None => None,
    };
    let property_names = match property_names {
        Some(schema) => Some(unmark_box(alloc, schema)?),
        None => None,
    };
    Ok(ObjectValidation {
        max_properties,
        min_properties,
        required,
        properties,
        pattern_properties,
        additional_properties,
        property_names,
    })
}

#[cycle(unmark)]
fn unmark_box(alloc: Global, schema: Box<Schema>) -> Result<Box<Schema>, AllocError>
    ensures { IfOk result (λ s. schema_view s.value ≡ mapped unmark_of (schema_view schema.value)) }
{
    let found = unmark(alloc, Box::into_inner(schema))?;
    let boxed = Box::new(alloc, found)?;
    Ok(boxed)
}

#[cycle(unmark)]
fn unmark_list(alloc: Global, list: Vec<Schema>) -> Result<Vec<Schema>, AllocError>
    ensures { IfOk result (λ v. schemas (schemas_view v.items) ≡ mapped_all unmark_of (schemas (schemas_view list.items))) }
{
    let mut found = Vec::with_capacity(alloc, list.len())?;
    for schema in list {
        found.push(unmark(alloc, schema)?)?;
    }
    Ok(found)
}

#[cycle(unmark)]
fn unmark_properties(
    alloc: Global,
    properties: BTreeMap<String, Schema>,
) -> Result<BTreeMap<String, Schema>, AllocError>
    ensures { IfOk result (λ m. properties_view m.entries ≡ mapped_properties unmark_of (properties_view properties.entries)) }
{
    let mut found = BTreeMap::new(alloc);
    for (name, schema) in properties {
        let made = unmark(alloc, schema)?;
        drop(found.insert(name, made)?);
    }
    Ok(found)
}
