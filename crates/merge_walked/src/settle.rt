//! The walks of what a merge made.
ghost use Rattle.std.specs.Prelude.{◌≡◌, IfOk, option_map, unwrap_or};
ghost use Rattle.schema_defs.specs.Schema.{schemas};
ghost use Rattle.schema_types.specs.View.{schema_view, object_view, subschemas_view, members_view, schemas_view, properties_view, maybe_view, maybe_list_view, same_of, named_of};
ghost use Rattle.merge_walks.specs.Made.{settled as settled_of, settled_same, settled_named, settled_maybe, settled_list, settled_all, settled_properties, longest_or, walks_of_same};

use crate::longest::longest_of;
use crate::walks::made_on;
use schema_types::{ObjectValidation, Schema, SchemaObject, Subschemas, Walk, as_schema};
use std::alloc::{AllocError, Global};
use std::collections::BTreeMap;

/// What was made of members that are merged on the walk: a schema without a walk has the longest of its parts in `allOf`,
/// `anyOf`, `oneOf` and `not`, marked, and the walk where there are none.
pub fn settled(alloc: Global, walk: &Walk, schema: Schema) -> Result<Schema, AllocError>
    ensures { IfOk result (λ s. schema_view s ≡ settled_of walk.now (schema_view schema)) }
{
    settle_schema(alloc, schema, walk)
}

#[cycle(settle)]
fn settle_schema(alloc: Global, schema: Schema, walk: &Walk) -> Result<Schema, AllocError>
    ensures { IfOk result (λ s. schema_view s ≡ settled_of walk.now (schema_view schema)) }
{
    match schema {
        Schema::Bool(b) => Ok(Schema::Bool(b)),
        Schema::Object(object) => {
            let settled = settle_object(alloc, object, walk)?;
            Ok(as_schema(settled))
        }
    }
}

#[cycle(settle)]
fn settle_object(
    alloc: Global,
    object: Box<SchemaObject>,
    walk: &Walk,
) -> Result<Box<SchemaObject>, AllocError>
    ensures { IfOk result (λ o. object_view o.value ≡ settled_of walk.now (object_view object.value)) }
{
    if object.walk.is_some() {
        return Ok(object);
    }
    let mut object = object;
    let subschemas = settle_maybe_subschemas(alloc, object.subschemas.take(), walk)?;
    let members = settle_maybe_members(alloc, object.object.take(), walk)?;
    let longest = longest_of(alloc, walk, &subschemas)?;
    let made = made_on(alloc, longest)?;
    object.subschemas = subschemas;
    object.object = members;
    object.walk = Some(made);
    Ok(object)
}

#[cycle(settle)]
fn settle_maybe_subschemas(
    alloc: Global,
    subschemas: Option<Subschemas>,
    walk: &Walk,
) -> Result<Option<Subschemas>, AllocError>
    ensures { IfOk result (λ s. same_of (option_map subschemas_view s) ≡ settled_same walk.now (same_of (option_map subschemas_view subschemas))) }
{
    match subschemas {
        Some(subschemas) => {
            let settled = settle_subschemas(alloc, subschemas, walk)?;
            Ok(Some(settled))
        }
        None => Ok(None),
    }
}

#[cycle(settle)]
fn settle_subschemas(
    alloc: Global,
    subschemas: Subschemas,
    walk: &Walk,
) -> Result<Subschemas, AllocError>
    ensures { IfOk result (λ s. subschemas_view s ≡ settled_same walk.now (subschemas_view subschemas)) }
{
    let Subschemas {
        all_of,
        any_of,
        one_of,
        not,
        conditional,
    } = subschemas;
    let all_of = match all_of {
        Some(schemas) => Some(settle_list(alloc, schemas, walk)?),
        None => None,
    };
    let any_of = match any_of {
        Some(schemas) => Some(settle_list(alloc, schemas, walk)?),
        None => None,
    };
    let one_of = match one_of {
        Some(schemas) => Some(settle_list(alloc, schemas, walk)?),
        None => None,
    };
    let not = match not {
        Some(schema) => Some(settle_box(alloc, schema, walk)?),
        None => None,
    };
    Ok(Subschemas {
        all_of,
        any_of,
        one_of,
        not,
        conditional,
    })
}

#[cycle(settle)]
fn settle_box(alloc: Global, schema: Box<Schema>, walk: &Walk) -> Result<Box<Schema>, AllocError>
    ensures { IfOk result (λ s. schema_view s.value ≡ settled_of walk.now (schema_view schema.value)) }
{
    let settled = settle_schema(alloc, Box::into_inner(schema), walk)?;
    let boxed = Box::new(alloc, settled)?;
    Ok(boxed)
}

#[cycle(settle)]
fn settle_list(alloc: Global, list: Vec<Schema>, walk: &Walk) -> Result<Vec<Schema>, AllocError>
    ensures { IfOk result (λ v. schemas (schemas_view v.items) ≡ settled_all walk.now (schemas (schemas_view list.items))) }
{
    let mut settled = Vec::with_capacity(alloc, list.len())?;
    for schema in list {
        settled.push(settle_schema(alloc, schema, walk)?)?;
    }
    Ok(settled)
}

#[cycle(settle)]
fn settle_maybe_members(
    alloc: Global,
    members: Option<ObjectValidation>,
    walk: &Walk,
) -> Result<Option<ObjectValidation>, AllocError>
    ensures { IfOk result (λ o. named_of (option_map members_view o) ≡ settled_named walk.now (named_of (option_map members_view members))) }
{
    match members {
        Some(members) => {
            let mut members = members;
            members.properties = settle_properties(alloc, members.properties, walk)?;
            Ok(Some(members))
        }
        None => Ok(None),
    }
}

#[cycle(settle)]
fn settle_properties(
    alloc: Global,
    properties: BTreeMap<String, Schema>,
    walk: &Walk,
) -> Result<BTreeMap<String, Schema>, AllocError>
    ensures { IfOk result (λ m. properties_view m.entries ≡ settled_properties walk.now (properties_view properties.entries)) }
{
    let mut settled = BTreeMap::new(alloc);
    for (name, schema) in properties {
        let made = settle_schema(alloc, schema, walk)?;
        drop(settled.insert(name, made)?);
    }
    Ok(settled)
}
