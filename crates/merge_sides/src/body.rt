//! The body of two objects, and a merge that is whole.
ghost use Rattle.std.specs.Prelude.{◌≡◌, IfOk, List, option_map, string_bytes};
ghost use Rattle.schema_defs.specs.Schema.{no_same, object};
ghost use Rattle.schema_types.specs.View.{array_view, lists_of, members_view, named_of, numbers_view, object_view, schema_view, texts_view, types_view};
ghost use Rattle.merge_defs.specs.Outcome.{Note, where_both};
ghost use Rattle.merge_defs.specs.Leaves.{two_lists};
ghost use Rattle.merge_defs.specs.Merge.{tidied as tidied_of};
ghost use Rattle.merge_defs.specs.Objects.{no_plain};
ghost use Rattle.merge_walks.specs.Made.{settled as settled_of};
ghost use Rattle.merge_leaves.specs.View.{values_view};
ghost use Rattle.merge_steps.specs.Ends.{Ends};
ghost use Rattle.merge_sides.specs.Leaves.{leaves_view};
ghost use Rattle.merge_sides.specs.Met.{body_outcome, listing, walk_or};

use crate::met::Leaves;
use merge_leaves::{both_values, tidied_values};
use merge_steps::{Stop, answered};
use merge_walked::settled;
use schema_types::{
    ArrayValidation, NumberValidation, ObjectValidation, Schema, SchemaObject, StringValidation,
    Types, Walk, as_schema,
};
use serde_json::Value;
use std::alloc::{AllocError, Global};

#[tactic(auto, using(crate::proofs::Made::made_object))]
fn object_of(
    types: Option<Types>,
    format: Option<String>,
    number: Option<NumberValidation>,
    string: Option<StringValidation>,
    enum_values: Option<Vec<Value>>,
    array: Option<ArrayValidation>,
    members: Option<ObjectValidation>,
) -> SchemaObject
    ensures { object_view result ≡ object (record no_plain { types = option_map types_view types; format = option_map string_bytes format; numbers = option_map numbers_view number; texts = option_map texts_view string; enum_values = values_view enum_values }) no_same (lists_of (option_map array_view array)) (named_of (option_map members_view members)) }
{
    SchemaObject {
        title: None,
        description: None,
        default: None,
        const_value: None,
        types,
        format,
        enum_values,
        subschemas: None,
        number,
        string,
        array,
        object: members,
        reference: None,
        walk: None,
    }
}

// The values that both sides list, or never.
#[tactic(auto, using(merge_steps::proofs::Ending::memory, crate::proofs::Going::quiet_ends))]
fn listed(
    alloc: Global,
    first: Option<Vec<Value>>,
    second: Option<Vec<Value>>,
) -> Result<Option<Vec<Value>>, Stop>
    ensures { (ns : List Note) → Ends values_view ns ns (where_both two_lists (values_view first) (values_view second)) result }
{
    let found = both_values(alloc, first, second)?;
    answered(found)
}

/// The object of merged leaves, lists and members, with the values that both sides list, or never.
pub fn body_of(
    alloc: Global,
    leaves: Leaves,
    array: Option<ArrayValidation>,
    members: Option<ObjectValidation>,
) -> Result<Schema, Stop>
    ensures { (ns : List Note) → Ends schema_view ns ns (body_outcome (leaves_view leaves) (lists_of (option_map array_view array)) (named_of (option_map members_view members))) result }
{
    let Leaves {
        types,
        format,
        number,
        string,
        values,
        other_values,
    } = leaves;
    let listed = listed(alloc, values, other_values)?;
    let object = object_of(types, format, number, string, listed, array, members);
    let boxed = Box::new(alloc, object)?;
    Ok(as_schema(boxed))
}

/// The object with other listed values.
#[tactic(auto, using(crate::proofs::Made::values_put))]
pub fn with_values(object: SchemaObject, values: Option<Vec<Value>>) -> SchemaObject
    ensures { object_view result ≡ listing (values_view values) (object_view object) }
{
    let SchemaObject {
        title,
        description,
        default,
        const_value,
        types,
        format,
        enum_values: _values,
        subschemas,
        number,
        string,
        array,
        object: members,
        reference,
        walk,
    } = object;
    SchemaObject {
        title,
        description,
        default,
        const_value,
        types,
        format,
        enum_values: values,
        subschemas,
        number,
        string,
        array,
        object: members,
        reference,
        walk,
    }
}

fn tidied_object(alloc: Global, object: SchemaObject) -> Result<SchemaObject, AllocError>
    ensures { IfOk result (λ o. object_view o ≡ tidied_of (object_view object)) }
{
    let listed = tidied_values(
        alloc,
        &object.types,
        &object.const_value,
        &object.enum_values,
    )?;
    Ok(with_values(object, listed))
}

// The schema without the listed values that the rest refuses.
fn tidied(alloc: Global, schema: Schema) -> Result<Schema, AllocError>
    ensures { IfOk result (λ s. schema_view s ≡ tidied_of (schema_view schema)) }
{
    match schema {
        Schema::Bool(b) => Ok(Schema::Bool(b)),
        Schema::Object(object) => {
            let object = tidied_object(alloc, Box::into_inner(object))?;
            let boxed = Box::new(alloc, object)?;
            Ok(as_schema(boxed))
        }
    }
}

/// The merge of two objects once the subschemas of both are in it: tidied, and settled on the walk.
pub fn finished(alloc: Global, walk: &Option<Walk>, body: Schema) -> Result<Schema, AllocError>
    ensures { IfOk result (λ s. schema_view s ≡ walk_or settled_of walk.now (tidied_of (schema_view body))) }
{
    let body = tidied(alloc, body)?;
    part_on(alloc, walk, body)
}

/// A part that is merged where members are merged on a walk: it may have been made on the way.
pub fn part_on(alloc: Global, walk: &Option<Walk>, part: Schema) -> Result<Schema, AllocError>
    ensures { IfOk result (λ s. schema_view s ≡ walk_or settled_of walk.now (schema_view part)) }
{
    match walk {
        None => Ok(part),
        Some(walk) => settled(alloc, walk, part),
    }
}
