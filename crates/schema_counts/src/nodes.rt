//! The schemas in a schema, itself and booleans included.
ghost use Rattle.std.specs.Prelude.{◌≡◌, ◌+◌, IfOk, option_map};
ghost use Rattle.schema_defs.specs.Schema.{schemas};
ghost use Rattle.schema_defs.specs.Counts.{lists_nodes as lists_nodes_in, maybe_nodes as maybe_nodes_in, named_nodes as named_nodes_in, places_nodes as places_nodes_in, properties_nodes as properties_nodes_in, same_nodes as same_nodes_in, schema_nodes as schema_nodes_in, schemas_nodes};
ghost use Rattle.schema_types.specs.View.{array_view, items_view, lists_of, maybe_view, members_view, named_of, object_view, places_of, properties_view, same_of, schema_view, schemas_view, subschemas_view};

use schema_types::{ArrayValidation, Items, ObjectValidation, Schema, SchemaObject, Subschemas};
use std::alloc::AllocError;
use std::collections::BTreeMap;

/// The sum. There is no memory for more schemas than a u64 counts.
pub(crate) fn plus(some: u64, more: u64) -> Result<u64, AllocError>
    ensures { IfOk result (λ n. n ≡ some + more) }
{
    match some.checked_add(more) {
        Some(sum) => Ok(sum),
        None => Err(AllocError),
    }
}

fn sum_of_three(one: u64, two: u64, three: u64) -> Result<u64, AllocError>
    ensures { IfOk result (λ n. n ≡ one + two + three) }
{
    let both = plus(one, two)?;
    let sum = plus(both, three)?;
    Ok(sum)
}

fn sum_of_four(one: u64, two: u64, three: u64, four: u64) -> Result<u64, AllocError>
    ensures { IfOk result (λ n. n ≡ one + two + three + four) }
{
    let some = sum_of_three(one, two, three)?;
    let sum = plus(some, four)?;
    Ok(sum)
}

#[cycle(nodes)]
pub(crate) fn schema_nodes(schema: &Schema) -> Result<u64, AllocError>
    ensures { IfOk result (λ n. n ≡ schema_nodes_in (schema_view schema.now)) }
{
    match schema {
        Schema::Bool(_) => Ok(1),
        Schema::Object(object) => {
            let count = object_nodes(object)?;
            Ok(count)
        }
    }
}

#[cycle(nodes)]
fn object_nodes(object: &SchemaObject) -> Result<u64, AllocError>
    ensures { IfOk result (λ n. n ≡ schema_nodes_in (object_view object.now)) }
{
    let same = given_same(&object.subschemas)?;
    let lists = given_lists(&object.array)?;
    let members = given_members(&object.object)?;
    let count = sum_of_four(1, same, lists, members)?;
    Ok(count)
}

#[cycle(nodes)]
fn given_same(subschemas: &Option<Subschemas>) -> Result<u64, AllocError>
    ensures { IfOk result (λ n. n ≡ same_nodes_in (same_of (option_map subschemas_view subschemas.now))) }
{
    match subschemas {
        Some(subschemas) => {
            let count = same_nodes(subschemas)?;
            Ok(count)
        }
        None => Ok(0),
    }
}

#[cycle(nodes)]
fn same_nodes(subschemas: &Subschemas) -> Result<u64, AllocError>
    ensures { IfOk result (λ n. n ≡ same_nodes_in (subschemas_view subschemas.now)) }
{
    let all = match &subschemas.all_of {
        Some(schemas) => list_nodes(schemas)?,
        None => 0,
    };
    let any = match &subschemas.any_of {
        Some(schemas) => list_nodes(schemas)?,
        None => 0,
    };
    let one = match &subschemas.one_of {
        Some(schemas) => list_nodes(schemas)?,
        None => 0,
    };
    let not = given_nodes(&subschemas.not)?;
    let count = sum_of_four(all, any, one, not)?;
    Ok(count)
}

#[cycle(nodes)]
fn given_lists(array: &Option<ArrayValidation>) -> Result<u64, AllocError>
    ensures { IfOk result (λ n. n ≡ lists_nodes_in (lists_of (option_map array_view array.now))) }
{
    match array {
        Some(array) => {
            let count = lists_nodes(array)?;
            Ok(count)
        }
        None => Ok(0),
    }
}

#[cycle(nodes)]
fn lists_nodes(array: &ArrayValidation) -> Result<u64, AllocError>
    ensures { IfOk result (λ n. n ≡ lists_nodes_in (array_view array.now)) }
{
    let places = given_places(&array.items)?;
    let rest = given_nodes(&array.additional_items)?;
    let contains = given_nodes(&array.contains)?;
    let count = sum_of_three(places, rest, contains)?;
    Ok(count)
}

#[cycle(nodes)]
fn given_places(items: &Option<Items>) -> Result<u64, AllocError>
    ensures { IfOk result (λ n. n ≡ places_nodes_in (places_of (option_map items_view items.now))) }
{
    match items {
        Some(Items::One(schema)) => {
            let count = schema_nodes(schema)?;
            Ok(count)
        }
        Some(Items::Many(schemas)) => {
            let count = list_nodes(schemas)?;
            Ok(count)
        }
        None => Ok(0),
    }
}

#[cycle(nodes)]
fn given_members(object: &Option<ObjectValidation>) -> Result<u64, AllocError>
    ensures { IfOk result (λ n. n ≡ named_nodes_in (named_of (option_map members_view object.now))) }
{
    match object {
        Some(object) => {
            let count = named_nodes(object)?;
            Ok(count)
        }
        None => Ok(0),
    }
}

#[cycle(nodes)]
fn named_nodes(object: &ObjectValidation) -> Result<u64, AllocError>
    ensures { IfOk result (λ n. n ≡ named_nodes_in (members_view object.now)) }
{
    let properties = properties_nodes(&object.properties)?;
    let patterns = properties_nodes(&object.pattern_properties)?;
    let rest = given_nodes(&object.additional_properties)?;
    let names = given_nodes(&object.property_names)?;
    let count = sum_of_four(properties, patterns, rest, names)?;
    Ok(count)
}

#[cycle(nodes)]
fn given_nodes(schema: &Option<Box<Schema>>) -> Result<u64, AllocError>
    ensures { IfOk result (λ n. n ≡ maybe_nodes_in (maybe_view schema.now)) }
{
    match schema {
        Some(schema) => {
            let count = schema_nodes(schema)?;
            Ok(count)
        }
        None => Ok(0),
    }
}

#[cycle(nodes)]
#[tactic(auto, using(crate::proofs::Sums::one_listed, crate::proofs::Sums::all_listed))]
fn list_nodes(list: &Vec<Schema>) -> Result<u64, AllocError>
    ensures { IfOk result (λ n. n ≡ schemas_nodes (schemas (schemas_view list.now.items))) }
{
    let mut count = 0;
    for schema in list {
        count = plus(count, schema_nodes(schema)?)?;
    }
    Ok(count)
}

#[cycle(nodes)]
#[tactic(auto, using(crate::proofs::Sums::one_named, crate::proofs::Sums::all_named))]
fn properties_nodes(properties: &BTreeMap<String, Schema>) -> Result<u64, AllocError>
    ensures { IfOk result (λ n. n ≡ properties_nodes_in (properties_view properties.now.entries)) }
{
    let mut count = 0;
    for (_, schema) in properties.iter() {
        count = plus(count, schema_nodes(schema)?)?;
    }
    Ok(count)
}
