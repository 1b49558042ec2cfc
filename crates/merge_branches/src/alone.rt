//! Schemas of subschemas alone.
ghost use Rattle.std.specs.Prelude.{◌≡◌, IfOk, false};
ghost use Rattle.schema_defs.specs.Schema.{no_list, no_schema, same_value, schemas as schemas_of, the_list, the_schema};
ghost use Rattle.schema_types.specs.View.{object_view, schema_view, schemas_view, subschemas_view};
ghost use Rattle.merge_defs.specs.Members.{all_of as all_of_def, negation as negation_of, only_same};
ghost use Rattle.merge_branches.specs.Kept.{branch_of};

use crate::branch::Branch;
use schema_types::{Schema, SchemaObject, Subschemas, as_schema};
use std::alloc::{AllocError, Global};

fn only_subschemas(subschemas: Subschemas) -> SchemaObject
    ensures { object_view result ≡ only_same (subschemas_view subschemas) }
{
    SchemaObject {
        title: None,
        description: None,
        default: None,
        const_value: None,
        types: None,
        format: None,
        enum_values: None,
        subschemas: Some(subschemas),
        number: None,
        string: None,
        array: None,
        object: None,
        reference: None,
        walk: None,
    }
}

// The schema that says the subschemas and nothing else.
fn schema_of(alloc: Global, subschemas: Subschemas) -> Result<Schema, AllocError>
    ensures { IfOk result (λ s. schema_view s ≡ only_same (subschemas_view subschemas)) }
{
    let object = only_subschemas(subschemas);
    let boxed = Box::new(alloc, object)?;
    Ok(as_schema(boxed))
}

fn only_all(schemas: Vec<Schema>) -> Subschemas
    ensures { subschemas_view result ≡ same_value (the_list (schemas_of (schemas_view schemas.items))) no_list no_list no_schema false }
{
    Subschemas {
        all_of: Some(schemas),
        any_of: None,
        one_of: None,
        not: None,
        conditional: false,
    }
}

fn only_any(schemas: Vec<Schema>) -> Subschemas
    ensures { subschemas_view result ≡ same_value no_list (the_list (schemas_of (schemas_view schemas.items))) no_list no_schema false }
{
    Subschemas {
        all_of: None,
        any_of: Some(schemas),
        one_of: None,
        not: None,
        conditional: false,
    }
}

fn only_one(schemas: Vec<Schema>) -> Subschemas
    ensures { subschemas_view result ≡ same_value no_list no_list (the_list (schemas_of (schemas_view schemas.items))) no_schema false }
{
    Subschemas {
        all_of: None,
        any_of: None,
        one_of: Some(schemas),
        not: None,
        conditional: false,
    }
}

fn only_not(schema: Box<Schema>) -> Subschemas
    ensures { subschemas_view result ≡ same_value no_list no_list no_list (the_schema (schema_view schema.value)) false }
{
    Subschemas {
        all_of: None,
        any_of: None,
        one_of: None,
        not: Some(schema),
        conditional: false,
    }
}

/// `allOf` of the schemas.
pub(crate) fn all_of(alloc: Global, schemas: Vec<Schema>) -> Result<Schema, AllocError>
    ensures { IfOk result (λ s. schema_view s ≡ all_of_def (schemas_view schemas.items)) }
{
    let schema = schema_of(alloc, only_all(schemas))?;
    Ok(schema)
}

/// `anyOf` or `oneOf` of the schemas.
pub(crate) fn branch_schema(
    alloc: Global,
    branch: Branch,
    schemas: Vec<Schema>,
) -> Result<Schema, AllocError>
    ensures { IfOk result (λ s. schema_view s ≡ branch_of branch (schemas_view schemas.items)) }
{
    match branch {
        Branch::Any => {
            let schema = schema_of(alloc, only_any(schemas))?;
            Ok(schema)
        }
        Branch::One => {
            let schema = schema_of(alloc, only_one(schemas))?;
            Ok(schema)
        }
    }
}

/// `not` of a copy of the schema.
pub(crate) fn negation(alloc: Global, schema: &Schema) -> Result<Schema, AllocError>
    ensures { IfOk result (λ s. schema_view s ≡ negation_of (schema_view schema.now)) }
{
    let copy = schema.try_clone(alloc)?;
    let boxed = Box::new(alloc, copy)?;
    let schema = schema_of(alloc, only_not(boxed))?;
    Ok(schema)
}
