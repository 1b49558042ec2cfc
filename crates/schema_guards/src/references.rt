//! The references of a schema at one value.
ghost use Rattle.std.specs.Prelude.{◌≡◌, [], ◌++◌, map, option_map, option_to_list, string_bytes, OnOk, IfOk};
ghost use Rattle.schema_types.specs.View.{schema_view, object_view, subschemas_view, schemas_view, maybe_view};
ghost use Rattle.schema_defs.specs.Schema.{schemas};
ghost use Rattle.schema_defs.specs.References.{same_references, references_of_same, references_of_maybe, references_of_all};

use schema_types::{Schema, SchemaObject, Subschemas};
use std::alloc::{AllocError, Global};

/// The references that judge the same value as the schema: its own, and those of its members of `allOf`, `anyOf` and
/// `oneOf` and of its `not`, each as often as it stands.
pub fn references_of<'a>(alloc: Global, schema: &'a Schema) -> Result<Vec<&'a str>, AllocError>
    ensures { IfOk result (λ v. map (λ t. t.now) v.items ≡ same_references (schema_view schema.now)) }
{
    let mut texts = Vec::new(alloc);
    push_of_schema(schema, &mut texts)?;
    Ok(texts)
}

#[cycle(references)]
fn push_of_schema<'a>(schema: &'a Schema, texts: &mut Vec<&'a str>) -> Result<(), AllocError>
    ensures { OnOk result (map (λ t. t.now) texts.new.items ≡ map (λ t. t.now) texts.old.items ++ same_references (schema_view schema.now)) }
{
    match schema {
        Schema::Bool(_) => Ok(()),
        Schema::Object(object) => push_of_object(object, texts),
    }
}

#[cycle(references)]
fn push_of_object<'a>(object: &'a SchemaObject, texts: &mut Vec<&'a str>) -> Result<(), AllocError>
    ensures { OnOk result (map (λ t. t.now) texts.new.items ≡ map (λ t. t.now) texts.old.items ++ same_references (object_view object.now)) }
{
    push_own(&object.reference, texts)?;
    match &object.subschemas {
        Some(subschemas) => push_of_subschemas(subschemas, texts),
        None => Ok(()),
    }
}

fn push_own<'a>(reference: &'a Option<String>, texts: &mut Vec<&'a str>) -> Result<(), AllocError>
    ensures { OnOk result (map (λ t. t.now) texts.new.items ≡ map (λ t. t.now) texts.old.items ++ option_to_list (option_map string_bytes reference.now)) }
{
    match reference {
        Some(text) => {
            texts.push(text.as_str())?;
            Ok(())
        }
        None => Ok(()),
    }
}

#[cycle(references)]
fn push_of_subschemas<'a>(
    subschemas: &'a Subschemas,
    texts: &mut Vec<&'a str>,
) -> Result<(), AllocError>
    ensures { OnOk result (map (λ t. t.now) texts.new.items ≡ map (λ t. t.now) texts.old.items ++ references_of_same (subschemas_view subschemas.now)) }
{
    match &subschemas.all_of {
        Some(list) => push_of_all(list, texts)?,
        None => {}
    }
    match &subschemas.any_of {
        Some(list) => push_of_all(list, texts)?,
        None => {}
    }
    match &subschemas.one_of {
        Some(list) => push_of_all(list, texts)?,
        None => {}
    }
    push_of_maybe(&subschemas.not, texts)?;
    Ok(())
}

#[cycle(references)]
fn push_of_all<'a>(list: &'a Vec<Schema>, texts: &mut Vec<&'a str>) -> Result<(), AllocError>
    ensures { OnOk result (map (λ t. t.now) texts.new.items ≡ map (λ t. t.now) texts.old.items ++ references_of_all (schemas (schemas_view list.now.items))) }
{
    for schema in list {
        push_of_schema(schema, texts)?;
    }
    Ok(())
}

#[cycle(references)]
fn push_of_maybe<'a>(
    schema: &'a Option<Box<Schema>>,
    texts: &mut Vec<&'a str>,
) -> Result<(), AllocError>
    ensures { OnOk result (map (λ t. t.now) texts.new.items ≡ map (λ t. t.now) texts.old.items ++ references_of_maybe (maybe_view schema.now)) }
{
    match schema {
        Some(schema) => push_of_schema(schema, texts),
        None => Ok(()),
    }
}
