//! Schemas of their own, in place of those that borrow their keywords.
ghost use Rattle.std.specs.Prelude.{◌≡◌, IfOk, map, not, option_map, string_bytes};
ghost use Rattle.model_defs.specs.Layer.{is_null as is_null_of};
ghost use Rattle.convert_defs.specs.Scalars.{non_null as non_null_of};
ghost use Rattle.merge_walks.specs.Carried.{carried as carried_of};
ghost use Rattle.json_value.specs.View.{kept_view};
ghost use Rattle.schema_types.specs.View.{array_view, members_view, object_view, same_of, schema_view, subschemas_view, texts_view, types_view};
ghost use Rattle.row_findings.specs.Given.{given_types_view, given_values_view, keywords_view, source_view};
ghost use Rattle.merged_rows.specs.Rows.{subschemas_in, without_reference as without_reference_of, without_subschemas};

use row_findings::{GivenTypes, GivenValues, Keywords, Source};
use schema_types::{
    ArrayValidation, ObjectValidation, Schema, SchemaObject, StringValidation, Subschemas, Types,
    Walk, as_schema, copy_list_of_values, copy_type_names,
};
use serde_json::Value;
use std::alloc::{AllocError, Global};

// ---- keywords

pub(crate) fn text_of(alloc: Global, text: Option<&String>) -> Result<Option<String>, AllocError>
    ensures { IfOk result (λ o. option_map string_bytes o ≡ option_map (λ t. string_bytes t.now) text.entry) }
{
    match text {
        Some(text) => Ok(Some(String::from_str(alloc, text)?)),
        None => Ok(None),
    }
}

pub(crate) fn value_of(value: Option<&Value>) -> Result<Option<Value>, AllocError>
    ensures { IfOk result (λ o. option_map kept_view o ≡ option_map (λ v. kept_view v.now) value.entry) }
{
    match value {
        Some(value) => Ok(Some(value.clone()?)),
        None => Ok(None),
    }
}

fn types_of(alloc: Global, types: Option<GivenTypes<'_>>) -> Result<Option<Types>, AllocError>
    ensures { IfOk result (λ o. option_map types_view o ≡ option_map given_types_view types.entry) }
{
    match types {
        Some(GivenTypes::One(kind)) => Ok(Some(Types::One(kind))),
        Some(GivenTypes::Many(kinds)) => Ok(Some(Types::Many(copy_type_names(alloc, kinds)?))),
        None => Ok(None),
    }
}

fn walk_of(alloc: Global, walk: Option<&Walk>) -> Result<Option<Walk>, AllocError>
    ensures { IfOk result (λ o. o ≡ option_map (λ w. w.now) walk.entry) }
{
    match walk {
        Some(walk) => Ok(Some(walk.try_clone(alloc)?)),
        None => Ok(None),
    }
}

fn stays(value: &Value) -> bool
    ensures { result ≡ not (is_null_of (kept_view value.now)) }
{
    match value {
        Value::Null => false,
        _ => true,
    }
}

#[tactic(auto, using(crate::proofs::NonNull::value_kept, crate::proofs::NonNull::value_left, crate::proofs::NonNull::values_end))]
fn non_null(alloc: Global, listed: &Vec<Value>) -> Result<Vec<Value>, AllocError>
    ensures { IfOk result (λ v. map kept_view v.items ≡ non_null_of (map kept_view listed.now.items)) }
{
    let mut kept = Vec::new(alloc);
    for value in listed {
        if stays(value) {
            kept.push(value.clone()?)?;
        }
    }
    Ok(kept)
}

fn given_values(alloc: Global, values: GivenValues<'_>) -> Result<Vec<Value>, AllocError>
    ensures { IfOk result (λ v. map kept_view v.items ≡ given_values_view values.entry) }
{
    if values.less_nulls {
        let kept = non_null(alloc, values.listed)?;
        return Ok(kept);
    }
    let copies = copy_list_of_values(alloc, values.listed)?;
    Ok(copies)
}

fn values_of(
    alloc: Global,
    values: Option<GivenValues<'_>>,
) -> Result<Option<Vec<Value>>, AllocError>
    ensures { IfOk result (λ o. option_map (λ v. map kept_view v.items) o ≡ option_map given_values_view values.entry) }
{
    match values {
        Some(values) => Ok(Some(given_values(alloc, values)?)),
        None => Ok(None),
    }
}

fn texts_of(
    alloc: Global,
    texts: Option<&StringValidation>,
) -> Result<Option<StringValidation>, AllocError>
    ensures { IfOk result (λ o. option_map texts_view o ≡ option_map (λ t. texts_view t.now) texts.entry) }
{
    match texts {
        Some(texts) => Ok(Some(texts.try_clone(alloc)?)),
        None => Ok(None),
    }
}

fn subschemas_of(
    alloc: Global,
    subschemas: Option<&Subschemas>,
) -> Result<Option<Subschemas>, AllocError>
    ensures { IfOk result (λ o. option_map subschemas_view o ≡ option_map (λ s. subschemas_view s.now) subschemas.entry) }
{
    match subschemas {
        Some(subschemas) => Ok(Some(subschemas.try_clone(alloc)?)),
        None => Ok(None),
    }
}

fn array_of(
    alloc: Global,
    array: Option<&ArrayValidation>,
) -> Result<Option<ArrayValidation>, AllocError>
    ensures { IfOk result (λ o. option_map array_view o ≡ option_map (λ a. array_view a.now) array.entry) }
{
    match array {
        Some(array) => Ok(Some(array.try_clone(alloc)?)),
        None => Ok(None),
    }
}

fn members_of(
    alloc: Global,
    members: Option<&ObjectValidation>,
) -> Result<Option<ObjectValidation>, AllocError>
    ensures { IfOk result (λ o. option_map members_view o ≡ option_map (λ m. members_view m.now) members.entry) }
{
    match members {
        Some(members) => Ok(Some(members.try_clone(alloc)?)),
        None => Ok(None),
    }
}

fn object_of(alloc: Global, keywords: &Keywords<'_>) -> Result<SchemaObject, AllocError>
    ensures { IfOk result (λ o. object_view o ≡ keywords_view keywords.now) }
{
    let title = text_of(alloc, keywords.title)?;
    let description = text_of(alloc, keywords.description)?;
    let default = value_of(keywords.default)?;
    let const_value = value_of(keywords.const_value)?;
    let types = types_of(alloc, keywords.types)?;
    let format = text_of(alloc, keywords.format)?;
    let enum_values = values_of(alloc, keywords.enum_values)?;
    let subschemas = subschemas_of(alloc, keywords.subschemas)?;
    let string = texts_of(alloc, keywords.texts)?;
    let array = array_of(alloc, keywords.lists)?;
    let object = members_of(alloc, keywords.members)?;
    let reference = text_of(alloc, keywords.reference)?;
    let walk = walk_of(alloc, keywords.walk)?;
    Ok(SchemaObject {
        title,
        description,
        default,
        const_value,
        types,
        format,
        enum_values,
        subschemas,
        number: keywords.numbers,
        string,
        array,
        object,
        reference,
        walk,
    })
}

/// A copy that borrows nothing. Fails only for want of memory.
pub fn owned(alloc: Global, source: &Source<'_>) -> Result<Schema, AllocError>
    ensures { IfOk result (λ s. schema_view s ≡ source_view source.now) }
{
    match source {
        Source::Written(schema) => {
            let copy = schema.try_clone(alloc)?;
            Ok(copy)
        }
        Source::Bool(b) => Ok(Schema::Bool(*b)),
        Source::Made(keywords) => {
            let object = object_of(alloc, keywords)?;
            let boxed = Box::new(alloc, object)?;
            Ok(as_schema(boxed))
        }
    }
}

// ---- with a walk, and without keywords

#[tactic(auto, using(merge_walked::proofs::Carries::keeps, merge_walked::proofs::Carries::takes))]
fn carried_object(object: Box<SchemaObject>, walk: Walk) -> Box<SchemaObject>
    ensures { object_view result.value ≡ carried_of walk (object_view object.value) }
{
    if object.walk.is_some() {
        return object;
    }
    let mut object = object;
    object.walk = Some(walk);
    object
}

/// The schema with this walk, unless it has one. It takes no memory, as all that follows.
pub fn carried(schema: Schema, walk: Walk) -> Schema
    ensures { schema_view result ≡ carried_of walk (schema_view schema) }
{
    match schema {
        Schema::Bool(b) => Schema::Bool(b),
        Schema::Object(object) => as_schema(carried_object(object, walk)),
    }
}

fn object_without_reference(object: Box<SchemaObject>) -> Box<SchemaObject>
    ensures { object_view result.value ≡ without_reference_of (object_view object.value) }
{
    let mut object = object;
    object.reference = None;
    object
}

pub fn without_reference(schema: Schema) -> Schema
    ensures { schema_view result ≡ without_reference_of (schema_view schema) }
{
    match schema {
        Schema::Bool(b) => Schema::Bool(b),
        Schema::Object(object) => as_schema(object_without_reference(object)),
    }
}

fn split_object(object: Box<SchemaObject>) -> (Box<SchemaObject>, Option<Subschemas>)
    ensures body { object_view result.0.value ≡ without_subschemas (object_view object.value) }
    ensures subschemas { same_of (option_map subschemas_view result.1) ≡ subschemas_in (object_view object.value) }
{
    let mut object = object;
    let subschemas = object.subschemas.take();
    (object, subschemas)
}

/// The schema without its subschemas, and those.
pub fn split(schema: Schema) -> (Schema, Option<Subschemas>)
    ensures body { schema_view result.0 ≡ without_subschemas (schema_view schema) }
    ensures subschemas { same_of (option_map subschemas_view result.1) ≡ subschemas_in (schema_view schema) }
{
    match schema {
        Schema::Bool(b) => (Schema::Bool(b), None),
        Schema::Object(object) => {
            let (body, subschemas) = split_object(object);
            (as_schema(body), subschemas)
        }
    }
}
