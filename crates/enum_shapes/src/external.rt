//! The external shape: texts alone, or objects of one property.
ghost use Rattle.std.specs.Prelude.{◌≡◌, ◌++◌, ◌∷◌, [], Some, OnOk, IfOk, MatchOption, map, option_map};
ghost use Rattle.schema_defs.specs.Schema.{property, no_properties};
ghost use Rattle.json_value.specs.View.{kept_view};
ghost use Rattle.schema_types.specs.View.{schema_view, schemas_view, members_view, properties_view};
ghost use Rattle.enum_defs.specs.Words.{all_some};
ghost use Rattle.enum_defs.specs.Shapes.{external_shape as external_shape_of, all_cases, external_cases as external_cases_of, text_cases as text_cases_of, text_case as text_case_of, may_list_texts as may_list_texts_of, listed_texts, texts_of as texts_in, property_case as property_case_of, only_property as only_property_of, if_differ};
ghost use Rattle.enum_shapes.specs.View.{case_view, shape_view};
ghost use Rattle.enum_shapes.specs.Here.{text_case_in, IsNotLone};

use crate::cases::{Case, do_names_differ};
use crate::keyword::{as_text, may_be_text};
use crate::object::{ObjectShape, object_shape, requires_name};
use schema_types::{ObjectValidation, Schema};
use serde_json::Value;
use std::alloc::{AllocError, Global};
use std::collections::BTreeMap;

/// The cases of the external shape, in order: each schema has `enum` of texts or `const` a text, not both, with at most
/// the type of texts and keywords of other parts than `format`, `$ref` and subschemas; or it is an object of one
/// property, required, and has no more keywords than `additionalProperties` as a boolean. The names differ. No schemas
/// have no cases. `AllocError` where memory runs out. (serde: externally tagged enums.)
pub fn external_shape<'s>(
    alloc: Global,
    schemas: &'s [Schema],
) -> Result<Option<Vec<Case<'s>>>, AllocError>
    ensures { IfOk result (λ o. option_map (λ v. map case_view v.items) o ≡ external_shape_of (schemas_view schemas.now)) }
{
    let Some(cases) = cases_of_all(alloc, schemas)? else {
        return Ok(None);
    };
    if do_names_differ(alloc, &cases)? {
        Ok(Some(cases))
    } else {
        Ok(None)
    }
}

fn cases_of_all<'s>(
    alloc: Global,
    schemas: &'s [Schema],
) -> Result<Option<Vec<Case<'s>>>, AllocError>
    ensures { IfOk result (λ o. option_map (λ v. map case_view v.items) o ≡ all_cases (schemas_view schemas.now)) }
{
    let mut cases = Vec::new(alloc);
    let mut left = schemas;
    while let Some((schema, rest)) = left.split_first() {
        match external_cases(alloc, schema)? {
            Some(more) => cases.extend_from_slice(more.as_slice())?,
            None => return Ok(None),
        }
        left = rest;
    }
    Ok(Some(cases))
}

fn external_cases<'s>(
    alloc: Global,
    schema: &'s Schema,
) -> Result<Option<Vec<Case<'s>>>, AllocError>
    ensures { IfOk result (λ o. option_map (λ v. map case_view v.items) o ≡ external_cases_of (schema_view schema.now)) }
{
    match text_cases(alloc, schema)? {
        Some(cases) => Ok(Some(cases)),
        None => match object_shape(schema) {
            Some(shape) => property_case(alloc, &shape),
            None => Ok(None),
        },
    }
}

// ---- texts

fn may_list_texts(schema: &Schema) -> bool
    ensures { result ≡ may_list_texts_of (schema_view schema.now) }
{
    match schema {
        Schema::Bool(_) => false,
        Schema::Object(object) => {
            may_be_text(&object.types)
                && object.format.is_none()
                && object.reference.is_none()
                && object.subschemas.is_none()
        }
    }
}

fn text_case<'s>(text: &'s str) -> Case<'s>
    ensures { case_view result ≡ text_case_of text.now }
{
    Case {
        name: text,
        content: None,
        closed: false,
    }
}

fn case_in<'s>(value: &'s Value) -> Option<Case<'s>>
    ensures { option_map case_view result ≡ text_case_in (kept_view value.now) }
{
    match as_text(value) {
        Some(text) => Some(text_case(text)),
        None => None,
    }
}

fn cases_in<'s>(alloc: Global, values: &'s [Value]) -> Result<Option<Vec<Case<'s>>>, AllocError>
    ensures { IfOk result (λ o. option_map (λ v. map case_view v.items) o ≡ all_some text_case_in (map kept_view values.now)) }
{
    let mut cases = Vec::new(alloc);
    let mut left = values;
    while let Some((value, rest)) = left.split_first() {
        match case_in(value) {
            Some(case) => cases.push(case)?,
            None => return Ok(None),
        }
        left = rest;
    }
    Ok(Some(cases))
}

fn case_of_constant<'s>(
    alloc: Global,
    value: &'s Value,
) -> Result<Option<Vec<Case<'s>>>, AllocError>
    ensures { IfOk result (λ o. option_map (λ v. map case_view v.items) o ≡ all_some text_case_in (kept_view value.now ∷ [])) }
{
    match case_in(value) {
        Some(case) => one_case(alloc, case),
        None => Ok(None),
    }
}

fn one_case<'s>(alloc: Global, case: Case<'s>) -> Result<Option<Vec<Case<'s>>>, AllocError>
    ensures { IfOk result (λ o. option_map (λ v. map case_view v.items) o ≡ Some (case_view case.entry ∷ [])) }
{
    let mut cases = Vec::new(alloc);
    cases.push(case)?;
    Ok(Some(cases))
}

#[tactic(auto, using(crate::proofs::Gathered::listed_alone, crate::proofs::Gathered::listed_in))]
fn listed_cases<'s>(
    alloc: Global,
    constant: &'s Option<Value>,
    values: &'s Option<Vec<Value>>,
) -> Result<Option<Vec<Case<'s>>>, AllocError>
    ensures { IfOk result (λ o. option_map (λ v. map case_view v.items) o ≡ option_map (map text_case_of) (listed_texts (option_map kept_view constant.now) (option_map (λ v. map kept_view v.items) values.now))) }
{
    match constant {
        Some(value) => match values {
            None => case_of_constant(alloc, value),
            Some(_) => Ok(None),
        },
        None => match values {
            Some(values) => cases_in(alloc, values.as_slice()),
            None => Ok(None),
        },
    }
}

fn cases_of_texts<'s>(
    alloc: Global,
    schema: &'s Schema,
) -> Result<Option<Vec<Case<'s>>>, AllocError>
    ensures { IfOk result (λ o. option_map (λ v. map case_view v.items) o ≡ option_map (map text_case_of) (texts_in (schema_view schema.now))) }
{
    match schema {
        Schema::Bool(_) => Ok(None),
        Schema::Object(object) => listed_cases(alloc, &object.const_value, &object.enum_values),
    }
}

fn text_cases<'s>(alloc: Global, schema: &'s Schema) -> Result<Option<Vec<Case<'s>>>, AllocError>
    ensures { IfOk result (λ o. option_map (λ v. map case_view v.items) o ≡ text_cases_of (schema_view schema.now)) }
{
    if may_list_texts(schema) {
        cases_of_texts(alloc, schema)
    } else {
        Ok(None)
    }
}

// ---- properties

fn only_property<'s>(properties: &'s BTreeMap<String, Schema>) -> Option<(&'s str, &'s Schema)>
    ensures { MatchOption result (IsNotLone (properties_view properties.now.entries)) (λ p. properties_view properties.now.entries ≡ property p.0.now (schema_view p.1.now) no_properties) }
{
    let mut entries = properties.iter();
    match entries.next() {
        Some((name, schema)) => match entries.next() {
            Some(_) => None,
            None => Some((name.as_str(), schema)),
        },
        None => None,
    }
}

fn only_case<'s>(
    alloc: Global,
    closed: bool,
    members: &'s ObjectValidation,
) -> Result<Option<Vec<Case<'s>>>, AllocError>
    ensures { IfOk result (λ o. option_map (λ v. map case_view v.items) o ≡ property_case_of (record { object = members_view members.now; closed = closed })) }
{
    match only_property(&members.properties) {
        Some((name, schema)) => {
            if requires_name(&members.required, name) {
                one_case(
                    alloc,
                    Case {
                        name,
                        content: Some(schema),
                        closed,
                    },
                )
            } else {
                Ok(None)
            }
        }
        None => Ok(None),
    }
}

fn property_case<'s>(
    alloc: Global,
    shape: &ObjectShape<'s>,
) -> Result<Option<Vec<Case<'s>>>, AllocError>
    ensures { IfOk result (λ o. option_map (λ v. map case_view v.items) o ≡ property_case_of (shape_view shape.now)) }
{
    match shape.object {
        Some(members) => only_case(alloc, shape.closed, members),
        None => Ok(None),
    }
}
