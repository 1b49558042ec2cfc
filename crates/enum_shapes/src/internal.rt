//! The internal shape: objects with a tag among their members.
ghost use Rattle.std.specs.Prelude.{◌≡◌, IfOk, map, option_map};
ghost use Rattle.schema_types.specs.View.{schema_view, schemas_view, properties_view};
ghost use Rattle.enum_defs.specs.Words.{all_differ as all_differ_in, all_some, first_some, names_of};
ghost use Rattle.enum_defs.specs.Shapes.{object_shape as object_shape_of, internal_shape as internal_shape_of, internal_case as internal_case_of, internal_by as internal_by_of, tagged_by as tagged_by_in};
ghost use Rattle.enum_shapes.specs.View.{shape_view, internal_case_view, internal_view};

use crate::cases::all_differ;
use crate::object::{ObjectShape, constant_of, is_required, object_shape};
use schema_types::{ObjectValidation, Schema};
use std::alloc::{AllocError, Global};
use std::collections::BTreeMap;

/// A variant that is an object with the tag among its members: the tag's text, and the keywords of the members.
#[derive(Clone, Copy)]
pub struct InternalCase<'s> {
    pub name: &'s str,
    pub object: &'s ObjectValidation,
    pub closed: bool,
}

/// The tag and the cases of the internal shape.
#[derive(Drop)]
pub struct InternalShape<'s> {
    pub tag: &'s str,
    pub cases: Vec<InternalCase<'s>>,
}

/// The tag and the cases of the internal shape, in order: all schemas are of type object, with `properties`, a `required`
/// within it and `additionalProperties` as a boolean at most; the tag is the first property of the first, in the order of
/// names, that is required and a constant text in all, with texts that differ. No schemas have no such shape.
/// `AllocError` where memory runs out. (serde: internally tagged enums.)
pub fn internal_shape<'s>(
    alloc: Global,
    schemas: &'s [Schema],
) -> Result<Option<InternalShape<'s>>, AllocError>
    ensures { IfOk result (λ o. option_map internal_view o ≡ internal_shape_of (schemas_view schemas.now)) }
{
    let Some(shapes) = object_shapes(alloc, schemas)? else {
        return Ok(None);
    };
    internal_by(alloc, shapes.as_slice())
}

pub(crate) fn object_shapes<'s>(
    alloc: Global,
    schemas: &'s [Schema],
) -> Result<Option<Vec<ObjectShape<'s>>>, AllocError>
    ensures { IfOk result (λ o. option_map (λ v. map shape_view v.items) o ≡ all_some object_shape_of (schemas_view schemas.now)) }
{
    let mut shapes = Vec::new(alloc);
    let mut left = schemas;
    while let Some((schema, rest)) = left.split_first() {
        match object_shape(schema) {
            Some(shape) => shapes.push(shape)?,
            None => return Ok(None),
        }
        left = rest;
    }
    Ok(Some(shapes))
}

// The tag among the properties of the first shape.
fn internal_by<'s>(
    alloc: Global,
    shapes: &[ObjectShape<'s>],
) -> Result<Option<InternalShape<'s>>, AllocError>
    ensures { IfOk result (λ o. option_map internal_view o ≡ internal_by_of (map shape_view shapes.now)) }
{
    match shapes.split_first() {
        Some((first, _)) => match first.object {
            Some(members) => tag_among(alloc, shapes, &members.properties),
            None => Ok(None),
        },
        None => Ok(None),
    }
}

fn tag_among<'s>(
    alloc: Global,
    shapes: &[ObjectShape<'s>],
    properties: &'s BTreeMap<String, Schema>,
) -> Result<Option<InternalShape<'s>>, AllocError>
    ensures { IfOk result (λ o. option_map internal_view o ≡ first_some (tagged_by_in (map shape_view shapes.now)) (names_of (properties_view properties.now.entries))) }
{
    for (name, _) in properties.iter() {
        if let Some(shape) = tagged_by(alloc, shapes, name.as_str())? {
            return Ok(Some(shape));
        }
    }
    Ok(None)
}

fn tagged_by<'s>(
    alloc: Global,
    shapes: &[ObjectShape<'s>],
    tag: &'s str,
) -> Result<Option<InternalShape<'s>>, AllocError>
    ensures { IfOk result (λ o. option_map internal_view o ≡ tagged_by_in (map shape_view shapes.now) tag.now) }
{
    let Some(cases) = internal_cases(alloc, shapes, tag)? else {
        return Ok(None);
    };
    if do_names_differ(alloc, &cases)? {
        Ok(Some(InternalShape { tag, cases }))
    } else {
        Ok(None)
    }
}

fn internal_cases<'s>(
    alloc: Global,
    shapes: &[ObjectShape<'s>],
    tag: &str,
) -> Result<Option<Vec<InternalCase<'s>>>, AllocError>
    ensures { IfOk result (λ o. option_map (λ v. map internal_case_view v.items) o ≡ all_some (internal_case_of tag.now) (map shape_view shapes.now)) }
{
    let mut cases = Vec::new(alloc);
    for shape in shapes {
        match internal_case(shape, tag) {
            Some(case) => cases.push(case)?,
            None => return Ok(None),
        }
    }
    Ok(Some(cases))
}

fn internal_case<'s>(shape: &ObjectShape<'s>, tag: &str) -> Option<InternalCase<'s>>
    ensures { option_map internal_case_view result ≡ internal_case_of tag.now (shape_view shape.now) }
{
    match shape.object {
        Some(object) => {
            if !is_required(shape, tag) {
                return None;
            }
            match constant_of(shape, tag) {
                Some(name) => Some(InternalCase {
                    name,
                    object,
                    closed: shape.closed,
                }),
                None => None,
            }
        }
        None => None,
    }
}

// Whether no two cases have one name.
fn do_names_differ(alloc: Global, cases: &Vec<InternalCase<'_>>) -> Result<bool, AllocError>
    ensures { IfOk result (λ b. b ≡ all_differ_in (map (λ c. c.name.now) cases.now.items)) }
{
    let mut names = Vec::new(alloc);
    for case in cases {
        names.push(case.name)?;
    }
    all_differ(alloc, names.as_slice())
}
