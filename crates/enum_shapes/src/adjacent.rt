//! The adjacent shape: objects of a tag, and of a content or none.
ghost use Rattle.std.specs.Prelude.{◌≡◌, ◌++◌, ◌||◌, not, bytes_eq, find, IfOk, map, option_map, option_and_then, flat_map};
ghost use Rattle.std.specs.List.{list_all};
ghost use Rattle.schema_types.specs.View.{schemas_view, properties_view};
ghost use Rattle.enum_defs.specs.Words.{all_some, names_of};
ghost use Rattle.enum_defs.specs.Shapes.{adjacent_shape as adjacent_shape_of, adjacent_by as adjacent_by_of, adjacent_with as adjacent_with_of, adjacent_case as adjacent_case_of, is_all_required as is_all_required_of, is_required as is_required_of, is_constant as is_constant_of, property_names, two_names as two_names_of};
ghost use Rattle.enum_shapes.specs.View.{adjacent_view, case_view, shape_view};

use crate::cases::{Case, do_names_differ};
use crate::internal::object_shapes;
use crate::object::{ObjectShape, constant_of, is_required, property};
use schema_types::Schema;
use std::alloc::{AllocError, Global};
use std::collections::BTreeMap;

/// The tag, the content and the cases of the adjacent shape.
#[derive(Drop)]
pub struct AdjacentShape<'s> {
    pub tag: &'s str,
    pub content: &'s str,
    pub cases: Vec<Case<'s>>,
}

/// The tag, the content and the cases of the adjacent shape, in order: all schemas are of type object, with `properties`,
/// all of them required, and `additionalProperties` as a boolean at most; the properties together are two, of which one
/// alone, the tag, is a constant text in all, with texts that differ. `AllocError` where memory runs out. (serde:
/// adjacently tagged enums.)
pub fn adjacent_shape<'s>(
    alloc: Global,
    schemas: &'s [Schema],
) -> Result<Option<AdjacentShape<'s>>, AllocError>
    ensures { IfOk result (λ o. option_map adjacent_view o ≡ adjacent_shape_of (schemas_view schemas.now)) }
{
    let Some(shapes) = object_shapes(alloc, schemas)? else {
        return Ok(None);
    };
    if !are_all_required(shapes.as_slice()) {
        return Ok(None);
    }
    let names = names_of_all(alloc, shapes.as_slice())?;
    adjacent_among(alloc, shapes.as_slice(), names.as_slice())
}

// ---- properties

fn are_all_required(shapes: &[ObjectShape<'_>]) -> bool
    ensures { result ≡ list_all is_all_required_of (map shape_view shapes.now) }
{
    for shape in shapes {
        if !is_all_required(shape) {
            return false;
        }
    }
    true
}

fn is_all_required(shape: &ObjectShape<'_>) -> bool
    ensures { result ≡ is_all_required_of (shape_view shape.now) }
{
    match shape.object {
        Some(members) => are_required(shape, &members.properties),
        None => true,
    }
}

fn are_required(shape: &ObjectShape<'_>, properties: &BTreeMap<String, Schema>) -> bool
    ensures { result ≡ list_all (λ n. is_required_of n (shape_view shape.now)) (names_of (properties_view properties.now.entries)) }
{
    for (name, _) in properties.iter() {
        if !is_required(shape, name) {
            return false;
        }
    }
    true
}

fn names_of_all<'s>(alloc: Global, shapes: &[ObjectShape<'s>]) -> Result<Vec<&'s str>, AllocError>
    ensures { IfOk result (λ v. map (λ n. n.now) v.items ≡ flat_map property_names (map shape_view shapes.now)) }
{
    let mut names = Vec::new(alloc);
    for shape in shapes {
        names = names_with(names, shape)?;
    }
    Ok(names)
}

// The names, and then those of the properties of a shape.
fn names_with<'s>(names: Vec<&'s str>, shape: &ObjectShape<'s>) -> Result<Vec<&'s str>, AllocError>
    ensures { IfOk result (λ v. map (λ n. n.now) v.items ≡ map (λ n. n.now) names.entry.items ++ property_names (shape_view shape.now)) }
{
    match shape.object {
        Some(members) => names_and(names, &members.properties),
        None => Ok(names),
    }
}

fn names_and<'s>(
    names: Vec<&'s str>,
    properties: &'s BTreeMap<String, Schema>,
) -> Result<Vec<&'s str>, AllocError>
    ensures { IfOk result (λ v. map (λ n. n.now) v.items ≡ map (λ n. n.now) names.entry.items ++ names_of (properties_view properties.now.entries)) }
{
    let mut names = names;
    for (name, _) in properties.iter() {
        names.push(name.as_str())?;
    }
    Ok(names)
}

// The first name that is another one.
fn another<'s>(names: &[&'s str], first: &str) -> Option<&'s str>
    ensures { option_map (λ n. n.now) result ≡ find (λ n. not (bytes_eq n first.now)) (map (λ n. n.now) names.now) }
{
    for name in names {
        if *name != first {
            return Some(*name);
        }
    }
    None
}

// Whether each name is one of the two.
fn are_of_two(names: &[&str], first: &str, second: &str) -> bool
    ensures { result ≡ list_all (λ n. bytes_eq n first.now || bytes_eq n second.now) (map (λ n. n.now) names.now) }
{
    for name in names {
        if *name != first && *name != second {
            return false;
        }
    }
    true
}

// ---- the tag and the content

fn adjacent_among<'s>(
    alloc: Global,
    shapes: &[ObjectShape<'s>],
    names: &[&'s str],
) -> Result<Option<AdjacentShape<'s>>, AllocError>
    ensures { IfOk result (λ o. option_map adjacent_view o ≡ option_and_then (adjacent_by_of (map shape_view shapes.now)) (two_names_of (map (λ n. n.now) names.now))) }
{
    let Some((first, rest)) = names.split_first() else {
        return Ok(None);
    };
    let Some(second) = another(rest, *first) else {
        return Ok(None);
    };
    if are_of_two(rest, *first, second) {
        adjacent_by(alloc, shapes, *first, second)
    } else {
        Ok(None)
    }
}

fn adjacent_by<'s>(
    alloc: Global,
    shapes: &[ObjectShape<'s>],
    first: &'s str,
    second: &'s str,
) -> Result<Option<AdjacentShape<'s>>, AllocError>
    ensures { IfOk result (λ o. option_map adjacent_view o ≡ adjacent_by_of (map shape_view shapes.now) (first.now, second.now)) }
{
    match adjacent_with(alloc, shapes, first, second)? {
        Some(shape) => Ok(Some(shape)),
        None => adjacent_with(alloc, shapes, second, first),
    }
}

fn adjacent_with<'s>(
    alloc: Global,
    shapes: &[ObjectShape<'s>],
    tag: &'s str,
    content: &'s str,
) -> Result<Option<AdjacentShape<'s>>, AllocError>
    ensures { IfOk result (λ o. option_map adjacent_view o ≡ adjacent_with_of (map shape_view shapes.now) tag.now content.now) }
{
    if is_constant(shapes, content) {
        return Ok(None);
    }
    let Some(cases) = adjacent_cases(alloc, shapes, tag, content)? else {
        return Ok(None);
    };
    if do_names_differ(alloc, &cases)? {
        Ok(Some(AdjacentShape {
            tag,
            content,
            cases,
        }))
    } else {
        Ok(None)
    }
}

// Whether the property is a constant text in all.
fn is_constant(shapes: &[ObjectShape<'_>], name: &str) -> bool
    ensures { result ≡ is_constant_of (map shape_view shapes.now) name.now }
{
    for shape in shapes {
        if constant_of(shape, name).is_none() {
            return false;
        }
    }
    true
}

fn adjacent_cases<'s>(
    alloc: Global,
    shapes: &[ObjectShape<'s>],
    tag: &str,
    content: &str,
) -> Result<Option<Vec<Case<'s>>>, AllocError>
    ensures { IfOk result (λ o. option_map (λ v. map case_view v.items) o ≡ all_some (adjacent_case_of tag.now content.now) (map shape_view shapes.now)) }
{
    let mut cases = Vec::new(alloc);
    for shape in shapes {
        match adjacent_case(shape, tag, content) {
            Some(case) => cases.push(case)?,
            None => return Ok(None),
        }
    }
    Ok(Some(cases))
}

fn adjacent_case<'s>(shape: &ObjectShape<'s>, tag: &str, content: &str) -> Option<Case<'s>>
    ensures { option_map case_view result ≡ adjacent_case_of tag.now content.now (shape_view shape.now) }
{
    match constant_of(shape, tag) {
        Some(name) => Some(Case {
            name,
            content: property(shape, content),
            closed: shape.closed,
        }),
        None => None,
    }
}
