//! The way from a schema down to a reference at the same value.
ghost use Rattle.std.specs.Prelude.{◌≡◌, IfOk, IfSome, IfNone};
ghost use Rattle.schema_defs.specs.Children.{reference_of};
ghost use Rattle.schema_types.specs.View.{schema_view, object_view};
ghost use Rattle.schema_loops.specs.Way.{numbered, has_number, HasWay, LacksNumber};

use crate::children::children_of;
use crate::numbers::Numbers;
use schema_types::{Location, Schema, SchemaObject};
use std::alloc::{AllocError, Global};

// The steps to a schema inside it, or itself, whose reference has the number, the last of them first.
pub(crate) fn way_to(
    alloc: Global,
    schema: &Schema,
    numbers: &Numbers<'_>,
    number: usize,
) -> Result<Option<Vec<Location>>, AllocError>
    ensures some { IfOk result (λ way. IfSome way (λ ks. HasWay (numbered numbers.now) number (schema_view schema.now) ks.items)) }
    ensures none { IfOk result (λ way. IfNone way (LacksNumber (numbered numbers.now) number (schema_view schema.now))) }
{
    if refers_to(alloc, schema, numbers, number)? {
        return Ok(Some(Vec::new(alloc)));
    }
    let children = children_of(alloc, schema)?;
    for child in &children {
        if let Some(mut way) = way_to(alloc, child.schema, numbers, number)? {
            way.push(child.steps.try_clone(alloc)?)?;
            return Ok(Some(way));
        }
    }
    Ok(None)
}

// Whether its own reference has the number.
fn refers_to(
    alloc: Global,
    schema: &Schema,
    numbers: &Numbers<'_>,
    number: usize,
) -> Result<bool, AllocError>
    ensures { IfOk result (λ b. b ≡ has_number (numbered numbers.now) number (reference_of (schema_view schema.now))) }
{
    match schema {
        Schema::Bool(_) => Ok(false),
        Schema::Object(object) => object_refers_to(alloc, object, numbers, number),
    }
}

fn object_refers_to(
    alloc: Global,
    object: &SchemaObject,
    numbers: &Numbers<'_>,
    number: usize,
) -> Result<bool, AllocError>
    ensures { IfOk result (λ b. b ≡ has_number (numbered numbers.now) number (reference_of (object_view object.now))) }
{
    match &object.reference {
        Some(reference) => {
            let found = numbers.of_reference(alloc, reference)?;
            Ok(found == number)
        }
        None => Ok(false),
    }
}
