//! The document of a sample.
ghost use Rattle.std.specs.Prelude.{◌≡◌, ◌<◌, IfOk, map, string_bytes};
ghost use Rattle.json_value.specs.Value.{members};
ghost use Rattle.json_value.specs.View.{kept_view};
ghost use Rattle.describe_defs.specs.Description.{in_order};
ghost use Rattle.value_writing.specs.Seen.{kept_members};
ghost use Rattle.sample_inputs.specs.Sample.{definition_value as definition_value_of, numbers_from, sample_entry, sample_name as sample_name_of, sample_schema as sample_schema_of};

use crate::forms::{closed_object, leading_to, properties, reference_text};
use serde_json::Value;
use serde_json::value::Map;
use std::alloc::{AllocError, Global};
use value_writing::put_member;

fn sample_name(alloc: Global, number: u32) -> Result<String, AllocError>
    ensures { IfOk result (λ s. string_bytes s ≡ sample_name_of number) }
{
    format!(in alloc; "S{number}")
}

// The definition of a number.
fn definition_value(alloc: Global, count: u32, number: u32) -> Result<Value, AllocError>
    requires { number < count }
    ensures { IfOk result (λ v. kept_view v ≡ definition_value_of count number) }
{
    let next = leading_to(alloc, (number + 1) % count)?;
    let properties = properties(alloc, number % 3, next)?;
    let value = closed_object(alloc, properties)?;
    Ok(value)
}

// All definitions, put in from the last one to the first.
#[tactic(auto, using(crate::proofs::Rings::none_put, crate::proofs::Rings::one_before, crate::proofs::Rings::all_put))]
fn definitions(alloc: Global, count: u32) -> Result<Map<String, Value>, AllocError>
    ensures { IfOk result (λ m. kept_members m.entries ≡ members (in_order (map (sample_entry count) (numbers_from 0 count)))) }
{
    let mut members = Map::new(alloc);
    let mut left = count;
    while left > 0 {
        left -= 1;
        let name = sample_name(alloc, left)?;
        let value = definition_value(alloc, count, left)?;
        put_member(alloc, &mut members, &name, value)?;
    }
    Ok(members)
}

/// The document of that many definitions, which lead to one another in a ring: a reference to the first one, and
/// `definitions` of all. It takes memory and time in step with them.
pub fn sample_schema(alloc: Global, count: u32) -> Result<Value, AllocError>
    ensures { IfOk result (λ v. kept_view v ≡ sample_schema_of count) }
{
    let definitions = definitions(alloc, count)?;
    let first = reference_text(alloc, 0)?;
    let mut members = Map::new(alloc);
    put_member(
        alloc,
        &mut members,
        "definitions",
        Value::Object(definitions),
    )?;
    put_member(alloc, &mut members, "$ref", Value::String(first))?;
    Ok(Value::Object(members))
}
