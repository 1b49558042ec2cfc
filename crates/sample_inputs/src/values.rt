//! The values of a sample.
ghost use Rattle.std.specs.Prelude.{◌≡◌, ◌+◌, ◌<◌, ◌^◌, ◌∷◌, [], IfOk, map};
ghost use Rattle.json_value.specs.Value.{members};
ghost use Rattle.json_value.specs.View.{kept_view};
ghost use Rattle.schema_defs.specs.Build.{◌≔◌, num};
ghost use Rattle.value_writing.specs.Seen.{kept_members};
ghost use Rattle.sample_inputs.specs.Sample.{around as around_of, innermost as innermost_of, nest as nest_of, sample_value as sample_value_of, sample_values as sample_values_of};

use described_types::size_value;
use serde_json::Value;
use serde_json::value::Map;
use std::alloc::{AllocError, Global};
use value_writing::put_member;

fn plain_object(alloc: Global, id: u32) -> Result<Map<String, Value>, AllocError>
    ensures { IfOk result (λ m. kept_members m.entries ≡ members ("id" ≔ num id ∷ [])) }
{
    let mut members = Map::new(alloc);
    put_member(alloc, &mut members, "id", size_value(u64::from(id)))?;
    Ok(members)
}

// The innermost object, which may be marked.
fn innermost(alloc: Global, id: u32, marked: bool) -> Result<Value, AllocError>
    ensures { IfOk result (λ v. kept_view v ≡ innermost_of id marked) }
{
    let mut members = plain_object(alloc, id)?;
    if marked {
        put_member(alloc, &mut members, "x", size_value(0))?;
        return Ok(Value::Object(members));
    }
    Ok(Value::Object(members))
}

// An object round another one.
fn around(alloc: Global, id: u32, inner: Value) -> Result<Value, AllocError>
    ensures { IfOk result (λ v. kept_view v ≡ around_of id (kept_view inner)) }
{
    let mut members = plain_object(alloc, id)?;
    put_member(alloc, &mut members, "next", inner)?;
    Ok(Value::Object(members))
}

// So many objects round the innermost one.
#[tactic(auto, using(crate::proofs::Nests::first_level, crate::proofs::Nests::one_round, crate::proofs::Nests::all_levels))]
fn nest(alloc: Global, levels: u32, id: u32, marked: bool) -> Result<Value, AllocError>
    requires { id + levels < 2 ^ 32 }
    ensures { IfOk result (λ v. kept_view v ≡ nest_of levels id marked) }
{
    let mut value = innermost(alloc, id + levels, marked)?;
    let mut left = levels;
    while left > 0 {
        left -= 1;
        value = around(alloc, id + left, value)?;
    }
    Ok(value)
}

// The value of a number.
fn sample_value(alloc: Global, number: u32) -> Result<Value, AllocError>
    requires { number + 16 < 2 ^ 32 }
    ensures { IfOk result (λ v. kept_view v ≡ sample_value_of number) }
{
    nest(alloc, number % 16, number, number % 5 == 4)
}

/// That many values, each a nest of one to sixteen objects. It takes memory and time in step with them.
#[tactic(auto, using(crate::proofs::Nests::one_value_more, crate::proofs::Nests::all_values))]
pub fn sample_values(alloc: Global, count: u32) -> Result<Vec<Value>, AllocError>
    requires { count + 16 < 2 ^ 32 }
    ensures { IfOk result (λ v. map kept_view v.items ≡ sample_values_of count) }
{
    let mut values = Vec::new(alloc);
    let mut number = 0;
    while number < count {
        let value = sample_value(alloc, number)?;
        values.push(value)?;
        number += 1;
    }
    Ok(values)
}
