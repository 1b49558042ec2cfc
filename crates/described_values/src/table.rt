//! A table of containers as a document.
ghost use Rattle.std.specs.Prelude.{◌≡◌, IfOk, map, true};
ghost use Rattle.json_value.specs.Value.{boolean, members, object};
ghost use Rattle.json_value.specs.View.{kept_view};
ghost use Rattle.conversion_table.specs.Conversions.{conversions_view};
ghost use Rattle.value_models.specs.TypeView.{type_view};
ghost use Rattle.value_models.specs.ContainerView.{containers_view};
ghost use Rattle.value_models.specs.ContainersView.{containers_in};
ghost use Rattle.describe_defs.specs.Description.{in_order};
ghost use Rattle.describe_defs.specs.Written.{beside_value, definition_value, description_value as description_value_of};
ghost use Rattle.value_writing.specs.Seen.{kept_members};
ghost use Rattle.described_values.specs.Seen.{kept_entries};

use crate::entries::add_member;
use crate::items::item_value;
use conversion_table::Conversions;
use described_types::type_value;
use serde_json::Value;
use serde_json::value::Map;
use std::alloc::{AllocError, Global};
use value_models::{Container, Containers, ValueType};
use value_writing::put_member;

#[tactic(auto, using(crate::proofs::Defined::one_before, crate::proofs::Defined::all_before))]
fn definitions(
    alloc: Global,
    conversions: &Conversions,
    containers: &[Container],
) -> Result<Map<String, Value>, AllocError>
    ensures { IfOk result (λ m. kept_entries m.entries ≡ in_order (map (definition_value (conversions_view conversions.now)) (containers_view containers.now))) }
{
    let mut members = Map::new(alloc);
    let mut left = containers.len();
    while left > 0 {
        left -= 1;
        let container = &containers[left];
        let value = item_value(alloc, conversions, container)?;
        add_member(alloc, &mut members, &container.name, value)?;
    }
    Ok(members)
}

// Beside an object.
fn beside_object(
    alloc: Global,
    definitions: Value,
    members: Map<String, Value>,
) -> Result<Value, AllocError>
    ensures { IfOk result (λ v. kept_view v ≡ beside_value (kept_view definitions) (object (kept_members members.entries))) }
{
    let mut members = members;
    add_member(alloc, &mut members, "definitions", definitions)?;
    Ok(Value::Object(members))
}

// Definitions alone.
fn alone(alloc: Global, definitions: Value) -> Result<Value, AllocError>
    ensures { IfOk result (λ v. kept_view v ≡ beside_value (kept_view definitions) (boolean true)) }
{
    let mut members = Map::new(alloc);
    put_member(alloc, &mut members, "definitions", definitions)?;
    Ok(Value::Object(members))
}

fn beside_boolean(alloc: Global, definitions: Value, taken: bool) -> Result<Value, AllocError>
    ensures { IfOk result (λ v. kept_view v ≡ beside_value (kept_view definitions) (boolean taken)) }
{
    if !taken {
        return Ok(Value::Bool(false));
    }
    let value = alone(alloc, definitions)?;
    Ok(value)
}

// The definitions beside the schema of the root; `true` becomes an object with nothing else.
#[tactic(auto, using(crate::proofs::Defined::beside_number))]
fn beside(alloc: Global, definitions: Value, root: Value) -> Result<Value, AllocError>
    ensures { IfOk result (λ v. kept_view v ≡ beside_value (kept_view definitions) (kept_view root)) }
{
    match root {
        Value::Object(members) => {
            let value = beside_object(alloc, definitions, members)?;
            Ok(value)
        }
        Value::Bool(taken) => {
            let value = beside_boolean(alloc, definitions, taken)?;
            Ok(value)
        }
        Value::Null => Ok(Value::Null),
        Value::Number(number) => Ok(Value::Number(number)),
        Value::String(text) => Ok(Value::String(text)),
        Value::Array(values) => Ok(Value::Array(values)),
    }
}

fn definitions_value(
    alloc: Global,
    conversions: &Conversions,
    containers: &[Container],
) -> Result<Value, AllocError>
    ensures { IfOk result (λ v. kept_view v ≡ object (members (in_order (map (definition_value (conversions_view conversions.now)) (containers_view containers.now))))) }
{
    let members = definitions(alloc, conversions, containers)?;
    Ok(Value::Object(members))
}

/// The schema document of a table: the schema of the root, with `definitions` of all containers, which are left out where
/// there are none. It takes memory for what is written. A name that comes twice, in one container or among them, has no
/// description: there is no memory for it.
#[tactic(auto, using(crate::proofs::Defined::some_containers, crate::proofs::Defined::no_containers))]
pub fn description_value(
    alloc: Global,
    containers: &Containers,
    conversions: &Conversions,
    root: &ValueType,
) -> Result<Value, AllocError>
    ensures { IfOk result (λ v. kept_view v ≡ description_value_of (containers_in containers.now) (conversions_view conversions.now) (type_view root.now)) }
{
    let value = type_value(alloc, root)?;
    if containers.count() == 0 {
        return Ok(value);
    }
    let definitions = definitions_value(alloc, conversions, containers.containers())?;
    let described = beside(alloc, definitions, value)?;
    Ok(described)
}
