//! Objects as schemas.
ghost use Rattle.std.specs.Prelude.{◌≡◌, ◌∷◌, [], IfOk, OnOk, map, option_map};
ghost use Rattle.schema_defs.specs.Build.{◌≔◌, str};
ghost use Rattle.json_value.specs.Value.{members};
ghost use Rattle.json_value.specs.View.{kept_view};
ghost use Rattle.describe_defs.specs.Written.{members_value, texts_of_names};
ghost use Rattle.described_types.specs.Seen.{kept_items};
ghost use Rattle.value_writing.specs.Seen.{kept_members};
ghost use Rattle.described_values.specs.Seen.{kept_entries};
ghost use Rattle.described_values.specs.Shown.{entries_view, object_by, object_of, put_required as put_required_in, put_rest as put_rest_in};

use crate::entries::Entries;
use described_types::{list_value, text_value};
use serde_json::Value;
use serde_json::value::Map;
use std::alloc::{AllocError, Global};
use value_writing::put_member;

// The names as texts, in order.
#[tactic(auto, using(crate::proofs::Members::name_more, crate::proofs::Members::all_names))]
fn names_of(alloc: Global, entries: &Map<String, Value>) -> Result<Vec<Value>, AllocError>
    ensures { IfOk result (λ v. kept_items v.items ≡ texts_of_names (map (λ e. e.0) (kept_entries entries.now.entries))) }
{
    let mut names = Vec::new(alloc);
    for (name, _) in entries.iter() {
        names.push(text_value(alloc, name)?)?;
    }
    Ok(names)
}

// The members of any object's schema.
fn object_members(alloc: Global) -> Result<Map<String, Value>, AllocError>
    ensures { IfOk result (λ m. kept_members m.entries ≡ members ("type" ≔ str "object" ∷ [])) }
{
    let kind = text_value(alloc, "object")?;
    let mut members = Map::new(alloc);
    put_member(alloc, &mut members, "type", kind)?;
    Ok(members)
}

fn put_rest(
    alloc: Global,
    members: &mut Map<String, Value>,
    rest: Option<Value>,
) -> Result<(), AllocError>
    ensures { OnOk result (kept_members members.new.entries ≡ put_rest_in (option_map kept_view rest) (kept_members members.old.entries)) }
{
    match rest {
        Some(value) => {
            put_member(alloc, members, "additionalProperties", value)?;
            Ok(())
        }
        None => Ok(()),
    }
}

#[tactic(auto, using(crate::proofs::Members::no_names, crate::proofs::Members::some_names))]
fn put_required(
    alloc: Global,
    members: &mut Map<String, Value>,
    required: &Map<String, Value>,
) -> Result<(), AllocError>
    ensures { OnOk result (kept_members members.new.entries ≡ put_required_in (map (λ e. e.0) (kept_entries required.now.entries)) (kept_members members.old.entries)) }
{
    if required.is_empty() {
        return Ok(());
    }
    let names = names_of(alloc, required)?;
    put_member(alloc, members, "required", list_value(names))?;
    Ok(())
}

// An object without properties.
#[tactic(auto, using(crate::proofs::Members::without_properties))]
fn bare_object(alloc: Global, rest: Option<Value>) -> Result<Value, AllocError>
    ensures { IfOk result (λ v. kept_view v ≡ object_by [] [] (option_map kept_view rest)) }
{
    let mut members = object_members(alloc)?;
    put_rest(alloc, &mut members, rest)?;
    Ok(Value::Object(members))
}

fn full_object(
    alloc: Global,
    properties: Map<String, Value>,
    required: &Map<String, Value>,
    rest: Option<Value>,
) -> Result<Value, AllocError>
    ensures { IfOk result (λ v. kept_view v ≡ members_value (kept_entries properties.entries) (map (λ e. e.0) (kept_entries required.now.entries)) (option_map kept_view rest)) }
{
    let mut members = object_members(alloc)?;
    put_required(alloc, &mut members, required)?;
    put_member(alloc, &mut members, "properties", Value::Object(properties))?;
    put_rest(alloc, &mut members, rest)?;
    Ok(Value::Object(members))
}

/// The schema of an object with these properties, where other members meet the rest. Without properties `properties` is
/// left out, and without a required name `required`.
#[tactic(auto, using(crate::proofs::Members::by_properties, crate::proofs::Members::by_none))]
pub(crate) fn object_value(
    alloc: Global,
    entries: Entries,
    rest: Option<Value>,
) -> Result<Value, AllocError>
    ensures { IfOk result (λ v. kept_view v ≡ object_of (entries_view entries) (option_map kept_view rest)) }
{
    let Entries {
        properties,
        required,
    } = entries;
    if properties.is_empty() {
        let value = bare_object(alloc, rest)?;
        return Ok(value);
    }
    let value = full_object(alloc, properties, &required, rest)?;
    Ok(value)
}
