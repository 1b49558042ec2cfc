//! The items of a set.
ghost use Rattle.std.specs.Prelude.{◌≡◌, ◌||◌, [], IfErr, IfOk};
ghost use Rattle.json_value.specs.Value.{Value as JsonValue, same as same_in};
ghost use Rattle.typed_defs.specs.Typed.{list as list_typed, typeds};
ghost use Rattle.typed_defs.specs.Written.{written};
ghost use Rattle.reading_defs.specs.Reading.{keep_apart as keep_apart_in, read_map};
ghost use Rattle.json_value.specs.View.{kept_view};
ghost use Rattle.value_models.specs.ContainersView.{containers_in};
ghost use Rattle.value_models.specs.TypeView.{type_view};
ghost use Rattle.value_models.specs.TypedView.{typed_view, typeds_view};
ghost use Rattle.value_parts.specs.Seen.{one_view, several_view};
ghost use Rattle.value_sets.specs.Held.{holds};

use schema_texts::TextFault;
use serde_json::Value;
use std::alloc::Global;
use value_models::{Containers, Typed, ValueType};
use value_parts::{Outcome, list_of, push_typed};
use value_sets::ValueSet;
use value_writing::write;

fn written_as(
    alloc: Global,
    containers: &Containers,
    ty: &ValueType,
    typed: &Typed,
) -> Result<Value, TextFault>
    ensures answer { IfOk result (λ v. kept_view v ≡ written (containers_in containers.now) (type_view ty.now) (typed_view typed.now)) }
    ensures memory { IfErr result (λ e. e ≡ TextFault.Memory) }
{
    match write(alloc, containers, typed, ty) {
        Ok(value) => Ok(value),
        Err(_) => Err(TextFault::Memory),
    }
}

fn put(seen: &mut ValueSet, value: Value) -> Result<(), TextFault>
    ensures answer { IfOk result (λ _. (v : JsonValue) → holds seen.new v ≡ (same_in v (kept_view value) || holds seen.old v)) }
    ensures memory { IfErr result (λ e. e ≡ TextFault.Memory) }
{
    match seen.insert(value) {
        Ok(()) => Ok(()),
        Err(_) => Err(TextFault::Memory),
    }
}

// Each that is not written like one before it.
#[tactic(auto, using(crate::proofs::KeptApart::kept_turn, crate::proofs::KeptApart::dropped_turn))]
fn keep_apart(
    alloc: Global,
    containers: &Containers,
    ty: &ValueType,
    values: Vec<Typed>,
) -> Result<Vec<Typed>, TextFault>
    ensures answer { IfOk result (λ v. typeds_view v.items ≡ keep_apart_in (written (containers_in containers.now) (type_view ty.now)) [] (typeds_view values.items)) }
    ensures memory { IfErr result (λ e. e ≡ TextFault.Memory) }
{
    let mut kept = Vec::new(alloc);
    let mut seen = ValueSet::new(alloc);
    for typed in values {
        let value = written_as(alloc, containers, ty, &typed)?;
        if !seen.has(&value) {
            push_typed(&mut kept, typed)?;
            put(&mut seen, value)?;
        }
    }
    Ok(kept)
}

/// Several as a set. It fails where memory runs out.
pub fn as_set(
    alloc: Global,
    containers: &Containers,
    ty: &ValueType,
    read: Outcome<Vec<Typed>>,
) -> Result<Outcome<Typed>, TextFault>
    ensures answer { IfOk result (λ o. one_view o ≡ read_map (λ xs. list_typed (typeds (keep_apart_in (written (containers_in containers.now) (type_view ty.now)) [] xs))) (several_view read)) }
    ensures memory { IfErr result (λ e. e ≡ TextFault.Memory) }
{
    match read {
        Outcome::Taken(values) => {
            let kept = keep_apart(alloc, containers, ty, values)?;
            Ok(Outcome::Taken(list_of(kept)))
        }
        Outcome::Refused(path) => Ok(Outcome::Refused(path)),
        Outcome::Unsound => Ok(Outcome::Unsound),
    }
}
