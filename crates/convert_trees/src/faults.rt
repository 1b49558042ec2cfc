//! Faults at their places.
ghost use Rattle.std.specs.Prelude.{◌≡◌, ℕ, ◌⊎◌, [], ◌∷◌, map, option_map};
ghost use Rattle.schema_defs.specs.Faults.{Rises};
ghost use Rattle.json_value.specs.View.{kept_view};
ghost use Rattle.schema_types.specs.View.{object_view, schema_view};
ghost use Rattle.schema_tree.specs.Fault.{bad_value as bad_value_at, fault_view, memory, unsupported as unsupported_at};
ghost use Rattle.convert_defs.specs.Row.{plainly, refused_row};
ghost use Rattle.row_findings.specs.Given.{given_values_view, source_view};
ghost use Rattle.row_findings.specs.View.{cause_view};
ghost use Rattle.merged_rows.specs.Starts.{path_by};
ghost use Rattle.convert_trees.specs.Told.{is_odd as is_odd_value, first_odd as first_odd_of, odd_in, odd_or, odd_value as odd_value_of, told_cause, NoAnswer};

use crate::scope::Scope;
use merged_rows::location_of;
use row_findings::{Cause, GivenValues, Source, Steps};
use schema_tree::{Fault, InvalidKind, Schema, SchemaObject, TextFault, UnsupportedKind};
use schema_types::Location;
use serde_json::Value;

fn is_odd(value: &Value) -> bool
    ensures { result ≡ is_odd_value (kept_view value.now) }
{
    match value {
        Value::String(_) => false,
        Value::Null => false,
        _ => true,
    }
}

fn first_odd(values: &Vec<Value>) -> Option<&Value>
    ensures { odd_or (option_map (λ v. kept_view v.now) result) ≡ first_odd_of (map kept_view values.now.items) }
{
    for value in values {
        if is_odd(value) {
            return Some(value);
        }
    }
    None
}

#[tactic(auto, using(crate::proofs::Odd::odd_given))]
fn odd_of_given<'d>(values: Option<GivenValues<'d>>) -> Option<&'d Value>
    ensures { odd_or (option_map (λ v. kept_view v.now) result) ≡ odd_in (option_map given_values_view values.entry) }
{
    match values {
        Some(values) => first_odd(values.listed),
        None => None,
    }
}

fn odd_of_object(schema: &SchemaObject) -> Option<&Value>
    ensures { odd_or (option_map (λ v. kept_view v.now) result) ≡ odd_value_of (object_view schema.now) }
{
    match &schema.enum_values {
        Some(values) => first_odd(values),
        None => None,
    }
}

fn odd_of_schema(schema: &Schema) -> Option<&Value>
    ensures { odd_or (option_map (λ v. kept_view v.now) result) ≡ odd_value_of (schema_view schema.now) }
{
    match schema {
        Schema::Bool(_) => None,
        Schema::Object(object) => odd_of_object(object),
    }
}

// The first listed value that is neither a text nor null.
fn odd_value<'d>(source: &Source<'d>) -> Option<&'d Value>
    ensures { odd_or (option_map (λ v. kept_view v.now) result) ≡ odd_value_of (source_view source.now) }
{
    match source {
        Source::Written(schema) => odd_of_schema(*schema),
        Source::Bool(_) => None,
        Source::Made(keywords) => odd_of_given(keywords.enum_values),
    }
}

fn bad_value(path: Location, value: Option<&Value>) -> Fault
    ensures { (fault_view result ≡ memory) ⊎ (fault_view result ≡ bad_value_at path (odd_or (option_map (λ v. kept_view v.now) value.entry))) }
{
    match value {
        Some(value) => match value.clone() {
            Ok(value) => Fault::BadValue { path, value },
            Err(_) => Fault::Memory,
        },
        None => Fault::BadValue {
            path,
            value: Value::Null,
        },
    }
}

/// What is told of a refused row.
pub fn refused_fault(path: Location, source: &Source<'_>, cause: Cause) -> Fault
    ensures { (fault_view result ≡ memory) ⊎ (fault_view result ≡ told_cause path (source_view source.now) (plainly (refused_row (cause_view cause))) (cause_view cause)) }
{
    match cause {
        Cause::Conditional => unsupported(path, UnsupportedKind::Conditional),
        Cause::Mix => unsupported(path, UnsupportedKind::Mix),
        Cause::MixedEnum => unsupported(path, UnsupportedKind::MixedEnum),
        Cause::NestedEnum => unsupported(path, UnsupportedKind::NestedEnum),
        Cause::Not => unsupported(path, UnsupportedKind::Not),
        Cause::Names => unsupported(path, UnsupportedKind::Names),
        Cause::BadValue => bad_value(path, odd_value(source)),
        Cause::Array => Fault::InvalidSchema {
            path,
            kind: InvalidKind::Array,
        },
    }
}

fn unsupported(path: Location, kind: UnsupportedKind) -> Fault
    ensures { fault_view result ≡ unsupported_at path kind }
{
    Fault::Unsupported { path, kind }
}

/// What is told where the judge of texts gave no answer, at the place of the schema that asked it.
#[tactic(auto, using(crate::proofs::Ends::want))]
pub fn text_fault(scope: &Scope<'_, '_>, trail: &Vec<Steps<'_>>, fault: TextFault) -> Fault
    ensures { (old : ℕ) (new : ℕ) → (fault ≡ TextFault.Failed → Rises old new) → NoAnswer (path_by scope.now.start.now trail.now.items ∷ []) old new (fault_view result) }
{
    match fault {
        TextFault::Memory => Fault::Memory,
        TextFault::Failed => match location_of(scope.alloc, scope.start, trail) {
            Ok(path) => Fault::Texts { path },
            Err(_) => Fault::Memory,
        },
    }
}
