//! Types as schemas.
ghost use Rattle.std.specs.Prelude.{◌≡◌, [], ◌∷◌, IfOk, codes, map, unwrap_or};
ghost use Rattle.json_value.specs.View.{kept_view};
ghost use Rattle.value_models.specs.TypeView.{type_view, types_view};
ghost use Rattle.describe_defs.specs.Plain.{format_among, integer_format as integer_format_of};
ghost use Rattle.describe_defs.specs.Description.{format_name as format_name_of};
ghost use Rattle.describe_defs.specs.Written.{copies_of, places_value, type_value as value_of_type};
ghost use Rattle.model_defs.specs.Types.{tuple_type, types as types_in};
ghost use Rattle.described_types.specs.Seen.{kept_items};

use crate::forms::{listed, mapped, nullable, of_kind, placed, reference, with_format};
use schema_defs::Format;
use serde_json::Value;
use std::alloc::{AllocError, Global};
use value_models::ValueType;

fn format_name(format: Format) -> &'static str
    ensures { result.now ≡ format_name_of format }
{
    match format {
        Format::Uuid => "uuid",
        Format::Date => "date",
        Format::DateTime => "date-time",
        Format::Ip => "ip",
        Format::Ipv4 => "ipv4",
        Format::Ipv6 => "ipv6",
    }
}

fn from_int8(least: &i128, greatest: &i128) -> &'static str
    ensures { result.now ≡ unwrap_or (format_among (record { least = least.now; greatest = greatest.now }) (codes "int8" ∷ codes "uint8" ∷ codes "int16" ∷ codes "uint16" ∷ codes "int32" ∷ codes "uint32" ∷ codes "int64" ∷ codes "uint64" ∷ [])) [] }
{
    if *least == -128 && *greatest == 127 {
        return "int8";
    }
    from_uint8(least, greatest)
}

fn from_uint8(least: &i128, greatest: &i128) -> &'static str
    ensures { result.now ≡ unwrap_or (format_among (record { least = least.now; greatest = greatest.now }) (codes "uint8" ∷ codes "int16" ∷ codes "uint16" ∷ codes "int32" ∷ codes "uint32" ∷ codes "int64" ∷ codes "uint64" ∷ [])) [] }
{
    if *least == 0 && *greatest == 255 {
        return "uint8";
    }
    from_int16(least, greatest)
}

fn from_int16(least: &i128, greatest: &i128) -> &'static str
    ensures { result.now ≡ unwrap_or (format_among (record { least = least.now; greatest = greatest.now }) (codes "int16" ∷ codes "uint16" ∷ codes "int32" ∷ codes "uint32" ∷ codes "int64" ∷ codes "uint64" ∷ [])) [] }
{
    if *least == -32768 && *greatest == 32767 {
        return "int16";
    }
    from_uint16(least, greatest)
}

fn from_uint16(least: &i128, greatest: &i128) -> &'static str
    ensures { result.now ≡ unwrap_or (format_among (record { least = least.now; greatest = greatest.now }) (codes "uint16" ∷ codes "int32" ∷ codes "uint32" ∷ codes "int64" ∷ codes "uint64" ∷ [])) [] }
{
    if *least == 0 && *greatest == 65535 {
        return "uint16";
    }
    from_int32(least, greatest)
}

fn from_int32(least: &i128, greatest: &i128) -> &'static str
    ensures { result.now ≡ unwrap_or (format_among (record { least = least.now; greatest = greatest.now }) (codes "int32" ∷ codes "uint32" ∷ codes "int64" ∷ codes "uint64" ∷ [])) [] }
{
    if *least == -2147483648 && *greatest == 2147483647 {
        return "int32";
    }
    from_uint32(least, greatest)
}

fn from_uint32(least: &i128, greatest: &i128) -> &'static str
    ensures { result.now ≡ unwrap_or (format_among (record { least = least.now; greatest = greatest.now }) (codes "uint32" ∷ codes "int64" ∷ codes "uint64" ∷ [])) [] }
{
    if *least == 0 && *greatest == 4294967295 {
        return "uint32";
    }
    from_int64(least, greatest)
}

fn from_int64(least: &i128, greatest: &i128) -> &'static str
    ensures { result.now ≡ unwrap_or (format_among (record { least = least.now; greatest = greatest.now }) (codes "int64" ∷ codes "uint64" ∷ [])) [] }
{
    if *least == -9223372036854775808 && *greatest == 9223372036854775807 {
        return "int64";
    }
    from_uint64(least, greatest)
}

fn from_uint64(least: &i128, greatest: &i128) -> &'static str
    ensures { result.now ≡ unwrap_or (format_among (record { least = least.now; greatest = greatest.now }) (codes "uint64" ∷ [])) [] }
{
    if *least == 0 && *greatest == 18446744073709551615 {
        return "uint64";
    }
    ""
}

/// The format of an integer type, and nothing for another range.
pub fn integer_format(least: &i128, greatest: &i128) -> &'static str
    ensures { result.now ≡ unwrap_or (integer_format_of (record { least = least.now; greatest = greatest.now })) [] }
{
    from_int8(least, greatest)
}

/// The schema of a type. One that no plain table has is null, or holds such. It takes memory for what is written.
#[cycle(described)]
pub fn type_value(alloc: Global, ty: &ValueType) -> Result<Value, AllocError>
    ensures { IfOk result (λ v. kept_view v ≡ value_of_type (type_view ty.now)) }
{
    match ty {
        ValueType::Boolean => {
            let value = of_kind(alloc, "boolean")?;
            Ok(value)
        }
        ValueType::Integer { least, greatest } => {
            let value = with_format(alloc, "integer", integer_format(least, greatest))?;
            Ok(value)
        }
        ValueType::Text => {
            let value = of_kind(alloc, "string")?;
            Ok(value)
        }
        ValueType::Native(format) => {
            let value = with_format(alloc, "string", format_name(*format))?;
            Ok(value)
        }
        ValueType::Any => Ok(Value::Bool(true)),
        ValueType::Optional(inner) => {
            let inner = type_value(alloc, inner)?;
            let value = nullable(alloc, inner)?;
            Ok(value)
        }
        ValueType::Boxed(inner) => {
            let value = type_value(alloc, inner)?;
            Ok(value)
        }
        ValueType::List(inner) => {
            let inner = type_value(alloc, inner)?;
            let value = listed(alloc, inner)?;
            Ok(value)
        }
        ValueType::Map(_, inner) => {
            let inner = type_value(alloc, inner)?;
            let value = mapped(alloc, inner)?;
            Ok(value)
        }
        ValueType::Tuple(types) => {
            let value = tuple_value(alloc, types)?;
            Ok(value)
        }
        ValueType::Array(inner, count) => {
            let inner = type_value(alloc, inner)?;
            let value = array_value(alloc, *count, &inner)?;
            Ok(value)
        }
        ValueType::Item(name) => {
            let value = reference(alloc, name)?;
            Ok(value)
        }
        ValueType::Unit | ValueType::Set(_) | ValueType::Outside => Ok(Value::Null),
    }
}

#[cycle(described)]
#[tactic(auto, using(crate::proofs::Lists::one_more, crate::proofs::Lists::no_more))]
fn type_values(alloc: Global, types: &[ValueType]) -> Result<Vec<Value>, AllocError>
    ensures { IfOk result (λ v. map kept_view v.items ≡ map value_of_type (types_view types.now)) }
{
    let mut values = Vec::new(alloc);
    for ty in types {
        values.push(type_value(alloc, ty)?)?;
    }
    Ok(values)
}

#[cycle(described)]
#[tactic(auto, using(crate::proofs::Lists::tuple_seen))]
fn tuple_value(alloc: Global, types: &[ValueType]) -> Result<Value, AllocError>
    ensures { IfOk result (λ v. kept_view v ≡ value_of_type (tuple_type (types_in (types_view types.now)))) }
{
    let values = type_values(alloc, types)?;
    let value = placed(alloc, types.len() as u64, values)?;
    Ok(value)
}

#[tactic(auto, using(crate::proofs::Lists::one_copy))]
fn copies(alloc: Global, count: u64, value: &Value) -> Result<Vec<Value>, AllocError>
    ensures { IfOk result (λ v. kept_items v.items ≡ copies_of count (kept_view value.now)) }
{
    let mut values = Vec::new(alloc);
    for _ in 0..count {
        values.push(value.clone()?)?;
    }
    Ok(values)
}

fn array_value(alloc: Global, count: u64, value: &Value) -> Result<Value, AllocError>
    ensures { IfOk result (λ v. kept_view v ≡ places_value count (copies_of count (kept_view value.now))) }
{
    let values = copies(alloc, count, value)?;
    let value = placed(alloc, count, values)?;
    Ok(value)
}
