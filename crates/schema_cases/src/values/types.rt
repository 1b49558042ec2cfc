//! Types as the cases write them.
use schema_tree::Format;
use serde_json::Value;
use serde_json::value::Map;
use std::alloc::{AllocError, Global};
use value_models::ValueType;

fn whole(least: i128, greatest: i128) -> ValueType {
    ValueType::Integer { least, greatest }
}

fn signed_type(name: &str) -> ValueType {
    match name {
        "i8" => whole(-128, 127),
        "i16" => whole(-32768, 32767),
        "i32" => whole(-2147483648, 2147483647),
        "i64" => whole(-9223372036854775808, 9223372036854775807),
        _ => ValueType::Outside,
    }
}

fn unsigned_type(name: &str) -> ValueType {
    match name {
        "u8" => whole(0, 255),
        "u16" => whole(0, 65535),
        "u32" => whole(0, 4294967295),
        "u64" => whole(0, 18446744073709551615),
        "NonZeroU8" => whole(1, 255),
        "NonZeroU16" => whole(1, 65535),
        "NonZeroU32" => whole(1, 4294967295),
        "NonZeroU64" => whole(1, 18446744073709551615),
        _ => signed_type(name),
    }
}

fn native_type(name: &str) -> ValueType {
    match name {
        "Uuid" => ValueType::Native(Format::Uuid),
        "NaiveDate" => ValueType::Native(Format::Date),
        "DateTime" => ValueType::Native(Format::DateTime),
        "IpAddr" => ValueType::Native(Format::Ip),
        "Ipv4Addr" => ValueType::Native(Format::Ipv4),
        "Ipv6Addr" => ValueType::Native(Format::Ipv6),
        _ => unsigned_type(name),
    }
}

fn plain_type(name: &str) -> ValueType {
    match name {
        "bool" => ValueType::Boolean,
        "String" => ValueType::Text,
        "Value" => ValueType::Any,
        "()" => ValueType::Unit,
        _ => native_type(name),
    }
}

/// The type that a word or an object of one member writes; any other value is a type that no reader knows.
#[cycle(types)]
pub fn type_of(alloc: Global, value: &Value) -> Result<ValueType, AllocError> {
    match value {
        Value::String(name) => Ok(plain_type(name)),
        Value::Object(members) => first_formed(alloc, members),
        _ => Ok(ValueType::Outside),
    }
}

// The type that the first member writes.
#[cycle(types)]
fn first_formed(alloc: Global, members: &Map<String, Value>) -> Result<ValueType, AllocError> {
    for (form, inner) in members.iter() {
        let found = formed(alloc, form, inner)?;
        return Ok(found);
    }
    Ok(ValueType::Outside)
}

#[cycle(types)]
fn formed(alloc: Global, form: &str, inner: &Value) -> Result<ValueType, AllocError> {
    match inner {
        Value::Array(parts) => {
            let types = types_of(alloc, parts)?;
            let count = last_count(parts);
            match form {
                "tuple" => Ok(ValueType::Tuple(types)),
                _ => {
                    let found = of_two(alloc, form, types, count)?;
                    Ok(found)
                }
            }
        }
        Value::String(name) => {
            if form == "item" {
                return Ok(ValueType::Item(name.clone()?));
            }
            let held = plain_type(name);
            let found = of_one(alloc, form, held)?;
            Ok(found)
        }
        Value::Object(members) => {
            let held = first_formed(alloc, members)?;
            let found = of_one(alloc, form, held)?;
            Ok(found)
        }
        _ => Ok(ValueType::Outside),
    }
}

/// Each of the types.
#[cycle(types)]
pub fn types_of(alloc: Global, values: &[Value]) -> Result<Vec<ValueType>, AllocError> {
    let mut types = Vec::new(alloc);
    for value in values {
        types.push(type_of(alloc, value)?)?;
    }
    Ok(types)
}

fn of_one(alloc: Global, form: &str, held: ValueType) -> Result<ValueType, AllocError> {
    let held = Box::new(alloc, held)?;
    match form {
        "option" => Ok(ValueType::Optional(held)),
        "box" => Ok(ValueType::Boxed(held)),
        "vec" => Ok(ValueType::List(held)),
        "set" => Ok(ValueType::Set(held)),
        _ => Ok(ValueType::Outside),
    }
}

// A map by its names and values, or an array by its items and their number.
fn of_two(
    alloc: Global,
    form: &str,
    types: Vec<ValueType>,
    count: u64,
) -> Result<ValueType, AllocError> {
    let mut types = types;
    let second = types.pop();
    let first = types.pop();
    match (first, second) {
        (Some(first), Some(second)) => {
            let first = Box::new(alloc, first)?;
            match form {
                "map" => Ok(ValueType::Map(first, Box::new(alloc, second)?)),
                "array" => Ok(ValueType::Array(first, count)),
                _ => Ok(ValueType::Outside),
            }
        }
        _ => Ok(ValueType::Outside),
    }
}

fn last_count(parts: &[Value]) -> u64 {
    match parts.last() {
        Some(value) => value.as_u64().unwrap_or(0),
        None => 0,
    }
}
