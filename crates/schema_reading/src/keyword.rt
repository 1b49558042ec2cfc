//! What keywords that hold no schema are read as: nothing where what stands there is malformed, and else what stands there,
//! where something does.

ghost use Rattle.std.specs.Prelude.{◌≡◌, ℤ, pos, IfOk, option_map, map, string_bytes};
ghost use Rattle.serde_json.specs.View.{view, items_view, members_view, number_view};
ghost use Rattle.json_value.specs.View.{value_of, items_of, members_of, number_value, kept_view};
ghost use Rattle.schema_defs.specs.Read.{by_value, keyword as word, flag_of, integer_of, kept, kept_list, multiple_of, size_of, text_of, type_named, type_of, types_in, types_of};
ghost use Rattle.schema_types.specs.View.{types_view};
ghost use Rattle.schema_reading.specs.Reading.{looked_up, read_now};

use json_value::is_whole;
use schema_defs::InstanceType;
use schema_types::Types;
use serde_json::value::Map;
use serde_json::{Number, Value};
use std::alloc::{AllocError, Global};

/// The member of that name.
pub(crate) fn member<'v>(members: &'v Map<String, Value>, name: &str) -> Option<&'v Value>
    ensures { option_map read_now result ≡ looked_up members.now.entries name.now }
{
    members.get(name)
}

/// A text.
pub(crate) fn text_at(
    alloc: Global,
    members: &Map<String, Value>,
    keyword: &str,
) -> Result<Option<Option<String>>, AllocError>
    ensures { IfOk result (λ o. option_map (option_map string_bytes) o ≡ word keyword.now (by_value text_of) (looked_up members.now.entries)) }
{
    match member(members, keyword) {
        None => Ok(Some(None)),
        Some(Value::String(text)) => Ok(Some(Some(String::from_str(alloc, text)?))),
        Some(_) => Ok(None),
    }
}

/// A value that has no fraction.
pub(crate) fn value_at(
    members: &Map<String, Value>,
    keyword: &str,
) -> Result<Option<Option<Value>>, AllocError>
    ensures { IfOk result (λ o. option_map (option_map kept_view) o ≡ word keyword.now (by_value kept) (looked_up members.now.entries)) }
{
    match member(members, keyword) {
        None => Ok(Some(None)),
        Some(value) => if is_whole(value) {
            Ok(Some(Some(value.clone()?)))
        } else {
            Ok(None)
        },
    }
}

/// A boolean.
pub(crate) fn flag_at(members: &Map<String, Value>, keyword: &str) -> Option<Option<bool>>
    ensures { result ≡ word keyword.now (by_value flag_of) (looked_up members.now.entries) }
{
    match member(members, keyword) {
        None => Some(None),
        Some(Value::Bool(flag)) => Some(Some(*flag)),
        Some(_) => None,
    }
}

/// A number that is whole.
pub(crate) fn integer_at(members: &Map<String, Value>, keyword: &str) -> Option<Option<i128>>
    ensures { result ≡ word keyword.now (by_value integer_of) (looked_up members.now.entries) }
{
    match member(members, keyword) {
        None => Some(None),
        Some(Value::Number(number)) => given(integer(number)),
        Some(_) => None,
    }
}

fn given<T>(value: Option<T>) -> Option<Option<T>>
    ensures { result ≡ option_map Some value }
{
    match value {
        Some(value) => Some(Some(value)),
        None => None,
    }
}

fn integer(number: &Number) -> Option<i128>
    ensures { result ≡ integer_of (number_value (number_view number.now)) }
{
    number.as_i128()
}

/// A whole number that is 1 or greater.
pub(crate) fn multiple_at(members: &Map<String, Value>, keyword: &str) -> Option<Option<u64>>
    ensures { result ≡ word keyword.now (by_value multiple_of) (looked_up members.now.entries) }
{
    match member(members, keyword) {
        None => Some(None),
        Some(Value::Number(number)) => given(multiple(number)),
        Some(_) => None,
    }
}

fn multiple(number: &Number) -> Option<u64>
    ensures { result ≡ multiple_of (number_value (number_view number.now)) }
{
    match number.as_u64() {
        Some(n) => if 1 <= n { Some(n) } else { None },
        None => None,
    }
}

/// A whole number from 0 to 2^32 - 1.
pub(crate) fn size_at(members: &Map<String, Value>, keyword: &str) -> Option<Option<u32>>
    ensures { result ≡ word keyword.now (by_value size_of) (looked_up members.now.entries) }
{
    match member(members, keyword) {
        None => Some(None),
        Some(Value::Number(number)) => given(size(number)),
        Some(_) => None,
    }
}

fn size(number: &Number) -> Option<u32>
    ensures { result ≡ size_of (number_value (number_view number.now)) }
{
    match number.as_u64() {
        Some(n) => if n <= 4_294_967_295 {
            Some(n as u32)
        } else {
            None
        },
        None => None,
    }
}
