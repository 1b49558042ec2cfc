//! Keywords that hold no schema, but those of texts.
ghost use Rattle.std.specs.Prelude.{◌≡◌, ◌&&◌, ◌||◌, ◌+◌, ◌<◌, ◌^◌, suc, if◌then◌else◌, pos, map, option_map, int_le, int_lt, int_rem};
ghost use Rattle.std.specs.Ordering.{int_eq};
ghost use Rattle.schema_defs.specs.Layer.{if_given, is_kind, is_listed as is_listed_in, number_format_agrees, numbers_agree as numbers_say, types_agree as types_say};
ghost use Rattle.json_value.specs.View.{kept_view};
ghost use Rattle.schema_types.specs.View.{numbers_view, types_view};
ghost use Rattle.schema_admission.specs.Judging.{lies_in};

use schema_types::{InstanceType, NumberValidation, Types, is_among};
use serde_json::Value;

#[tactic(auto, using(crate::proofs::Numbers::is_number))]
fn has_kind(kind: InstanceType, value: &Value) -> bool
    ensures { result ≡ is_kind (kept_view value.now) kind }
{
    match (kind, value) {
        (InstanceType::Null, Value::Null) => true,
        (InstanceType::Boolean, Value::Bool(_)) => true,
        (InstanceType::Object, Value::Object(_)) => true,
        (InstanceType::Array, Value::Array(_)) => true,
        (InstanceType::Number, Value::Number(_)) => true,
        (InstanceType::Text, Value::String(_)) => true,
        (InstanceType::Integer, Value::Number(number)) => number.as_i128().is_some(),
        _ => false,
    }
}

fn has_one_of(kinds: &Vec<InstanceType>, value: &Value) -> bool
    ensures { result ≡ types_say (kept_view value.now) (types_view (Types.Many kinds.now)) }
{
    for kind in kinds {
        if has_kind(*kind, value) {
            return true;
        }
    }
    false
}

/// Whether all four hold.
pub fn all_of(first: bool, second: bool, third: bool, fourth: bool) -> bool
    ensures { result ≡ (first && second && third && fourth) }
{
    first && second && third && fourth
}

/// Whether both hold.
pub fn both(first: bool, second: bool) -> bool
    ensures { result ≡ (first && second) }
{
    first && second
}

/// Whether one of the two holds.
pub fn either(first: bool, second: bool) -> bool
    ensures { result ≡ (first || second) }
{
    first || second
}

/// One more, where it is to be counted.
pub fn counted(count: usize, admitted: bool) -> usize
    requires { count + 1 < 2 ^ 64 }
    ensures { result ≡ (if admitted then suc count else count) }
{
    if admitted { count + 1 } else { count }
}

/// `type`.
pub fn types_agree(types: &Option<Types>, value: &Value) -> bool
    ensures { result ≡ if_given (types_say (kept_view value.now)) (option_map types_view types.now) }
{
    match types {
        Some(Types::One(kind)) => has_kind(*kind, value),
        Some(Types::Many(kinds)) => has_one_of(kinds, value),
        None => true,
    }
}

/// `enum`.
pub fn is_listed(values: &Option<Vec<Value>>, value: &Value) -> bool
    ensures { result ≡ if_given (is_listed_in (kept_view value.now)) (option_map (λ v. map kept_view v.items) values.now) }
{
    match values {
        Some(values) => is_among(values, value),
        None => true,
    }
}

// No number but 0 is a multiple of 0.
#[tactic(auto, using(crate::proofs::Numbers::rem_by_zero))]
fn is_multiple(number: i128, unit: Option<u64>) -> bool
    ensures { result ≡ if_given (λ m. int_eq (int_rem number (pos m)) (pos 0)) unit }
{
    match unit {
        Some(0) => number == 0,
        Some(unit) => number % unit as i128 == 0,
        None => true,
    }
}

fn is_at_most(number: i128, limit: Option<i128>) -> bool
    ensures { result ≡ if_given (λ b. int_le number b) limit }
{
    match limit {
        Some(limit) => number <= limit,
        None => true,
    }
}

fn is_below(number: i128, limit: Option<i128>) -> bool
    ensures { result ≡ if_given (λ b. int_lt number b) limit }
{
    match limit {
        Some(limit) => number < limit,
        None => true,
    }
}

fn is_at_least(number: i128, limit: Option<i128>) -> bool
    ensures { result ≡ if_given (λ b. int_le b number) limit }
{
    match limit {
        Some(limit) => limit <= number,
        None => true,
    }
}

fn is_above(number: i128, limit: Option<i128>) -> bool
    ensures { result ≡ if_given (λ b. int_lt b number) limit }
{
    match limit {
        Some(limit) => limit < number,
        None => true,
    }
}

/// The keywords of numbers.
pub fn numbers_agree(rules: &Option<NumberValidation>, number: i128) -> bool
    ensures { result ≡ if_given (numbers_say number) (option_map numbers_view rules.now) }
{
    match rules {
        Some(rules) => is_multiple(number, rules.multiple_of)
            && is_at_most(number, rules.maximum)
            && is_below(number, rules.exclusive_maximum)
            && is_at_least(number, rules.minimum)
            && is_above(number, rules.exclusive_minimum),
        None => true,
    }
}

fn is_in(number: i128, least: i128, greatest: i128) -> bool
    ensures { result ≡ lies_in least greatest number }
{
    least <= number && number <= greatest
}

/// An integer format is a range; another format says nothing of numbers.
pub fn number_has_format(format: &str, number: i128) -> bool
    ensures { result ≡ number_format_agrees number format.now }
{
    match format {
        "int8" => is_in(number, -128, 127),
        "uint8" => is_in(number, 0, 255),
        "int16" => is_in(number, -32_768, 32_767),
        "uint16" => is_in(number, 0, 65_535),
        "int" | "int32" => is_in(number, -2_147_483_648, 2_147_483_647),
        "uint" | "uint32" => is_in(number, 0, 4_294_967_295),
        "int64" => is_in(
            number,
            -9_223_372_036_854_775_808,
            9_223_372_036_854_775_807,
        ),
        "uint64" => is_in(number, 0, 18_446_744_073_709_551_615),
        _ => true,
    }
}
