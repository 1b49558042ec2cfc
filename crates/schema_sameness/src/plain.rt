//! Whether what holds no schema is the same.
ghost use Rattle.std.specs.Prelude.{◌≡◌, map, option_map, string_bytes, bytes_eq, nat_eq};
ghost use Rattle.std.specs.Cmp.Lexicographic.{pointwise};
ghost use Rattle.json_value.specs.Value.{same as same_value, same_bool};
ghost use Rattle.enum_defs.specs.Words.{same_type};
ghost use Rattle.json_value.specs.View.{kept_view};
ghost use Rattle.schema_types.specs.View.{types_view, numbers_view, texts_view, object_view, array_view};
ghost use Rattle.merge_defs.specs.Alike.{same_option, same_types as same_types_of, same_numbers as same_numbers_of, same_texts, same_constraints as same_constraints_of};
ghost use Rattle.schema_sameness.specs.Parts.{plain_in};
ghost use Rattle.schema_sameness.specs.Looks.{same_sizes as same_sizes_of};

use json_value::same;
use schema_defs::InstanceType;
use schema_types::{ArrayValidation, NumberValidation, SchemaObject, StringValidation, Types};
use serde_json::Value;
use std::collections::BTreeSet;

fn same_text(a: &Option<String>, b: &Option<String>) -> bool
    ensures { result ≡ same_option bytes_eq (option_map string_bytes a.now) (option_map string_bytes b.now) }
{
    match (a, b) {
        (None, None) => true,
        (Some(x), Some(y)) => x.as_str() == y.as_str(),
        _ => false,
    }
}

fn same_constant(a: &Option<Value>, b: &Option<Value>) -> bool
    ensures { result ≡ same_option same_value (option_map kept_view a.now) (option_map kept_view b.now) }
{
    match (a, b) {
        (None, None) => true,
        (Some(x), Some(y)) => same(x, y),
        _ => false,
    }
}

fn same_values(a: &Vec<Value>, b: &Vec<Value>) -> bool
    ensures { result ≡ pointwise same_value (map kept_view a.now.items) (map kept_view b.now.items) }
{
    let mut others = b.iter();
    for x in a.iter() {
        match others.next() {
            Some(y) => if !same(x, y) {
                return false;
            },
            None => return false,
        }
    }
    others.next().is_none()
}

fn same_listed(a: &Option<Vec<Value>>, b: &Option<Vec<Value>>) -> bool
    ensures { result ≡ same_option (pointwise same_value) (option_map (λ v. map kept_view v.items) a.now) (option_map (λ v. map kept_view v.items) b.now) }
{
    match (a, b) {
        (None, None) => true,
        (Some(x), Some(y)) => same_values(x, y),
        _ => false,
    }
}

fn same_kind(a: InstanceType, b: InstanceType) -> bool
    ensures { result ≡ same_type a b }
{
    a == b
}

fn same_kinds(a: &Vec<InstanceType>, b: &Vec<InstanceType>) -> bool
    ensures { result ≡ pointwise same_type a.now.items b.now.items }
{
    a == b
}

fn same_types(a: &Option<Types>, b: &Option<Types>) -> bool
    ensures { result ≡ same_option same_types_of (option_map types_view a.now) (option_map types_view b.now) }
{
    match (a, b) {
        (None, None) => true,
        (Some(Types::One(x)), Some(Types::One(y))) => same_kind(*x, *y),
        (Some(Types::Many(x)), Some(Types::Many(y))) => same_kinds(x, y),
        _ => false,
    }
}

fn same_numbers(a: &Option<NumberValidation>, b: &Option<NumberValidation>) -> bool
    ensures { result ≡ same_option same_numbers_of (option_map numbers_view a.now) (option_map numbers_view b.now) }
{
    match (a, b) {
        (None, None) => true,
        (Some(x), Some(y)) => {
            x.multiple_of == y.multiple_of
                && x.maximum == y.maximum
                && x.exclusive_maximum == y.exclusive_maximum
                && x.minimum == y.minimum
                && x.exclusive_minimum == y.exclusive_minimum
        }
        _ => false,
    }
}

#[tactic(auto, using(schema_types::proofs::Lists::pointwise_of_texts))]
fn same_patterns(a: &Vec<String>, b: &Vec<String>) -> bool
    ensures { result ≡ pointwise bytes_eq (map string_bytes a.now.items) (map string_bytes b.now.items) }
{
    a == b
}

fn same_strings(a: &Option<StringValidation>, b: &Option<StringValidation>) -> bool
    ensures { result ≡ same_option same_texts (option_map texts_view a.now) (option_map texts_view b.now) }
{
    match (a, b) {
        (None, None) => true,
        (Some(x), Some(y)) => {
            x.max_length == y.max_length
                && x.min_length == y.min_length
                && same_patterns(&x.patterns, &y.patterns)
        }
        _ => false,
    }
}

/// Whether two sets of names are the same.
#[tactic(auto, using(schema_types::proofs::Lists::pointwise_of_texts))]
pub(crate) fn same_names(a: &BTreeSet<String>, b: &BTreeSet<String>) -> bool
    ensures { result ≡ pointwise bytes_eq (map string_bytes a.now.keys) (map string_bytes b.now.keys) }
{
    a == b
}

pub(crate) fn same_count(a: Option<u32>, b: Option<u32>) -> bool
    ensures { result ≡ same_option nat_eq a b }
{
    a == b
}

// Annotations and walks aside.
pub(crate) fn same_constraints(a: &SchemaObject, b: &SchemaObject) -> bool
    ensures { result ≡ same_constraints_of (plain_in (object_view a.now)) (plain_in (object_view b.now)) }
{
    same_constant(&a.const_value, &b.const_value)
        && same_types(&a.types, &b.types)
        && same_text(&a.format, &b.format)
        && same_listed(&a.enum_values, &b.enum_values)
        && same_numbers(&a.number, &b.number)
        && same_strings(&a.string, &b.string)
        && same_text(&a.reference, &b.reference)
}

fn same_flag(a: Option<bool>, b: Option<bool>) -> bool
    ensures { result ≡ same_option same_bool a b }
{
    a == b
}

// The keywords of lists that hold no schema.
pub(crate) fn same_sizes(a: &ArrayValidation, b: &ArrayValidation) -> bool
    ensures { result ≡ same_sizes_of (array_view a.now) (array_view b.now) }
{
    same_count(a.max_items, b.max_items)
        && same_count(a.min_items, b.min_items)
        && same_flag(a.unique_items, b.unique_items)
}
