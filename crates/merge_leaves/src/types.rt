//! Merging `type`.
ghost use Rattle.std.specs.Prelude.{◌≡◌, ◌&&◌, IfOk, filter, option_map};
ghost use Rattle.schema_types.specs.View.{types_view};
ghost use Rattle.enum_defs.specs.Words.{same_type as same_type_of};
ghost use Rattle.merge_defs.specs.Outcome.{where_both};
ghost use Rattle.merge_defs.specs.Leaves.{all_types, is_only as is_only_of, names_type as names_type_of, one_if_named as one_if_named_of, some_types as some_types_of, two_types as two_types_of};
ghost use Rattle.merge_parts.specs.Steps.{Quietly};

use schema_types::{InstanceType, Types, copy_type_names};
use std::alloc::{AllocError, Global};

fn same_type(kind: InstanceType, other: InstanceType) -> bool
    ensures { result ≡ same_type_of kind other }
{
    kind == other
}

/// Whether the merged type is that name alone.
pub fn is_only(kind: InstanceType, types: &Option<Types>) -> bool
    ensures { result ≡ is_only_of kind (option_map types_view types.now) }
{
    match types {
        Some(Types::One(other)) => same_type(kind, *other),
        Some(Types::Many(_)) => false,
        None => false,
    }
}

fn names_type(kinds: &Vec<InstanceType>, kind: InstanceType) -> bool
    ensures { result ≡ names_type_of kinds.now.items kind }
{
    kinds.iter().any(|other| same_type(kind, *other))
}

fn names_both(first: &Vec<InstanceType>, second: &Vec<InstanceType>, kind: InstanceType) -> bool
    ensures { result ≡ (names_type_of first.now.items kind && names_type_of second.now.items kind) }
{
    names_type(first, kind) && names_type(second, kind)
}

// Those of the types that both name.
#[tactic(auto, using(crate::proofs::Filters::kind_kept, crate::proofs::Filters::kind_left, crate::proofs::Filters::kinds_end))]
fn named_of(
    alloc: Global,
    all: &[InstanceType],
    first: &Vec<InstanceType>,
    second: &Vec<InstanceType>,
) -> Result<Vec<InstanceType>, AllocError>
    ensures { IfOk result (λ v. v.items ≡ filter (λ k. names_type_of first.now.items k && names_type_of second.now.items k) all.now) }
{
    let mut named = Vec::new(alloc);
    for kind in all {
        if names_both(first, second, *kind) {
            named.push(*kind)?;
        }
    }
    Ok(named)
}

// The types that both name, in the order of all types.
fn shared_types(
    alloc: Global,
    first: &Vec<InstanceType>,
    second: &Vec<InstanceType>,
) -> Result<Vec<InstanceType>, AllocError>
    ensures { IfOk result (λ v. v.items ≡ filter (λ k. names_type_of first.now.items k && names_type_of second.now.items k) all_types) }
{
    let all = [
        InstanceType::Null,
        InstanceType::Boolean,
        InstanceType::Object,
        InstanceType::Array,
        InstanceType::Number,
        InstanceType::Text,
        InstanceType::Integer,
    ];
    named_of(alloc, &all, first, second)
}

fn one_if_named(is_named: bool, kind: InstanceType) -> Option<Option<Types>>
    ensures { Quietly (one_if_named_of is_named kind) (option_map (option_map types_view) result) }
{
    if is_named {
        Some(Some(Types::One(kind)))
    } else {
        None
    }
}

fn some_types(kinds: Vec<InstanceType>) -> Option<Option<Types>>
    ensures { Quietly (some_types_of kinds.items) (option_map (option_map types_view) result) }
{
    match kinds.as_slice() {
        [] => None,
        [kind] => Some(Some(Types::One(*kind))),
        _ => Some(Some(Types::Many(kinds))),
    }
}

fn two_types(
    alloc: Global,
    first: &Types,
    second: &Types,
) -> Result<Option<Option<Types>>, AllocError>
    ensures { IfOk result (λ o. Quietly (two_types_of (types_view first.now) (types_view second.now)) (option_map (option_map types_view) o)) }
{
    match (first, second) {
        (Types::One(kind), Types::One(other)) => Ok(one_if_named(same_type(*kind, *other), *kind)),
        (Types::One(kind), Types::Many(others)) => Ok(one_if_named(
            names_type(others, *kind),
            *kind,
        )),
        (Types::Many(kinds), Types::One(other)) => Ok(one_if_named(
            names_type(kinds, *other),
            *other,
        )),
        (Types::Many(kinds), Types::Many(others)) => {
            let shared = shared_types(alloc, kinds, others)?;
            Ok(some_types(shared))
        }
    }
}

fn copy_types(alloc: Global, from: &Types) -> Result<Types, AllocError>
    ensures { IfOk result (λ t. types_view t ≡ types_view from.now) }
{
    match from {
        Types::One(kind) => Ok(Types::One(*kind)),
        Types::Many(kinds) => Ok(Types::Many(copy_type_names(alloc, kinds)?)),
    }
}

/// The types that both sides name; where one side alone names types, those.
pub fn both_types(
    alloc: Global,
    first: &Option<Types>,
    second: &Option<Types>,
) -> Result<Option<Option<Types>>, AllocError>
    ensures { IfOk result (λ o. Quietly (where_both two_types_of (option_map types_view first.now) (option_map types_view second.now)) (option_map (option_map types_view) o)) }
{
    match (first, second) {
        (None, None) => Ok(Some(None)),
        (None, Some(types)) => Ok(Some(Some(copy_types(alloc, types)?))),
        (Some(types), None) => Ok(Some(Some(copy_types(alloc, types)?))),
        (Some(types), Some(others)) => two_types(alloc, types, others),
    }
}
