//! Which keywords of a schema stand.
ghost use Rattle.std.specs.Prelude.{◌≡◌, ◌∷◌, Some, None, if◌then◌else◌};
ghost use Rattle.std.specs.List.{list_any};
ghost use Rattle.schema_defs.specs.Schema.{many_types};
ghost use Rattle.enum_defs.specs.Words.{same_type as same_type_of, has_type as has_type_of, is_bare as is_bare_of, without_same, without_lists, without_named};
ghost use Rattle.convert_defs.specs.Standing.{is_untyped as is_untyped_of, has_conditional as has_conditional_of};
ghost use Rattle.convert_defs.specs.Table.{no_ranges as no_ranges_of, no_others as no_others_of, has_one_type as has_one_type_of, only_type as only_type_of, type_among as type_among_of, type_beside_null as type_beside_null_of};
ghost use Rattle.row_findings.specs.Given.{plain_view, same_view, lists_view, named_view};

use crate::given::{GivenTypes, Keywords};
use schema_types::InstanceType;

pub fn same_type(wanted: InstanceType, kind: InstanceType) -> bool
    ensures { result ≡ same_type_of wanted kind }
{
    wanted == kind
}

/// Whether `type` is that one name. It takes no memory.
pub fn has_type(keywords: &Keywords<'_>, wanted: InstanceType) -> bool
    ensures { result ≡ has_type_of wanted (plain_view keywords.now).types }
{
    match keywords.types {
        Some(GivenTypes::One(kind)) => same_type(wanted, kind),
        Some(GivenTypes::Many(_)) => false,
        None => false,
    }
}

/// Whether neither `enum`, `const` or `$ref` stands, nor subschemas. It takes no memory.
pub fn is_bare(keywords: &Keywords<'_>) -> bool
    ensures { result ≡ is_bare_of (plain_view keywords.now) (same_view keywords.now) }
{
    keywords.enum_values.is_none()
        && keywords.const_value.is_none()
        && keywords.reference.is_none()
        && keywords.subschemas.is_none()
}

/// Whether no type stands, and no keyword of numbers, of texts or of either. It takes no memory.
pub fn is_untyped(keywords: &Keywords<'_>) -> bool
    ensures { result ≡ is_untyped_of (plain_view keywords.now) }
{
    keywords.types.is_none()
        && keywords.format.is_none()
        && keywords.numbers.is_none()
        && keywords.texts.is_none()
}

/// Whether no subschemas stand. It takes no memory.
pub fn is_without_same(keywords: &Keywords<'_>) -> bool
    ensures { result ≡ without_same (same_view keywords.now) }
{
    keywords.subschemas.is_none()
}

/// Whether no keyword of lists stands. It takes no memory.
pub fn is_without_lists(keywords: &Keywords<'_>) -> bool
    ensures { result ≡ without_lists (lists_view keywords.now) }
{
    keywords.lists.is_none()
}

/// Whether no keyword of members stands. It takes no memory.
pub fn is_without_named(keywords: &Keywords<'_>) -> bool
    ensures { result ≡ without_named (named_view keywords.now) }
{
    keywords.members.is_none()
}

/// Whether no keyword of numbers, texts, lists or members stands, and no format. It takes no memory.
pub fn no_ranges(keywords: &Keywords<'_>) -> bool
    ensures { result ≡ no_ranges_of (plain_view keywords.now) (lists_view keywords.now) (named_view keywords.now) }
{
    keywords.format.is_none()
        && keywords.numbers.is_none()
        && keywords.texts.is_none()
        && is_without_lists(keywords)
        && is_without_named(keywords)
}

/// Whether no keyword stands but the type and subschemas. It takes no memory.
pub fn no_others(keywords: &Keywords<'_>) -> bool
    ensures { result ≡ no_others_of (plain_view keywords.now) (lists_view keywords.now) (named_view keywords.now) }
{
    keywords.enum_values.is_none()
        && keywords.const_value.is_none()
        && keywords.reference.is_none()
        && no_ranges(keywords)
}

/// Whether one of `if`, `then` and `else` stands. It takes no memory.
pub fn has_conditional(keywords: &Keywords<'_>) -> bool
    ensures { result ≡ has_conditional_of (same_view keywords.now) }
{
    match keywords.subschemas {
        Some(subschemas) => subschemas.conditional,
        None => false,
    }
}

/// Whether `type` is one name, and no list. It takes no memory.
pub fn has_one_type(keywords: &Keywords<'_>) -> bool
    ensures { result ≡ has_one_type_of (plain_view keywords.now).types }
{
    match keywords.types {
        Some(GivenTypes::One(_)) => true,
        Some(GivenTypes::Many(_)) => false,
        None => false,
    }
}

/// The type of a list of one. It takes no memory.
pub fn only_type(keywords: &Keywords<'_>) -> Option<InstanceType>
    ensures { result ≡ only_type_of (plain_view keywords.now).types }
{
    match keywords.types {
        Some(GivenTypes::Many(kinds)) => match kinds.as_slice() {
            [kind] => Some(*kind),
            _ => None,
        },
        Some(GivenTypes::One(_)) => None,
        None => None,
    }
}

/// Whether `type` is a list that has that name. It takes no memory.
pub fn type_among(keywords: &Keywords<'_>, wanted: InstanceType) -> bool
    ensures { result ≡ type_among_of wanted (plain_view keywords.now).types }
{
    match keywords.types {
        Some(GivenTypes::Many(kinds)) => is_among(kinds, wanted),
        Some(GivenTypes::One(_)) => false,
        None => false,
    }
}

fn is_among(kinds: &Vec<InstanceType>, wanted: InstanceType) -> bool
    ensures { result ≡ list_any (same_type_of wanted) kinds.now.items }
{
    kinds.iter().any(|kind| same_type(wanted, *kind))
}

/// The other of two types of which one is null, or null. It takes no memory.
pub fn type_beside_null(keywords: &Keywords<'_>) -> Option<InstanceType>
    ensures { result ≡ type_beside_null_of (plain_view keywords.now).types }
{
    match keywords.types {
        Some(GivenTypes::Many(kinds)) => other_than_null(kinds),
        Some(GivenTypes::One(_)) => None,
        None => None,
    }
}

fn other_than_null(kinds: &Vec<InstanceType>) -> Option<InstanceType>
    ensures { result ≡ type_beside_null_of (Some (many_types kinds.now.items)) }
{
    match kinds.split_first() {
        Some((first, rest)) => other_of_list(*first, rest),
        None => None,
    }
}

#[tactic(auto, using(crate::proofs::Types::one_type_alone, crate::proofs::Types::more_than_two))]
fn other_of_list(first: InstanceType, rest: &[InstanceType]) -> Option<InstanceType>
    ensures { result ≡ type_beside_null_of (Some (many_types (first ∷ rest.now))) }
{
    match rest.split_first() {
        Some((second, more)) => other_of_three(first, *second, more),
        None => None,
    }
}

#[tactic(auto, using(crate::proofs::Types::two_types, crate::proofs::Types::more_than_two))]
fn other_of_three(
    first: InstanceType,
    second: InstanceType,
    more: &[InstanceType],
) -> Option<InstanceType>
    ensures { result ≡ type_beside_null_of (Some (many_types (first ∷ second ∷ more.now))) }
{
    match more.split_first() {
        Some(_) => None,
        None => other_of_two(first, second),
    }
}

fn other_of_two(first: InstanceType, second: InstanceType) -> Option<InstanceType>
    ensures { result ≡ (if same_type_of InstanceType.Null first then Some second else if same_type_of InstanceType.Null second then Some first else None) }
{
    if same_type(InstanceType::Null, first) {
        Some(second)
    } else if same_type(InstanceType::Null, second) {
        Some(first)
    } else {
        None
    }
}
