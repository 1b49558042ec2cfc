//! Members that are null, and the one beside them.
ghost use Rattle.std.specs.Prelude.{◌≡◌, ◌&&◌, nat_le, length, filter, is_none, Some, None, map, option_map};
ghost use Rattle.enum_defs.specs.Shapes.{the_only};
ghost use Rattle.std.specs.List.{list_any};
ghost use Rattle.json_value.specs.View.{kept_view};
ghost use Rattle.schema_types.specs.View.{schema_view};
ghost use Rattle.enum_defs.specs.Words.{without_same, without_lists, without_named};
ghost use Rattle.convert_defs.specs.Shapes.{option_member as option_member_of, one_null as one_null_of, is_plain_null as is_plain_null_of, is_odd_null as is_odd_null_of};
ghost use Rattle.convert_defs.specs.Table.{one_null_member};
ghost use Rattle.row_findings.specs.Given.{plain_view, same_view, lists_view, named_view, keywords_view, given_values_view, given_types_view};
ghost use Rattle.member_rows.specs.Members.{member_view, is_other};
ghost use Rattle.schema_defs.specs.Schema.{many_types};

use crate::members::Member;
use enum_shapes::{are_null_types, is_null_schema};
use row_findings::{
    GivenTypes, GivenValues, Keywords, ValueKind, all_of, any_of, is_null, is_without_lists,
    is_without_named, is_without_same, keywords_of, same_type,
};
use schema_types::{InstanceType, Schema};
use serde_json::Value;

/// The one member that is no null schema, of two or more. It takes no memory.
pub fn option_member<'d>(members: &[Member<'d>]) -> Option<Member<'d>>
    ensures { option_map member_view result ≡ option_member_of (map member_view members.now) }
{
    if are_several(members) {
        the_other(members)
    } else {
        None
    }
}

#[tactic(auto, using(crate::proofs::PlainNulls::two_or_more))]
fn are_several(members: &[Member<'_>]) -> bool
    ensures { result ≡ nat_le 2 (length (map member_view members.now)) }
{
    2 <= members.len()
}

// The one member that is no null schema.
#[tactic(auto, using(crate::proofs::PlainNulls::two_others, crate::proofs::PlainNulls::one_other))]
fn the_other<'d>(members: &[Member<'d>]) -> Option<Member<'d>>
    ensures { option_map member_view result ≡ the_only (filter is_other (map member_view members.now)) }
{
    let mut found: Option<Member<'d>> = None;
    for member in members {
        if !is_null_schema(member.schema) {
            if found.is_some() {
                return None;
            }
            found = Some(*member);
        }
    }
    found
}

/// Whether one member alone is a null schema. It takes no memory.
pub fn has_one_null(members: &[Member<'_>]) -> bool
    ensures { result ≡ one_null_member (map member_view members.now) }
{
    let mut count: usize = 0;
    for member in members {
        if is_null_schema(member.schema) {
            count += 1;
        }
    }
    count == 1
}

#[tactic(auto, using(crate::proofs::PlainNulls::some_types))]
fn are_nulls(kinds: &Vec<InstanceType>) -> bool
    ensures { result ≡ one_null_of (Some (many_types kinds.now.items)) None None }
{
    !kinds.is_empty() && are_null_types(kinds)
}

fn is_null_type(types: GivenTypes<'_>) -> bool
    ensures { result ≡ one_null_of (Some (given_types_view types.entry)) None None }
{
    match types {
        GivenTypes::One(kind) => same_type(InstanceType::Null, kind),
        GivenTypes::Many(kinds) => are_nulls(kinds),
    }
}

#[tactic(auto, using(crate::proofs::PlainNulls::nulls_listed))]
fn lists_nulls(values: GivenValues<'_>) -> bool
    ensures { result ≡ one_null_of None None (Some (given_values_view values.entry)) }
{
    any_of(values, ValueKind::Null) && all_of(values, ValueKind::Null)
}

// Whether one of the three stands alone, and says null.
#[tactic(auto, using(crate::proofs::PlainNulls::null_types, crate::proofs::PlainNulls::null_constant))]
fn one_null(
    types: Option<GivenTypes<'_>>,
    constant: Option<&Value>,
    values: Option<GivenValues<'_>>,
) -> bool
    ensures { result ≡ one_null_of (option_map given_types_view types.entry) (option_map (λ v. kept_view v.now) constant.entry) (option_map given_values_view values.entry) }
{
    match types {
        Some(types) => constant.is_none() && values.is_none() && is_null_type(types),
        None => match constant {
            Some(value) => values.is_none() && is_null(value),
            None => match values {
                Some(values) => lists_nulls(values),
                None => false,
            },
        },
    }
}

fn is_unruled(keywords: &Keywords<'_>) -> bool
    ensures { result ≡ (is_none (plain_view keywords.now).format && is_none (plain_view keywords.now).numbers && is_none (plain_view keywords.now).texts && is_none (plain_view keywords.now).reference) }
{
    keywords.format.is_none()
        && keywords.numbers.is_none()
        && keywords.texts.is_none()
        && keywords.reference.is_none()
}

fn has_no_part(keywords: &Keywords<'_>) -> bool
    ensures { result ≡ (without_same (same_view keywords.now) && without_lists (lists_view keywords.now) && without_named (named_view keywords.now)) }
{
    is_without_same(keywords) && is_without_lists(keywords) && is_without_named(keywords)
}

fn is_null_alone(keywords: &Keywords<'_>) -> bool
    ensures { result ≡ is_plain_null_of (keywords_view keywords.now) }
{
    one_null(keywords.types, keywords.const_value, keywords.enum_values)
        && is_unruled(keywords)
        && has_no_part(keywords)
}

fn is_plain_null(schema: &Schema) -> bool
    ensures { result ≡ is_plain_null_of (schema_view schema.now) }
{
    match schema {
        Schema::Bool(_) => false,
        Schema::Object(object) => is_null_alone(&keywords_of(object)),
    }
}

fn is_odd_null(member: &Member<'_>) -> bool
    ensures { result ≡ is_odd_null_of (member_view member.now) }
{
    is_null_schema(member.schema) && !is_plain_null(member.schema)
}

/// Whether some member is null by more than one keyword, or by an empty list. It takes no memory.
pub fn has_odd_null(members: &[Member<'_>]) -> bool
    ensures { result ≡ list_any is_odd_null_of (map member_view members.now) }
{
    for member in members {
        if is_odd_null(member) {
            return true;
        }
    }
    false
}
