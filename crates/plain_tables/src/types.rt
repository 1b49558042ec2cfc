//! Plain types.
ghost use Rattle.std.specs.Prelude.{◌≡◌, ◌&&◌, is_some};
ghost use Rattle.std.specs.List.{list_all};
ghost use Rattle.value_models.specs.TypeView.{type_view, types_view};
ghost use Rattle.value_models.specs.ContainersView.{containers_in};
ghost use Rattle.model_defs.specs.Types.{types as types_of};
ghost use Rattle.describe_defs.specs.Plain.{are_plain_types as are_plain_types_in, count_types, has_places as has_places_in, integer_format as integer_format_of, is_plain_type as is_plain_type_in, is_string as is_string_in};
ghost use Rattle.plain_tables.specs.Among.{is_among};

use described_types::integer_format;
use value_models::{Containers, ValueType};

/// The most places of a tuple or an array.
pub(crate) const GREATEST_LENGTH: u64 = 4294967295;

#[tactic(auto, using(crate::proofs::Formats::has_format_is))]
fn has_format(least: &i128, greatest: &i128) -> bool
    ensures { result ≡ is_some (integer_format_of (record { least = least.now; greatest = greatest.now })) }
{
    !integer_format(least, greatest).is_empty()
}

fn has_places(count: u64) -> bool
    ensures { result ≡ has_places_in count }
{
    1 <= count && count <= GREATEST_LENGTH
}

pub(crate) fn is_string(ty: &ValueType) -> bool
    ensures { result ≡ is_string_in (type_view ty.now) }
{
    match ty {
        ValueType::Text => true,
        _ => false,
    }
}

fn is_item(containers: &Containers, name: &str) -> bool
    ensures { result ≡ is_among (containers_in containers.now) name.now }
{
    containers.named(name).is_some()
}

/// Whether the type is plain: built of scalars, lists, maps by texts, tuples, arrays and items.
#[cycle(plain)]
pub(crate) fn is_plain_type(containers: &Containers, ty: &ValueType) -> bool
    ensures { result ≡ is_plain_type_in (is_among (containers_in containers.now)) (type_view ty.now) }
{
    match ty {
        ValueType::Boolean | ValueType::Text | ValueType::Native(_) | ValueType::Any => true,
        ValueType::Integer { least, greatest } => has_format(least, greatest),
        ValueType::Unit | ValueType::Optional(_) | ValueType::Set(_) | ValueType::Outside => false,
        ValueType::Boxed(inner) => is_plain_type(containers, inner),
        ValueType::List(inner) => is_plain_type(containers, inner),
        ValueType::Map(key, inner) => is_string(key) && is_plain_type(containers, inner),
        ValueType::Tuple(types) => are_places(containers, types),
        ValueType::Array(inner, count) => has_places(*count) && is_plain_type(containers, inner),
        ValueType::Item(name) => is_item(containers, name),
    }
}

#[cycle(plain)]
#[tactic(auto, using(crate::proofs::Formats::places_are))]
fn are_places(containers: &Containers, types: &[ValueType]) -> bool
    ensures { let ts = types_of (types_view types.now) in
        result ≡ (has_places_in (count_types ts) && are_plain_types_in (is_among (containers_in containers.now)) ts) }
{
    has_places(types.len() as u64) && are_plain_types(containers, types)
}

#[cycle(plain)]
fn are_plain_types(containers: &Containers, types: &[ValueType]) -> bool
    ensures { result ≡ list_all (is_plain_type_in (is_among (containers_in containers.now))) (types_view types.now) }
{
    for ty in types {
        if !is_plain_type(containers, ty) {
            return false;
        }
    }
    true
}
