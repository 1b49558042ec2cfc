//! Types that hold no other.
ghost use Rattle.std.specs.Prelude.{◌≡◌};
ghost use Rattle.model_defs.specs.Types.{boolean_type, integer_type, text_type, native_type, any_type, unit_type, item_type, outside_type};
ghost use Rattle.value_models.specs.TypeView.{type_view};
ghost use Rattle.container_defs.specs.Forms.{same_format, same_type};

use schema_defs::Format;
use value_models::ValueType;

pub(crate) fn is_boolean(other: &ValueType) -> bool
    ensures { result ≡ same_type boolean_type (type_view other.now) }
{
    match other {
        ValueType::Boolean => true,
        _ => false,
    }
}

pub(crate) fn is_integer(other: &ValueType, least: i128, greatest: i128) -> bool
    ensures { result ≡ same_type (integer_type (record { least = least; greatest = greatest })) (type_view other.now) }
{
    match other {
        ValueType::Integer {
            least: from,
            greatest: to,
        } => least == *from && greatest == *to,
        _ => false,
    }
}

pub(crate) fn is_text(other: &ValueType) -> bool
    ensures { result ≡ same_type text_type (type_view other.now) }
{
    match other {
        ValueType::Text => true,
        _ => false,
    }
}

fn is_format(format: Format, other: Format) -> bool
    ensures { result ≡ same_format format other }
{
    match format {
        Format::Uuid => match other {
            Format::Uuid => true,
            _ => false,
        },
        Format::Date => match other {
            Format::Date => true,
            _ => false,
        },
        Format::DateTime => match other {
            Format::DateTime => true,
            _ => false,
        },
        Format::Ip => match other {
            Format::Ip => true,
            _ => false,
        },
        Format::Ipv4 => match other {
            Format::Ipv4 => true,
            _ => false,
        },
        Format::Ipv6 => match other {
            Format::Ipv6 => true,
            _ => false,
        },
    }
}

pub(crate) fn is_native(other: &ValueType, format: Format) -> bool
    ensures { result ≡ same_type (native_type format) (type_view other.now) }
{
    match other {
        ValueType::Native(its) => is_format(format, *its),
        _ => false,
    }
}

pub(crate) fn is_any(other: &ValueType) -> bool
    ensures { result ≡ same_type any_type (type_view other.now) }
{
    match other {
        ValueType::Any => true,
        _ => false,
    }
}

pub(crate) fn is_unit(other: &ValueType) -> bool
    ensures { result ≡ same_type unit_type (type_view other.now) }
{
    match other {
        ValueType::Unit => true,
        _ => false,
    }
}

pub(crate) fn is_item(other: &ValueType, name: &str) -> bool
    ensures { result ≡ same_type (item_type name.now) (type_view other.now) }
{
    match other {
        ValueType::Item(its) => name == its.as_str(),
        _ => false,
    }
}

#[tactic(auto, using(crate::proofs::Outside::outside_is_none))]
pub(crate) fn is_outside(other: &ValueType) -> bool
    ensures { result ≡ same_type outside_type (type_view other.now) }
{
    let _other = other;
    false
}
