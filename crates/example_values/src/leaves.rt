//! Types by what their values are made of, and the values of those that hold no other.
ghost use Rattle.std.specs.Prelude.{◌≡◌};
ghost use Rattle.json_value.specs.View.{kept_view};
ghost use Rattle.typed_defs.specs.Written.{json_number};
ghost use Rattle.value_models.specs.TypeView.{type_view};
ghost use Rattle.example_values.specs.Leaves.{leaf_made};
ghost use Rattle.example_values.specs.Shapes.{shape_of, shape_view};

use crate::pieces::members_value;
use described_types::list_value;
use example_parts::nearest;
use serde_json::value::Map;
use serde_json::{Number, Value};
use std::alloc::Global;
use value_models::ValueType;

/// What the value of a type is made of.
#[derive(Clone, Copy)]
pub(crate) enum Shape<'a> {
    /// No other value.
    Leaf,
    /// That of another type.
    Same(&'a ValueType),
    /// Those of types one after another.
    Each(&'a [ValueType]),
    /// So many of one type.
    Copies(&'a ValueType, u64),
    /// That of the item of that name.
    Item(&'a str),
}

#[tactic(auto, using(crate::proofs::ShapeViews::each_back))]
pub(crate) fn shape_of(ty: &ValueType) -> Shape<'_>
    ensures { shape_view result ≡ shape_of (type_view ty.now) }
{
    match ty {
        ValueType::Boxed(inner) => Shape::Same(inner),
        ValueType::Tuple(parts) => Shape::Each(parts),
        ValueType::Array(inner, length) => Shape::Copies(inner, *length),
        ValueType::Item(name) => Shape::Item(name),
        _ => Shape::Leaf,
    }
}

fn number_value(whole: i128) -> Value
    ensures { kept_view result ≡ json_number whole }
{
    match Number::from_i128(whole) {
        Some(kept) => Value::Number(kept),
        None => Value::Null,
    }
}

/// The value of a type that holds no other.
pub(crate) fn leaf_value(alloc: Global, ty: &ValueType) -> Value
    ensures { kept_view result ≡ leaf_made (type_view ty.now) }
{
    match ty {
        ValueType::Boolean => Value::Bool(false),
        ValueType::Integer { least, greatest } => number_value(nearest(*least, *greatest)),
        ValueType::Text => Value::String(String::new(alloc)),
        ValueType::List(_) | ValueType::Set(_) => list_value(Vec::new(alloc)),
        ValueType::Map(_, _) => members_value(Map::new(alloc)),
        _ => Value::Null,
    }
}
