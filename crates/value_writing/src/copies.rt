//! Scalars written.
ghost use Rattle.std.specs.Prelude.{◌≡◌, IfOk};
ghost use Rattle.value_models.specs.TypedView.{typed_view};
ghost use Rattle.typed_defs.specs.Written.{json_number, parts_of, scalar_writes};
ghost use Rattle.value_models.specs.ContainersView.{containers_in};
ghost use Rattle.json_value.specs.View.{kept_view};

use serde_json::{Number, Value};
use std::alloc::AllocError;
use value_models::{Containers, Typed};

fn number_value(number: i128) -> Value
    ensures { kept_view result ≡ json_number number }
{
    match Number::from_i128(number) {
        Some(kept) => Value::Number(kept),
        None => Value::Null,
    }
}

/// A scalar as it stands; any other typed value is null.
pub(crate) fn write_scalar(containers: &Containers, typed: &Typed) -> Result<Value, AllocError>
    ensures { IfOk result (λ v. kept_view v ≡ scalar_writes (parts_of (containers_in containers.now) (typed_view typed.now))) }
{
    match typed {
        Typed::Bool(b) => Ok(Value::Bool(*b)),
        Typed::Int(number) => Ok(number_value(*number)),
        Typed::Text(text) => Ok(Value::String(text.clone()?)),
        Typed::Any(value) => Ok(value.clone()?),
        _ => Ok(Value::Null),
    }
}
