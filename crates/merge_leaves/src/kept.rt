//! Listed values that are kept.
ghost use Rattle.std.specs.Prelude.{◌≡◌, IfOk, map, filter};
ghost use Rattle.json_value.specs.View.{kept_view};
ghost use Rattle.merge_leaves.specs.Keep.{keeps as keeps_of};

use json_value::same;
use schema_types::{Types, has_types, is_among, is_constant};
use serde_json::Value;
use std::alloc::{AllocError, Global};

/// Which values of a list are kept.
#[derive(Clone, Copy)]
pub(crate) enum Keep<'v> {
    /// Those that equal the value.
    Equal(&'v Value),
    /// Those that are listed.
    Listed(&'v Vec<Value>),
    /// Those that aren't listed.
    Unlisted(&'v Vec<Value>),
    /// Those that `type` and `const` don't refuse.
    Allowed(&'v Option<Types>, &'v Option<Value>),
}

fn keeps(keep: &Keep<'_>, value: &Value) -> bool
    ensures { result ≡ keeps_of keep.now (kept_view value.now) }
{
    match keep {
        Keep::Equal(constant) => same(constant, value),
        Keep::Listed(values) => is_among(values, value),
        Keep::Unlisted(values) => !is_among(values, value),
        Keep::Allowed(types, constant) => has_types(types, value) && is_constant(constant, value),
    }
}

/// Copies of the values that are kept, in their order.
#[tactic(auto, using(crate::proofs::Listed::value_kept, crate::proofs::Listed::value_left, crate::proofs::Listed::values_end))]
pub(crate) fn kept_values(
    alloc: Global,
    values: &Vec<Value>,
    keep: &Keep<'_>,
) -> Result<Vec<Value>, AllocError>
    ensures { IfOk result (λ v. map kept_view v.items ≡ filter (keeps_of keep.now) (map kept_view values.now.items)) }
{
    let mut kept = Vec::new(alloc);
    for value in values {
        if keeps(keep, value) {
            kept.push(value.clone()?)?;
        }
    }
    Ok(kept)
}
