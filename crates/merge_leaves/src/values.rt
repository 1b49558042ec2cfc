//! Merging listed values.
ghost use Rattle.std.specs.Prelude.{◌≡◌, ◌∷◌, [], IfOk, map, option_map};
ghost use Rattle.schema_defs.specs.Schema.{Plain};
ghost use Rattle.json_value.specs.View.{kept_view};
ghost use Rattle.schema_types.specs.View.{types_view};
ghost use Rattle.merge_defs.specs.Outcome.{where_both};
ghost use Rattle.merge_defs.specs.Leaves.{listed_values, some_values as some_values_of, two_lists as two_lists_of};
ghost use Rattle.merge_defs.specs.Less.{less_values as less_values_of};
ghost use Rattle.merge_defs.specs.Merge.{tidied_values as tidied_values_of};
ghost use Rattle.merge_parts.specs.Steps.{Quietly};
ghost use Rattle.merge_leaves.specs.View.{values_view};

use crate::kept::{Keep, kept_values};
use schema_types::{Types, copy_list_of_values};
use serde_json::Value;
use std::alloc::{AllocError, Global};

fn one_value(alloc: Global, value: &Value) -> Result<Vec<Value>, AllocError>
    ensures { IfOk result (λ v. map kept_view v.items ≡ kept_view value.now ∷ []) }
{
    let mut values = Vec::new(alloc);
    values.push(value.clone()?)?;
    Ok(values)
}

/// The values that `enum` and `const` list: a constant is a list of one, and beside `enum` it leaves the values that equal it.
pub fn values_of(
    alloc: Global,
    listed: &Option<Vec<Value>>,
    constant: &Option<Value>,
) -> Result<Option<Vec<Value>>, AllocError>
    ensures { IfOk result (λ o. values_view o ≡ listed_values (values_view listed.now) (option_map kept_view constant.now)) }
{
    match (listed, constant) {
        (None, None) => Ok(None),
        (Some(values), None) => Ok(Some(copy_list_of_values(alloc, values)?)),
        (None, Some(value)) => Ok(Some(one_value(alloc, value)?)),
        (Some(values), Some(value)) => Ok(Some(kept_values(alloc, values, &Keep::Equal(value))?)),
    }
}

// None as never.
fn some_values(values: Vec<Value>) -> Option<Option<Vec<Value>>>
    ensures { Quietly (some_values_of (map kept_view values.items)) (option_map values_view result) }
{
    if values.is_empty() {
        return None;
    }
    Some(Some(values))
}

fn two_lists(
    alloc: Global,
    first: &Vec<Value>,
    second: &Vec<Value>,
) -> Result<Option<Option<Vec<Value>>>, AllocError>
    ensures { IfOk result (λ o. Quietly (two_lists_of (map kept_view first.now.items) (map kept_view second.now.items)) (option_map values_view o)) }
{
    let kept = kept_values(alloc, first, &Keep::Listed(second))?;
    Ok(some_values(kept))
}

/// The values that both sides list, in the order of the first, or never; where one side alone lists values, those. The lists are those that
/// `values_of` answers.
pub fn both_values(
    alloc: Global,
    first: Option<Vec<Value>>,
    second: Option<Vec<Value>>,
) -> Result<Option<Option<Vec<Value>>>, AllocError>
    ensures { IfOk result (λ o. Quietly (where_both two_lists_of (values_view first) (values_view second)) (option_map values_view o)) }
{
    match (first, second) {
        (None, None) => Ok(Some(None)),
        (None, Some(values)) => Ok(Some(Some(values))),
        (Some(values), None) => Ok(Some(Some(values))),
        (Some(values), Some(others)) => two_lists(alloc, &values, &others),
    }
}

/// The listed values that `type` and `const` beside them don't refuse.
pub fn tidied_values(
    alloc: Global,
    types: &Option<Types>,
    constant: &Option<Value>,
    listed: &Option<Vec<Value>>,
) -> Result<Option<Vec<Value>>, AllocError>
    ensures { IfOk result (λ o. (p : Plain) → values_view o ≡ tidied_values_of (record p { types = option_map types_view types.now; const_value = option_map kept_view constant.now }) (values_view listed.now)) }
{
    match listed {
        None => Ok(None),
        Some(values) => Ok(Some(kept_values(alloc, values, &Keep::Allowed(types, constant))?)),
    }
}

/// The listed values without those that are taken away, or never; without a list on both sides nothing is taken away.
pub fn less_values(
    alloc: Global,
    listed: &Option<Vec<Value>>,
    taken: &Option<Vec<Value>>,
) -> Result<Option<Option<Vec<Value>>>, AllocError>
    ensures { IfOk result (λ o. (p : Plain) → Quietly (less_values_of (record p { enum_values = values_view listed.now }) (values_view listed.now) (values_view taken.now)) (option_map (λ vs. record p { enum_values = values_view vs }) o)) }
{
    match (listed, taken) {
        (None, _) => Ok(Some(None)),
        (Some(values), None) => Ok(Some(Some(copy_list_of_values(alloc, values)?))),
        (Some(values), Some(others)) => {
            let kept = kept_values(alloc, values, &Keep::Unlisted(others))?;
            Ok(some_values(kept))
        }
    }
}
