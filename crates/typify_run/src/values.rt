//! Values that are judged.
ghost use Rattle.std.specs.Prelude.{◌≡◌, ◌⊎◌, IfErr, OnOk, map, true};
ghost use Rattle.serde_json.specs.View.{view};
ghost use Rattle.schema_tree.specs.Fault.{fault_view, memory};
ghost use Rattle.schema_tree.specs.Numbers.{are_i64, HasWideNumber};
ghost use Rattle.typify_run.specs.Values.{seen};

use schema_tree::{Fault, check_values};
use serde_json::Value;
use std::alloc::Global;

/// Values that are judged in order.
#[derive(Drop)]
pub(crate) enum Judged<'v> {
    /// They stay with the caller.
    Lent(&'v [Value]),
    /// Each is dropped once it was judged, so that its memory serves for what is written of the next.
    Given(Vec<Value>),
}

/// Refuses values with a number that isn't an i64, as `check_values` does.
pub(crate) fn check_judged(alloc: Global, values: &Judged<'_>) -> Result<(), Fault>
    ensures fine { OnOk result (are_i64 (seen values.now) ≡ true) }
    ensures refusal { IfErr result (λ f. (fault_view f ≡ memory) ⊎ HasWideNumber (seen values.now) (fault_view f)) }
{
    match values {
        Judged::Lent(values) => check_values(alloc, values),
        Judged::Given(values) => check_values(alloc, values),
    }
}
