//! A schema examined without values.
ghost use Rattle.std.specs.Prelude.{◌≡◌, ◌≤◌, IfOk, IfErr, map, []};
ghost use Rattle.serde_json.specs.View.{view};
ghost use Rattle.json_value.specs.View.{value_of};
ghost use Rattle.schema_tree.specs.Fault.{fault_view};
ghost use Rattle.schema_words.specs.Outcome.{HasEnds, IsRefused, IsReported};

use schema_tree::{Fault, Setting, Texts};
use serde_json::Value;
use std::alloc::Global;
use typify_run::{Report, examine_with};

fn no_values<'a>() -> &'a [Value]
    ensures { map view result.now ≡ [] }
{
    &[]
}

/// The report on a schema, by which no value is judged: that of `examine_with`, with its refusals.
pub fn examined<T: Texts>(
    alloc: Global,
    depth: u32,
    setting: Setting,
    schema: &Value,
    texts: &mut T,
) -> Result<Report, Fault>
    requires { 1 ≤ depth }
    ensures report { IfOk result (λ r. IsReported depth setting (T.relations texts.old) (value_of (view schema.now)) r) }
    ensures ends { IfOk result (λ r. HasEnds r) }
    ensures refused { IfErr result (λ f. IsRefused depth setting (T.relations texts.old) (T.faults texts.old) (T.faults texts.new) (value_of (view schema.now)) (fault_view f)) }
    ensures keeps { T.relations texts.new ≡ T.relations texts.old }
    ensures counts { T.faults texts.old ≤ T.faults texts.new }
{
    let values = no_values();
    match examine_with(alloc, schema, depth, values, texts, setting) {
        Ok(report) => Ok(report),
        Err(fault) => Err(fault),
    }
}
