//! One of two schemas examined.
ghost use Rattle.std.specs.Prelude.{◌≡◌, ◌≤◌, IfOk, IfErr};
ghost use Rattle.serde_json.specs.View.{view};
ghost use Rattle.json_value.specs.View.{value_of};
ghost use Rattle.schema_tree.specs.Fault.{fault_view};
ghost use Rattle.schema_words.specs.Outcome.{IsRefused, IsReported};
ghost use Rattle.pair_words.specs.Outcome.{CanCompare};

use distinct_names::names_differ;
use schema_tree::{Fault, Setting, Texts};
use schema_words::examined;
use serde_json::Value;
use std::alloc::Global;
use typify_run::Report;

/// The report on a schema, of which all stands that a comparison asks.
pub(crate) fn report_of<T: Texts>(
    alloc: Global,
    depth: u32,
    setting: Setting,
    schema: &Value,
    texts: &mut T,
) -> Result<Report, Fault>
    requires { 1 ≤ depth }
    ensures report { IfOk result (λ r. IsReported depth setting (T.relations texts.old) (value_of (view schema.now)) r) }
    ensures comparable { IfOk result (λ r. CanCompare r) }
    ensures refused { IfErr result (λ f. IsRefused depth setting (T.relations texts.old) (T.faults texts.old) (T.faults texts.new) (value_of (view schema.now)) (fault_view f)) }
    ensures keeps { T.relations texts.new ≡ T.relations texts.old }
    ensures counts { T.faults texts.old ≤ T.faults texts.new }
{
    names_differ(schema);
    match examined(alloc, depth, setting, schema, texts) {
        Ok(report) => Ok(report),
        Err(fault) => Err(fault),
    }
}
