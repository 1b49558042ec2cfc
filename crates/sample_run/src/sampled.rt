//! The sample of a number, examined.
ghost use Rattle.std.specs.Prelude.{◌≡◌, ◌≤◌, IfOk, IfErr, map};
ghost use Rattle.json_value.specs.View.{kept_view};
ghost use Rattle.schema_tree.specs.Fault.{fault_view, memory as out_of_memory};
ghost use Rattle.sample_inputs.specs.Sample.{sample_schema as sample_schema_of, sample_values as sample_values_of};
ghost use Rattle.sample_run.specs.Sampled.{IsSampled};

use sample_inputs::{sample_schema, sample_values};
use schema_tree::{Fault, PlainTexts};
use serde_json::Value;
use std::alloc::Global;
use typify_run::{Report, examine};

// The examination of that document and of those values, by a judge of texts that knows no pattern.
fn examined(alloc: Global, number: u32, schema: &Value, values: &[Value]) -> Result<Report, Fault>
    requires number { (1 ≤ number) × (number ≤ 999) }
    requires schema { kept_view schema.now ≡ sample_schema_of number }
    requires values { map kept_view values.now ≡ sample_values_of number }
    ensures report { IfOk result (IsSampled number) }
    ensures memory { IfErr result (λ f. fault_view f ≡ out_of_memory) }
{
    let mut texts = PlainTexts::new(alloc);
    match examine(alloc, schema, 9 * number + 1, values, &mut texts) {
        Ok(report) => Ok(report),
        Err(fault) => Err(fault),
    }
}

fn with_schema(alloc: Global, number: u32, schema: &Value) -> Result<Report, Fault>
    requires number { (1 ≤ number) × (number ≤ 999) }
    requires schema { kept_view schema.now ≡ sample_schema_of number }
    ensures report { IfOk result (IsSampled number) }
    ensures memory { IfErr result (λ f. fault_view f ≡ out_of_memory) }
{
    match sample_values(alloc, number) {
        Ok(values) => examined(alloc, number, schema, &values),
        Err(_) => Err(Fault::Memory),
    }
}

/// The report on the document and the values of a number; or want of memory, the only fault there is.
pub(crate) fn sampled(alloc: Global, number: u32) -> Result<Report, Fault>
    requires { (1 ≤ number) × (number ≤ 999) }
    ensures report { IfOk result (IsSampled number) }
    ensures memory { IfErr result (λ f. fault_view f ≡ out_of_memory) }
{
    match sample_schema(alloc, number) {
        Ok(schema) => with_schema(alloc, number, &schema),
        Err(_) => Err(Fault::Memory),
    }
}
