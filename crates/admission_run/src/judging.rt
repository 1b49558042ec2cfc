//! Which values a document admits.
ghost use Rattle.std.specs.Prelude.{◌≡◌, ◌≤◌, IfOk, IfErr, map};
ghost use Rattle.serde_json.specs.View.{view};
ghost use Rattle.json_value.specs.View.{value_of};
ghost use Rattle.schema_tree.specs.Document.{view as document_seen};
ghost use Rattle.schema_tree.specs.Fault.{fault_view};
ghost use Rattle.admission_run.specs.Verdicts.{AreVerdicts, IsRefusal, IsUnjudged, document_admits, verdicts_of};

use schema_admission::admits;
use schema_tree::{Document, Fault, Location, Setting, TextFault, Texts, check_values};
use serde_json::Value;
use std::alloc::Global;

/// Whether the document that the schema is under the setting admits each of the values, in order. Refused are a number of
/// a value that isn't an i64 (`ValueNumber`), then the faults of `Document::read`, then a judge of texts that failed
/// (`Texts`, at the root). Fails with `Memory` where memory runs out.
pub fn verdicts<T: Texts>(
    alloc: Global,
    schema: &Value,
    values: &[Value],
    texts: &mut T,
    setting: Setting,
) -> Result<Vec<bool>, Fault>
    ensures answers { IfOk result (λ bs. AreVerdicts setting (T.relations texts.old) (value_of (view schema.now)) (map view values.now) bs.items) }
    ensures refused { IfErr result (λ f. IsRefusal (T.faults texts.old) (T.faults texts.new) (value_of (view schema.now)) (map view values.now) (fault_view f)) }
    ensures keeps { T.relations texts.new ≡ T.relations texts.old }
    ensures counts { T.faults texts.old ≤ T.faults texts.new }
{
    check_values(alloc, values)?;
    let document = Document::read_with(alloc, schema, setting)?;
    let answers = judge_all(alloc, &document, values, texts)?;
    Ok(answers)
}

// A verdict for each value.
fn judge_all<T: Texts>(
    alloc: Global,
    document: &Document,
    values: &[Value],
    texts: &mut T,
) -> Result<Vec<bool>, Fault>
    ensures answers { IfOk result (λ bs. bs.items ≡ verdicts_of (T.relations texts.old) (document_seen document.now) (map view values.now)) }
    ensures refused { IfErr result (λ f. IsUnjudged (T.faults texts.old) (T.faults texts.new) (fault_view f)) }
    ensures keeps { T.relations texts.new ≡ T.relations texts.old }
    ensures counts { T.faults texts.old ≤ T.faults texts.new }
{
    let mut answers = Vec::new(alloc);
    for value in values {
        let admitted = judge(alloc, document, value, texts)?;
        if answers.push(admitted).is_err() {
            return Err(Fault::Memory);
        }
    }
    Ok(answers)
}

fn judge<T: Texts>(
    alloc: Global,
    document: &Document,
    value: &Value,
    texts: &mut T,
) -> Result<bool, Fault>
    ensures answer { IfOk result (λ b. b ≡ document_admits (T.relations texts.old) (document_seen document.now) (view value.now)) }
    ensures refused { IfErr result (λ f. IsUnjudged (T.faults texts.old) (T.faults texts.new) (fault_view f)) }
    ensures keeps { T.relations texts.new ≡ T.relations texts.old }
    ensures counts { T.faults texts.old ≤ T.faults texts.new }
{
    match admits(alloc, document.parts(), texts, value) {
        Ok(admitted) => Ok(admitted),
        Err(TextFault::Memory) => Err(Fault::Memory),
        Err(TextFault::Failed) => Err(Fault::Texts {
            path: Location::root(alloc),
        }),
    }
}
