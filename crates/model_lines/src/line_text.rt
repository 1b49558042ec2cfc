//! The answer to one line, as text.
ghost use Rattle.std.specs.Prelude.{◌≡◌, ◌≤◌, ℕ, List, IfOk, IfErr, Ok, length, map, string_bytes, true};
ghost use Rattle.serde_json.specs.View.{view};
ghost use Rattle.json_value.specs.View.{value_of};
ghost use Rattle.schema_tree.specs.Fault.{fault_view, memory as out_of_memory};
ghost use Rattle.schema_tree.specs.Numbers.{holds_i64_alone};
ghost use Rattle.derive_model.specs.VerdictView.{verdict_view};
ghost use Rattle.line_reader.specs.Lines.{bound, kept};
ghost use Rattle.line_reader.specs.State.{line_in};
ghost use Rattle.line_answers.specs.Answers.{answer_line};
ghost use Rattle.typify_run.specs.Examine.{CanJudge};
ghost use Rattle.typify_run.specs.Page.{IsPrintable};
ghost use Rattle.typify_run.specs.Verdicts.{IsUnjudged};
ghost use Rattle.model_lines.specs.Answers.{IsAnswerText, IsJson, IsModuleOf, answer_of};

use derive_model::{Module, Verdict};
use line_answers::{long_line, not_json_line, number_line, refused_line, taken_line};
use line_reader::LineReader;
use run_input::{InputError, input_value};
use schema_tree::{Fault, Texts, wide_places_are_exact};
use serde_json::Value;
use std::alloc::{AllocError, Global};
use typify_run::{Report, judge_value, wide_place};

/// The answer to the line that the reader found last. Fails with `Memory` where memory runs out, and with `Texts` where the judge of texts fails.
pub(crate) fn text_of_line<T: Texts>(
    alloc: Global,
    report: &Report,
    models: &Module<'_>,
    index: u64,
    reader: &LineReader,
    texts: &mut T,
) -> Result<String, Fault>
    requires made { IsModuleOf models.now report.now }
    requires judges { CanJudge (T.relations texts.old) report.now }
    ensures told { (l : List ℕ) → line_in reader.now ≡ kept l → IfOk result (λ s. IsAnswerText (T.relations texts.old) report.now l index (string_bytes s)) }
    ensures refused { IfErr result (λ f. IsUnjudged (T.faults texts.old) (T.faults texts.new) (fault_view f)) }
    ensures keeps { T.relations texts.new ≡ T.relations texts.old }
    ensures counts { T.faults texts.old ≤ T.faults texts.new }
{
    match reader.line() {
        Some(bytes) => text_of_bytes(alloc, report, models, index, bytes, texts),
        None => spoken(long_line(alloc, index)),
    }
}

// The answer to a line that isn't too long.
fn text_of_bytes<T: Texts>(
    alloc: Global,
    report: &Report,
    models: &Module<'_>,
    index: u64,
    bytes: &[u8],
    texts: &mut T,
) -> Result<String, Fault>
    requires made { IsModuleOf models.now report.now }
    requires judges { CanJudge (T.relations texts.old) report.now }
    ensures told { length bytes.now ≤ bound → IfOk result (λ s. IsAnswerText (T.relations texts.old) report.now bytes.now index (string_bytes s)) }
    ensures refused { IfErr result (λ f. IsUnjudged (T.faults texts.old) (T.faults texts.new) (fault_view f)) }
    ensures keeps { T.relations texts.new ≡ T.relations texts.old }
    ensures counts { T.faults texts.old ≤ T.faults texts.new }
{
    match input_value(alloc, bytes) {
        Ok(value) => text_of_value(alloc, report, models, index, &value, texts),
        Err(InputError::Memory) => Err(Fault::Memory),
        Err(InputError::NotJson) => spoken(not_json_line(alloc, index)),
    }
}

// The answer to a value.
fn text_of_value<T: Texts>(
    alloc: Global,
    report: &Report,
    models: &Module<'_>,
    index: u64,
    value: &Value,
    texts: &mut T,
) -> Result<String, Fault>
    requires made { IsModuleOf models.now report.now }
    requires judges { CanJudge (T.relations texts.old) report.now }
    ensures told { (l : List ℕ) → length l ≤ bound → IsJson l (view value.now) → IfOk result (λ s. IsAnswerText (T.relations texts.old) report.now l index (string_bytes s)) }
    ensures refused { IfErr result (λ f. IsUnjudged (T.faults texts.old) (T.faults texts.new) (fault_view f)) }
    ensures keeps { T.relations texts.new ≡ T.relations texts.old }
    ensures counts { T.faults texts.old ≤ T.faults texts.new }
{
    wide_places_are_exact();
    match wide_place(alloc, value) {
        Ok(Some(path)) => spoken(number_line(alloc, index, &path)),
        Ok(None) => text_of_small(alloc, report, models, index, value, texts),
        Err(_) => Err(Fault::Memory),
    }
}

// The answer to a value whose numbers are i64.
fn text_of_small<T: Texts>(
    alloc: Global,
    report: &Report,
    models: &Module<'_>,
    index: u64,
    value: &Value,
    texts: &mut T,
) -> Result<String, Fault>
    requires numbers { holds_i64_alone (value_of (view value.now)) ≡ true }
    requires made { IsModuleOf models.now report.now }
    requires judges { CanJudge (T.relations texts.old) report.now }
    ensures told { (l : List ℕ) → length l ≤ bound → IsJson l (view value.now) → IfOk result (λ s. IsAnswerText (T.relations texts.old) report.now l index (string_bytes s)) }
    ensures refused { IfErr result (λ f. IsUnjudged (T.faults texts.old) (T.faults texts.new) (fault_view f)) }
    ensures keeps { T.relations texts.new ≡ T.relations texts.old }
    ensures counts { T.faults texts.old ≤ T.faults texts.new }
{
    match judge_value(alloc, models, &report.root, value, texts) {
        Ok(verdict) => spoken(verdict_text(alloc, index, &verdict)),
        Err(fault) => Err(fault),
    }
}

// The answer that a verdict is.
#[tactic(auto, using(typify_run::proofs::Verdicts::taken_is, typify_run::proofs::Verdicts::refused_is))]
fn verdict_text(alloc: Global, index: u64, verdict: &Verdict) -> Result<String, AllocError>
    requires { IsPrintable (verdict_view verdict.now) }
    ensures { IfOk result (λ s. string_bytes s ≡ answer_line index (answer_of (verdict_view verdict.now))) }
{
    if let Some(written) = verdict.taken() {
        return taken_line(alloc, index, written);
    }
    match verdict.refused() {
        Some(path) => refused_line(alloc, index, path),
        None => Ok(String::new(alloc)),
    }
}

// The text, where there was memory for it.
fn spoken(text: Result<String, AllocError>) -> Result<String, Fault>
    ensures same { IfOk result (λ s. text ≡ Ok s) }
    ensures memory { IfErr result (λ f. fault_view f ≡ out_of_memory) }
{
    match text {
        Ok(text) => Ok(text),
        Err(_) => Err(Fault::Memory),
    }
}
