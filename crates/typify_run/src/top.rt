//! The run of the program, over any source, sink and judge of texts.
ghost use Rattle.std.specs.Prelude.{◌≡◌, ◌≢◌, ◌≤◌, ◌↔◌, ◌⊎◌, false, ℕ, List, [], map, length, IfOk, Some, None, string_bytes};
ghost use Rattle.serde_json.specs.View.{view};
ghost use Rattle.schema_defs.specs.Faults.{Rises};
ghost use Rattle.schema_defs.specs.Texts.{Relations};
ghost use Rattle.schema_tree.specs.Fault.{FaultD, fault_line, fault_view, memory as out_of_memory};
ghost use Rattle.run_input.specs.Input.{Parts, IsInput, IsNoInput, limit};
ghost use Rattle.typify_run.specs.Outcome.{Answers, Ends, EndsReading, IsBare, IsCarried, IsCauseIn, IsCaused, IsCutShort, IsFaultPrinted, IsMemorySpent, IsPrinting, IsReportPrinted, IsReported, IsWritingCut, examined as examined_of, is_built, values_of};
ghost use Rattle.typify_run.specs.Page.{ArePrintable};
ghost use Rattle.derive_model.specs.VerdictView.{verdict_view};
ghost use Rattle.typify_run.specs.PlainInputs.{EndsPlainly, IsFaultless, IsPlainCall, IsPrintedOrSpent};
ghost use Rattle.typify_run.specs.Call.{Call, call, call_of};
ghost use Rattle.typify_run.specs.Words.{depth_said};

use crate::examination::examine_values;
use crate::outcome::Outcome;
use crate::report::Report;
use crate::values::Judged;
use crate::words::{Asked, Command, command_of_words, depth_of_words, setting_of_words};
use run_input::{InputError, LIMIT, OwnedParts, owned_parts, owned_value};
use run_io::{InputFault, Sink, SinkFault, Source, put, read_input};
use schema_tree::{Fault, Texts};
use serde_json::Value;
use std::alloc::{AllocError, Global};

// The report printed.
fn print_report<K: Sink>(alloc: Global, asked: Asked, report: Report, sink: &mut K) -> Outcome
    requires { ArePrintable (map verdict_view report.verdicts.items) }
    ensures answer { (texts : Relations) (before after : ℕ) (parts : Parts) → IsReported (call asked texts before after) parts report → Answers (call asked texts before after) parts (K.written sink.old) (K.written sink.new) result.status result.report result.fault }
    ensures write_fault { result.status ≡ 5 → Rises (K.faults sink.old) (K.faults sink.new) }
    ensures kept { K.faults sink.old ≤ K.faults sink.new }
{
    let Ok(page) = report.page_of(alloc, asked.command) else {
        return Outcome::bare(6);
    };
    match put(sink, page.as_bytes()) {
        Ok(()) => Outcome {
            status: 0,
            report: Some(report),
            fault: None,
        },
        Err(SinkFault::Failed) => Outcome {
            status: 5,
            report: Some(report),
            fault: None,
        },
        Err(SinkFault::Memory) => Outcome::bare(6),
    }
}

/// The line that tells a fault, other than want of memory.
pub fn fault_text(alloc: Global, fault: &Fault) -> Result<String, AllocError>
    requires { fault_view fault.now ≢ out_of_memory }
    ensures { IfOk result (λ s. string_bytes s ≡ fault_line (fault_view fault.now)) }
{
    fault.line(alloc)
}

// The line of a fault printed.
fn print_fault<K: Sink>(alloc: Global, fault: Fault, sink: &mut K) -> Outcome
    ensures answer { (c : Call) (parts : Parts) → IsCaused c parts fault → Answers c parts (K.written sink.old) (K.written sink.new) result.status result.report result.fault }
    ensures write_fault { result.status ≡ 5 → Rises (K.faults sink.old) (K.faults sink.new) }
    ensures kept { K.faults sink.old ≤ K.faults sink.new }
{
    let Ok(line) = fault.line(alloc) else {
        return Outcome::bare(6);
    };
    match put(sink, line.as_bytes()) {
        Ok(()) => Outcome {
            status: 1,
            report: None,
            fault: Some(fault),
        },
        Err(SinkFault::Failed) => Outcome {
            status: 5,
            report: None,
            fault: Some(fault),
        },
        Err(SinkFault::Memory) => Outcome::bare(6),
    }
}

// The values that are examined: where items are asked for, none.
fn examined(alloc: Global, command: Command, values: Vec<Value>) -> Vec<Value>
    ensures { map view result.items ≡ examined_of command (map view values.items) }
{
    match command {
        Command::Check => values,
        Command::Items => Vec::new(alloc),
    }
}

// The schema and the values examined, and what comes of it printed.
fn run_parts<K: Sink, T: Texts>(
    alloc: Global,
    asked: Asked,
    schema: &Value,
    values: Vec<Value>,
    sink: &mut K,
    texts: &mut T,
) -> Outcome
    requires { 1 ≤ asked.depth }
    ensures answer { (parts : Parts) → parts.schema ≡ view schema.now → values_of asked.command parts ≡ map view values.items → Answers (call asked (T.relations texts.old) (T.faults texts.old) (T.faults texts.new)) parts (K.written sink.old) (K.written sink.new) result.status result.report result.fault }
    ensures write_fault { result.status ≡ 5 → Rises (K.faults sink.old) (K.faults sink.new) }
    ensures kept { K.faults sink.old ≤ K.faults sink.new }
    ensures keeps { T.relations texts.new ≡ T.relations texts.old }
    ensures counts { T.faults texts.old ≤ T.faults texts.new }
{
    let examined = examine_values(
        alloc,
        schema,
        asked.depth,
        Judged::Given(values),
        texts,
        asked.setting,
    );
    match examined {
        Ok(report) => print_report(alloc, asked, report, sink),
        Err(fault) => {
            if fault.is_memory() {
                Outcome::bare(6)
            } else {
                print_fault(alloc, fault, sink)
            }
        }
    }
}

// The bytes of an input read, and examined.
fn run_bytes<K: Sink, T: Texts>(
    alloc: Global,
    asked: Asked,
    bytes: Vec<u8>,
    sink: &mut K,
    texts: &mut T,
) -> Outcome
    requires depth { 1 ≤ asked.depth }
    requires short { length bytes.items ≤ limit }
    ensures ends { Ends (call asked (T.relations texts.old) (T.faults texts.old) (T.faults texts.new)) bytes.items (K.written sink.old) (K.written sink.new) result.status result.report result.fault }
    ensures write_fault { result.status ≡ 5 → Rises (K.faults sink.old) (K.faults sink.new) }
    ensures kept { K.faults sink.old ≤ K.faults sink.new }
    ensures keeps { T.relations texts.new ≡ T.relations texts.old }
    ensures counts { T.faults texts.old ≤ T.faults texts.new }
{
    let value = match owned_value(alloc, bytes) {
        Ok(value) => value,
        Err(InputError::Memory) => return Outcome::bare(6),
        Err(InputError::NotJson) => return Outcome::bare(3),
    };
    match owned_parts(value) {
        Some(OwnedParts { schema, values }) => {
            let values = examined(alloc, asked.command, values);
            run_parts(alloc, asked, &schema, values, sink, texts)
        }
        None => Outcome::bare(3),
    }
}

// The input read to its end, and examined.
fn run_command<S: Source, K: Sink, T: Texts>(
    alloc: Global,
    asked: Asked,
    source: &mut S,
    sink: &mut K,
    texts: &mut T,
) -> Outcome
    requires { 1 ≤ asked.depth }
    ensures ends { (all : List ℕ) → S.left source.old ≡ Some all → EndsReading (call asked (T.relations texts.old) (T.faults texts.old) (T.faults texts.new)) all (K.written sink.old) (K.written sink.new) result.status result.report result.fault }
    ensures carried { IsCarried (call asked (T.relations texts.old) (T.faults texts.old) (T.faults texts.new)) (K.written sink.old) (K.written sink.new) result.status result.report result.fault }
    ensures built { result.status ≢ 2 }
    ensures within { result.status ≤ 6 }
    ensures spent { (all : List ℕ) → S.left source.old ≡ Some all → IsPrinting result.status → S.left source.new ≡ Some [] }
    ensures read_fault { result.status ≡ 4 → Rises (S.faults source.old) (S.faults source.new) × IsBare (K.written sink.old) (K.written sink.new) result.report result.fault }
    ensures write_fault { result.status ≡ 5 → Rises (K.faults sink.old) (K.faults sink.new) }
    ensures kept_source { S.faults source.old ≤ S.faults source.new }
    ensures kept_sink { K.faults sink.old ≤ K.faults sink.new }
    ensures keeps { T.relations texts.new ≡ T.relations texts.old }
    ensures counts { T.faults texts.old ≤ T.faults texts.new }
{
    match read_input(alloc, source, LIMIT) {
        Ok(bytes) => run_bytes(alloc, asked, bytes, sink, texts),
        Err(InputFault::Memory) => Outcome::bare(6),
        Err(InputFault::Failed) => Outcome::bare(4),
        Err(InputFault::TooLong) => Outcome::bare(3),
    }
}

/// Runs the program: the words after its name, an input from the source, the page or the line of a fault to the sink.
/// `check DEPTH`, with DEPTH from 1 to 512, reads one JSON object with exactly the members `schema` and `values`, the
/// latter a list, in at most 16,777,216 bytes, and examines them. `items DEPTH` reads the same, passes over the values, and prints
/// the text of each item, each `Self` replaced as serde's derives do. With `--null-absent` as the last word null may stand for the
/// absence of a property that isn't required. The outcome's status says how it ended.
pub fn run<S: Source, K: Sink, T: Texts>(
    alloc: Global,
    words: &[String],
    source: &mut S,
    sink: &mut K,
    texts: &mut T,
) -> Outcome
    ensures within { result.status ≤ 6 }
    ensures carried { IsCarried (call_of (map string_bytes words.now) (T.relations texts.old) (T.faults texts.old) (T.faults texts.new)) (K.written sink.old) (K.written sink.new) result.status result.report result.fault }
    ensures report { (all : List ℕ) → S.left source.old ≡ Some all → result.status ≡ 0 → IsReportPrinted (call_of (map string_bytes words.now) (T.relations texts.old) (T.faults texts.old) (T.faults texts.new)) all (K.written sink.old) (K.written sink.new) result.report result.fault }
    ensures fault { (all : List ℕ) → S.left source.old ≡ Some all → result.status ≡ 1 → IsFaultPrinted (call_of (map string_bytes words.now) (T.relations texts.old) (T.faults texts.old) (T.faults texts.new)) all (K.written sink.old) (K.written sink.new) result.report result.fault }
    ensures words { (result.status ≡ 2) ↔ (depth_said (map string_bytes words.now) ≡ None) }
    ensures other_words { result.status ≡ 2 → (S.left source.new ≡ S.left source.old) × IsBare (K.written sink.old) (K.written sink.new) result.report result.fault }
    ensures no_input { (all : List ℕ) → S.left source.old ≡ Some all → result.status ≡ 3 → IsNoInput all × IsBare (K.written sink.old) (K.written sink.new) result.report result.fault }
    ensures read_fault { result.status ≡ 4 → Rises (S.faults source.old) (S.faults source.new) × IsBare (K.written sink.old) (K.written sink.new) result.report result.fault }
    ensures write_fault { result.status ≡ 5 → Rises (K.faults sink.old) (K.faults sink.new) }
    ensures writing_cut { (all : List ℕ) → S.left source.old ≡ Some all → result.status ≡ 5 → IsWritingCut (call_of (map string_bytes words.now) (T.relations texts.old) (T.faults texts.old) (T.faults texts.new)) all (K.written sink.old) (K.written sink.new) result.report result.fault }
    ensures memory { (all : List ℕ) → S.left source.old ≡ Some all → result.status ≡ 6 → IsMemorySpent (call_of (map string_bytes words.now) (T.relations texts.old) (T.faults texts.old) (T.faults texts.new)) all (K.written sink.old) (K.written sink.new) result.report result.fault }
    ensures refused { (all : List ℕ) → S.left source.old ≡ Some all → IsNoInput all → (result.status ≡ 2) ⊎ ((result.status ≡ 3) ⊎ IsCutShort result.status) }
    ensures not_built { (all : List ℕ) (parts : Parts) → S.left source.old ≡ Some all → IsInput all parts → is_built (call_of (map string_bytes words.now) (T.relations texts.old) (T.faults texts.old) (T.faults texts.new)) parts ≡ false → (result.status ≡ 1) ⊎ ((result.status ≡ 2) ⊎ IsCutShort result.status) }
    ensures faulty { (all : List ℕ) (parts : Parts) (f : FaultD) → S.left source.old ≡ Some all → IsInput all parts → IsCauseIn (call_of (map string_bytes words.now) (T.relations texts.old) (T.faults texts.old) (T.faults texts.new)) parts f → (result.status ≡ 1) ⊎ ((result.status ≡ 2) ⊎ IsCutShort result.status) }
    ensures plain { (all : List ℕ) (parts : Parts) → S.left source.old ≡ Some all → IsInput all parts → IsPlainCall (call_of (map string_bytes words.now) (T.relations texts.old) (T.faults texts.old) (T.faults texts.new)) parts → EndsPlainly (call_of (map string_bytes words.now) (T.relations texts.old) (T.faults texts.old) (T.faults texts.new)) parts (K.written sink.old) (K.written sink.new) result.status result.report result.fault }
    ensures undisturbed { (all : List ℕ) (parts : Parts) → S.left source.old ≡ Some all → IsInput all parts → depth_said (map string_bytes words.now) ≢ None → IsFaultless (call_of (map string_bytes words.now) (T.relations texts.old) (T.faults texts.old) (T.faults texts.new)) parts → ¬ Rises (S.faults source.old) (S.faults source.new) → ¬ Rises (K.faults sink.old) (K.faults sink.new) → ¬ Rises (T.faults texts.old) (T.faults texts.new) → IsPrintedOrSpent result.status }
    ensures plain_undisturbed { (all : List ℕ) (parts : Parts) → S.left source.old ≡ Some all → IsInput all parts → IsPlainCall (call_of (map string_bytes words.now) (T.relations texts.old) (T.faults texts.old) (T.faults texts.new)) parts → ¬ Rises (S.faults source.old) (S.faults source.new) → ¬ Rises (K.faults sink.old) (K.faults sink.new) → ¬ Rises (T.faults texts.old) (T.faults texts.new) → IsPrintedOrSpent result.status }
    ensures spent { (all : List ℕ) → S.left source.old ≡ Some all → IsPrinting result.status → S.left source.new ≡ Some [] }
    ensures kept_source { S.faults source.old ≤ S.faults source.new }
    ensures kept_sink { K.faults sink.old ≤ K.faults sink.new }
    ensures keeps { T.relations texts.new ≡ T.relations texts.old }
    ensures counts { T.faults texts.old ≤ T.faults texts.new }
{
    match depth_of_words(words) {
        Some(depth) => {
            let asked = Asked {
                command: command_of_words(words),
                depth,
                setting: setting_of_words(words),
            };
            run_command(alloc, asked, source, sink, texts)
        }
        None => Outcome::bare(2),
    }
}
