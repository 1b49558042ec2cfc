//! The run over lines, over any source, sink and judge of texts.
ghost use Rattle.std.specs.Prelude.{◌≡◌, ◌≢◌, ◌<◌, ◌≤◌, ◌↔◌, ◌⊎◌, ℕ, List, [], length, map, Option, Some, None, IfOk, IsErrOf, string_bytes};
ghost use Rattle.serde_json.specs.View.{view};
ghost use Rattle.serde_json.specs.Data.{Data};
ghost use Rattle.schema_defs.specs.Faults.{Rises};
ghost use Rattle.schema_defs.specs.Texts.{IsLawful};
ghost use Rattle.line_reader.specs.Lines.{bound, kept, most};
ghost use Rattle.line_reader.specs.Reading.{IsFound};
ghost use Rattle.line_reader.specs.State.{count_of, held, line_in};
ghost use Rattle.typify_run.specs.Call.{Call};
ghost use Rattle.typify_run.specs.Examine.{CanJudge};
ghost use Rattle.typify_run.specs.Outcome.{IsBare};
ghost use Rattle.typify_run.specs.PlainInputs.{IsFaultless, IsPrintedOrSpent};
ghost use Rattle.model_lines.specs.Answers.{IsJson, IsNotJson, parts_of};
ghost use Rattle.model_lines.specs.Going.{IsCallFrom, IsFirstFound, IsFirstRead, IsReady};
ghost use Rattle.model_lines.specs.Outcome.{EndsLines, HasNoDocument};
ghost use Rattle.model_lines.specs.Promises.{BeginsWith, IsAdmittedPage, IsInterrupted};
ghost use Rattle.model_lines.specs.Words.{call, call_of, depth_said};

use crate::ending::Ending;
use crate::outcome::LinesOutcome;
use crate::printing::print_fault;
use crate::values::run_report;
use crate::words::{Asked, depth_of_words};
use line_reader::{Found, InputFault, LineReader};
use run_input::{InputError, input_value};
use run_io::{Sink, Source};
use schema_tree::Texts;
use serde_json::Value;
use std::alloc::Global;
use typify_run::{Report, examine_with, setting_of_words};

// The value of the line that the reader found last; a line that is too long has none.
fn line_value(alloc: Global, reader: &LineReader) -> Result<Value, InputError>
    ensures value { (l : List ℕ) → line_in reader.now ≡ kept l → IfOk result (λ v. (length l ≤ bound) × IsJson l (view v)) }
    ensures none { (l : List ℕ) → line_in reader.now ≡ kept l → IsErrOf result InputError.NotJson → (bound < length l) ⊎ IsNotJson l }
{
    match reader.line() {
        Some(bytes) => input_value(alloc, bytes),
        None => Err(InputError::NotJson),
    }
}

// What comes of the report.
fn run_values_of<S: Source, K: Sink, T: Texts>(
    alloc: Global,
    report: Report,
    more: bool,
    reader: &mut LineReader,
    source: &mut S,
    sink: &mut K,
    texts: &mut T,
) -> LinesOutcome
    requires { CanJudge (T.relations texts.old) report }
    ensures ends { (c : Call) (left : Option (List ℕ)) → IsCallFrom c (T.relations texts.old) (T.faults texts.old) (T.faults texts.new)
        → IsReady c more left (S.left source.old) (held reader.old) (count_of reader.old) report
        → EndsLines c left (S.left source.new) (K.written sink.old) (K.written sink.new) result.status result.report result.fault }
    ensures read_fault { result.status ≡ 4 → Rises (S.faults source.old) (S.faults source.new) }
    ensures write_fault { result.status ≡ 5 → Rises (K.faults sink.old) (K.faults sink.new) }
    ensures kept_source { S.faults source.old ≤ S.faults source.new }
    ensures kept_sink { K.faults sink.old ≤ K.faults sink.new }
    ensures keeps { T.relations texts.new ≡ T.relations texts.old }
    ensures counts { T.faults texts.old ≤ T.faults texts.new }
{
    let ending = run_report(alloc, &report, more, reader, source, sink, texts);
    LinesOutcome {
        status: ending.status,
        report: Some(report),
        fault: ending.fault,
    }
}

// The end of a run that has no report.
fn unreported(ending: Ending) -> LinesOutcome
    ensures { result ≡ record { status = ending.status; report = None; fault = ending.fault } }
{
    LinesOutcome {
        status: ending.status,
        report: None,
        fault: ending.fault,
    }
}

// The document examined, and the further lines answered.
fn run_document<S: Source, K: Sink, T: Texts>(
    alloc: Global,
    asked: Asked,
    more: bool,
    value: &Value,
    reader: &mut LineReader,
    source: &mut S,
    sink: &mut K,
    texts: &mut T,
) -> LinesOutcome
    requires { 1 ≤ asked.depth }
    ensures ends { (left : Option (List ℕ)) (first : List ℕ) → IsFirstRead more left (S.left source.old) (held reader.old) (count_of reader.old) first
        → length first ≤ bound → IsJson first (view value.now)
        → EndsLines (call asked (T.relations texts.old) (T.faults texts.old) (T.faults texts.new)) left (S.left source.new) (K.written sink.old) (K.written sink.new) result.status result.report result.fault }
    ensures read_fault { result.status ≡ 4 → Rises (S.faults source.old) (S.faults source.new) }
    ensures write_fault { result.status ≡ 5 → Rises (K.faults sink.old) (K.faults sink.new) }
    ensures kept_source { S.faults source.old ≤ S.faults source.new }
    ensures kept_sink { K.faults sink.old ≤ K.faults sink.new }
    ensures keeps { T.relations texts.new ≡ T.relations texts.old }
    ensures counts { T.faults texts.old ≤ T.faults texts.new }
{
    match examine_with(alloc, value, asked.depth, &[], texts, asked.setting) {
        Ok(report) => run_values_of(alloc, report, more, reader, source, sink, texts),
        Err(fault) => {
            if fault.is_memory() {
                LinesOutcome::bare(6)
            } else {
                unreported(print_fault(alloc, fault, sink))
            }
        }
    }
}

// The first line read as a document.
fn run_first<S: Source, K: Sink, T: Texts>(
    alloc: Global,
    asked: Asked,
    more: bool,
    reader: &mut LineReader,
    source: &mut S,
    sink: &mut K,
    texts: &mut T,
) -> LinesOutcome
    requires { 1 ≤ asked.depth }
    ensures ends { (left : Option (List ℕ)) (first : List ℕ) → IsFirstRead more left (S.left source.old) (held reader.old) (count_of reader.old) first
        → line_in reader.old ≡ kept first
        → EndsLines (call asked (T.relations texts.old) (T.faults texts.old) (T.faults texts.new)) left (S.left source.new) (K.written sink.old) (K.written sink.new) result.status result.report result.fault }
    ensures read_fault { result.status ≡ 4 → Rises (S.faults source.old) (S.faults source.new) }
    ensures write_fault { result.status ≡ 5 → Rises (K.faults sink.old) (K.faults sink.new) }
    ensures kept_source { S.faults source.old ≤ S.faults source.new }
    ensures kept_sink { K.faults sink.old ≤ K.faults sink.new }
    ensures keeps { T.relations texts.new ≡ T.relations texts.old }
    ensures counts { T.faults texts.old ≤ T.faults texts.new }
{
    match line_value(alloc, reader) {
        Ok(value) => run_document(alloc, asked, more, &value, reader, source, sink, texts),
        Err(InputError::Memory) => LinesOutcome::bare(6),
        Err(InputError::NotJson) => LinesOutcome::bare(3),
    }
}

// What comes of a first line that was looked for to its end.
fn run_line<S: Source, K: Sink, T: Texts>(
    alloc: Global,
    asked: Asked,
    found: Found,
    reader: &mut LineReader,
    source: &mut S,
    sink: &mut K,
    texts: &mut T,
) -> LinesOutcome
    requires { 1 ≤ asked.depth }
    ensures ends { (left : Option (List ℕ)) → IsFound [] (held reader.old) left (S.left source.old) 0 (count_of reader.old) (line_in reader.old) found
        → EndsLines (call asked (T.relations texts.old) (T.faults texts.old) (T.faults texts.new)) left (S.left source.new) (K.written sink.old) (K.written sink.new) result.status result.report result.fault }
    ensures read_fault { result.status ≡ 4 → Rises (S.faults source.old) (S.faults source.new) }
    ensures write_fault { result.status ≡ 5 → Rises (K.faults sink.old) (K.faults sink.new) }
    ensures kept_source { S.faults source.old ≤ S.faults source.new }
    ensures kept_sink { K.faults sink.old ≤ K.faults sink.new }
    ensures keeps { T.relations texts.new ≡ T.relations texts.old }
    ensures counts { T.faults texts.old ≤ T.faults texts.new }
{
    match found {
        Found::Line => run_first(alloc, asked, true, reader, source, sink, texts),
        Found::Last => run_first(alloc, asked, false, reader, source, sink, texts),
        Found::End => LinesOutcome::bare(3),
    }
}

// What comes of what was found at the beginning.
fn run_found<S: Source, K: Sink, T: Texts>(
    alloc: Global,
    asked: Asked,
    found: Option<Found>,
    reader: &mut LineReader,
    source: &mut S,
    sink: &mut K,
    texts: &mut T,
) -> LinesOutcome
    requires { 1 ≤ asked.depth }
    ensures ends { (left : Option (List ℕ)) → IsFirstFound left (S.left source.old) (held reader.old) (count_of reader.old) (line_in reader.old) found
        → EndsLines (call asked (T.relations texts.old) (T.faults texts.old) (T.faults texts.new)) left (S.left source.new) (K.written sink.old) (K.written sink.new) result.status result.report result.fault }
    ensures read_fault { result.status ≡ 4 → Rises (S.faults source.old) (S.faults source.new) }
    ensures write_fault { result.status ≡ 5 → Rises (K.faults sink.old) (K.faults sink.new) }
    ensures kept_source { S.faults source.old ≤ S.faults source.new }
    ensures kept_sink { K.faults sink.old ≤ K.faults sink.new }
    ensures keeps { T.relations texts.new ≡ T.relations texts.old }
    ensures counts { T.faults texts.old ≤ T.faults texts.new }
{
    match found {
        Some(found) => run_line(alloc, asked, found, reader, source, sink, texts),
        None => LinesOutcome::bare(3),
    }
}

// The first line looked for by a reader that has read nothing.
fn run_reader<S: Source, K: Sink, T: Texts>(
    alloc: Global,
    asked: Asked,
    mut reader: LineReader,
    source: &mut S,
    sink: &mut K,
    texts: &mut T,
) -> LinesOutcome
    requires depth { 1 ≤ asked.depth }
    requires none_held { held reader ≡ [] }
    requires none_counted { count_of reader ≡ 0 }
    ensures ends { EndsLines (call asked (T.relations texts.old) (T.faults texts.old) (T.faults texts.new)) (S.left source.old) (S.left source.new) (K.written sink.old) (K.written sink.new) result.status result.report result.fault }
    ensures read_fault { result.status ≡ 4 → Rises (S.faults source.old) (S.faults source.new) }
    ensures write_fault { result.status ≡ 5 → Rises (K.faults sink.old) (K.faults sink.new) }
    ensures kept_source { S.faults source.old ≤ S.faults source.new }
    ensures kept_sink { K.faults sink.old ≤ K.faults sink.new }
    ensures keeps { T.relations texts.new ≡ T.relations texts.old }
    ensures counts { T.faults texts.old ≤ T.faults texts.new }
{
    match reader.first_line(source) {
        Ok(found) => run_found(alloc, asked, found, &mut reader, source, sink, texts),
        Err(InputFault::Memory) => LinesOutcome::bare(6),
        Err(InputFault::Failed) => LinesOutcome::bare(4),
        Err(InputFault::TooLong) => LinesOutcome::bare(3),
    }
}

// The lines of the source answered.
fn run_stream<S: Source, K: Sink, T: Texts>(
    alloc: Global,
    asked: Asked,
    source: &mut S,
    sink: &mut K,
    texts: &mut T,
) -> LinesOutcome
    requires { 1 ≤ asked.depth }
    ensures ends { EndsLines (call asked (T.relations texts.old) (T.faults texts.old) (T.faults texts.new)) (S.left source.old) (S.left source.new) (K.written sink.old) (K.written sink.new) result.status result.report result.fault }
    ensures read_fault { result.status ≡ 4 → Rises (S.faults source.old) (S.faults source.new) }
    ensures write_fault { result.status ≡ 5 → Rises (K.faults sink.old) (K.faults sink.new) }
    ensures kept_source { S.faults source.old ≤ S.faults source.new }
    ensures kept_sink { K.faults sink.old ≤ K.faults sink.new }
    ensures keeps { T.relations texts.new ≡ T.relations texts.old }
    ensures counts { T.faults texts.old ≤ T.faults texts.new }
{
    match LineReader::new(alloc) {
        Ok(reader) => run_reader(alloc, asked, reader, source, sink, texts),
        Err(_) => LinesOutcome::bare(6),
    }
}

/// Runs over lines: the words after the program's name, lines from the source, the answers to the sink. `lines DEPTH`, with DEPTH from 1 to
/// 512, reads a schema document from the first line, and one value from each further one, and answers each as it comes: first
/// the head of the document's page, then for each line `line`, its number, counted from 0, and `taken` with the value that is written
/// back, `refused` with the place where reading stops, `number` with the place of a number that isn't an i64, `not-json`, or `long` where
/// it has more than 1,048,576 bytes; at the end `end`. A line ends before a line feed or at the end of the input. With `--null-absent` as
/// the last word null may stand for the absence of a property that isn't required. The outcome's status says how it ended.
pub fn run_lines<S: Source, K: Sink, T: Texts>(
    alloc: Global,
    words: &[String],
    source: &mut S,
    sink: &mut K,
    texts: &mut T,
) -> LinesOutcome
    ensures words { (result.status ≡ 2) ↔ (depth_said (map string_bytes words.now) ≡ None) }
    ensures other_words { result.status ≡ 2 → (S.left source.new ≡ S.left source.old) × IsBare (K.written sink.old) (K.written sink.new) result.report result.fault }
    ensures ends { result.status ≢ 2 → EndsLines (call_of (map string_bytes words.now) (T.relations texts.old) (T.faults texts.old) (T.faults texts.new)) (S.left source.old) (S.left source.new) (K.written sink.old) (K.written sink.new) result.status result.report result.fault }
    ensures admitted { result.status ≡ 0 → IsLawful (T.relations texts.old) → IsAdmittedPage (call_of (map string_bytes words.now) (T.relations texts.old) (T.faults texts.old) (T.faults texts.new)) (S.left source.old) (K.written sink.old) (K.written sink.new) result.report }
    ensures no_document { (all : List ℕ) → S.left source.old ≡ Some all → HasNoDocument all → (result.status ≡ 2) ⊎ ((result.status ≡ 3) ⊎ IsInterrupted result.status) }
    ensures undisturbed { (all : List ℕ) (d : Data) → S.left source.old ≡ Some all → BeginsWith all d → depth_said (map string_bytes words.now) ≢ None → IsFaultless (call_of (map string_bytes words.now) (T.relations texts.old) (T.faults texts.old) (T.faults texts.new)) (parts_of d) → length all ≤ most → ¬ Rises (S.faults source.old) (S.faults source.new) → ¬ Rises (K.faults sink.old) (K.faults sink.new) → ¬ Rises (T.faults texts.old) (T.faults texts.new) → IsPrintedOrSpent result.status }
    ensures read_fault { result.status ≡ 4 → Rises (S.faults source.old) (S.faults source.new) }
    ensures write_fault { result.status ≡ 5 → Rises (K.faults sink.old) (K.faults sink.new) }
    ensures kept_source { S.faults source.old ≤ S.faults source.new }
    ensures kept_sink { K.faults sink.old ≤ K.faults sink.new }
    ensures keeps { T.relations texts.new ≡ T.relations texts.old }
    ensures counts { T.faults texts.old ≤ T.faults texts.new }
{
    match depth_of_words(words) {
        Some(depth) => {
            let asked = Asked {
                depth,
                setting: setting_of_words(words),
            };
            run_stream(alloc, asked, source, sink, texts)
        }
        None => LinesOutcome::bare(2),
    }
}
