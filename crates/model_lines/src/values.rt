//! The lines behind the first, answered one after another.
ghost use Rattle.std.specs.Prelude.{◌≡◌, ◌+◌, ◌≤◌, ℕ, List, Option, Some, IfSome, IfNone};
ghost use Rattle.schema_defs.specs.Faults.{Rises};
ghost use Rattle.line_reader.specs.Lines.{kept};
ghost use Rattle.line_reader.specs.State.{count_of, held, line_in};
ghost use Rattle.typify_run.specs.Call.{Call};
ghost use Rattle.typify_run.specs.Examine.{CanJudge};
ghost use Rattle.model_lines.specs.Answers.{IsModuleOf};
ghost use Rattle.model_lines.specs.Going.{IsCallFrom, IsGoing, IsReady};
ghost use Rattle.model_lines.specs.Outcome.{EndsLines};
ghost use Rattle.model_lines.specs.Printing.{IsAnswerCut, IsLastAnswered, IsLineAnswered};

use crate::ending::Ending;
use crate::line_text::text_of_line;
use crate::printing::{print_end, print_fault, print_text};
use attr_parts::NoCase;
use derive_model::Module;
use line_reader::{Found, InputFault, LineReader};
use run_io::{Sink, Source};
use schema_tree::Texts;
use std::alloc::Global;
use typify_run::{Report, head_text};

// The line that the reader found last answered. Says how the run ends where that fails.
fn print_answer<K: Sink, T: Texts>(
    alloc: Global,
    report: &Report,
    models: &Module<'_>,
    index: u64,
    reader: &LineReader,
    sink: &mut K,
    texts: &mut T,
) -> Option<Ending>
    requires made { IsModuleOf models.now report.now }
    requires judges { CanJudge (T.relations texts.old) report.now }
    ensures whole { (l : List ℕ) → line_in reader.now ≡ kept l → IfNone result (IsLineAnswered (T.relations texts.old) report.now index l (K.written sink.old) (K.written sink.new)) }
    ensures cut { (l : List ℕ) → line_in reader.now ≡ kept l → IfSome result (λ e. IsAnswerCut (T.relations texts.old) report.now index l (T.faults texts.old) (T.faults texts.new) (K.written sink.old) (K.written sink.new) e) }
    ensures write_fault { IfSome result (λ e. e.status ≡ 5 → Rises (K.faults sink.old) (K.faults sink.new)) }
    ensures kept_sink { K.faults sink.old ≤ K.faults sink.new }
    ensures keeps { T.relations texts.new ≡ T.relations texts.old }
    ensures counts { T.faults texts.old ≤ T.faults texts.new }
{
    match text_of_line(alloc, report, models, index, reader, texts) {
        Ok(text) => print_text(sink, text.as_bytes()),
        Err(fault) => {
            if fault.is_memory() {
                Some(Ending::bare(6))
            } else {
                Some(print_fault(alloc, fault, sink))
            }
        }
    }
}

// The last line answered, and `end`.
fn print_last<K: Sink, T: Texts>(
    alloc: Global,
    report: &Report,
    models: &Module<'_>,
    index: u64,
    reader: &LineReader,
    sink: &mut K,
    texts: &mut T,
) -> Ending
    requires made { IsModuleOf models.now report.now }
    requires judges { CanJudge (T.relations texts.old) report.now }
    ensures ends { (l : List ℕ) → line_in reader.now ≡ kept l → IsLastAnswered (T.relations texts.old) report.now index l (T.faults texts.old) (T.faults texts.new) (K.written sink.old) (K.written sink.new) result }
    ensures write_fault { result.status ≡ 5 → Rises (K.faults sink.old) (K.faults sink.new) }
    ensures kept_sink { K.faults sink.old ≤ K.faults sink.new }
    ensures keeps { T.relations texts.new ≡ T.relations texts.old }
    ensures counts { T.faults texts.old ≤ T.faults texts.new }
{
    match print_answer(alloc, report, models, index, reader, sink, texts) {
        Some(ending) => ending,
        None => print_end(sink),
    }
}

// The next line answered. Says how the run ends where it is at its end.
fn step<S: Source, K: Sink, T: Texts>(
    alloc: Global,
    report: &Report,
    models: &Module<'_>,
    index: u64,
    reader: &mut LineReader,
    source: &mut S,
    sink: &mut K,
    texts: &mut T,
) -> Option<Ending>
    requires made { IsModuleOf models.now report.now }
    requires judges { CanJudge (T.relations texts.old) report.now }
    ensures goes { (c : Call) (left before : Option (List ℕ)) → c.texts ≡ T.relations texts.old
        → IsGoing c left (S.left source.old) (held reader.old) (count_of reader.old) before (K.written sink.old) report.now index
        → IfNone result (IsGoing c left (S.left source.new) (held reader.new) (count_of reader.new) before (K.written sink.new) report.now (index + 1)) }
    ensures ends { (c : Call) (left before : Option (List ℕ)) → IsCallFrom c (T.relations texts.old) (T.faults texts.old) (T.faults texts.new)
        → IsGoing c left (S.left source.old) (held reader.old) (count_of reader.old) before (K.written sink.old) report.now index
        → IfSome result (λ e. EndsLines c left (S.left source.new) before (K.written sink.new) e.status (Some report.now) e.fault) }
    ensures read_fault { IfSome result (λ e. e.status ≡ 4 → Rises (S.faults source.old) (S.faults source.new)) }
    ensures write_fault { IfSome result (λ e. e.status ≡ 5 → Rises (K.faults sink.old) (K.faults sink.new)) }
    ensures kept_source { S.faults source.old ≤ S.faults source.new }
    ensures kept_sink { K.faults sink.old ≤ K.faults sink.new }
    ensures keeps { T.relations texts.new ≡ T.relations texts.old }
    ensures counts { T.faults texts.old ≤ T.faults texts.new }
{
    match reader.next_line(source) {
        Ok(Found::Line) => print_answer(alloc, report, models, index, reader, sink, texts),
        Ok(Found::Last) => Some(print_last(alloc, report, models, index, reader, sink, texts)),
        Ok(Found::End) => Some(print_end(sink)),
        Err(InputFault::Memory) => Some(Ending::bare(6)),
        Err(InputFault::Failed) => Some(Ending::bare(4)),
        Err(InputFault::TooLong) => Some(Ending::bare(7)),
    }
}

// Each further line answered, to the end of the run.
fn run_values<S: Source, K: Sink, T: Texts>(
    alloc: Global,
    report: &Report,
    models: &Module<'_>,
    reader: &mut LineReader,
    source: &mut S,
    sink: &mut K,
    texts: &mut T,
) -> Ending
    requires made { IsModuleOf models.now report.now }
    requires judges { CanJudge (T.relations texts.old) report.now }
    ensures ends { (c : Call) (left before : Option (List ℕ)) → IsCallFrom c (T.relations texts.old) (T.faults texts.old) (T.faults texts.new)
        → IsGoing c left (S.left source.old) (held reader.old) (count_of reader.old) before (K.written sink.old) report.now 0
        → EndsLines c left (S.left source.new) before (K.written sink.new) result.status (Some report.now) result.fault }
    ensures read_fault { result.status ≡ 4 → Rises (S.faults source.old) (S.faults source.new) }
    ensures write_fault { result.status ≡ 5 → Rises (K.faults sink.old) (K.faults sink.new) }
    ensures kept_source { S.faults source.old ≤ S.faults source.new }
    ensures kept_sink { K.faults sink.old ≤ K.faults sink.new }
    ensures keeps { T.relations texts.new ≡ T.relations texts.old }
    ensures counts { T.faults texts.old ≤ T.faults texts.new }
{
    for index in 0..u64::MAX {
        if let Some(ending) = step(alloc, report, models, index, reader, source, sink, texts) {
            return ending;
        }
    }
    Ending::bare(6)
}

// The containers of the report's items made, and each further line answered.
fn run_module<S: Source, K: Sink, T: Texts>(
    alloc: Global,
    report: &Report,
    reader: &mut LineReader,
    source: &mut S,
    sink: &mut K,
    texts: &mut T,
) -> Ending
    requires { CanJudge (T.relations texts.old) report.now }
    ensures ends { (c : Call) (left before : Option (List ℕ)) → IsCallFrom c (T.relations texts.old) (T.faults texts.old) (T.faults texts.new)
        → IsGoing c left (S.left source.old) (held reader.old) (count_of reader.old) before (K.written sink.old) report.now 0
        → EndsLines c left (S.left source.new) before (K.written sink.new) result.status (Some report.now) result.fault }
    ensures read_fault { result.status ≡ 4 → Rises (S.faults source.old) (S.faults source.new) }
    ensures write_fault { result.status ≡ 5 → Rises (K.faults sink.old) (K.faults sink.new) }
    ensures kept_source { S.faults source.old ≤ S.faults source.new }
    ensures kept_sink { K.faults sink.old ≤ K.faults sink.new }
    ensures keeps { T.relations texts.new ≡ T.relations texts.old }
    ensures counts { T.faults texts.old ≤ T.faults texts.new }
{
    match Module::new(alloc, &report.items, &report.conversions, &NoCase) {
        Ok(models) => run_values(alloc, report, &models, reader, source, sink, texts),
        Err(_) => Ending::bare(6),
    }
}

/// The head of the page and the answers to the further lines, to the end of the run. There are some lines more only where `more` says so.
pub(crate) fn run_report<S: Source, K: Sink, T: Texts>(
    alloc: Global,
    report: &Report,
    more: bool,
    reader: &mut LineReader,
    source: &mut S,
    sink: &mut K,
    texts: &mut T,
) -> Ending
    requires { CanJudge (T.relations texts.old) report.now }
    ensures ends { (c : Call) (left : Option (List ℕ)) → IsCallFrom c (T.relations texts.old) (T.faults texts.old) (T.faults texts.new)
        → IsReady c more left (S.left source.old) (held reader.old) (count_of reader.old) report.now
        → EndsLines c left (S.left source.new) (K.written sink.old) (K.written sink.new) result.status (Some report.now) result.fault }
    ensures read_fault { result.status ≡ 4 → Rises (S.faults source.old) (S.faults source.new) }
    ensures write_fault { result.status ≡ 5 → Rises (K.faults sink.old) (K.faults sink.new) }
    ensures kept_source { S.faults source.old ≤ S.faults source.new }
    ensures kept_sink { K.faults sink.old ≤ K.faults sink.new }
    ensures keeps { T.relations texts.new ≡ T.relations texts.old }
    ensures counts { T.faults texts.old ≤ T.faults texts.new }
{
    let Ok(head) = head_text(alloc, report) else {
        return Ending::bare(6);
    };
    if let Some(ending) = print_text(sink, head.as_bytes()) {
        return ending;
    }
    if more {
        run_module(alloc, report, reader, source, sink, texts)
    } else {
        print_end(sink)
    }
}
