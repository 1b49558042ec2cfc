//! A word run, over any source, sink, judge of texts and kind of answer.
ghost use Rattle.std.specs.Prelude.{◌≡◌, ◌≢◌, ◌≤◌, ◌↔◌, ◌⊎◌, false, ℕ, List, [], map, length, Some, None, string_bytes};
ghost use Rattle.serde_json.specs.Data.{Data};
ghost use Rattle.serde_json.specs.View.{view};
ghost use Rattle.json_value.specs.View.{value_of};
ghost use Rattle.schema_defs.specs.Faults.{Rises};
ghost use Rattle.schema_tree.specs.Fault.{FaultD};
ghost use Rattle.run_input.specs.Input.{limit};
ghost use Rattle.schema_words.specs.Said.{said_of};
ghost use Rattle.schema_words.specs.Input.{IsSchema, IsNoSchema};
ghost use Rattle.schema_words.specs.Words.{Asking, asking, asking_of, depth_behind as depth_behind_of};
ghost use Rattle.schema_words.specs.Outcome.{Ends, EndsWord, IsAnswered, IsAside, IsCarried, IsCauseIn, IsFaultless, IsPlainSchema, IsPrinting, IsReportOn, IsSaid, IsToldPrinted, IsWritten, is_built};
ghost use Rattle.schema_words.specs.PlainSchemas.{EndsPlainly};

use crate::answering::{Answer, Answering};
use crate::ended::Ended;
use crate::examining::examined;
use crate::words::depth_behind;
use run_input::{InputError, LIMIT, input_value};
use run_io::{InputFault, Sink, SinkFault, Source, put, read_input};
use schema_tree::{Fault, Setting, Texts};
use serde_json::Value;
use std::alloc::Global;
use typify_run::{Report, setting_of_words};

/// A text printed, which ends as `whole` where all of it was written.
pub fn print<K: Sink>(text: &str, whole: Ended, sink: &mut K) -> Ended
    ensures ends { IsWritten (K.written sink.old) (K.written sink.new) text.now whole result }
    ensures write_fault { result ≡ Ended.WriteFault → (whole ≡ Ended.WriteFault) ⊎ Rises (K.faults sink.old) (K.faults sink.new) }
    ensures kept { K.faults sink.old ≤ K.faults sink.new }
{
    match put(sink, text.as_bytes()) {
        Ok(()) => whole,
        Err(SinkFault::Failed) => Ended::WriteFault,
        Err(SinkFault::Memory) => Ended::Memory,
    }
}

/// An answer printed.
pub fn print_said<K: Sink>(answer: &Answer, sink: &mut K) -> Ended
    ensures ends { IsSaid (K.written sink.old) (K.written sink.new) (said_of answer.now) result }
    ensures write_fault { result ≡ Ended.WriteFault → Rises (K.faults sink.old) (K.faults sink.new) }
    ensures kept { K.faults sink.old ≤ K.faults sink.new }
{
    match answer {
        Answer::Page(text) => print(text, Ended::Page, sink),
        Answer::No(text) => print(text, Ended::No, sink),
    }
}

// What is answered of a report, printed.
fn print_answer<K: Sink, A: Answering>(
    alloc: Global,
    schema: &Value,
    report: &Report,
    sink: &mut K,
    answering: &A,
) -> Ended
    ensures ends { (c : Asking) (all : List ℕ) → IsSchema all (view schema.now) → IsReportOn c (value_of (view schema.now)) report.now → Ends A.answers A.tells c all (K.written sink.old) (K.written sink.new) result }
    ensures write_fault { result ≡ Ended.WriteFault → Rises (K.faults sink.old) (K.faults sink.new) }
    ensures kept { K.faults sink.old ≤ K.faults sink.new }
{
    match answering.answer(alloc, schema, report) {
        Ok(answer) => print_said(&answer, sink),
        Err(_) => Ended::Memory,
    }
}

// What is told of a fault, printed.
fn print_fault<K: Sink, A: Answering>(
    alloc: Global,
    schema: &Value,
    fault: &Fault,
    sink: &mut K,
    answering: &A,
) -> Ended
    ensures ends { IsToldPrinted (A.tells (view schema.now) fault.now) (K.written sink.old) (K.written sink.new) result }
    ensures write_fault { result ≡ Ended.WriteFault → Rises (K.faults sink.old) (K.faults sink.new) }
    ensures kept { K.faults sink.old ≤ K.faults sink.new }
{
    match answering.tell(alloc, schema, fault) {
        Ok(text) => print(&text, Ended::Fault, sink),
        Err(_) => Ended::Memory,
    }
}

// The schema examined, and what comes of it printed.
fn run_schema<K: Sink, T: Texts, A: Answering>(
    alloc: Global,
    depth: u32,
    setting: Setting,
    schema: &Value,
    sink: &mut K,
    texts: &mut T,
    answering: &A,
) -> Ended
    requires { 1 ≤ depth }
    ensures ends { (all : List ℕ) → IsSchema all (view schema.now) → Ends A.answers A.tells (asking depth setting (T.relations texts.old) (T.faults texts.old) (T.faults texts.new)) all (K.written sink.old) (K.written sink.new) result }
    ensures write_fault { result ≡ Ended.WriteFault → Rises (K.faults sink.old) (K.faults sink.new) }
    ensures kept { K.faults sink.old ≤ K.faults sink.new }
    ensures keeps { T.relations texts.new ≡ T.relations texts.old }
    ensures counts { T.faults texts.old ≤ T.faults texts.new }
{
    match examined(alloc, depth, setting, schema, texts) {
        Ok(report) => print_answer(alloc, schema, &report, sink, answering),
        Err(fault) => {
            if fault.is_memory() {
                Ended::Memory
            } else {
                print_fault(alloc, schema, &fault, sink, answering)
            }
        }
    }
}

// The bytes of an input read, and examined.
fn run_bytes<K: Sink, T: Texts, A: Answering>(
    alloc: Global,
    depth: u32,
    setting: Setting,
    bytes: &[u8],
    sink: &mut K,
    texts: &mut T,
    answering: &A,
) -> Ended
    requires depth { 1 ≤ depth }
    requires short { length bytes.now ≤ limit }
    ensures ends { Ends A.answers A.tells (asking depth setting (T.relations texts.old) (T.faults texts.old) (T.faults texts.new)) bytes.now (K.written sink.old) (K.written sink.new) result }
    ensures write_fault { result ≡ Ended.WriteFault → Rises (K.faults sink.old) (K.faults sink.new) }
    ensures kept { K.faults sink.old ≤ K.faults sink.new }
    ensures keeps { T.relations texts.new ≡ T.relations texts.old }
    ensures counts { T.faults texts.old ≤ T.faults texts.new }
{
    match input_value(alloc, bytes) {
        Ok(value) => run_schema(alloc, depth, setting, &value, sink, texts, answering),
        Err(InputError::Memory) => Ended::Memory,
        Err(InputError::NotJson) => Ended::NoInput,
    }
}

// The input read to its end, and examined.
fn run_asked<S: Source, K: Sink, T: Texts, A: Answering>(
    alloc: Global,
    depth: u32,
    setting: Setting,
    source: &mut S,
    sink: &mut K,
    texts: &mut T,
    answering: &A,
) -> Ended
    requires { 1 ≤ depth }
    ensures ends { (all : List ℕ) → S.left source.old ≡ Some all → EndsWord A.answers A.tells (asking depth setting (T.relations texts.old) (T.faults texts.old) (T.faults texts.new)) all (K.written sink.old) (K.written sink.new) result }
    ensures carried { IsCarried A.answers A.tells (asking depth setting (T.relations texts.old) (T.faults texts.old) (T.faults texts.new)) (K.written sink.old) (K.written sink.new) result }
    ensures built { result ≢ Ended.OtherWords }
    ensures read_fault { result ≡ Ended.ReadFault → Rises (S.faults source.old) (S.faults source.new) × (K.written sink.new ≡ K.written sink.old) }
    ensures write_fault { result ≡ Ended.WriteFault → Rises (K.faults sink.old) (K.faults sink.new) }
    ensures spent { (all : List ℕ) → S.left source.old ≡ Some all → IsPrinting result → S.left source.new ≡ Some [] }
    ensures kept_source { S.faults source.old ≤ S.faults source.new }
    ensures kept_sink { K.faults sink.old ≤ K.faults sink.new }
    ensures keeps { T.relations texts.new ≡ T.relations texts.old }
    ensures counts { T.faults texts.old ≤ T.faults texts.new }
{
    match read_input(alloc, source, LIMIT) {
        Ok(bytes) => run_bytes(alloc, depth, setting, &bytes, sink, texts, answering),
        Err(InputFault::Memory) => Ended::Memory,
        Err(InputFault::Failed) => Ended::ReadFault,
        Err(InputFault::TooLong) => Ended::NoInput,
    }
}

/// Runs a word of the program: `WORD DEPTH`, with DEPTH from 1 to 512, alone or with `--null-absent` behind it, where `words` are those after the program's
/// name. It reads one JSON text (RFC 8259) of at most 16,777,216 bytes from the source, which is a schema as it is, examines it, and prints what is answered
/// of the schema and the report to the sink: a page, or a line that says that there is none. Where the schema is refused it prints what is told of the fault. With
/// `--null-absent` null may stand for the absence of a property that isn't required. What is answered of a plain schema (`IsPlain` at DEPTH) is answered of
/// a report without notes, and no fault of it is told but a failure of the judge of texts.
pub fn run_word<S: Source, K: Sink, T: Texts, A: Answering>(
    alloc: Global,
    word: &str,
    words: &[String],
    source: &mut S,
    sink: &mut K,
    texts: &mut T,
    answering: &A,
) -> Ended
    ensures words { (result ≡ Ended.OtherWords) ↔ (depth_behind_of word.now (map string_bytes words.now) ≡ None) }
    ensures other_words { result ≡ Ended.OtherWords → (S.left source.new ≡ S.left source.old) × (K.written sink.new ≡ K.written sink.old) }
    ensures ends { (all : List ℕ) → S.left source.old ≡ Some all → EndsWord A.answers A.tells (asking_of word.now (map string_bytes words.now) (T.relations texts.old) (T.faults texts.old) (T.faults texts.new)) all (K.written sink.old) (K.written sink.new) result }
    ensures carried { IsCarried A.answers A.tells (asking_of word.now (map string_bytes words.now) (T.relations texts.old) (T.faults texts.old) (T.faults texts.new)) (K.written sink.old) (K.written sink.new) result }
    ensures read_fault { result ≡ Ended.ReadFault → Rises (S.faults source.old) (S.faults source.new) × (K.written sink.new ≡ K.written sink.old) }
    ensures write_fault { result ≡ Ended.WriteFault → Rises (K.faults sink.old) (K.faults sink.new) }
    ensures no_schema { (all : List ℕ) → S.left source.old ≡ Some all → IsNoSchema all → (result ≡ Ended.NoInput) ⊎ IsAside result }
    ensures not_built { (all : List ℕ) (d : Data) → S.left source.old ≡ Some all → IsSchema all d → is_built (asking_of word.now (map string_bytes words.now) (T.relations texts.old) (T.faults texts.old) (T.faults texts.new)) (value_of d) ≡ false → (result ≡ Ended.Fault) ⊎ IsAside result }
    ensures faulty { (all : List ℕ) (d : Data) (f : FaultD) → S.left source.old ≡ Some all → IsSchema all d → IsCauseIn (asking_of word.now (map string_bytes words.now) (T.relations texts.old) (T.faults texts.old) (T.faults texts.new)) (value_of d) f → (result ≡ Ended.Fault) ⊎ IsAside result }
    ensures plain { (all : List ℕ) (d : Data) → S.left source.old ≡ Some all → IsSchema all d → IsPlainSchema (asking_of word.now (map string_bytes words.now) (T.relations texts.old) (T.faults texts.old) (T.faults texts.new)) (value_of d) → EndsPlainly A.answers A.tells (asking_of word.now (map string_bytes words.now) (T.relations texts.old) (T.faults texts.old) (T.faults texts.new)) d (K.written sink.old) (K.written sink.new) result }
    ensures undisturbed { (all : List ℕ) (d : Data) → S.left source.old ≡ Some all → IsSchema all d → depth_behind_of word.now (map string_bytes words.now) ≢ None → IsFaultless (asking_of word.now (map string_bytes words.now) (T.relations texts.old) (T.faults texts.old) (T.faults texts.new)) (value_of d) → ¬ Rises (S.faults source.old) (S.faults source.new) → ¬ Rises (K.faults sink.old) (K.faults sink.new) → ¬ Rises (T.faults texts.old) (T.faults texts.new) → IsAnswered result }
    ensures plain_undisturbed { (all : List ℕ) (d : Data) → S.left source.old ≡ Some all → IsSchema all d → IsPlainSchema (asking_of word.now (map string_bytes words.now) (T.relations texts.old) (T.faults texts.old) (T.faults texts.new)) (value_of d) → ¬ Rises (S.faults source.old) (S.faults source.new) → ¬ Rises (K.faults sink.old) (K.faults sink.new) → ¬ Rises (T.faults texts.old) (T.faults texts.new) → IsAnswered result }
    ensures spent { (all : List ℕ) → S.left source.old ≡ Some all → IsPrinting result → S.left source.new ≡ Some [] }
    ensures kept_source { S.faults source.old ≤ S.faults source.new }
    ensures kept_sink { K.faults sink.old ≤ K.faults sink.new }
    ensures keeps { T.relations texts.new ≡ T.relations texts.old }
    ensures counts { T.faults texts.old ≤ T.faults texts.new }
{
    match depth_behind(word, words) {
        Some(depth) => {
            let setting = setting_of_words(words);
            run_asked(alloc, depth, setting, source, sink, texts, answering)
        }
        None => Ended::OtherWords,
    }
}
