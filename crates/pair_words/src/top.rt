//! A word over two schemas run, over any source, sink, judge of texts and kind of answer.
ghost use Rattle.std.specs.Prelude.{◌≡◌, ◌≢◌, ◌≤◌, ◌↔◌, ◌⊎◌, ℕ, List, map, length, Some, None, string_bytes};
ghost use Rattle.serde_json.specs.View.{view};
ghost use Rattle.json_value.specs.View.{value_of};
ghost use Rattle.schema_defs.specs.Faults.{Rises};
ghost use Rattle.schema_tree.specs.Fault.{FaultD};
ghost use Rattle.run_input.specs.Input.{limit};
ghost use Rattle.schema_words.specs.Input.{IsSchema};
ghost use Rattle.schema_words.specs.Words.{Asking, asking, asking_of, depth_behind as depth_behind_of};
ghost use Rattle.schema_words.specs.Outcome.{IsAnswered, IsAside, IsReportOn};
ghost use Rattle.pair_words.specs.Input.{Pair, IsPair, IsNoPair};
ghost use Rattle.pair_words.specs.Outcome.{AreReportsOn, CanCompare, Ends, EndsWord, IsCarried, IsCauseInPair, IsFaultlessPair, IsUnbuilt};

use crate::comparing::Comparing;
use crate::examining::report_of;
use crate::faults::print_fault;
use crate::input::schemas_of;
use run_input::{InputError, LIMIT, input_value};
use run_io::{InputFault, Sink, Source, read_input};
use schema_tree::{Setting, Texts};
use schema_words::{Ended, depth_behind, print_said};
use serde_json::Value;
use std::alloc::Global;
use typify_run::{Report, setting_of_words};

// What is answered of two reports, printed.
fn print_answer<K: Sink, A: Comparing>(
    alloc: Global,
    old: &Report,
    new: &Report,
    sink: &mut K,
    comparing: &A,
) -> Ended
    requires old { CanCompare old.now }
    requires new { CanCompare new.now }
    ensures ends { (c : Asking) (all : List ℕ) (p : Pair) → IsPair all p → AreReportsOn c p old.now new.now → Ends A.answers c all (K.written sink.old) (K.written sink.new) result }
    ensures write_fault { result ≡ Ended.WriteFault → Rises (K.faults sink.old) (K.faults sink.new) }
    ensures kept { K.faults sink.old ≤ K.faults sink.new }
{
    match comparing.answer(alloc, old, new) {
        Ok(answer) => print_said(&answer, sink),
        Err(_) => Ended::Memory,
    }
}

// The new schema examined, and what comes of both printed.
fn run_new<K: Sink, T: Texts, A: Comparing>(
    alloc: Global,
    depth: u32,
    setting: Setting,
    old: &Report,
    schema: &Value,
    sink: &mut K,
    texts: &mut T,
    comparing: &A,
) -> Ended
    requires depth { 1 ≤ depth }
    requires old { CanCompare old.now }
    ensures ends { (before : ℕ) (all : List ℕ) (p : Pair) → before ≤ T.faults texts.old → IsPair all p → p.new ≡ view schema.now
        → IsReportOn (asking depth setting (T.relations texts.old) before (T.faults texts.new)) (value_of p.old) old.now
        → Ends A.answers (asking depth setting (T.relations texts.old) before (T.faults texts.new)) all (K.written sink.old) (K.written sink.new) result }
    ensures write_fault { result ≡ Ended.WriteFault → Rises (K.faults sink.old) (K.faults sink.new) }
    ensures kept { K.faults sink.old ≤ K.faults sink.new }
    ensures keeps { T.relations texts.new ≡ T.relations texts.old }
    ensures counts { T.faults texts.old ≤ T.faults texts.new }
{
    match report_of(alloc, depth, setting, schema, texts) {
        Ok(new) => print_answer(alloc, old, &new, sink, comparing),
        Err(fault) => print_fault(alloc, "new ", &fault, sink),
    }
}

// The schemas examined, the old one first, and what comes of them printed.
fn run_schemas<K: Sink, T: Texts, A: Comparing>(
    alloc: Global,
    depth: u32,
    setting: Setting,
    old: &Value,
    new: &Value,
    sink: &mut K,
    texts: &mut T,
    comparing: &A,
) -> Ended
    requires { 1 ≤ depth }
    ensures ends { (all : List ℕ) → IsPair all (record { old = view old.now; new = view new.now }) → Ends A.answers (asking depth setting (T.relations texts.old) (T.faults texts.old) (T.faults texts.new)) all (K.written sink.old) (K.written sink.new) result }
    ensures write_fault { result ≡ Ended.WriteFault → Rises (K.faults sink.old) (K.faults sink.new) }
    ensures kept { K.faults sink.old ≤ K.faults sink.new }
    ensures keeps { T.relations texts.new ≡ T.relations texts.old }
    ensures counts { T.faults texts.old ≤ T.faults texts.new }
{
    match report_of(alloc, depth, setting, old, texts) {
        Ok(report) => run_new(alloc, depth, setting, &report, new, sink, texts, comparing),
        Err(fault) => print_fault(alloc, "old ", &fault, sink),
    }
}

// The schemas of a value examined.
fn run_value<K: Sink, T: Texts, A: Comparing>(
    alloc: Global,
    depth: u32,
    setting: Setting,
    value: &Value,
    sink: &mut K,
    texts: &mut T,
    comparing: &A,
) -> Ended
    requires { 1 ≤ depth }
    ensures ends { (all : List ℕ) → IsSchema all (view value.now) → Ends A.answers (asking depth setting (T.relations texts.old) (T.faults texts.old) (T.faults texts.new)) all (K.written sink.old) (K.written sink.new) result }
    ensures write_fault { result ≡ Ended.WriteFault → Rises (K.faults sink.old) (K.faults sink.new) }
    ensures kept { K.faults sink.old ≤ K.faults sink.new }
    ensures keeps { T.relations texts.new ≡ T.relations texts.old }
    ensures counts { T.faults texts.old ≤ T.faults texts.new }
{
    match schemas_of(value) {
        Some(schemas) => run_schemas(
            alloc,
            depth,
            setting,
            schemas.old,
            schemas.new,
            sink,
            texts,
            comparing,
        ),
        None => Ended::NoInput,
    }
}

// The bytes of an input read, and examined.
fn run_bytes<K: Sink, T: Texts, A: Comparing>(
    alloc: Global,
    depth: u32,
    setting: Setting,
    bytes: &[u8],
    sink: &mut K,
    texts: &mut T,
    comparing: &A,
) -> Ended
    requires depth { 1 ≤ depth }
    requires short { length bytes.now ≤ limit }
    ensures ends { Ends A.answers (asking depth setting (T.relations texts.old) (T.faults texts.old) (T.faults texts.new)) bytes.now (K.written sink.old) (K.written sink.new) result }
    ensures write_fault { result ≡ Ended.WriteFault → Rises (K.faults sink.old) (K.faults sink.new) }
    ensures kept { K.faults sink.old ≤ K.faults sink.new }
    ensures keeps { T.relations texts.new ≡ T.relations texts.old }
    ensures counts { T.faults texts.old ≤ T.faults texts.new }
{
    match input_value(alloc, bytes) {
        Ok(value) => run_value(alloc, depth, setting, &value, sink, texts, comparing),
        Err(InputError::Memory) => Ended::Memory,
        Err(InputError::NotJson) => Ended::NoInput,
    }
}

// The input read to its end, and examined.
fn run_asked<S: Source, K: Sink, T: Texts, A: Comparing>(
    alloc: Global,
    depth: u32,
    setting: Setting,
    source: &mut S,
    sink: &mut K,
    texts: &mut T,
    comparing: &A,
) -> Ended
    requires { 1 ≤ depth }
    ensures ends { (all : List ℕ) → S.left source.old ≡ Some all → EndsWord A.answers (asking depth setting (T.relations texts.old) (T.faults texts.old) (T.faults texts.new)) all (K.written sink.old) (K.written sink.new) result }
    ensures carried { IsCarried A.answers (asking depth setting (T.relations texts.old) (T.faults texts.old) (T.faults texts.new)) (K.written sink.old) (K.written sink.new) result }
    ensures built { result ≢ Ended.OtherWords }
    ensures read_fault { result ≡ Ended.ReadFault → Rises (S.faults source.old) (S.faults source.new) × (K.written sink.new ≡ K.written sink.old) }
    ensures write_fault { result ≡ Ended.WriteFault → Rises (K.faults sink.old) (K.faults sink.new) }
    ensures kept_source { S.faults source.old ≤ S.faults source.new }
    ensures kept_sink { K.faults sink.old ≤ K.faults sink.new }
    ensures keeps { T.relations texts.new ≡ T.relations texts.old }
    ensures counts { T.faults texts.old ≤ T.faults texts.new }
{
    match read_input(alloc, source, LIMIT) {
        Ok(bytes) => run_bytes(alloc, depth, setting, &bytes, sink, texts, comparing),
        Err(InputFault::Memory) => Ended::Memory,
        Err(InputFault::Failed) => Ended::ReadFault,
        Err(InputFault::TooLong) => Ended::NoInput,
    }
}

/// Runs a word of the program over two schemas: `WORD DEPTH`, with DEPTH from 1 to 512, alone or with `--null-absent` behind it, where `words` are those after
/// the program's name. It reads one JSON text (RFC 8259) of at most 16,777,216 bytes from the source, an object with exactly the members `old` and `new`, two
/// schemas. It examines the old one and then the new one by the same judge of texts, and prints what is answered of the two reports to the sink: a page, or
/// a page that says no. Where a schema is refused it prints the line of the fault behind `old` or `new`, that of the first that is refused. With
/// `--null-absent` null may stand for the absence of a property that isn't required, in both.
pub fn run_pair<S: Source, K: Sink, T: Texts, A: Comparing>(
    alloc: Global,
    word: &str,
    words: &[String],
    source: &mut S,
    sink: &mut K,
    texts: &mut T,
    comparing: &A,
) -> Ended
    ensures words { (result ≡ Ended.OtherWords) ↔ (depth_behind_of word.now (map string_bytes words.now) ≡ None) }
    ensures other_words { result ≡ Ended.OtherWords → (S.left source.new ≡ S.left source.old) × (K.written sink.new ≡ K.written sink.old) }
    ensures ends { (all : List ℕ) → S.left source.old ≡ Some all → EndsWord A.answers (asking_of word.now (map string_bytes words.now) (T.relations texts.old) (T.faults texts.old) (T.faults texts.new)) all (K.written sink.old) (K.written sink.new) result }
    ensures carried { IsCarried A.answers (asking_of word.now (map string_bytes words.now) (T.relations texts.old) (T.faults texts.old) (T.faults texts.new)) (K.written sink.old) (K.written sink.new) result }
    ensures read_fault { result ≡ Ended.ReadFault → Rises (S.faults source.old) (S.faults source.new) × (K.written sink.new ≡ K.written sink.old) }
    ensures write_fault { result ≡ Ended.WriteFault → Rises (K.faults sink.old) (K.faults sink.new) }
    ensures no_pair { (all : List ℕ) → S.left source.old ≡ Some all → IsNoPair all → (result ≡ Ended.NoInput) ⊎ IsAside result }
    ensures not_built { (all : List ℕ) (p : Pair) → S.left source.old ≡ Some all → IsPair all p → IsUnbuilt (asking_of word.now (map string_bytes words.now) (T.relations texts.old) (T.faults texts.old) (T.faults texts.new)) p → (result ≡ Ended.Fault) ⊎ IsAside result }
    ensures faulty { (all : List ℕ) (p : Pair) (f : FaultD) → S.left source.old ≡ Some all → IsPair all p → IsCauseInPair (asking_of word.now (map string_bytes words.now) (T.relations texts.old) (T.faults texts.old) (T.faults texts.new)) p f → (result ≡ Ended.Fault) ⊎ IsAside result }
    ensures undisturbed { (all : List ℕ) (p : Pair) → S.left source.old ≡ Some all → IsPair all p → depth_behind_of word.now (map string_bytes words.now) ≢ None → IsFaultlessPair (asking_of word.now (map string_bytes words.now) (T.relations texts.old) (T.faults texts.old) (T.faults texts.new)) p → ¬ Rises (S.faults source.old) (S.faults source.new) → ¬ Rises (K.faults sink.old) (K.faults sink.new) → ¬ Rises (T.faults texts.old) (T.faults texts.new) → IsAnswered result }
    ensures kept_source { S.faults source.old ≤ S.faults source.new }
    ensures kept_sink { K.faults sink.old ≤ K.faults sink.new }
    ensures keeps { T.relations texts.new ≡ T.relations texts.old }
    ensures counts { T.faults texts.old ≤ T.faults texts.new }
{
    match depth_behind(word, words) {
        Some(depth) => {
            let setting = setting_of_words(words);
            run_asked(alloc, depth, setting, source, sink, texts, comparing)
        }
        None => Ended::OtherWords,
    }
}
