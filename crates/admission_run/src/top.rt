//! The run of the program, over any source, sink and judge of texts.
ghost use Rattle.std.specs.Prelude.{◌≡◌, ◌≤◌, ◌⊎◌, ℕ, List, [], map, length, Some, string_bytes};
ghost use Rattle.serde_json.specs.View.{view};
ghost use Rattle.schema_defs.specs.Faults.{Rises};
ghost use Rattle.run_io.specs.Bytes.{Appends, AppendsPrefix};
ghost use Rattle.run_input.specs.Input.{Parts, IsInput, IsNoInput, data_of, limit};
ghost use Rattle.schema_tree.specs.Fault.{fault_line, fault_view};
ghost use Rattle.schema_defs.specs.declared.Setting.{Setting};
ghost use Rattle.schema_defs.specs.Texts.{Relations};
ghost use Rattle.admission_run.specs.Page.{page as page_of};
ghost use Rattle.admission_run.specs.Outcome.{Ends, IsLineOf, IsPageOf, IsTextOf, IsWritten};

use crate::judging::verdicts;
use crate::lines::page;
use crate::outcome::Outcome;
use run_input::{InputError, LIMIT, input_parts, input_value};
use run_io::{InputFault, Sink, SinkFault, Source, put, read_input};
use schema_tree::{Fault, Setting, Texts};
use serde_json::Value;
use std::alloc::Global;

// A text printed, which ends as `whole` where all of it was written.
fn print<K: Sink>(text: &str, whole: Outcome, sink: &mut K) -> Outcome
    ensures ends { IsWritten (K.written sink.old) (K.written sink.new) text.now whole result }
    ensures write_fault { result ≡ Outcome.WriteFault → (whole ≡ Outcome.WriteFault) ⊎ Rises (K.faults sink.old) (K.faults sink.new) }
{
    match put(sink, text.as_bytes()) {
        Ok(()) => whole,
        Err(SinkFault::Failed) => Outcome::WriteFault,
        Err(SinkFault::Memory) => Outcome::Memory,
    }
}

// The page of answers printed.
fn print_page<K: Sink>(alloc: Global, answers: &[bool], sink: &mut K) -> Outcome
    ensures ends { (setting : Setting) (r : Relations) (faults faults' : ℕ) (all : List ℕ) → IsPageOf setting r all (page_of answers.now) → Ends setting r faults faults' all (K.written sink.old) (K.written sink.new) result }
    ensures write_fault { result ≡ Outcome.WriteFault → Rises (K.faults sink.old) (K.faults sink.new) }
{
    match page(alloc, answers) {
        Ok(text) => print(&text, Outcome::Page, sink),
        Err(_) => Outcome::Memory,
    }
}

// The line of a fault printed.
fn print_fault<K: Sink>(alloc: Global, fault: &Fault, sink: &mut K) -> Outcome
    ensures ends { (setting : Setting) (r : Relations) (faults faults' : ℕ) (all : List ℕ) → IsLineOf faults faults' all (fault_line (fault_view fault.now)) → Ends setting r faults faults' all (K.written sink.old) (K.written sink.new) result }
    ensures write_fault { result ≡ Outcome.WriteFault → Rises (K.faults sink.old) (K.faults sink.new) }
{
    match fault.line(alloc) {
        Ok(text) => print(&text, Outcome::Fault, sink),
        Err(_) => Outcome::Memory,
    }
}

// The values judged, and what comes of it printed.
fn run_parts<K: Sink, T: Texts>(
    alloc: Global,
    schema: &Value,
    values: &[Value],
    sink: &mut K,
    texts: &mut T,
    setting: Setting,
) -> Outcome
    ensures ends { (all : List ℕ) (parts : Parts) → IsInput all parts → parts.schema ≡ view schema.now → data_of parts.values ≡ map view values.now → Ends setting (T.relations texts.old) (T.faults texts.old) (T.faults texts.new) all (K.written sink.old) (K.written sink.new) result }
    ensures write_fault { result ≡ Outcome.WriteFault → Rises (K.faults sink.old) (K.faults sink.new) }
{
    match verdicts(alloc, schema, values, texts, setting) {
        Ok(answers) => print_page(alloc, &answers, sink),
        Err(fault) => {
            if fault.is_memory() {
                Outcome::Memory
            } else {
                print_fault(alloc, &fault, sink)
            }
        }
    }
}

// The bytes of an input read, and its values judged.
fn run_bytes<K: Sink, T: Texts>(
    alloc: Global,
    bytes: &[u8],
    sink: &mut K,
    texts: &mut T,
    setting: Setting,
) -> Outcome
    requires { length bytes.now ≤ limit }
    ensures ends { Ends setting (T.relations texts.old) (T.faults texts.old) (T.faults texts.new) bytes.now (K.written sink.old) (K.written sink.new) result }
    ensures write_fault { result ≡ Outcome.WriteFault → Rises (K.faults sink.old) (K.faults sink.new) }
{
    let value = match input_value(alloc, bytes) {
        Ok(value) => value,
        Err(InputError::Memory) => return Outcome::Memory,
        Err(InputError::NotJson) => return Outcome::NoInput,
    };
    match input_parts(&value) {
        Some(parts) => run_parts(alloc, parts.schema, parts.values, sink, texts, setting),
        None => Outcome::NoInput,
    }
}

/// Runs the program under a setting: an input from the source, and the page of verdicts or the line of a fault to the sink.
/// An input is one JSON object with exactly the members `schema` and `values`, the latter a list, in at most 16,777,216
/// bytes.
pub fn run<S: Source, K: Sink, T: Texts>(
    alloc: Global,
    source: &mut S,
    sink: &mut K,
    texts: &mut T,
    setting: Setting,
) -> Outcome
    ensures page { (all : List ℕ) → S.left source.old ≡ Some all → result ≡ Outcome.Page
        → (text : List ℕ) × IsPageOf setting (T.relations texts.old) all text × Appends (K.written sink.old) (K.written sink.new) text }
    ensures fault { (all : List ℕ) → S.left source.old ≡ Some all → result ≡ Outcome.Fault
        → (text : List ℕ) × IsLineOf (T.faults texts.old) (T.faults texts.new) all text × Appends (K.written sink.old) (K.written sink.new) text }
    ensures no_input { (all : List ℕ) → S.left source.old ≡ Some all → result ≡ Outcome.NoInput
        → IsNoInput all × (K.written sink.new ≡ K.written sink.old) }
    ensures read_fault { result ≡ Outcome.ReadFault
        → Rises (S.faults source.old) (S.faults source.new) × (K.written sink.new ≡ K.written sink.old) }
    ensures write_fault { result ≡ Outcome.WriteFault → Rises (K.faults sink.old) (K.faults sink.new) }
    ensures writing_cut { (all : List ℕ) → S.left source.old ≡ Some all → result ≡ Outcome.WriteFault
        → (text : List ℕ) × IsTextOf setting (T.relations texts.old) (T.faults texts.old) (T.faults texts.new) all text × AppendsPrefix (K.written sink.old) (K.written sink.new) text }
    ensures memory { (all : List ℕ) → S.left source.old ≡ Some all → result ≡ Outcome.Memory
        → (K.written sink.new ≡ K.written sink.old) ⊎ ((text : List ℕ) × IsTextOf setting (T.relations texts.old) (T.faults texts.old) (T.faults texts.new) all text × AppendsPrefix (K.written sink.old) (K.written sink.new) text) }
{
    match read_input(alloc, source, LIMIT) {
        Ok(bytes) => run_bytes(alloc, &bytes, sink, texts, setting),
        Err(InputFault::Memory) => Outcome::Memory,
        Err(InputFault::Failed) => Outcome::ReadFault,
        Err(InputFault::TooLong) => Outcome::NoInput,
    }
}
