//! The run of `sample N`.
ghost use Rattle.std.specs.Prelude.{◌≡◌, ◌≤◌, ◌↔◌, ℕ, map, Some, None, string_bytes};
ghost use Rattle.schema_defs.specs.Faults.{Rises};
ghost use Rattle.typify_run.specs.Outcome.{IsBare};
ghost use Rattle.sample_run.specs.Words.{sample_said};
ghost use Rattle.sample_run.specs.Sampled.{EndsSampled, IsSampled};

use crate::page::page_text;
use crate::sampled::sampled;
use crate::words::sample_of_words;
use run_io::{Sink, SinkFault, put};
use std::alloc::Global;
use typify_run::{Outcome, Report};

// An end without a report and without a fault.
fn bare(status: u8) -> Outcome
    ensures { result ≡ record { status = status; report = None; fault = None } }
{
    Outcome {
        status,
        report: None,
        fault: None,
    }
}

fn print_sample<K: Sink>(alloc: Global, number: u32, report: Report, sink: &mut K) -> Outcome
    requires { IsSampled number report }
    ensures ends { EndsSampled number (K.written sink.old) (K.written sink.new) result.status result.report result.fault }
    ensures write_fault { result.status ≡ 5 → Rises (K.faults sink.old) (K.faults sink.new) }
    ensures kept { K.faults sink.old ≤ K.faults sink.new }
{
    let Ok(page) = page_text(alloc, number, &report) else {
        return bare(6);
    };
    match put(sink, page.as_bytes()) {
        Ok(()) => Outcome {
            status: 0,
            report: Some(report),
            fault: None,
        },
        Err(SinkFault::Failed) => Outcome {
            status: 5,
            report: Some(report),
            fault: None,
        },
        Err(SinkFault::Memory) => bare(6),
    }
}

// The document and the values of a number examined, and the page printed.
fn run_number<K: Sink>(alloc: Global, number: u32, sink: &mut K) -> Outcome
    requires { (1 ≤ number) × (number ≤ 999) }
    ensures ends { EndsSampled number (K.written sink.old) (K.written sink.new) result.status result.report result.fault }
    ensures write_fault { result.status ≡ 5 → Rises (K.faults sink.old) (K.faults sink.new) }
    ensures kept { K.faults sink.old ≤ K.faults sink.new }
{
    match sampled(alloc, number) {
        Ok(report) => print_sample(alloc, number, report, sink),
        Err(_) => bare(6),
    }
}

/// Runs `sample N`, with N from 1 to 999: examines the document and the values of the number, and prints how many items,
/// notes and taken values there are. It reads nothing, and asks a judge of texts that knows no pattern. The status is 2
/// for any other words; else 0, 5 where writing failed, or 6 where memory ran out, and never one of a fault.
pub fn run_sample<K: Sink>(alloc: Global, words: &[String], sink: &mut K) -> Outcome
    ensures within { result.status ≤ 6 }
    ensures words { (result.status ≡ 2) ↔ (sample_said (map string_bytes words.now) ≡ None) }
    ensures other_words { result.status ≡ 2 → IsBare (K.written sink.old) (K.written sink.new) result.report result.fault }
    ensures ends { (n : ℕ) → sample_said (map string_bytes words.now) ≡ Some n → EndsSampled n (K.written sink.old) (K.written sink.new) result.status result.report result.fault }
    ensures write_fault { result.status ≡ 5 → Rises (K.faults sink.old) (K.faults sink.new) }
    ensures kept { K.faults sink.old ≤ K.faults sink.new }
{
    match sample_of_words(words) {
        Some(number) => run_number(alloc, number, sink),
        None => bare(2),
    }
}
