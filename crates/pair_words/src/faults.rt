//! The line of a fault behind a word.
ghost use Rattle.std.specs.Prelude.{◌≡◌, ◌≤◌, ◌++◌, IfOk, string_bytes};
ghost use Rattle.schema_defs.specs.Faults.{Rises};
ghost use Rattle.schema_tree.specs.Fault.{fault_line, fault_view};
ghost use Rattle.schema_words.specs.Outcome.{IsLinePrinted};
ghost use Rattle.pair_words.specs.Steps.{IsFaultPrinted};

use run_io::Sink;
use schema_tree::Fault;
use schema_words::{Ended, print};
use std::alloc::{AllocError, Global};

// The line of a fault behind a word.
fn line_behind(alloc: Global, front: &str, fault: &Fault) -> Result<String, AllocError>
    ensures { IfOk result (λ s. string_bytes s ≡ front.now ++ fault_line (fault_view fault.now)) }
{
    let line = fault.line(alloc)?;
    let mut text = String::from_str(alloc, front)?;
    text.push_str(&line)?;
    Ok(text)
}

fn print_line<K: Sink>(alloc: Global, front: &str, fault: &Fault, sink: &mut K) -> Ended
    ensures ends { IsLinePrinted (K.written sink.old) (K.written sink.new) (front.now ++ fault_line (fault_view fault.now)) result }
    ensures write_fault { result ≡ Ended.WriteFault → Rises (K.faults sink.old) (K.faults sink.new) }
    ensures kept { K.faults sink.old ≤ K.faults sink.new }
{
    match line_behind(alloc, front, fault) {
        Ok(text) => print(&text, Ended::Fault, sink),
        Err(_) => Ended::Memory,
    }
}

/// The line of a fault printed behind a word; want of memory is an end of its own.
pub(crate) fn print_fault<K: Sink>(alloc: Global, front: &str, fault: &Fault, sink: &mut K) -> Ended
    ensures ends { IsFaultPrinted (K.written sink.old) (K.written sink.new) front.now (fault_view fault.now) result }
    ensures write_fault { result ≡ Ended.WriteFault → Rises (K.faults sink.old) (K.faults sink.new) }
    ensures kept { K.faults sink.old ≤ K.faults sink.new }
{
    if fault.is_memory() {
        Ended::Memory
    } else {
        print_line(alloc, front, fault, sink)
    }
}
