//! What is printed, a piece at a time.
ghost use Rattle.std.specs.Prelude.{◌≡◌, ◌≢◌, ◌≤◌, IfSome, IfNone};
ghost use Rattle.schema_defs.specs.Faults.{Rises};
ghost use Rattle.schema_tree.specs.Fault.{fault_view, memory as out_of_memory};
ghost use Rattle.run_io.specs.Bytes.{Appends};
ghost use Rattle.model_lines.specs.Printing.{IsCut, IsEnd, IsFaultEnd};

use crate::ending::Ending;
use run_io::{Sink, SinkFault, put};
use schema_tree::Fault;
use std::alloc::Global;
use typify_run::fault_text;

/// Writes a piece, and says how the run ends where that fails.
pub(crate) fn print_text<K: Sink>(sink: &mut K, text: &[u8]) -> Option<Ending>
    ensures whole { IfNone result (Appends (K.written sink.old) (K.written sink.new) text.now) }
    ensures cut { IfSome result (λ e. IsCut (K.written sink.old) (K.written sink.new) text.now e) }
    ensures fault { IfSome result (λ e. e.status ≡ 5 → Rises (K.faults sink.old) (K.faults sink.new)) }
    ensures kept { K.faults sink.old ≤ K.faults sink.new }
{
    match put(sink, text) {
        Ok(()) => None,
        Err(SinkFault::Failed) => Some(Ending::bare(5)),
        Err(SinkFault::Memory) => Some(Ending::bare(6)),
    }
}

/// Writes `end`, and says how the run ends.
pub(crate) fn print_end<K: Sink>(sink: &mut K) -> Ending
    ensures end { IsEnd (K.written sink.old) (K.written sink.new) result }
    ensures fault { result.status ≡ 5 → Rises (K.faults sink.old) (K.faults sink.new) }
    ensures kept { K.faults sink.old ≤ K.faults sink.new }
{
    match print_text(sink, b"end\n") {
        Some(ending) => ending,
        None => Ending::bare(0),
    }
}

/// Writes the line of a fault, other than want of memory, and says how the run ends.
pub(crate) fn print_fault<K: Sink>(alloc: Global, fault: Fault, sink: &mut K) -> Ending
    requires { fault_view fault ≢ out_of_memory }
    ensures end { IsFaultEnd (K.written sink.old) (K.written sink.new) fault result }
    ensures write_fault { result.status ≡ 5 → Rises (K.faults sink.old) (K.faults sink.new) }
    ensures kept { K.faults sink.old ≤ K.faults sink.new }
{
    let Ok(line) = fault_text(alloc, &fault) else {
        return Ending::bare(6);
    };
    match put(sink, line.as_bytes()) {
        Ok(()) => Ending::told(1, fault),
        Err(SinkFault::Failed) => Ending::told(5, fault),
        Err(SinkFault::Memory) => Ending::told(6, fault),
    }
}
