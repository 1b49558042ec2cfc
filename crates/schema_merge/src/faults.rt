//! Faults of merges at their places.
ghost use Rattle.schema_defs.specs.Schema.{Schema as SchemaOf};
ghost use Rattle.schema_tree.specs.Fault.{fault_view};
ghost use Rattle.merge_defs.specs.Outcome.{Outcome};
ghost use Rattle.merge_parts.specs.Steps.{Faults};
ghost use Rattle.merge_walks.specs.Told.{told_at};
ghost use Rattle.schema_merge.specs.Ordered.{ordered};
ghost use Rattle.schema_merge.specs.Refusals.{Refused};

use merge_faults::{depth_fault, unsupported_kind};
use merge_parts::MergeFault;
use schema_tree::Fault;
use schema_types::Location;

/// What is told at a place of a merge that is refused.
pub(crate) fn refusal(fault: MergeFault, place: Location) -> Fault
    ensures { (o : Outcome SchemaOf) → Faults fault o → Refused (told_at place (ordered o)) (fault_view result) }
{
    match fault {
        MergeFault::Memory => Fault::Memory,
        MergeFault::Depth(walk) => depth_fault(walk),
        MergeFault::Unsupported(kind) => Fault::Unsupported {
            path: place,
            kind: unsupported_kind(kind),
        },
    }
}
