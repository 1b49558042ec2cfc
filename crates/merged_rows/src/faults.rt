//! Faults of walks and of merges at their places.
ghost use Rattle.std.specs.Prelude.{◌≡◌, ◌⊎◌, ℕ};
ghost use Rattle.schema_defs.specs.Texts.{Relations};
ghost use Rattle.schema_defs.specs.Schema.{Document as DocumentOf, Schema as SchemaOf};
ghost use Rattle.schema_tree.specs.Fault.{depth, fault_view, memory, unsupported};
ghost use Rattle.convert_defs.specs.Convert.{Handed};
ghost use Rattle.convert_walks.specs.Told.{merge_faults};
ghost use Rattle.merge_defs.specs.Outcome.{Outcome};
ghost use Rattle.merge_parts.specs.Steps.{Faults};
ghost use Rattle.merge_parts.specs.View.{unsupported_view};
ghost use Rattle.merged_rows.specs.Starts.{path_by, spot_of, walk_by};
ghost use Rattle.merge_faults.specs.Faults.{unmerged_kind};
ghost use Rattle.merged_rows.specs.Told.{TellsMerge};

use crate::places::{location_of, walk_of};
use crate::start::Start;
use merge_faults::{depth_fault, unsupported_kind};
use merge_parts::{MergeFault, UnsupportedMerge};
use row_findings::Steps;
use schema_tree::Fault;
use std::alloc::Global;

/// What is told where the walk of the schema at the end of a trail has too many steps.
pub fn too_deep(alloc: Global, start: &Start, trail: &Vec<Steps<'_>>) -> Fault
    ensures { (fault_view result ≡ memory) ⊎ (fault_view result ≡ depth (walk_by start.now.walk trail.now.items)) }
{
    match walk_of(alloc, start, trail) {
        Ok(walk) => Fault::Depth { walk },
        Err(_) => Fault::Memory,
    }
}

fn unmerged(alloc: Global, start: &Start, trail: &Vec<Steps<'_>>, kind: UnsupportedMerge) -> Fault
    ensures { (fault_view result ≡ memory) ⊎ (fault_view result ≡ unsupported (path_by start.now trail.now.items) (unmerged_kind (unsupported_view kind))) }
{
    match location_of(alloc, start, trail) {
        Ok(path) => Fault::Unsupported {
            path,
            kind: unsupported_kind(kind),
        },
        Err(_) => Fault::Memory,
    }
}

/// What is told where the row of the schema at the end of a trail has no merge. Too few levels are told as want of memory.
pub fn merge_fault(alloc: Global, start: &Start, trail: &Vec<Steps<'_>>, fault: MergeFault) -> Fault
    ensures { (r : Relations) (d : DocumentOf) (most : ℕ) (n : ℕ) (h : Handed) (o : Outcome SchemaOf) → Faults fault o → TellsMerge (merge_faults r d most n (spot_of start.now trail.now.items h) o) (fault_view result) }
{
    match fault {
        MergeFault::Memory => Fault::Memory,
        MergeFault::Depth(walk) => depth_fault(walk),
        MergeFault::Unsupported(kind) => unmerged(alloc, start, trail, kind),
    }
}
