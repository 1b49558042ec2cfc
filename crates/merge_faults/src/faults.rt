//! The kinds of what isn't merged, and walks that merges met.
ghost use Rattle.std.specs.Prelude.{◌≡◌};
ghost use Rattle.schema_tree.specs.Fault.{fault_view};
ghost use Rattle.merge_parts.specs.View.{unsupported_view};
ghost use Rattle.merge_faults.specs.Faults.{unmerged_kind, TellsDeep};

use merge_parts::UnsupportedMerge;
use schema_tree::{Fault, UnsupportedKind};
use schema_types::Walk;

/// The kind of fault that what isn't merged is told as.
pub fn unsupported_kind(kind: UnsupportedMerge) -> UnsupportedKind
    ensures { result ≡ unmerged_kind (unsupported_view kind) }
{
    match kind {
        UnsupportedMerge::Conditional => UnsupportedKind::Conditional,
        UnsupportedMerge::AnyBesideOne => UnsupportedKind::AnyOne,
        UnsupportedMerge::PatternNames => UnsupportedKind::Names,
        UnsupportedMerge::Subtracting => UnsupportedKind::Subtract,
    }
}

/// What is told of a walk that a merge met. There is none where there were too few levels, which are told as want of memory.
#[tactic(auto, using(crate::proofs::Deep::few_levels, crate::proofs::Deep::by_depth))]
pub fn depth_fault(walk: Walk) -> Fault
    ensures { TellsDeep walk (fault_view result) }
{
    match walk.locations.first() {
        None => Fault::Memory,
        Some(_) => Fault::Depth { walk },
    }
}
