//! Notes at their places.
ghost use Rattle.std.specs.Prelude.{◌≡◌, ◌++◌, IfErr, OnOk, map};
ghost use Rattle.schema_tree.specs.Fault.{fault_view, memory};
ghost use Rattle.convert_defs.specs.Convert.{Handed};
ghost use Rattle.convert_walks.specs.Told.{merge_note, placed_note};
ghost use Rattle.merge_parts.specs.View.{notes_view as merge_notes_view};
ghost use Rattle.merged_rows.specs.Starts.{spot_of};
ghost use Rattle.row_findings.specs.View.{branch_view, note_view};
ghost use Rattle.convert_trees.specs.Keeping.{kept_view};

use crate::keeping::Kept;
use crate::scope::Scope;
use merge_parts::MergeNote;
use merged_rows::{push_merge_notes, push_row_notes};
use row_findings::{Finding, Steps};
use schema_tree::Fault;

/// Adds the notes of the row that was found at the end of a trail.
pub fn keep_notes<'d>(
    scope: &Scope<'d, '_>,
    trail: &Vec<Steps<'d>>,
    finding: &Finding<'d>,
    kept: &mut Kept<'d, '_, '_>,
) -> Result<(), Fault>
    ensures notes { OnOk result ((h : Handed) → (kept_view kept.new).notes ≡ (kept_view kept.old).notes ++ map (placed_note (spot_of scope.now.start.now trail.now.items h) (map branch_view finding.now.branches.items)) (map note_view finding.now.notes.items)) }
    ensures values { OnOk result ((kept_view kept.new).values ≡ (kept_view kept.old).values) }
    ensures merges { OnOk result ((kept_view kept.new).merges ≡ (kept_view kept.old).merges) }
    ensures memory { IfErr result (λ f. fault_view f ≡ memory) }
{
    match push_row_notes(
        scope.alloc,
        scope.start,
        trail,
        &finding.branches,
        &finding.notes,
        &mut kept.notes,
    ) {
        Ok(_) => Ok(()),
        Err(_) => Err(Fault::Memory),
    }
}

/// Adds the notes of a merge at the end of a trail.
pub fn keep_merge_notes<'d>(
    scope: &Scope<'d, '_>,
    trail: &Vec<Steps<'d>>,
    notes: &Vec<MergeNote>,
    kept: &mut Kept<'d, '_, '_>,
) -> Result<(), Fault>
    ensures notes { OnOk result ((h : Handed) → (kept_view kept.new).notes ≡ (kept_view kept.old).notes ++ map (merge_note (spot_of scope.now.start.now trail.now.items h)) (merge_notes_view notes.now.items)) }
    ensures values { OnOk result ((kept_view kept.new).values ≡ (kept_view kept.old).values) }
    ensures merges { OnOk result ((kept_view kept.new).merges ≡ (kept_view kept.old).merges) }
    ensures memory { IfErr result (λ f. fault_view f ≡ memory) }
{
    match push_merge_notes(scope.alloc, scope.start, trail, notes, &mut kept.notes) {
        Ok(_) => Ok(()),
        Err(_) => Err(Fault::Memory),
    }
}
