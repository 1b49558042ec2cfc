//! Notes in the order in which they stand, each once.
ghost use Rattle.std.specs.Prelude.{◌≡◌, ◌&&◌, ◌++◌, nat_eq, IfOk, OnOk, map};
ghost use Rattle.merge_defs.specs.Outcome.{same_way};
ghost use Rattle.merge_parts.specs.View.{kind_view, notes_view, way_view};
ghost use Rattle.schema_merge.specs.Ordered.{is_noted as is_noted_of, noted_so, number as number_of, of_kind, of_kinds, ordered_notes};

use merge_parts::{MergeKind, MergeNote, Way};
use std::alloc::{AllocError, Global};

fn number(kind: MergeKind) -> u8
    ensures { result ≡ number_of (kind_view kind) }
{
    match kind {
        MergeKind::Integer => 4,
        MergeKind::Names => 14,
        MergeKind::Reference => 16,
        MergeKind::Formats => 17,
        MergeKind::Clash => 18,
        MergeKind::Members => 19,
        MergeKind::Subtract => 20,
        MergeKind::Absent => 21,
    }
}

fn is_of(note: MergeNote, way: Way, kind: MergeKind) -> bool
    ensures { result ≡ (same_way (way_view way) (way_view note.way) && nat_eq (number_of (kind_view kind)) (number_of (kind_view note.kind))) }
{
    way == note.way && number(kind) == number(note.kind)
}

fn is_noted(notes: &Vec<MergeNote>, way: Way, kind: MergeKind) -> bool
    ensures { result ≡ is_noted_of (notes_view notes.now.items) (way_view way) (kind_view kind) }
{
    for note in notes {
        if is_of(*note, way, kind) {
            return true;
        }
    }
    false
}

fn push_if_noted(
    ordered: &mut Vec<MergeNote>,
    notes: &Vec<MergeNote>,
    way: Way,
    kind: MergeKind,
) -> Result<(), AllocError>
    ensures { OnOk result (notes_view ordered.new.items ≡ notes_view ordered.old.items ++ noted_so (notes_view notes.now.items) (way_view way) (kind_view kind)) }
{
    if is_noted(notes, way, kind) {
        ordered.push(MergeNote { way, kind })?;
    }
    Ok(())
}

#[tactic(auto, using(crate::proofs::ByKind::both_ways_on))]
fn push_kind(
    ordered: &mut Vec<MergeNote>,
    notes: &Vec<MergeNote>,
    kind: MergeKind,
) -> Result<(), AllocError>
    ensures { OnOk result (notes_view ordered.new.items ≡ notes_view ordered.old.items ++ of_kind (notes_view notes.now.items) (kind_view kind)) }
{
    push_if_noted(ordered, notes, Way::Narrowed, kind)?;
    push_if_noted(ordered, notes, Way::Widened, kind)?;
    Ok(())
}

#[tactic(auto, using(crate::proofs::ByKind::kinds_begin, crate::proofs::ByKind::kinds_on, crate::proofs::ByKind::kinds_end))]
fn push_kinds(
    alloc: Global,
    notes: &Vec<MergeNote>,
    kinds: &[MergeKind],
) -> Result<Vec<MergeNote>, AllocError>
    ensures { IfOk result (λ v. notes_view v.items ≡ of_kinds (notes_view notes.now.items) (map kind_view kinds.now)) }
{
    let mut ordered = Vec::new(alloc);
    for kind in kinds {
        push_kind(&mut ordered, notes, *kind)?;
    }
    Ok(ordered)
}

/// The notes in their order.
pub(crate) fn in_order(alloc: Global, notes: &Vec<MergeNote>) -> Result<Vec<MergeNote>, AllocError>
    ensures { IfOk result (λ v. notes_view v.items ≡ ordered_notes (notes_view notes.now.items)) }
{
    let kinds = [
        MergeKind::Integer,
        MergeKind::Names,
        MergeKind::Reference,
        MergeKind::Formats,
        MergeKind::Clash,
        MergeKind::Members,
        MergeKind::Subtract,
        MergeKind::Absent,
    ];
    push_kinds(alloc, notes, &kinds)
}
