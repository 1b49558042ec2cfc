//! Notes in their order.
ghost use Rattle.std.specs.Prelude.{◌≡◌, IfOk};
ghost use Rattle.std.specs.BTreeSet.{keys};
ghost use Rattle.convert_walks.specs.Told.{ordered};
ghost use Rattle.note_order.specs.Notes.{notes_view};

use crate::note::PlacedNote;
use std::alloc::{AllocError, Global};
use std::collections::BTreeSet;

/// The notes in their order, each once: by place, step by step as bytes with a place before those inside it, then by kind, then narrowed
/// before widened. `AllocError` where memory runs out.
pub fn ordered_notes(alloc: Global, notes: Vec<PlacedNote>) -> Result<Vec<PlacedNote>, AllocError>
    ensures { IfOk result (λ found. notes_view found.items ≡ ordered (notes_view notes.items)) }
{
    let kept = kept_notes(alloc, notes)?;
    let found = listed(alloc, kept)?;
    Ok(found)
}

// The last are kept first, so that of equal notes one stays.
#[tactic(auto, using(crate::proofs::Kept::one_kept))]
fn kept_notes(alloc: Global, mut notes: Vec<PlacedNote>) -> Result<BTreeSet<PlacedNote>, AllocError>
    ensures { IfOk result (λ kept. notes_view (keys kept) ≡ ordered (notes_view notes.items)) }
{
    let mut kept = BTreeSet::new(alloc);
    while let Some(note) = notes.pop() {
        let _ = kept.insert(note)?;
    }
    Ok(kept)
}

fn listed(alloc: Global, mut kept: BTreeSet<PlacedNote>) -> Result<Vec<PlacedNote>, AllocError>
    ensures { IfOk result (λ found. found.items ≡ keys kept) }
{
    let mut found = Vec::new(alloc);
    while let Some(note) = kept.pop_first() {
        found.push(note)?;
    }
    Ok(found)
}
