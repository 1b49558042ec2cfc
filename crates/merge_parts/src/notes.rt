//! Notes of what a merge loses. A step that answers something, or never, writes its notes behind those of the steps before it.
ghost use Rattle.std.specs.Prelude.{◌≡◌, [], ◌∷◌, ◌++◌, OnOk, if◌then◌else◌};
ghost use Rattle.merge_defs.specs.Outcome.{both_ways, has_way as has_way_of, less_than, note_if as note_if_of, other_way as other_way_of, same_way as same_way_of, turned};
ghost use Rattle.merge_parts.specs.View.{kind_view, noted_as, notes_view, way_view};

use std::alloc::AllocError;

/// Whether the merge admits less than both sides do, or more.
#[derive(Clone, Copy, PartialEq, Eq)]
pub enum Way {
    Narrowed,
    Widened,
}

/// What a merge loses.
#[derive(Clone, Copy, PartialEq, Eq)]
pub enum MergeKind {
    /// A multiple past 64 bits.
    Integer,
    /// Members whose names are given by pattern.
    Names,
    /// What stands beside a reference, or a size of what it stands for.
    Reference,
    /// Texts that have two formats.
    Formats,
    /// Values of another type than that of the keywords that clash.
    Clash,
    /// Subschemas of `anyOf` or `oneOf`.
    Members,
    /// What is taken away.
    Subtract,
    /// Null for an absent member.
    Absent,
}

/// One note.
#[derive(Clone, Copy, PartialEq, Eq)]
pub struct MergeNote {
    pub way: Way,
    pub kind: MergeKind,
}

/// One note more.
pub fn note(notes: &mut Vec<MergeNote>, way: Way, kind: MergeKind) -> Result<(), AllocError>
    ensures { OnOk result (notes_view notes.new.items ≡ notes_view notes.old.items ++ noted_as way kind ∷ []) }
{
    notes.push(MergeNote { way, kind })?;
    Ok(())
}

/// One note more, where it is due.
pub fn note_if(
    notes: &mut Vec<MergeNote>,
    is_due: bool,
    way: Way,
    kind: MergeKind,
) -> Result<(), AllocError>
    ensures { OnOk result (notes_view notes.new.items ≡ notes_view notes.old.items ++ note_if_of is_due (noted_as way kind ∷ [])) }
{
    if !is_due {
        return Ok(());
    }
    let told = note(notes, way, kind)?;
    Ok(told)
}

/// A note that both less and more is admitted, where it is due.
pub fn note_both_ways(
    notes: &mut Vec<MergeNote>,
    is_due: bool,
    kind: MergeKind,
) -> Result<(), AllocError>
    ensures { OnOk result (notes_view notes.new.items ≡ notes_view notes.old.items ++ note_if_of is_due (both_ways (kind_view kind))) }
{
    if !is_due {
        return Ok(());
    }
    note(notes, Way::Narrowed, kind)?;
    note(notes, Way::Widened, kind)?;
    Ok(())
}

/// What is noted where a merge is never: that less is admitted, unless nothing of that kind was.
pub fn never_unless(
    notes: &mut Vec<MergeNote>,
    is_whole: bool,
    kind: MergeKind,
) -> Result<(), AllocError>
    ensures { OnOk result (notes_view notes.new.items ≡ notes_view notes.old.items ++ (if is_whole then [] else less_than (kind_view kind) ∷ [])) }
{
    if is_whole {
        return Ok(());
    }
    note(notes, Way::Narrowed, kind)?;
    Ok(())
}

/// The notes of a merge of its own, behind those before it.
pub fn add_notes(notes: &mut Vec<MergeNote>, more: &Vec<MergeNote>) -> Result<(), AllocError>
    ensures { OnOk result (notes_view notes.new.items ≡ notes_view notes.old.items ++ notes_view more.now.items) }
{
    for one in more {
        notes.push(*one)?;
    }
    Ok(())
}

fn other_way(way: Way) -> Way
    ensures { way_view result ≡ other_way_of (way_view way) }
{
    match way {
        Way::Narrowed => Way::Widened,
        Way::Widened => Way::Narrowed,
    }
}

/// The notes of a merge that is taken away, behind those before it: what it admits less, the rest admits more.
#[tactic(auto, using(crate::proofs::Loops::turned_step, crate::proofs::Loops::turned_last))]
pub fn add_turned(notes: &mut Vec<MergeNote>, more: &Vec<MergeNote>) -> Result<(), AllocError>
    ensures { OnOk result (notes_view notes.new.items ≡ notes_view notes.old.items ++ turned (notes_view more.now.items)) }
{
    for one in more {
        note(notes, other_way(one.way), one.kind)?;
    }
    Ok(())
}

fn same_way(one: Way, other: Way) -> bool
    ensures { result ≡ same_way_of (way_view one) (way_view other) }
{
    one == other
}

/// Whether one of the notes says that less is admitted, or that more is.
pub fn has_way(notes: &Vec<MergeNote>, way: Way) -> bool
    ensures { result ≡ has_way_of (way_view way) (notes_view notes.now.items) }
{
    for one in notes {
        if same_way(way, one.way) {
            return true;
        }
    }
    false
}
