//! Notes at their places, and which comes first.
ghost use Rattle.std.specs.Prelude.{◌≡◌, Some, refl};
ghost use Rattle.std.specs.Ordering.{eq_by_cmp, nat_cmp};
ghost use Rattle.std.specs.Cmp.{on_equiv, on_per, on_po, on_total, partial_equiv_from_equiv, partial_order_from_total};
ghost use Rattle.std.specs.Cmp.Lexicographic.{slice_cmp};
ghost use Rattle.convert_defs.specs.Order.{kind_number as kind_number_of, way_number as way_number_of};
ghost use Rattle.convert_walks.specs.Told.{note_number as note_number_of};
ghost use Rattle.row_findings.specs.View.{kind_view, way_view};
ghost use Rattle.note_order.specs.Notes.{name_view, placed_view};
ghost use Rattle.note_order.specs.First.{note_cmp, note_equiv, note_total};

use row_findings::{NoteKind, Way};
use schema_types::Location;
use std::cmp::Ordering;

/// Of a row, or of a merge alone.
#[derive(Clone, Copy)]
pub enum NoteName {
    Row(NoteKind),
    Reference,
    Formats,
    Clash,
    Members,
    Subtract,
    Absent,
}

/// What conversion doesn't keep, and where. Notes are ordered by place, step by step, then by kind, then narrowed before widened.
#[derive(Drop)]
pub struct PlacedNote {
    pub way: Way,
    pub name: NoteName,
    pub path: Location,
}

fn kind_number(kind: NoteKind) -> u8
    ensures { result ≡ kind_number_of (kind_view kind) }
{
    match kind {
        NoteKind::Untyped => 1,
        NoteKind::Null => 2,
        NoteKind::Const => 3,
        NoteKind::Integer => 4,
        NoteKind::String => 5,
        NoteKind::Array => 6,
        NoteKind::OpenBranch => 7,
        NoteKind::MixedBranches => 8,
        NoteKind::TagAlone => 9,
        NoteKind::Boolean => 10,
        NoteKind::Type => 11,
        NoteKind::Overlap => 12,
        NoteKind::Counts => 13,
        NoteKind::Names => 14,
        NoteKind::Not => 15,
    }
}

fn note_number(name: NoteName) -> u8
    ensures { result ≡ note_number_of (name_view name) }
{
    match name {
        NoteName::Row(kind) => kind_number(kind),
        NoteName::Reference => 16,
        NoteName::Formats => 17,
        NoteName::Clash => 18,
        NoteName::Members => 19,
        NoteName::Subtract => 20,
        NoteName::Absent => 21,
    }
}

fn way_number(way: Way) -> u8
    ensures { result ≡ way_number_of (way_view way) }
{
    match way {
        Way::Narrowed => 0,
        Way::Widened => 1,
    }
}

fn compare_numbers(first: u8, second: u8) -> Ordering
    ensures { result ≡ nat_cmp first second }
{
    first.cmp(&second)
}

#[tactic(auto, using(crate::proofs::Compared::mapped_cmp))]
fn compare_paths(first: &Location, second: &Location) -> Ordering
    ensures { result ≡ slice_cmp (slice_cmp nat_cmp) first.now second.now }
{
    first.steps.cmp(&second.steps)
}

fn compare(first: &PlacedNote, second: &PlacedNote) -> Ordering
    ensures { result ≡ note_cmp (placed_view first.now) (placed_view second.now) }
{
    let path = compare_paths(&first.path, &second.path);
    let name = compare_numbers(note_number(first.name), note_number(second.name));
    let way = compare_numbers(way_number(first.way), way_number(second.way));
    path.then(name.then(way))
}

impl PartialEq for PlacedNote {
    ghost eq = { λ a b. eq_by_cmp note_cmp (placed_view a) (placed_view b) };

    ghost laws = { on_per placed_view (partial_equiv_from_equiv note_equiv) };

    fn eq(&self, other: &PlacedNote) -> bool {
        compare(self, other).is_eq()
    }
}

impl Eq for PlacedNote {
    ghost laws = { on_equiv placed_view note_equiv };
}

impl PartialOrd for PlacedNote {
    ghost partial_cmp = { λ a b. Some (note_cmp (placed_view a) (placed_view b)) };

    ghost laws = { on_po placed_view (partial_order_from_total note_total) };

    fn partial_cmp(&self, other: &PlacedNote) -> Option<Ordering> {
        Some(compare(self, other))
    }
}

impl Ord for PlacedNote {
    ghost cmp = { λ a b. note_cmp (placed_view a) (placed_view b) };

    ghost total = { on_total placed_view note_total };

    ghost matches_partial_cmp = { λ a b. refl };

    ghost matches_eq = { λ a b. refl };

    fn cmp(&self, other: &PlacedNote) -> Ordering {
        compare(self, other)
    }
}
