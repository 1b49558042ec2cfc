//! Notes: where the items take other values than the schema admits.
ghost use Rattle.std.specs.Prelude.{◌≡◌, IfOk};
ghost use Rattle.convert_document.specs.Note.{way_text, kind_text};

use schema_tree::Location;
use std::alloc::{AllocError, Global};

/// How the items differ: they take less, or they take more.
#[derive(Clone, Copy, Debug, PartialEq, Eq)]
pub enum Way {
    Narrowed,
    Widened,
}

/// Why they differ. The kinds are numbered in the order in which notes at one place stand.
#[derive(Clone, Copy, Debug, PartialEq, Eq)]
pub enum NoteKind {
    N1,
    N2,
    N3,
    N4,
    N5,
    N6,
    N7,
    N8,
    N9,
    N10,
    N11,
    N12,
    N13,
    N14,
    N15,
    N16,
    N17,
    N18,
    N19,
    N20,
    N21,
}

/// A note: at the schema of that path the items are narrower or wider than the schema.
#[derive(Debug, Drop)]
pub struct Note {
    pub way: Way,
    pub kind: NoteKind,
    pub path: Location,
}

impl Note {
    /// A copy. Fails only for want of memory.
    pub fn try_clone(&self, alloc: Global) -> Result<Note, AllocError>
        ensures { IfOk result (λ n. n ≡ self.now) }
    {
        Ok(Note {
            way: self.way,
            kind: self.kind,
            path: self.path.try_clone(alloc)?,
        })
    }
}

impl Way {
    /// The way's name, as the page prints it.
    pub fn text(self) -> &'static str
        ensures { result.now ≡ way_text self }
    {
        match self {
            Way::Narrowed => "Narrowed",
            Way::Widened => "Widened",
        }
    }
}

impl NoteKind {
    /// The kind's word, as the page prints it.
    pub fn text(self) -> &'static str
        ensures { result.now ≡ kind_text self }
    {
        match self {
            NoteKind::N1 => "untyped",
            NoteKind::N2 => "null",
            NoteKind::N3 => "const",
            NoteKind::N4 => "integer",
            NoteKind::N5 => "string",
            NoteKind::N6 => "array",
            NoteKind::N7 => "open-branch",
            NoteKind::N8 => "mixed-branches",
            NoteKind::N9 => "tag-alone",
            NoteKind::N10 => "boolean",
            NoteKind::N11 => "type",
            NoteKind::N12 => "overlap",
            NoteKind::N13 => "counts",
            NoteKind::N14 => "names",
            NoteKind::N15 => "not",
            NoteKind::N16 => "reference",
            NoteKind::N17 => "formats",
            NoteKind::N18 => "clash",
            NoteKind::N19 => "members",
            NoteKind::N20 => "subtract",
            NoteKind::N21 => "absent",
        }
    }
}
