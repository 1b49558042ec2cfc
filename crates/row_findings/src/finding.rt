//! What is found of a schema.
ghost use Rattle.std.specs.Prelude.{◌≡◌, map};
ghost use Rattle.schema_defs.specs.Texts.{Relations};
ghost use Rattle.convert_defs.specs.Row.{noted as noted_as, plainly as plainly_as, refused_row};
ghost use Rattle.row_findings.specs.View.{row_view, finding_view, note_view, cause_view};

use crate::part::Steps;
use crate::row::Row;
use schema_types::Schema;
use std::alloc::Global;
use std::collections::BTreeMap;

/// Why a schema is not converted.
#[derive(Clone, Copy, PartialEq, Eq)]
pub enum Cause {
    Conditional,
    Mix,
    MixedEnum,
    NestedEnum,
    Not,
    Names,
    BadValue,
    Array,
}

/// Whether conversion refuses more than the schema, or takes more.
#[derive(Clone, Copy, PartialEq, Eq)]
pub enum Way {
    Narrowed,
    Widened,
}

/// What conversion doesn't keep.
#[derive(Clone, Copy, PartialEq, Eq)]
pub enum NoteKind {
    Untyped,
    Null,
    Const,
    Integer,
    String,
    Array,
    OpenBranch,
    MixedBranches,
    TagAlone,
    Boolean,
    Type,
    Overlap,
    Counts,
    Names,
    Not,
}

/// What conversion doesn't keep of a schema, at a place in it.
#[derive(Clone, Copy)]
pub struct Note<'d> {
    pub way: Way,
    pub kind: NoteKind,
    pub place: Steps<'d>,
}

/// A member of a list of schemas whose children are the fields or the content of a variant.
#[derive(Clone, Copy)]
pub struct Branch<'d> {
    pub place: Steps<'d>,
    pub schema: &'d Schema,
}

/// Patterns that the judge of texts is asked of before the schema is converted.
#[derive(Clone, Copy)]
pub enum Patterns<'d> {
    Nothing,
    /// Those that a text must have.
    Listed(&'d Vec<String>),
    /// Those that stand for names.
    Named(&'d BTreeMap<String, Schema>),
}

/// The row of a schema, with its notes, the patterns that are asked first, the members that are branches, and the number of
/// places of a list that is shorter than its sizes, or 0.
#[derive(Drop)]
pub struct Finding<'d> {
    pub row: Row<'d>,
    pub notes: Vec<Note<'d>>,
    pub patterns: Patterns<'d>,
    pub branches: Vec<Branch<'d>>,
    pub places: u32,
}

/// A row with notes.
pub fn noted<'d>(alloc: Global, notes: Vec<Note<'d>>, row: Row<'d>) -> Finding<'d>
    ensures { (r : Relations) → finding_view r result ≡ noted_as (map note_view notes.entry.items) (row_view r row.entry) }
{
    Finding {
        row,
        notes,
        patterns: Patterns::Nothing,
        branches: Vec::new(alloc),
        places: 0,
    }
}

/// A row without notes. It takes no memory.
pub fn plainly<'d>(alloc: Global, row: Row<'d>) -> Finding<'d>
    ensures { (r : Relations) → finding_view r result ≡ plainly_as (row_view r row.entry) }
{
    noted(alloc, Vec::new(alloc), row)
}

/// A refusal. It takes no memory.
pub fn refused<'d>(alloc: Global, cause: Cause) -> Finding<'d>
    ensures { (r : Relations) → finding_view r result ≡ plainly_as (refused_row (cause_view cause)) }
{
    plainly(alloc, Row::Refused(cause))
}
