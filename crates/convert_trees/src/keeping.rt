//! What conversion keeps beside trees.
use document_merges::Merge;
use note_order::PlacedNote;
use schema_types::Location;
use serde_json::Value;
use tree_types::TreeTable;

/// A listed value, or a default, that isn't read, with the place of the schema.
#[derive(Drop)]
pub struct Unread<'d> {
    pub path: Location,
    pub value: &'d Value,
}

/// The table by which stated values are asked, and the first of them that isn't read, in the order of conversion. Without a table it is the
/// first that is stated.
#[derive(Drop)]
pub struct Values<'d, 't, 'k> {
    pub known: Option<&'t TreeTable<'k>>,
    pub unread: Option<Unread<'d>>,
}

/// What the rows of the document merge, in the order of conversion, and which comes next.
#[derive(Clone, Copy)]
pub struct Merges<'d> {
    pub all: &'d Vec<Merge>,
    pub next: usize,
}

/// The notes, what is kept of stated values, and the merges that are left.
#[derive(Drop)]
pub struct Kept<'d, 't, 'k> {
    pub notes: Vec<PlacedNote>,
    pub values: Values<'d, 't, 'k>,
    pub merges: Merges<'d>,
}
