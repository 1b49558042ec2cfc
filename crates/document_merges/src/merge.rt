//! What a row merges, kept.
use merge_parts::{MergeNote, UnsupportedMerge};
use merged_rows::Standing;
use schema_types::Walk;

/// How the merge of a row ends: with what stands in place of the schema, with a walk that has too many steps, or with what isn't supported.
#[derive(Drop)]
pub enum MergeEnd {
    Stands(Standing),
    Deep(Walk),
    Unsupported(UnsupportedMerge),
}

/// The merge of a row, with its notes.
#[derive(Drop)]
pub struct Merge {
    pub notes: Vec<MergeNote>,
    pub end: MergeEnd,
}
