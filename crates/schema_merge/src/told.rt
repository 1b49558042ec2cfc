//! What a call of merging answers.
use merge_parts::{MergeKind, Way};
use schema_types::{Location, Schema};

/// Where an answer admits less (`Narrowed`) or more (`Widened`) than was asked for, why, and the place that this is told at.
#[derive(Drop)]
pub struct PlacedNote {
    pub way: Way,
    pub kind: MergeKind,
    pub path: Location,
}

/// What is answered: a schema, or nothing for never, which admits nothing; and its notes by the number of their kind, narrowed before widened, each once.
#[derive(Drop)]
pub struct Merged {
    pub schema: Option<Schema>,
    pub notes: Vec<PlacedNote>,
}
