//! What is left of a merge once both sides are met.
use schema_types::{
    ArrayValidation, NumberValidation, ObjectValidation, Schema, StringValidation, Subschemas,
    Types, Walk,
};
use serde_json::Value;

/// The merged keywords that hold no schema, and the values that each side lists.
#[derive(Drop)]
pub struct Leaves {
    pub types: Option<Types>,
    pub format: Option<String>,
    pub number: Option<NumberValidation>,
    pub string: Option<StringValidation>,
    pub values: Option<Vec<Value>>,
    pub other_values: Option<Vec<Value>>,
}

/// A reference, and the walk of the schema that it stands in.
#[derive(Drop)]
pub struct Referred {
    pub reference: String,
    pub walk: Walk,
}

/// The target of a reference that is merged with the other side.
#[derive(Drop)]
pub struct Asked {
    pub target: Schema,
    pub other: Schema,
    pub rest: Referred,
}

/// Two objects without references whose leaves are merged, and the walk on which their parts are.
#[derive(Drop)]
pub struct Bodies {
    pub walk: Walk,
    pub is_array: bool,
    pub is_object: bool,
    pub has_nulls: bool,
    pub leaves: Leaves,
    pub array: Option<ArrayValidation>,
    pub other_array: Option<ArrayValidation>,
    pub members: Option<ObjectValidation>,
    pub other_members: Option<ObjectValidation>,
    pub subschemas: Option<Subschemas>,
    pub other_subschemas: Option<Subschemas>,
}

/// What is left: nothing, a reference's target with the other side, or the parts of two objects.
#[derive(Drop)]
pub enum Met {
    Told(Schema),
    Target(Asked),
    Objects(Bodies),
}
