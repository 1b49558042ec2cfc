//! What serde's attributes say of containers, variants and fields: the definitions stand in specs/; here are the rows of the
//! tables of attributes, the halves of a value, and worked examples.
#![tactic(auto)]

mod laws;
mod row;

pub use laws::{
    members_are_read, misplaced_attributes_are_told, names_are_set, names_follow_rules,
    odd_attributes_are_told, tags_are_decided, texts_have_their_tokens,
};
pub use row::{Half, Row};
