//! What holds of the models of items that are within the forms of the reader of JSON values.
#![tactic(auto)]

pub mod laws;
