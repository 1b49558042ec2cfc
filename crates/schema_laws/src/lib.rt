//! What holds of documents that were read and of the places that are told of values: each law is the contract of a
//! function that does nothing. The statements stand in specs/.
#![tactic(auto)]

pub mod examples;
pub mod laws;
pub mod places;
