//! What the entries of a space mean to which schemas of a document are added, one after another: each law is the contract of a function that does nothing.
//! The statements stand in specs/.
#![tactic(auto)]

pub mod laws;
