//! The form of what a document whose rows may merge is converted to: the law is the contract of a function that does nothing. The statement stands in specs/.
#![tactic(auto)]

pub mod laws;
