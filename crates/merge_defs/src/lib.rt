//! What the merge of two schemas is, and what is left of a schema where another is taken away. The definitions stand in specs/.
#![tactic(auto)]

pub mod examples;
