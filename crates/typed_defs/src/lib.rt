//! What values become once they are read as types, and what they are written as. The definitions stand in specs/.
#![tactic(auto)]

pub mod examples;
