//! The ids of what a space comes to: each has a tree, and takes what its schema admits. The statements stand in specs/.
#![tactic(auto)]

pub mod laws;
