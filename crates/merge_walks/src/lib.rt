//! Merges by walks: which walks the schemas of a merge carry, and how many steps they may have. The definitions stand in specs/.
#![tactic(auto)]

pub mod examples;
