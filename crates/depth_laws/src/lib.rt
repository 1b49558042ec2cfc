//! How many steps the walk of Depth has: laws over the definitions alone.
#![tactic(auto)]

pub mod laws;
