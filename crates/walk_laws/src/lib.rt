//! What merges by walks admit, and when Depth comes of them: laws over the definitions alone.
#![tactic(auto)]

pub mod laws;
