//! What is emitted for spaces of entries with ids: the definitions stand in specs/.
#![tactic(auto)]

pub mod examples;
pub mod laws;
