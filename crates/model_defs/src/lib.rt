//! What serde makes of items: container models, which JSON values they read, and what they write. The definitions stand in specs/.
#![tactic(auto)]

pub mod examples;
pub mod laws;
