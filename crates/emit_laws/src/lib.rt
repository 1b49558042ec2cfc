//! Items that are emitted, as serde's derives read them. The statements stand in specs/.
#![tactic(auto)]

pub mod examples;
pub mod laws;
