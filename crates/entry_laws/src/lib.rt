//! What entries with ids take, and the trees that stand at them: the definitions stand in specs/.
#![tactic(auto)]

pub mod examples;
pub mod laws;
