//! What the texts in emitted attributes are read as. The statements stand in specs/.
#![tactic(auto)]

pub mod laws;
