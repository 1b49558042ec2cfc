//! What the rows of conversion that merge say of values: laws over the definitions alone.
#![tactic(auto)]

pub mod laws;
