//! What holds of the names that patterns of derived code bind: each law is the contract of a function that does nothing. The statements stand in specs/.
#![tactic(auto)]

pub mod laws;
