//! A space whose calls have each a judge of their own. The statements stand in specs/.
#![tactic(auto)]

pub mod laws;
