//! Histories of a space whose calls have each a judge of texts of their own. The statement stands in specs/.
#![tactic(auto)]

pub mod laws;
