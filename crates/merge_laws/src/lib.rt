//! What merges admit, and what is left where a schema is taken away: the law on values over the definitions alone.
#![tactic(auto)]

pub mod laws;
