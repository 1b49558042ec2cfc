//! Stated defaults: whether an entry reads one, and whether the defaults that reading it needs come to an end. The definitions stand in specs/.
#![tactic(auto)]

pub mod examples;
pub mod laws;
