//! How many levels of stated defaults are enough. The definitions stand in default_defs.
#![tactic(auto)]

pub mod laws;
