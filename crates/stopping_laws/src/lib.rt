//! Where reading stops, whatever numbers the stated defaults hold.
#![tactic(auto)]

pub mod examples;
pub mod laws;
