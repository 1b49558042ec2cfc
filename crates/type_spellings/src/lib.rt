//! How the types of fields are spelled, as definitions. They stand in specs/.
#![tactic(auto)]

pub mod examples;
