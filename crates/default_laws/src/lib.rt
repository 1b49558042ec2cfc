//! What reading by an emitted table finds is what its entries find, stated defaults included. The definitions stand in specs/.
#![tactic(auto)]

pub mod examples;
pub mod laws;
