//! JSON values read as types by the models of items, as one definition says (reading_defs).
#![tactic(auto)]

mod apart;
mod reading;
mod stated;

pub use reading::read;
pub use stated::reads_default;
pub use value_parts::Outcome;
