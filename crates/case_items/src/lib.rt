//! Items from their tokens, for programs that read cases. In types no comma stands outside of groups and angle brackets, and in parameters
//! none outside of groups.
#![tactic(auto)]

mod header;
mod item;
mod meta;

pub use header::ty_of;
pub use item::item_of;
pub use meta::no_case;
