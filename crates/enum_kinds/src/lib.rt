//! The kinds of values that a schema leaves open, and schemas of which no two admit one value.
#![tactic(auto)]

mod alone;
mod apart;
mod asked;
mod kind;
mod set;

pub use apart::exclusive;
pub use enum_defs::KindSet;
pub use kind::{kinds, null_free};
pub use set::is_disjoint;
