//! Whether the variants of untagged enums have disjoint kinds.
#![tactic(auto)]

mod untagged;

pub use untagged::untagged_are_apart;
