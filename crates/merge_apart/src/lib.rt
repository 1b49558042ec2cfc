//! What stands aside of an object while schemas are merged with it one after another, so that a merge looks only at what both sides name.
#![tactic(auto)]

mod apart;
mod aside;
mod names;
mod objects;
mod properties;

pub use apart::merges_apart;
pub use aside::{Aside, Parted, unparted};
pub use objects::{set_apart, whole};
