//! The rows of the tables of serde's attributes: what each meta of a container, a variant or a field does.
#![tactic(auto)]

mod borrow;
mod bound;
mod defaults;
mod line;
mod owner;
mod remote;
mod row;
mod say;

pub use borrow::{borrow_field, copy_lifetimes, lifetimes_of_type};
pub use owner::{Owner, all_acts, settings_of};
