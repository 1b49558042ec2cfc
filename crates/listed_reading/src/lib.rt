//! Whether the values that a rule lists are read as what stands under the rule, by a table of trees; and steps of it that the reading of
//! defaults shares: atoms, what references lead to, and rules. It takes no memory: want of memory is
//! what a judge of texts runs into, or the answer where references lead round, or a list or an object would have to be looked into.
#![tactic(auto)]

mod atoms;
mod led;
mod listed;
mod owners;
mod rules;
mod scalars;
mod tags;
mod wraps;

pub use atoms::{atom_takes, target_of};
pub use led::led_to;
pub use listed::{first_listed_by, first_unread_by};
pub use scalars::takes_scalar;
pub use tags::is_unit;
pub use wraps::given_rule_holds;
