//! What the table of conversions says to the forms of containers.
#![tactic(auto)]

mod cause;
mod newtype;
mod place;
mod rules;

pub use cause::{Cause, RuleTest, is_outside};
