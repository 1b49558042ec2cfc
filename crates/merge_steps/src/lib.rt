//! Steps of a merge that go on or stop: what stops one, and how a step's answer and notes are its definition's outcome.
#![tactic(auto)]

mod budget;
mod ends;
mod size;
mod stop;

pub use budget::Budget;
pub use ends::{answered, found, or_never};
pub use size::size_of;
pub use stop::Stop;
