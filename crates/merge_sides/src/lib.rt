//! Two sides of a merge, but for the merges of what is in them: walks, references, what is refused, and the leaves.
#![tactic(auto)]

mod body;
mod leaves;
mod met;
mod opening;
mod references;
mod refused;
mod two_sides;

pub use body::{body_of, finished, part_on, with_values};
pub use met::{Asked, Bodies, Leaves, Met, Referred};
pub use opening::entered;
pub use references::stand_for;
pub use refused::{refuse_subschemas, unsupported};
pub use two_sides::{has_nulls, meet};
