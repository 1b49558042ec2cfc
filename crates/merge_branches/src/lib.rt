//! Merging a body with the subschemas of a side, but for the merges themselves: allOf, not, anyOf and oneOf.
#![tactic(auto)]

mod alone;
mod branch;
mod fate;
mod joint;
mod kept;
mod made;
mod parts;

pub use branch::Branch;
pub use fate::{judge, none_kept};
pub use kept::{As, Fate, Kept, Left};
pub use made::finish;
pub use parts::{SameParts, parts_of};
