//! Merging the keywords of members, but for the merges of the schemas in them: what is left to merge, and what is made of the merges.
#![tactic(auto)]

mod entries;
mod gathered;
mod lookups;
mod made;
mod plan;
mod sides;

pub use entries::{bound_by_both, no_rest};
pub use gathered::{Gathered, all_gathered, gather, none_gathered};
pub use lookups::{is_among, property, push_properties};
pub use made::{made_members, or_false};
pub use plan::{Bound, Entry, Frame, MemberPlan, Members, RestPlan};
pub use sides::{names_mix, two_members};
