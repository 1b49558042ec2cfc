//! Where conversion stands when rows may merge, and what a row merges: the schema that stands in place of the written one, with its notes,
//! or the fault.
#![tactic(auto)]

mod annotations;
mod answered;
mod deep;
pub mod examples;
mod faults;
mod instead;
mod merging;
mod notes;
mod owning;
mod parted;
mod parts;
mod place;
mod places;
mod seen;
mod spots;
mod start;

pub use answered::{annotated, standing};
pub use deep::is_deep;
pub use faults::{merge_fault, too_deep};
pub use instead::Standing;
pub use merge_cycle::{Budget, size_of};
pub use merging::{Merging, merge_row, merged_body, merged_members, merged_target};
pub use notes::{push_merge_notes, push_row_notes};
pub use owning::owned;
pub use parted::merged_parts;
pub use parts::{note_path, place_of_part};
pub use place::Place;
pub use places::{is_made_at, location_of, longer, walk_of, with_steps};
pub use spots::{place_inside, start_at, start_inside};
pub use start::Start;
