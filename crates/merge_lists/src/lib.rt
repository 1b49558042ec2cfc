//! Merging the keywords of lists, but for the merges of the schemas in them: what is left to merge, and what is made of the merges.
#![tactic(auto)]

mod front;
mod merged;
mod pairs;
mod places;
mod plan;
mod sides;

pub use front::{each_front, ended};
pub use merged::{End, MergedPlaces, at_end, clashed, goes_on, is_full};
pub use plan::{Around, ListPlan, Pair, Places};
pub use sides::two_lists;
