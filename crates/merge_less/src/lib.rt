//! Taking one schema away from another, but for the merges and subtractions of what is in them.
#![tactic(auto)]

mod entries;
mod exact;
mod left;
mod meeting;
mod parts;
mod refusal;
mod taking;

pub use left::left_of;
pub use meeting::meet_less;
pub use parts::divided;
pub use taking::{Listed, Taken, Taking};
