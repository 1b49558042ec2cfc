//! Items as the reader of JSON values takes them: names, types and representation, made from what their attributes say.
#![tactic(auto)]

mod container_model;
mod default_model;
mod field_model;
mod known;
mod variant_model;

pub use container_model::model_of_container;
pub use default_model::{Place, place_of};
pub use field_model::has_name;
pub use known::{is_local, is_rooted, reads_some, reads_whole};
