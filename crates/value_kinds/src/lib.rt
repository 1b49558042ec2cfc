//! Which kinds of JSON values types and contents may read, and whether an item reaches itself at one value.
#![tactic(auto)]

mod asked;
mod claim;
pub mod examples;
mod passes;
mod table;
mod type_kinds;

pub use table::ModelTable;
pub use type_kinds::{Kind, TypeKinds};
