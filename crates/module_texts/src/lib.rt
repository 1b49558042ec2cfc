//! Items as the text of one Rust module that compiles as it stands: with docs and derives, the helpers that attributes name, and conversions for rules and stated
//! defaults.
#![tactic(auto)]

mod asked;
mod attributes;
mod calls;
mod defaults;
mod docs;
pub mod examples;
mod fields;
mod helpers;
mod impls;
mod items;
mod module;
mod rules;
mod tokens;
mod values;

pub use asked::Asked;
pub use docs::ItemDoc;
pub use module::push_module;
