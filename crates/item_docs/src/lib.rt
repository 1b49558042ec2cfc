//! What is said of the items of a document, as titles and descriptions of its schemas say it.
#![tactic(auto)]

mod docs;
pub mod examples;
mod forms;
mod nested;
mod ordered;
mod said;
mod table;

pub use docs::item_docs;
