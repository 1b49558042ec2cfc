//! Whether a new module of items reads what an old one writes.
#![tactic(auto)]

mod comparing;
mod finding;
mod node;
mod spelled;
mod way;

pub use comparing::covers;
pub use evolve_rows::Broken;
pub use node::{Covered, Mark, Node};
pub use way::way_text;
