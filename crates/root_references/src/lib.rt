//! Whether a reference of a document leads to its root.
#![tactic(auto)]

mod roots;

pub use roots::refers_to_root;
