//! The models of a module's items, read from their attributes, within the forms of the reader of JSON values; values read, written and
//! judged by them.
#![tactic(auto)]

mod asking;
mod errors;
mod judging;
mod kinds;
pub mod laws;
mod making;
mod models;
mod module;
mod outside;
mod read;
mod sound;
mod verdict;

pub use errors::{JudgeError, ModuleError, ReadError};
pub use module::Module;
pub use value_kinds::TypeKinds;
pub use verdict::Verdict;
