//! Which values a schema document admits (JSON Schema Draft 7, in the profile that is read): the plain program that
//! follows the definition, step by step.
#![tactic(auto)]

mod judge;
mod list;
mod plain;
mod reference;
mod text;
mod wanted;

pub use judge::admits;
