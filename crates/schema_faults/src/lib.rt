//! What keeps a JSON value from being a schema document: where it is malformed, where a reference leads nowhere, and where
//! numbers that aren't whole stand. The definitions stand in specs/.
#![tactic(auto)]

pub mod examples;
mod first;
mod float;
mod found;
mod keyword;
mod kind;
pub mod laws;
mod members;
mod reference;
mod search;

pub use first::{first_bad_reference, first_float, first_malformed, is_internal_reference};
pub use found::{Found, Place};
pub use keyword::{Holds, KEYWORDS, is_known};
