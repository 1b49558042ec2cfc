//! How the variant of an enum is told, as attributes say it and as entries hold it.
#![tactic(auto)]

mod tag;

pub use tag::TagType;
