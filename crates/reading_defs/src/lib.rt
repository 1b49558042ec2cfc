//! What reading a JSON value as a type gives, and that it is what the definitions of reading, refusing and settling say.
#![tactic(auto)]

pub mod laws;
