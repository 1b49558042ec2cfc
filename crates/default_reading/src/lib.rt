//! What reading a stated default comes to by a tree: it is refused; or it is taken, and what it leaves out comes to an end or doesn't.
//! Want of memory is the answer where memory runs out, where more references are followed at one value than lead to different items,
//! and where too many defaults would be read inside one another.
#![tactic(auto)]

mod counting;
mod found;
mod members;
mod owners;
mod parts;
mod reading;
mod room;
mod supplied;

pub use found::{Found, is_ended};
pub use supplied::default_found;
