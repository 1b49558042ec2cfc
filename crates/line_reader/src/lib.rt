//! The lines of a stream of bytes, read one after another into one buffer of bounded length.
#![tactic(auto)]

mod buffer;
mod feed;
mod found;
mod part;
mod reader;
mod window;

pub use found::Found;
pub use reader::LineReader;
pub use run_io::{InputFault, Source};
