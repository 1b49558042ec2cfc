//! Words of the program that read a schema document as it is, and print what is answered of the report on it.
#![tactic(auto)]

mod answering;
mod ended;
mod examining;
mod top;
mod words;

pub use answering::{Answer, Answering};
pub use ended::Ended;
pub use examining::examined;
pub use top::{print, print_said, run_word};
pub use words::depth_behind;
