//! Words of the program that read two schemas, and print what is answered of the reports on them.
#![tactic(auto)]

mod comparing;
mod examining;
mod faults;
mod input;
mod top;

pub use comparing::Comparing;
pub use top::run_pair;
