//! Verdicts over a stream: the first line is a schema document, each further line a value, and each is answered as it comes, in the
//! memory of one line.
#![tactic(auto)]

mod ending;
mod line_text;
mod outcome;
mod printing;
mod top;
mod values;
mod words;

pub use outcome::LinesOutcome;
pub use top::run_lines;
