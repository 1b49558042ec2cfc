//! Schema documents and values in, verdicts out: which of the values a document admits (JSON Schema Draft 7, in the
//! profile that is read), by its definition.
#![tactic(auto)]

mod judging;
mod lines;
mod outcome;
mod top;
mod words;

pub use judging::verdicts;
pub use lines::page;
pub use outcome::Outcome;
pub use top::run;
pub use words::setting_of_words;
