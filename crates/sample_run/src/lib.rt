//! `sample N`: a large document and values of it, examined as any other.
#![tactic(auto)]

mod page;
mod sampled;
mod top;
mod words;

pub use top::run_sample;
pub use words::sample_of_words;
