//! The run of the program by the three forms of its words: `check DEPTH`, `items DEPTH` and `sample N`.
#![tactic(auto)]

mod top;

pub use top::run;
