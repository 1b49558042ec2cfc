//! Schema documents examined.
#![tactic(auto)]

mod examination;
mod judging;
pub mod laws;
mod outcome;
mod report;
mod top;
mod values;
mod words;

pub use convert_document::{Note, NoteKind, Way};
pub use derive_model::Verdict;
pub use examination::{examine, examine_with};
pub use judging::judge_value;
pub use outcome::Outcome;
pub use regex_texts::RegexTexts;
pub use report::{Report, head_text, note_line};
pub use run_io::{
    Failed, MemorySink, MemorySource, PlainSink, PlainSource, Sink, SinkFault, Source, StdSink,
    StdSource, put,
};
pub use schema_tree::{Setting, wide_place};
pub use top::{fault_text, run};
pub use whole_numbers::whole_numbers;
pub use words::{depth_of, is_null_absent, setting_of_words};
