//! Conversion with the rows that merge: the entries, the conversion tree, the notes and the faults of a document by walks. The definitions stand in specs/.
#![tactic(auto)]

pub mod examples;
