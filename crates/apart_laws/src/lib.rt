//! Tables of documents that were read: rules list scalars, and the names of tagged variants differ. So what is written of
//! what was read is read again, where untagged variants have disjoint kinds.
#![tactic(auto)]

pub mod laws;
