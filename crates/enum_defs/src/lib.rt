//! Shapes of schemas that make an option or an enum, the kinds of values that a schema leaves open, and schemas of which
//! no two admit one value. The definitions stand in specs/.
#![tactic(auto)]

pub mod examples;
pub mod laws;

/// A set of kinds of JSON values (RFC 8259, section 3). Whole and other numbers are one kind.
#[derive(Clone, Copy, PartialEq, Eq)]
pub struct KindSet {
    pub null: bool,
    pub boolean: bool,
    pub number: bool,
    pub string: bool,
    pub array: bool,
    pub object: bool,
}
