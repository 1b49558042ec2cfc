//! What is asked at a pair of places.
use crate::place::Place;

/// The rule that a pair of places breaks.
#[derive(Clone, Copy, Debug, PartialEq, Eq)]
pub enum Broken {
    /// The new place reads no values of that kind.
    Kind,
    /// Some numbers lie outside the new range.
    Range,
    /// The new rule refuses values that the old one allows.
    Rule,
    /// Tuples and arrays of different lengths.
    Length,
    /// Enums that tell their variants in different ways, or under different names.
    Tag,
    /// A variant that the new enum doesn't read, or reads with other contents.
    Variant,
    /// A new field must be present, and isn't always written.
    Missing,
    /// A member that the new closed struct doesn't know.
    Unknown,
    /// Two old fields that are written under names of one new field.
    Twice,
    /// What an old rest takes may be refused.
    Rest,
}

/// An old place and a new one.
#[derive(Clone, Copy)]
pub struct Pair<'a> {
    pub old: Place<'a>,
    pub new: Place<'a>,
}

/// A pair breaks a rule, or leads on to others.
#[derive(Drop)]
pub enum Turn<'a> {
    Stops(Broken),
    Goes(Vec<Pair<'a>>),
}
