//! What is told of a step from a pair of places to one that it leads to.

/// A place in the values that the old table writes, one step further. Names are those that are written.
#[derive(Clone, Copy, Debug, PartialEq, Eq)]
pub enum Mark<'a> {
    Field(&'a str),
    Variant(&'a str),
    /// Every item of a list, a set or an array.
    Item,
    /// A place of a tuple or an array, from 0 on.
    Place(usize),
    /// The names of a map.
    Name,
    /// The values of a map.
    Value,
    /// What the rest holds.
    Rest,
}

/// A step to a place further on, or one that stays at the same place in the values.
#[derive(Clone, Copy, Debug, PartialEq, Eq)]
pub enum Step<'a> {
    Inside,
    To(Mark<'a>),
}
