//! What a comparison answers.
use evolve_rows::Broken;
use syntax_trees::Ty;

/// What a value is read as: a type, or the contents of a variant of an enum.
#[derive(Drop)]
pub enum Node {
    Ty(Ty),
    /// The number of the item among those of its module, and that of the variant among those of its enum.
    Content { item: u32, variant: u32 },
}

/// A place in the values that the old items write, one step further. Names are those that are written.
#[derive(Drop)]
pub enum Mark {
    Field(String),
    Variant(String),
    /// Every item of a list, a set or an array.
    Item,
    /// A place of a tuple or an array, from 0 on.
    Place(usize),
    /// The names of a map.
    Name,
    /// The values of a map.
    Value,
    /// What the rest holds.
    Rest,
}

/// Whether the new module reads what the old one writes.
#[derive(Drop)]
pub enum Covered {
    Yes,
    /// The first pair that breaks a rule, the rule, and the way from the two roots to the pair.
    No {
        old: Node,
        new: Node,
        broken: Broken,
        way: Vec<Mark>,
    },
}
