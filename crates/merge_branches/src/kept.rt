//! What becomes of the members of `anyOf` and `oneOf`.
use schema_types::Schema;

/// What a member is answered as: the body, itself, or both joined.
#[derive(Clone, Copy)]
pub enum As {
    Body,
    Member,
    Joined,
}

/// A member that is left; `is_wider` says that its merge admits more than both.
#[derive(Drop)]
pub struct Left {
    pub how: As,
    pub is_wider: bool,
    pub schema: Schema,
}

/// A member that is left out, by a merge that admits less than both or by another; or one that is left.
#[derive(Drop)]
pub enum Fate {
    Out(bool),
    Stays(Left),
}

/// The members that are left, and whether one was left out by a merge that admits less than both.
#[derive(Drop)]
pub struct Kept {
    pub members: Vec<Left>,
    pub is_lost: bool,
}
