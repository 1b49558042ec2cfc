//! What variants hold, before it is known whether their enum is closed.
use tree_types::{FieldHead, Tree};

/// What a variant holds: nothing, one tree, or fields.
#[derive(Drop)]
pub enum Held<'d> {
    Nothing,
    Tree(Tree<'d>),
    Fields(Vec<(FieldHead<'d>, Option<Tree<'d>>)>),
}

/// A variant by its name, and what it holds.
#[derive(Drop)]
pub struct Body<'d> {
    pub name: &'d str,
    pub held: Held<'d>,
}
