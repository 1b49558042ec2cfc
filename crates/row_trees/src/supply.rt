//! Trees that are taken one after the other.
ghost use Rattle.std.specs.Prelude.{◌≡◌, ◌∷◌, IfOk, map};
ghost use Rattle.tree_types.specs.View.{tree_view};

use std::alloc::AllocError;
use std::collections::VecDeque;
use tree_types::Tree;

/// Takes the first tree. Where there is none, it answers want of memory.
pub(crate) fn first_tree<'d>(trees: &mut VecDeque<Tree<'d>>) -> Result<Tree<'d>, AllocError>
    ensures { IfOk result (λ t. map tree_view trees.old.items ≡ tree_view t ∷ map tree_view trees.new.items) }
{
    match trees.pop_front() {
        Some(tree) => Ok(tree),
        None => Err(AllocError),
    }
}
