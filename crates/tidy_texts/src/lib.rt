//! Rust text: tokens that stand with one space between any two, as rustfmt leaves them on a line; and texts as comments.
#![tactic(auto)]

ghost use Rattle.std.specs.Prelude.{◌≡◌, IfOk, chars};

mod comment;
pub mod examples;
mod spot;
mod tidy;

pub use comment::{push_comment, push_doc_comment};
pub use spot::{Before, Spot};
use std::alloc::{AllocError, Global};
pub use tidy::push_tidy;

fn characters_of(alloc: Global, text: &str) -> Result<Vec<char>, AllocError>
    ensures { IfOk result (λ v. v.items ≡ chars text.now) }
{
    text.chars().collect(alloc)
}
