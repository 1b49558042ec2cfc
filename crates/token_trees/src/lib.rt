//! Token trees: the tokens of Rust text with their spans, and the symbols that name attributes.
#![tactic(auto)]

mod copy;
mod stream;
mod symbol;
mod text;
mod token;

pub use copy::respan;
pub use stream::span_of_trees;
pub use symbol::Symbol;
pub use token::{
    Delimiter, Group, Ident, Lit, Literal, Punct, Spacing, Span, TokenStream, TokenTree,
};
