//! Rust tokens: token trees, their text, and the lexer that reads them from a text.
#![tactic(auto)]

mod character;
mod error;
mod escape;
mod front;
mod groups;
mod laws;
mod lexer;
mod name;
mod partners;
mod white;

pub use error::LexError;
pub use laws::{
    every_text_is_told, first_fault_is_one, lexed_has_no_fault, printed_is_read_again,
    trees_are_one,
};
pub use lexer::lex;
pub use token_trees::{
    Delimiter, Group, Ident, Lit, Literal, Punct, Spacing, Span, Symbol, TokenStream, TokenTree,
    respan,
};
