//! Names and texts of paths.
ghost use Rattle.std.specs.Prelude.{◌≡◌, ◌++◌, IfOk, OnOk, string_bytes};
ghost use Rattle.token_trees.specs.View.{tree, trees};
ghost use Rattle.attr_defs.specs.Metas.{is_text, is_named, token_text, path_text};

use std::alloc::{AllocError, Global};
use token_trees::{Symbol, TokenTree};

/// Whether the token is that name.
pub fn is_symbol(token: &TokenTree, symbol: Symbol) -> bool
    ensures { result ≡ is_text symbol.0.now (tree token.now) }
{
    match token {
        TokenTree::Ident(name) => name.is(symbol),
        _ => false,
    }
}

/// Whether the path is that name alone.
pub fn is_path(path: &[TokenTree], symbol: Symbol) -> bool
    ensures { result ≡ is_named symbol.0.now (trees path.now) }
{
    match path {
        [token] => is_symbol(token, symbol),
        _ => false,
    }
}

/// The path's text without spaces.
pub fn text_of_path(alloc: Global, path: &[TokenTree]) -> Result<String, AllocError>
    ensures { IfOk result (λ s. string_bytes s ≡ path_text (trees path.now)) }
{
    let mut text = String::new(alloc);
    for token in path {
        push_token(&mut text, token)?;
    }
    Ok(text)
}

// The text of a token of a path, appended.
fn push_token(text: &mut String, token: &TokenTree) -> Result<(), AllocError>
    ensures { OnOk result (string_bytes text.new ≡ string_bytes text.old ++ token_text (tree token.now)) }
{
    match token {
        TokenTree::Ident(name) => text.push_str(&name.text),
        TokenTree::Punct(mark) => text.push(mark.ch),
        _ => Ok(()),
    }
}
