//! Types, attributes and string literals.
ghost use Rattle.std.specs.Prelude.{◌≡◌, ◌++◌, OnOk, chars, length, string_bytes};
ghost use Rattle.token_trees.specs.View.{stream};
ghost use Rattle.syntax_trees.specs.View.{path_view, ty as ty_view};
ghost use Rattle.syntax_trees.specs.Item.{attribute_view};
ghost use Rattle.syntax_printing.specs.Print.{print_path};
ghost use Rattle.module_texts.specs.Tokens.{attribute_text, literal, tokens_text, type_text};

use rust_syntax::ToTokens;
use std::alloc::{AllocError, Global};
use syntax_trees::{Attribute, LitStr, Path, Ty};
use tidy_texts::push_tidy;
use token_trees::{Span, TokenStream};

/// Appends tokens.
pub(crate) fn push_stream(
    out: &mut String,
    alloc: Global,
    tokens: &TokenStream,
) -> Result<(), AllocError>
    ensures { OnOk result (string_bytes out.new ≡ string_bytes out.old ++ tokens_text (stream tokens.now)) }
{
    let text = tokens.text(alloc)?;
    push_tidy(out, alloc, &text)?;
    Ok(())
}

/// Appends a type.
pub(crate) fn push_type(out: &mut String, alloc: Global, ty: &Ty) -> Result<(), AllocError>
    ensures { OnOk result (string_bytes out.new ≡ string_bytes out.old ++ type_text (ty_view ty.now)) }
{
    let mut tokens = TokenStream::new(alloc);
    ty.to_tokens(&mut tokens)?;
    push_stream(out, alloc, &tokens)?;
    Ok(())
}

/// Appends a path.
pub(crate) fn push_path(out: &mut String, alloc: Global, path: &Path) -> Result<(), AllocError>
    ensures { OnOk result (string_bytes out.new ≡ string_bytes out.old ++ tokens_text (print_path (path_view path.now))) }
{
    let mut tokens = TokenStream::new(alloc);
    path.to_tokens(&mut tokens)?;
    push_stream(out, alloc, &tokens)?;
    Ok(())
}

/// Appends an attribute.
pub(crate) fn push_attribute(
    out: &mut String,
    alloc: Global,
    attribute: &Attribute,
) -> Result<(), AllocError>
    ensures { OnOk result (string_bytes out.new ≡ string_bytes out.old ++ attribute_text (attribute_view attribute.now)) }
{
    let mut tokens = TokenStream::new(alloc);
    attribute.to_tokens(&mut tokens)?;
    push_stream(out, alloc, &tokens)?;
    Ok(())
}

/// Appends a text as a string literal.
pub(crate) fn push_literal(out: &mut String, alloc: Global, text: &str) -> Result<(), AllocError>
    ensures { OnOk result (string_bytes out.new ≡ string_bytes out.old ++ literal text.now) }
{
    let value = String::from_str(alloc, text)?;
    let literal = LitStr {
        value,
        suffix: String::new(alloc),
        span: Span::call_site(),
    };
    let mut tokens = TokenStream::new(alloc);
    literal.to_tokens(&mut tokens)?;
    let written = tokens.text(alloc)?;
    out.push_str(&written)?;
    Ok(())
}

/// How many characters the text has.
pub(crate) fn width(text: &str) -> usize
    ensures { result ≡ length (chars text.now) }
{
    text.chars().count()
}
