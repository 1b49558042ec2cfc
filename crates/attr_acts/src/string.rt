//! String literals as the values of metas.
ghost use Rattle.std.specs.Prelude.{◌≡◌, ◌++◌, ◌∷◌, [], Some, None, IfOk, OnOk, OnErr, IfErr, option_map, string_bytes};
ghost use Rattle.token_trees.specs.View.{tree, trees, group_view, fixed_view};
ghost use Rattle.token_trees.specs.Token.{fixed};
ghost use Rattle.syntax_trees.specs.View.{lit_str_view};
ghost use Rattle.syntax_trees.specs.Metas.{no_value, expected};
ghost use Rattle.attr_defs.specs.Texts.{string_of, string_alone, value_in, value_tokens, suffix_told, string_step, string_by};
ghost use Rattle.attr_parts.specs.Diagnostics.{kind_view, expected_string};
ghost use Rattle.attr_acts.specs.Views.{acts_view, text_view};
ghost use Rattle.attr_acts.specs.Does.{Does};

use crate::act::{Act, tell, tell_syntax};
use crate::part::{after_one, is_sign_next, place_next};
use attr_parts::DiagKind;
use std::alloc::{AllocError, Global};
use syntax_trees::{LitStr, SyntaxError, SyntaxKind};
use token_trees::{Delimiter, Group, Lit, Literal, Span, Symbol, TokenTree, span_of_trees};

/// A string literal in the tokens of a value.
#[derive(Clone, Copy)]
pub struct Text<'a> {
    pub value: &'a str,
    pub suffix: &'a str,
    pub span: Span,
}

// The string that the literal is.
fn text_of(literal: &Literal) -> Option<Text<'_>>
    ensures { option_map text_view result ≡ string_of (fixed (fixed_view literal.now.lit) literal.now.span) }
{
    match &literal.lit {
        Lit::Str { value, suffix } => Some(Text {
            value,
            suffix,
            span: literal.span,
        }),
        Lit::Int { .. } => None,
        Lit::Other { .. } => None,
    }
}

// The string that the token is, alone or within groups without delimiters.
#[cycle(string)]
fn text_in(token: &TokenTree) -> Option<Text<'_>>
    ensures { option_map text_view result ≡ string_of (tree token.now) }
{
    match token {
        TokenTree::Literal(literal) => text_of(literal),
        TokenTree::Group(group) => text_in_group(group),
        TokenTree::Ident(_) => None,
        TokenTree::Punct(_) => None,
    }
}

// The string that a group holds alone, where no delimiter shows it.
#[cycle(string)]
fn text_in_group(group: &Group) -> Option<Text<'_>>
    ensures { option_map text_view result ≡ string_of (group_view group.now) }
{
    match group.delimiter {
        Delimiter::None => text_alone(group.stream.trees()),
        Delimiter::Parenthesis => None,
        Delimiter::Brace => None,
        Delimiter::Bracket => None,
    }
}

/// The string that tokens are, alone or within groups without delimiters.
#[cycle(string)]
pub fn text_alone(tokens: &[TokenTree]) -> Option<Text<'_>>
    ensures { option_map text_view result ≡ string_alone (trees tokens.now) }
{
    match tokens {
        [token] => text_in(token),
        _ => None,
    }
}

// What was expected, at the place of the next of `tokens`.
fn expected(kind: SyntaxKind, end: Span, tokens: &[TokenTree]) -> SyntaxError
    ensures { result ≡ expected kind end (trees tokens.now) }
{
    SyntaxError {
        kind,
        span: place_next(end, tokens),
    }
}

// The tokens behind `=`, one at least; else what is wrong there.
fn tokens_behind<'a>(end: Span, rest: &'a [TokenTree]) -> Result<&'a [TokenTree], SyntaxError>
    ensures ok { IfOk result (λ v. value_in (trees rest.now) ≡ Some (trees v.now)) }
    ensures none { OnErr result (value_in (trees rest.now) ≡ None) }
    ensures told { IfErr result (λ e. e ≡ no_value end (trees rest.now)) }
{
    if !is_sign_next('=', rest) {
        return Err(expected(SyntaxKind::ExpectedEq, end, rest));
    }
    let value = after_one(rest);
    if value.is_empty() {
        return Err(expected(SyntaxKind::ExpectedValue, end, value));
    }
    Ok(value)
}

// The tokens behind `=`, one at least; where there are none reading of the attribute ends.
#[tactic(auto, using(crate::proofs::Does::does_nothing, crate::proofs::Does::does_end))]
fn value_tokens<'a>(
    acts: &mut Vec<Act>,
    end: Span,
    rest: &'a [TokenTree],
) -> Result<Option<&'a [TokenTree]>, AllocError>
    ensures { IfOk result (λ o. Does (acts_view acts.old.items) (acts_view acts.new.items) (option_map (λ t. trees t.now) o) (value_tokens end (trees rest.now))) }
{
    match tokens_behind(end, rest) {
        Ok(tokens) => Ok(Some(tokens)),
        Err(error) => {
            tell_syntax(acts, error)?;
            Ok(None)
        }
    }
}

// What is told of another value than a string, which stands behind the second name.
fn no_string(alloc: Global, attribute: Symbol, item: Symbol) -> Result<DiagKind, AllocError>
    ensures { IfOk result (λ k. kind_view k ≡ expected_string attribute.0.now item.0.now) }
{
    Ok(DiagKind::ExpectedString(
        String::from_str(alloc, attribute.text())?,
        String::from_str(alloc, item.text())?,
    ))
}

// A suffix is told.
fn tell_suffix(alloc: Global, acts: &mut Vec<Act>, text: Text<'_>) -> Result<(), AllocError>
    ensures { OnOk result (acts_view acts.new.items ≡ acts_view acts.old.items ++ suffix_told (text_view text.entry) text.entry.suffix.now) }
{
    if text.suffix.is_empty() {
        return Ok(());
    }
    let kind = DiagKind::Suffix(String::from_str(alloc, text.suffix)?);
    tell(acts, kind, text.span)
}

// The string that the tokens of a value are; any other value is told.
#[tactic(auto, using(crate::proofs::Does::does_acts, crate::proofs::Does::does_note))]
fn string_by<'a>(
    alloc: Global,
    acts: &mut Vec<Act>,
    attribute: Symbol,
    item: Symbol,
    tokens: &'a [TokenTree],
) -> Result<Option<Text<'a>>, AllocError>
    ensures { IfOk result (λ o. Does (acts_view acts.old.items) (acts_view acts.new.items) (Some (option_map text_view o)) (string_by attribute.0.now item.0.now (trees tokens.now) (string_alone (trees tokens.now)))) }
{
    match text_alone(tokens) {
        Some(text) => {
            tell_suffix(alloc, acts, text)?;
            Ok(Some(text))
        }
        None => {
            let kind = no_string(alloc, attribute, item)?;
            tell(acts, kind, span_of_trees(tokens))?;
            Ok(None)
        }
    }
}

/// `= "text"` of an attribute, behind the name `item`; another value than a string is told, and so is a suffix. None where
/// reading of the attribute ends.
#[tactic(auto, using(crate::proofs::Does::does_then, crate::proofs::Does::does_last))]
pub fn string_step<'a>(
    alloc: Global,
    acts: &mut Vec<Act>,
    attribute: Symbol,
    item: Symbol,
    end: Span,
    rest: &'a [TokenTree],
) -> Result<Option<Option<Text<'a>>>, AllocError>
    ensures { IfOk result (λ o. Does (acts_view acts.old.items) (acts_view acts.new.items) (option_map (option_map text_view) o) (string_step attribute.0.now item.0.now end (trees rest.now))) }
{
    let Some(tokens) = value_tokens(acts, end, rest)? else {
        return Ok(None);
    };
    let text = string_by(alloc, acts, attribute, item, tokens)?;
    Ok(Some(text))
}

/// A copy of the literal.
pub fn literal_of(alloc: Global, text: Text<'_>) -> Result<LitStr, AllocError>
    ensures { IfOk result (λ l. lit_str_view l ≡ text_view text.entry) }
{
    Ok(LitStr {
        value: String::from_str(alloc, text.value)?,
        suffix: String::from_str(alloc, text.suffix)?,
        span: text.span,
    })
}
