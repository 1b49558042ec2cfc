//! What stands in front of tokens.
ghost use Rattle.std.specs.Prelude.{◌≡◌, ◌||◌, IfOk, IfErr, IfSome, option_map, is_some, None};
ghost use Rattle.token_trees.specs.View.{trees, tree as tree_view, name_view, fixed_view};
ghost use Rattle.syntax_trees.specs.Metas.{place, sign_next};
ghost use Rattle.syntax_parsers.specs.declared.fault.ParseFault.TheVariants.{Syntax};
ghost use Rattle.syntax_parsers.specs.Answer.{error};
ghost use Rattle.syntax_parsers.specs.Fronts.{sign_front, colons_front, arrow_front, name_front, keyword_front, literal_front, group_front, opened, is_parens, is_brackets, is_braces, tree_front, lifetime_front, segment_front, path_next, bound_next, further_front, colon_front, angle_front, labelled, is_reserved};
ghost use Rattle.syntax_parsers.specs.Grammar.{choose, mut_front};

use crate::fault::ParseFault;
use syntax_trees::{SyntaxError, SyntaxKind};
use token_trees::{Delimiter, Ident, Literal, Spacing, Span, TokenTree};

pub(crate) fn after_sign(ch: char, tokens: &[TokenTree]) -> Option<&[TokenTree]>
    ensures { option_map (λ x. trees x.now) result ≡ sign_front ch (trees tokens.now) }
{
    match tokens {
        [TokenTree::Punct(punct), rest @ ..] if ch == punct.ch => Some(rest),
        _ => None,
    }
}

pub(crate) fn after_colons(tokens: &[TokenTree]) -> Option<&[TokenTree]>
    ensures { option_map (λ x. trees x.now) result ≡ colons_front (trees tokens.now) }
{
    match tokens {
        [TokenTree::Punct(punct), rest @ ..]
            if ':' == punct.ch && punct.spacing == Spacing::Joint => { after_sign(':', rest) }
        _ => None,
    }
}

pub(crate) fn after_arrow(tokens: &[TokenTree]) -> Option<&[TokenTree]>
    ensures { option_map (λ x. trees x.now) result ≡ arrow_front (trees tokens.now) }
{
    match tokens {
        [TokenTree::Punct(punct), rest @ ..]
            if '-' == punct.ch && punct.spacing == Spacing::Joint => { after_sign('>', rest) }
        _ => None,
    }
}

pub(crate) fn after_name(tokens: &[TokenTree]) -> Option<(&Ident, &[TokenTree])>
    ensures { option_map (λ x. (name_view x.0.now, trees x.1.now)) result ≡ name_front (trees tokens.now) }
{
    match tokens {
        [TokenTree::Ident(name), rest @ ..] => Some((name, rest)),
        _ => None,
    }
}

pub(crate) fn after_keyword<'a>(keyword: &str, tokens: &'a [TokenTree]) -> Option<&'a [TokenTree]>
    ensures { option_map (λ x. trees x.now) result ≡ keyword_front keyword.now (trees tokens.now) }
{
    match tokens {
        [TokenTree::Ident(name), rest @ ..] if name.text.as_str() == keyword => Some(rest),
        _ => None,
    }
}

pub(crate) fn after_literal(tokens: &[TokenTree]) -> Option<(&Literal, &[TokenTree])>
    ensures { option_map (λ x. (fixed_view x.0.now.lit, x.0.now.span, trees x.1.now)) result ≡ literal_front (trees tokens.now) }
{
    match tokens {
        [TokenTree::Literal(literal), rest @ ..] => Some((literal, rest)),
        _ => None,
    }
}

// The place of what stands next, or of the group where the tokens end.
pub(crate) fn place_of(at: Span, tokens: &[TokenTree]) -> Span
    ensures { result ≡ place at (trees tokens.now) }
{
    match tokens {
        [] => at,
        [first, ..] => first.span(),
    }
}

// What is missing here.
pub(crate) fn missing_at(kind: SyntaxKind, at: Span, tokens: &[TokenTree]) -> ParseFault
    ensures { result ≡ Syntax (error kind (place at (trees tokens.now))) }
{
    ParseFault::Syntax(SyntaxError {
        kind,
        span: place_of(at, tokens),
    })
}

#[tactic(auto, using(crate::proofs::Opened::opened_group))]
pub(crate) fn open_group(tree: &TokenTree) -> Option<(Delimiter, &[TokenTree], Span)>
    ensures { option_map (λ x. (x.0, trees x.1.now, x.2)) result ≡ opened (tree_view tree.now) }
{
    match tree {
        TokenTree::Group(group) => Some((group.delimiter, group.stream.trees(), group.span)),
        _ => None,
    }
}

pub(crate) fn in_parens(tokens: &[TokenTree]) -> Option<(&[TokenTree], Span, &[TokenTree])>
    ensures { option_map (λ x. (trees x.0.now, x.1, trees x.2.now)) result ≡ group_front is_parens (trees tokens.now) }
{
    let (first, rest) = tokens.split_first()?;
    match open_group(first)? {
        (Delimiter::Parenthesis, inner, span) => Some((inner, span, rest)),
        _ => None,
    }
}

pub(crate) fn in_brackets(tokens: &[TokenTree]) -> Option<(&[TokenTree], Span, &[TokenTree])>
    ensures { option_map (λ x. (trees x.0.now, x.1, trees x.2.now)) result ≡ group_front is_brackets (trees tokens.now) }
{
    let (first, rest) = tokens.split_first()?;
    match open_group(first)? {
        (Delimiter::Bracket, inner, span) => Some((inner, span, rest)),
        _ => None,
    }
}

pub(crate) fn in_braces(tokens: &[TokenTree]) -> Option<(&[TokenTree], Span, &[TokenTree])>
    ensures { option_map (λ x. (trees x.0.now, x.1, trees x.2.now)) result ≡ group_front is_braces (trees tokens.now) }
{
    let (first, rest) = tokens.split_first()?;
    match open_group(first)? {
        (Delimiter::Brace, inner, span) => Some((inner, span, rest)),
        _ => None,
    }
}

// A group in brackets of any kind, as it stands.
pub(crate) fn after_tree(tokens: &[TokenTree]) -> Option<(&TokenTree, &[TokenTree])>
    ensures { option_map (λ x. (tree_view x.0.now, trees x.1.now)) result ≡ tree_front (trees tokens.now) }
{
    let (first, rest) = tokens.split_first()?;
    match open_group(first)? {
        (Delimiter::None, _, _) => None,
        _ => Some((first, rest)),
    }
}

pub(crate) fn after_lifetime(tokens: &[TokenTree]) -> Option<(&Ident, Span, &[TokenTree])>
    ensures { option_map (λ x. (record { name = name_view x.0.now; span = x.1 }, trees x.2.now)) result ≡ lifetime_front (trees tokens.now) }
{
    match tokens {
        [TokenTree::Punct(punct), rest @ ..]
            if '\'' == punct.ch && punct.spacing == Spacing::Joint => {
            let (name, end) = after_name(rest)?;
            Some((name, punct.span, end))
        }
        _ => None,
    }
}

// Whether the word names no segment of a path: `_`, or a keyword other than `self`, `Self`, `super` and `crate`.
fn is_reserved_word(text: &str) -> bool
    ensures { result ≡ is_reserved text.now }
{
    match text {
        "_" | "abstract" | "as" | "async" | "await" | "become" | "box" | "break" | "const" => true,
        "continue" | "do" | "dyn" | "else" | "enum" | "extern" | "false" | "final" | "fn" => true,
        "for" | "gen" | "if" | "impl" | "in" | "let" | "loop" | "macro" | "match" | "mod" => true,
        "move" | "mut" | "override" | "priv" | "pub" | "ref" | "return" | "static" => true,
        "struct" | "trait" | "true" | "try" | "type" | "typeof" | "unsafe" | "unsized" => true,
        "use" | "virtual" | "where" | "while" | "yield" => true,
        _ => false,
    }
}

pub(crate) fn after_segment_name(tokens: &[TokenTree]) -> Option<(&Ident, &[TokenTree])>
    ensures { option_map (λ x. (name_view x.0.now, trees x.1.now)) result ≡ segment_front (trees tokens.now) }
{
    match tokens {
        [TokenTree::Ident(name), rest @ ..] if !is_reserved_word(&name.text) => Some((name, rest)),
        _ => None,
    }
}

// Whether a path can begin here.
pub(crate) fn is_at_path(tokens: &[TokenTree]) -> bool
    ensures { result ≡ path_next (trees tokens.now) }
{
    further(tokens).is_some() || after_segment_name(tokens).is_some()
}

// Whether a bound can begin here.
pub(crate) fn is_at_bound(tokens: &[TokenTree]) -> bool
    ensures { result ≡ bound_next (trees tokens.now) }
{
    after_lifetime(tokens).is_some() || is_at_path(tokens)
}

// Behind a `::` that no third `:` follows.
pub(crate) fn further(tokens: &[TokenTree]) -> Option<&[TokenTree]>
    ensures { option_map (λ x. trees x.now) result ≡ further_front (trees tokens.now) }
{
    let rest = after_colons(tokens)?;
    if after_sign(':', rest).is_some() {
        return None;
    }
    Some(rest)
}

// Behind a `:` that begins no such `::`.
pub(crate) fn after_colon(tokens: &[TokenTree]) -> Option<&[TokenTree]>
    ensures { option_map (λ x. trees x.now) result ≡ colon_front (trees tokens.now) }
{
    if further(tokens).is_some() {
        return None;
    }
    after_sign(':', tokens)
}

// Behind `<` or `::<`, and whether the `::` stood there.
pub(crate) fn after_angle(tokens: &[TokenTree]) -> Option<(bool, &[TokenTree])>
    ensures { option_map (λ x. (x.0, trees x.1.now)) result ≡ angle_front (trees tokens.now) }
{
    if let Some(inner) = after_sign('<', tokens) {
        return Some((false, inner));
    }
    let rest = after_colons(tokens)?;
    let inner = after_sign('<', rest)?;
    Some((true, inner))
}

// A name with `=` behind it.
pub(crate) fn after_name_eq(tokens: &[TokenTree]) -> Option<(&Ident, &[TokenTree])>
    ensures { option_map (λ x. (name_view x.0.now, trees x.1.now)) result ≡ labelled (sign_front 61) (name_front (trees tokens.now)) }
{
    let (name, rest) = after_name(tokens)?;
    let value = after_sign('=', rest)?;
    Some((name, value))
}

// A name with `:` behind it.
pub(crate) fn after_name_colon(tokens: &[TokenTree]) -> Option<(&Ident, &[TokenTree])>
    ensures { option_map (λ x. (name_view x.0.now, trees x.1.now)) result ≡ labelled colon_front (name_front (trees tokens.now)) }
{
    let (name, rest) = after_name(tokens)?;
    let bounds = after_colon(rest)?;
    Some((name, bounds))
}

// A literal with `-` before it.
pub(crate) fn after_negative(tokens: &[TokenTree]) -> Option<(&Literal, &[TokenTree])>
    ensures { option_map (λ x. (fixed_view x.0.now.lit, x.0.now.span, trees x.1.now)) result ≡ choose (sign_front 45 (trees tokens.now)) literal_front None }
{
    let rest = after_sign('-', tokens)?;
    after_literal(rest)
}

// Behind `mut`, where it stands here.
pub(crate) fn after_mut(tokens: &[TokenTree]) -> (bool, &[TokenTree])
    ensures mutable { result.0 ≡ (mut_front (trees tokens.now)).0 }
    ensures rest { trees result.1.now ≡ (mut_front (trees tokens.now)).1 }
{
    match after_keyword("mut", tokens) {
        Some(rest) => (true, rest),
        None => (false, tokens),
    }
}
