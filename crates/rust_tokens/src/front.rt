//! The token at the front of characters.
ghost use Rattle.std.specs.Prelude.{◌≡◌, ◌≤◌, ◌<◌, ◌+◌, ◌∷◌, length, IfOk, IfSome, Some, None, string_bytes, encode_utf8_all, option_map};
ghost use Rattle.rust_tokens.specs.Front.{body, string_front, spacing_of, bracket, front};
ghost use Rattle.rust_tokens.specs.Lexeme.{piece};

use crate::character::{begins_name, is_punctuation};
use crate::escape::unit;
use crate::name::{name_len, name_span};
use std::alloc::{AllocError, Global};
use token_trees::{Delimiter, Lit, Spacing};

/// A token as it stands in a text: a bracket is one of its own.
#[derive(Drop)]
pub(crate) enum Token {
    Name(String),
    Sign(char, Spacing),
    Constant(Lit),
    Open(Delimiter),
    Close(Delimiter),
}

// Those characters as a text.
fn text_of(alloc: Global, chars: &[char]) -> Result<String, AllocError>
    ensures { IfOk result (λ s. string_bytes s ≡ encode_utf8_all chars.now) }
{
    chars.iter().copied().collect(alloc)
}

// What stands before the closing quote of a string literal, and how many characters that and the quote take.
fn string_body(alloc: Global, chars: &[char]) -> Result<Option<(String, usize)>, AllocError>
    ensures value { IfOk result (λ r. option_map (λ p. (string_bytes p.0, p.1)) r ≡ body 0 chars.now) }
    ensures within { IfOk result (λ r. IfSome r (λ p. p.1 ≤ length chars.now)) }
{
    let mut value = String::new(alloc);
    let mut at = 0;
    while at < chars.len() {
        let first = chars[at];
        if first == '"' {
            return Ok(Some((value, at + 1)));
        }
        match unit(first, &chars[at + 1..]) {
            None => return Ok(None),
            Some((ch, more)) => {
                value.push(ch)?;
                at = at + more + 1;
            }
        }
    }
    Ok(None)
}

// A string literal after its opening quote, with its suffix.
fn string_literal(alloc: Global, rest: &[char]) -> Result<Option<(Token, usize)>, AllocError>
    ensures value { IfOk result (λ r. option_map (λ p. (piece p.0, p.1)) r ≡ string_front rest.now) }
    ensures within { IfOk result (λ r. IfSome r (λ p. p.1 ≤ length rest.now + 1)) }
    ensures some { IfOk result (λ r. IfSome r (λ p. 0 < p.1)) }
{
    match string_body(alloc, rest)? {
        None => Ok(None),
        Some((value, n)) => {
            let after = &rest[n..];
            let suffix_len = name_len(after);
            let suffix = text_of(alloc, &after[..suffix_len])?;
            Ok(Some((
                Token::Constant(Lit::Str { value, suffix }),
                n + suffix_len + 1,
            )))
        }
    }
}

// Whether a punctuation character is joint before those characters.
fn spacing_of(ch: char, rest: &[char]) -> Spacing
    ensures { result ≡ spacing_of ch rest.now }
{
    match rest {
        [next, ..] if is_punctuation(*next) | ((ch == '\'') & begins_name(*next)) => Spacing::Joint,
        _ => Spacing::Alone,
    }
}

// The bracket that the character is.
fn bracket(ch: char) -> Option<(Token, usize)>
    ensures value { option_map (λ p. (piece p.0, p.1)) result ≡ bracket ch }
    ensures one { IfSome result (λ p. p.1 ≡ 1) }
{
    match ch {
        '(' => Some((Token::Open(Delimiter::Parenthesis), 1)),
        ')' => Some((Token::Close(Delimiter::Parenthesis), 1)),
        '[' => Some((Token::Open(Delimiter::Bracket), 1)),
        ']' => Some((Token::Close(Delimiter::Bracket), 1)),
        '{' => Some((Token::Open(Delimiter::Brace), 1)),
        '}' => Some((Token::Close(Delimiter::Brace), 1)),
        _ => None,
    }
}

/// The token that begins with the first character, and how many characters it takes; `None` where no token begins.
pub(crate) fn front(alloc: Global, chars: &[char]) -> Result<Option<(Token, usize)>, AllocError>
    ensures value { IfOk result (λ r. option_map (λ p. (piece p.0, p.1)) r ≡ front chars.now) }
    ensures some { IfOk result (λ r. IfSome r (λ p. 0 < p.1)) }
    ensures within { IfOk result (λ r. IfSome r (λ p. p.1 ≤ length chars.now)) }
{
    let [first, rest @ ..] = chars else {
        return Ok(None);
    };
    if first.is_ascii_digit() {
        let n = name_len(rest) + 1;
        let digits = text_of(alloc, &chars[..n])?;
        return Ok(Some((Token::Constant(Lit::Int { digits }), n)));
    }
    if *first == '"' {
        return string_literal(alloc, rest);
    }
    if is_punctuation(*first) {
        return Ok(Some((Token::Sign(*first, spacing_of(*first, rest)), 1)));
    }
    if begins_name(*first) {
        let n = name_span(*first, rest);
        let text = text_of(alloc, &chars[..n])?;
        return Ok(Some((Token::Name(text), n)));
    }
    Ok(bracket(*first))
}
