//! The lexer: from a text to its token trees.
ghost use Rattle.std.specs.Prelude.{◌≡◌, ◌≤◌, ◌<◌, ◌+◌, drop, length, IfOk, ◌^◌, ◌-◌, IfSome, IfNone, IfErr, string_bytes, encode_utf8_all, ℕ, List};
ghost use Rattle.token_trees.specs.Token.{word, mark, fixed};
ghost use Rattle.token_trees.specs.View.{tree as tree_view, fixed_view, stream};
ghost use Rattle.std.specs.Str.{skip_leading_whitespace, chars};
ghost use Rattle.rust_tokens.specs.Groups.{levels, inner_trees, IsStuck, HasRead, Advances, Refuses, FaultLeft};
ghost use Rattle.rust_tokens.specs.Reading.{IsLexed};
ghost use Rattle.rust_tokens.specs.Faults.{IsFirstFault, IsCause};
ghost use Rattle.rust_tokens.specs.Lexeme.{piece};
ghost use Rattle.std.specs.Bool.{OnTrue, OnFalse};

use crate::error::LexError;
use crate::front::{Token, front};
use crate::groups::Groups;
use crate::white::{after_token, skip_white};
use std::alloc::{AllocError, Global};
use token_trees::{Ident, Lit, Literal, Punct, Spacing, Span, TokenStream, TokenTree};

fn name_tree(text: String, span: Span) -> TokenTree
    ensures { tree_view result ≡ word (string_bytes text) span }
{
    TokenTree::Ident(Ident { text, span })
}

fn sign_tree(ch: char, spacing: Spacing, span: Span) -> TokenTree
    ensures { tree_view result ≡ mark ch spacing span }
{
    TokenTree::Punct(Punct { ch, spacing, span })
}

fn constant_tree(lit: Lit, span: Span) -> TokenTree
    ensures { tree_view result ≡ fixed (fixed_view lit) span }
{
    TokenTree::Literal(Literal { lit, span })
}

// Puts a token into the groups that stands `left` characters before the end; `false` where it doesn't fit.
fn place_token(
    groups: &mut Groups,
    alloc: Global,
    token: Token,
    left: usize,
    span: Span,
) -> Result<bool, AllocError>
    ensures placed { IfOk result (λ placed. OnTrue placed (Advances (piece token) left span
        (levels groups.old) (inner_trees groups.old) groups.old.first (levels groups.new) (inner_trees groups.new) groups.new.first)) }
    ensures stuck { IfOk result (λ placed. OnFalse placed (Refuses (piece token) (levels groups.old))) }
    ensures levels { IfOk result (λ placed. OnFalse placed (levels groups.new ≡ levels groups.old)) }
    ensures trees { IfOk result (λ placed. OnFalse placed (inner_trees groups.new ≡ inner_trees groups.old)) }
    ensures first { IfOk result (λ placed. OnFalse placed (groups.new.first ≡ groups.old.first)) }
{
    match token {
        Token::Open(delimiter) => {
            groups.enter(alloc, delimiter, left)?;
            Ok(true)
        }
        Token::Close(delimiter) => {
            if !groups.closes(delimiter) {
                return Ok(false);
            }
            groups.close(delimiter, span)?;
            Ok(true)
        }
        Token::Name(text) => {
            groups.add(name_tree(text, span))?;
            Ok(true)
        }
        Token::Sign(ch, spacing) => {
            groups.add(sign_tree(ch, spacing, span))?;
            Ok(true)
        }
        Token::Constant(lit) => {
            groups.add(constant_tree(lit, span))?;
            Ok(true)
        }
    }
}

// Reads the token at the front into the groups, and says how many characters it takes; `None` where no token fits.
fn read_token(
    groups: &mut Groups,
    alloc: Global,
    rest: &[char],
    span: Span,
) -> Result<Option<usize>, AllocError>
    ensures read { IfOk result (λ r. IfSome r (λ n. (cs : List ℕ)
        → HasRead cs span (levels groups.old) (inner_trees groups.old) groups.old.first rest.now
        → HasRead cs span (levels groups.new) (inner_trees groups.new) groups.new.first (skip_leading_whitespace (drop n rest.now)))) }
    ensures stuck { IfOk result (λ r. IfNone r (IsStuck (levels groups.old) rest.now)) }
    ensures levels { IfOk result (λ r. IfNone r (levels groups.new ≡ levels groups.old)) }
    ensures trees { IfOk result (λ r. IfNone r (inner_trees groups.new ≡ inner_trees groups.old)) }
    ensures first { IfOk result (λ r. IfNone r (groups.new.first ≡ groups.old.first)) }
    ensures some { IfOk result (λ r. IfSome r (λ n. 0 < n)) }
    ensures within { IfOk result (λ r. IfSome r (λ n. n ≤ length rest.now)) }
{
    match front(alloc, rest)? {
        None => Ok(None),
        Some((token, n)) => {
            if place_token(groups, alloc, token, rest.len(), span)? {
                Ok(Some(n))
            } else {
                Ok(None)
            }
        }
    }
}

// The trees of the characters, or how many of them are left from the first fault on.
fn read_trees(
    alloc: Global,
    chars: &[char],
    span: Span,
) -> Result<Result<TokenStream, usize>, AllocError>
    ensures trees { IfOk result (λ r. IfOk r (λ s. IsLexed chars.now span (stream s))) }
    ensures fault { IfOk result (λ r. IfErr r (λ left. FaultLeft chars.now left)) }
{
    let mut groups = Groups::new(alloc);
    let mut rest = skip_white(chars);
    while !rest.is_empty() {
        match read_token(&mut groups, alloc, rest, span)? {
            None => return Ok(Err(groups.fault(alloc, rest)?)),
            Some(n) => rest = after_token(rest, n),
        }
    }
    match groups.finish() {
        Ok(trees) => Ok(Ok(trees)),
        Err(left) => Ok(Err(left)),
    }
}

// How many bytes the characters take in UTF-8.
fn utf8_len(chars: &[char]) -> usize
    requires { length (encode_utf8_all chars.now) < 2 ^ 64 }
    ensures { result ≡ length (encode_utf8_all chars.now) }
{
    let mut total = 0;
    for ch in chars {
        total += ch.len_utf8();
    }
    total
}

// How many bytes stand before the last `left` characters of a text of so many bytes.
fn bytes_before(text_len: usize, chars: &[char], left: usize) -> usize
    requires left { left ≤ length chars.now }
    requires len { length (encode_utf8_all chars.now) ≡ text_len }
    ensures { result + length (encode_utf8_all (drop (length chars.now - left) chars.now)) ≡ text_len }
{
    text_len - utf8_len(&chars[chars.len() - left..])
}

// The byte place of the first fault, where so many characters are left.
fn fault_place(text_len: usize, chars: &[char], left: usize) -> usize
    requires fault { FaultLeft chars.now left }
    requires len { length (encode_utf8_all chars.now) ≡ text_len }
    ensures { IsFirstFault chars.now result }
{
    bytes_before(text_len, chars, left)
}

// The characters of a text.
fn chars_of(alloc: Global, text: &str) -> Result<Vec<char>, AllocError>
    ensures { IfOk result (λ v. v.items ≡ chars text.now) }
{
    text.chars().collect(alloc)
}

/// The token trees of a text, each with the span at every level. White space between tokens is passed; it is what
/// Unicode calls so. `Bad` has the first byte place at which no token begins, or a closing bracket stands that isn't
/// the partner of the innermost open one, or an opening one that nothing closes; reading goes on behind a character
/// that begins no token, and a closing bracket without a partner closes nothing. The tokens are those of the Rust
/// Reference: identifiers by Unicode's XID, string literals with their escapes, decimal digits, punctuation, brackets.
pub fn lex(alloc: Global, text: &str, span: Span) -> Result<TokenStream, LexError>
    ensures trees { IfOk result (λ s. IsLexed (chars text.now) span (stream s)) }
    ensures bad { IfErr result (IsCause (chars text.now)) }
{
    let chars = chars_of(alloc, text)?;
    match read_trees(alloc, &chars, span)? {
        Ok(trees) => Ok(trees),
        Err(left) => Err(LexError::Bad {
            place: fault_place(text.len(), &chars, left),
        }),
    }
}
