//! Whether the open brackets of a text that has a fault are closed in what follows the fault.
ghost use Rattle.std.specs.Prelude.{◌≡◌, ◌↔◌, ◌≤◌, ◌<◌, ◌-◌, ◌∷◌, drop, length, reverse, IfOk, IsTrue, OnOk, Some, None};
ghost use Rattle.std.specs.List.{slice_get};
ghost use Rattle.std.specs.Str.{skip_leading_whitespace};
ghost use Rattle.rust_tokens.specs.Front.{body};
ghost use Rattle.rust_tokens.specs.Faults.{closed, open_after_one, seen, beyond};
ghost use Rattle.rust_tokens.specs.Groups.{AreClosed};
ghost use Rattle.rust_tokens.specs.Lexeme.{piece};
ghost use Rattle.rust_tokens.specs.Partners.{held, IsBarren, IsBarrenBody};

use crate::escape::unit;
use crate::front::{Token, front};
use crate::white::{after_token, skip_white};
use std::alloc::{AllocError, Global};
use token_trees::Delimiter;

/// The brackets that are open, the innermost last. Before the last `barren` characters no string literal begins: so
/// none is read twice up to where it fails.
#[derive(Drop)]
pub(crate) struct Partners {
    pub(crate) open_brackets: Vec<Delimiter>,
    pub(crate) barren: usize,
}

/// Whether the brackets are of one kind.
pub(crate) fn is_same(left: Delimiter, right: Delimiter) -> bool
    ensures { IsTrue result ↔ (left ≡ right) }
{
    left == right
}

// How many characters at the front are those of a string literal, before its closing quote or what none can have.
fn body_len(chars: &[char]) -> usize
    ensures barren { IsBarrenBody chars.now result }
    ensures within { result ≤ length chars.now }
{
    let mut at = 0;
    while at < chars.len() {
        let first = chars[at];
        if first == '"' {
            return at;
        }
        match unit(first, &chars[at + 1..]) {
            None => return at,
            Some((_, more)) => at = at + more + 1,
        }
    }
    at
}

impl Partners {
    // Whether the bracket is the partner of the innermost.
    fn is_partner(&self, delimiter: Delimiter) -> bool
        ensures { IsTrue result ↔ (slice_get self.now.open_brackets.items (length self.now.open_brackets.items - 1) ≡ Some delimiter) }
    {
        match self.open_brackets.last() {
            Some(innermost) => is_same(*innermost, delimiter),
            None => false,
        }
    }

    // A closing bracket comes.
    fn close(&mut self, delimiter: Delimiter)
        ensures brackets { held self.new ≡ closed delimiter (held self.old) }
        ensures barren { self.new.barren ≡ self.old.barren }
    {
        if self.is_partner(delimiter) {
            self.open_brackets.pop();
        }
    }

    // A token comes.
    fn pass(&mut self, token: Token) -> Result<(), AllocError>
        ensures brackets { OnOk result (held self.new ≡ open_after_one (Some (piece token)) (held self.old)) }
        ensures barren { self.new.barren ≡ self.old.barren }
    {
        match token {
            Token::Open(delimiter) => {
                self.open_brackets.push(delimiter)?;
                Ok(())
            }
            Token::Close(delimiter) => {
                self.close(delimiter);
                Ok(())
            }
            Token::Name(_) | Token::Sign(_, _) | Token::Constant(_) => Ok(()),
        }
    }

    // No string literal goes on with those characters after a quote.
    fn note_barren(&mut self, after: &[char])
        requires { body 0 after.now ≡ None }
        ensures brackets { held self.new ≡ held self.old }
        ensures barren { IsBarren (34 ∷ after.now) self.new.barren }
    {
        self.barren = after.len() - body_len(after);
    }

    // Passes what stands at the front, and says how many characters that takes.
    fn step(&mut self, alloc: Global, rest: &[char]) -> Result<usize, AllocError>
        requires some { 0 < length rest.now }
        requires barren { IsBarren rest.now self.old.barren }
        ensures brackets { OnOk result (held self.new ≡ open_after_one (seen rest.now) (held self.old)) }
        ensures passed { IfOk result (λ n. drop n rest.now ≡ beyond rest.now) }
        ensures barren { OnOk result (IsBarren rest.now self.new.barren) }
        ensures within { IfOk result (λ n. n ≤ length rest.now) }
        ensures nonzero { IfOk result (λ n. 0 < n) }
    {
        let [first, after @ ..] = rest else {
            unreachable!();
        };
        if *first == '"' && after.len() >= self.barren {
            return Ok(1);
        }
        match front(alloc, rest)? {
            Some((token, n)) => {
                self.pass(token)?;
                Ok(n)
            }
            None => {
                if *first == '"' {
                    self.note_barren(after);
                }
                Ok(1)
            }
        }
    }
}

/// Whether the brackets, the innermost last, are all closed in the characters. A character that begins no token and a
/// closing bracket without a partner are passed.
pub(crate) fn are_closed(
    alloc: Global,
    open_brackets: Vec<Delimiter>,
    chars: &[char],
) -> Result<bool, AllocError>
    ensures { IfOk result (λ all. IsTrue all ↔ AreClosed (reverse open_brackets.items) chars.now) }
{
    let mut partners = Partners {
        open_brackets,
        barren: chars.len(),
    };
    let mut rest = skip_white(chars);
    while !rest.is_empty() && !partners.open_brackets.is_empty() {
        let n = partners.step(alloc, rest)?;
        rest = after_token(rest, n);
    }
    Ok(partners.open_brackets.is_empty())
}
