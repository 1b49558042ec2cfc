//! Plain patterns, a part of the patterns of ECMA-262, rewritten for `regex`.
#![tactic(auto)]

ghost use Rattle.std.specs.Prelude.{◌≡◌, IfOk, None, Some, chars, if◌then◌else◌, option_map, string_bytes};
ghost use Rattle.plain_patterns.specs.Ends.{alone, joined, ordinary, read_in, rewritten, seen, with_ends};

mod atom;
mod class;
mod counts;
mod escape;
pub mod examples;
mod look;
mod piece;
mod property;
mod scan;
mod searches;
mod state;
mod stop;
mod table;

use scan::write_pieces;
use searches::write_with_ends;
pub use searches::{Look, Searches};
use std::alloc::{AllocError, Global};
pub use stop::{Stop, reading_stop};

/// What `regex` is to search for where a pattern is plain, or nothing where it isn't. Plain patterns are those of
/// ECMA-262 (22.2.1, and B.1.2 for what stands for itself) with alternatives, groups, `(?:`, `.`, classes, `^`, `$`, `\b`,
/// `\B`, `*`, `+`, `?`, `{n}`, `{n,}`, `{n,m}`, each with or without a `?` behind, `\d`, `\D`, `\s`, `\S`, `\w`, `\W`, and
/// the escapes of single characters: `\t`, `\n`, `\v`, `\f`, `\r`, `\0`, `\cX`, `\xHH`, `\uHHHH`, surrogate pairs, and
/// what is no letter or digit. In unicode mode, which is tried where a pattern has no such meaning outside of it, also
/// `\u{..}`, and `\p` and `\P` with a property of Unicode by a name of it that both ECMA-262 and `regex` have, exactly as
/// it stands in Unicode's lists of aliases: a general category, alone or behind `General_Category=` or `gc=`, a script
/// behind `Script=`, `sc=`, `Script_Extensions=` or `scx=`, or a property without values. Which characters have it is what
/// `regex`'s version of Unicode says. Lookaheads may stand right behind a `^` at the front, and lookbehinds right before a
/// `$` at the end, where no bar stands outside of groups; in them stands no other one. Lookaround elsewhere, references,
/// names of groups, flags and other letters aren't plain.
pub fn plain_pattern(alloc: Global, pattern: &str) -> Result<Option<Searches>, AllocError>
    ensures rewritten { IfOk result (λ o. option_map seen o ≡ rewritten pattern.now) }
{
    let characters = characters_of(alloc, pattern)?;
    match written_in(alloc, false, characters.as_slice())? {
        Some(written) => Ok(Some(written)),
        None => written_in(alloc, true, characters.as_slice()),
    }
}

/// The same in one mode.
fn written_in(alloc: Global, unicode: bool, text: &[char]) -> Result<Option<Searches>, AllocError>
    ensures { IfOk result (λ o. option_map seen o ≡ read_in unicode text.now) }
{
    match written_to_end(alloc, unicode, text)? {
        Some(written) => Ok(Some(written)),
        None => written_with_ends(alloc, unicode, text),
    }
}

/// Of a pattern without lookaheads and lookbehinds.
fn written_to_end(
    alloc: Global,
    unicode: bool,
    text: &[char],
) -> Result<Option<Searches>, AllocError>
    ensures { IfOk result (λ o. option_map seen o ≡ ordinary unicode text.now) }
{
    let mut own = String::new(alloc);
    if write_to_end(&mut own, unicode, text)? {
        Ok(Some(Searches {
            own,
            beside: Vec::new(alloc),
        }))
    } else {
        Ok(None)
    }
}

/// Writes pieces, and answers whether they are all.
fn write_to_end(out: &mut String, unicode: bool, text: &[char]) -> Result<bool, AllocError>
    ensures { IfOk result (λ b. (if b then Some (alone (string_bytes out.new)) else None) ≡ option_map (joined (alone (string_bytes out.old))) (ordinary unicode text.now)) }
{
    match write_pieces(out, unicode, true, text)? {
        Some(left) => Ok(left.is_empty()),
        None => Ok(false),
    }
}

/// Of a pattern with them.
fn written_with_ends(
    alloc: Global,
    unicode: bool,
    text: &[char],
) -> Result<Option<Searches>, AllocError>
    ensures { IfOk result (λ o. option_map seen o ≡ with_ends unicode text.now) }
{
    let mut searches = Searches {
        own: String::new(alloc),
        beside: Vec::new(alloc),
    };
    if write_with_ends(&mut searches, alloc, unicode, text)? {
        Ok(Some(searches))
    } else {
        Ok(None)
    }
}

fn characters_of(alloc: Global, text: &str) -> Result<Vec<char>, AllocError>
    ensures { IfOk result (λ v. v.items ≡ chars text.now) }
{
    text.chars().collect(alloc)
}
