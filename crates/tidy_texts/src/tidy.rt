//! Tokens with the spaces between them that rustfmt leaves.
ghost use Rattle.std.specs.Prelude.{◌≡◌, ◌++◌, OnOk, chars, string_bytes, encode_utf8, if◌then◌else◌, [], ◌∷◌};
ghost use Rattle.tidy_texts.specs.Tidy.{needs_space, shows, character_text, tidied, start};

use crate::characters_of;
use crate::spot::Spot;
use std::alloc::{AllocError, Global};

fn push_space(out: &mut String, needed: bool) -> Result<(), AllocError>
    ensures { OnOk result (string_bytes out.new ≡ string_bytes out.old ++ (if needed then 32 ∷ [] else [])) }
{
    if needed {
        out.push(' ')?;
    }
    Ok(())
}

fn push_shown(out: &mut String, shown: bool, ch: char) -> Result<(), AllocError>
    ensures { OnOk result (string_bytes out.new ≡ string_bytes out.old ++ (if shown then encode_utf8 ch else [])) }
{
    if shown {
        out.push(ch)?;
    }
    Ok(())
}

#[tactic(auto, using(crate::proofs::Parts::assoc))]
fn push_character(out: &mut String, spot: Spot, ch: char) -> Result<(), AllocError>
    ensures { OnOk result (string_bytes out.new ≡ string_bytes out.old ++ character_text spot ch) }
{
    push_space(out, spot.needs_space(ch))?;
    push_shown(out, spot.shows(ch), ch)?;
    Ok(())
}

fn push_characters(out: &mut String, text: &[char]) -> Result<(), AllocError>
    ensures { OnOk result (string_bytes out.new ≡ string_bytes out.old ++ tidied start text.now) }
{
    let mut left = text;
    let mut spot = Spot::start();
    while let Some((first, rest)) = left.split_first() {
        push_character(out, spot, *first)?;
        spot = spot.after(*first);
        left = rest;
    }
    Ok(())
}

/// Appends the tokens of the text, which stand with spaces between them, with those spaces that rustfmt leaves on a line;
/// string literals stay as they are. Fails where memory runs out.
pub fn push_tidy(out: &mut String, alloc: Global, text: &str) -> Result<(), AllocError>
    ensures { OnOk result (string_bytes out.new ≡ string_bytes out.old ++ tidied start (chars text.now)) }
{
    let characters = characters_of(alloc, text)?;
    push_characters(out, &characters)
}
