//! Texts as comments.
ghost use Rattle.std.specs.Prelude.{◌≡◌, ◌++◌, OnOk, chars, string_bytes, codes, if◌then◌else◌, [], true};
ghost use Rattle.tidy_texts.specs.Comment.{commented, doc_end, doc_start, documented, in_comment};

use crate::characters_of;
use std::alloc::{AllocError, Global};

// A character as it stands in a comment.
fn push_in_comment(out: &mut String, ch: char) -> Result<(), AllocError>
    ensures { OnOk result (string_bytes out.new ≡ string_bytes out.old ++ in_comment ch) }
{
    match ch {
        '\r' => out.push_str("\\r"),
        '\u{202a}' => out.push_str("\\u{202a}"),
        '\u{202b}' => out.push_str("\\u{202b}"),
        '\u{202c}' => out.push_str("\\u{202c}"),
        '\u{202d}' => out.push_str("\\u{202d}"),
        '\u{202e}' => out.push_str("\\u{202e}"),
        '\u{2066}' => out.push_str("\\u{2066}"),
        '\u{2067}' => out.push_str("\\u{2067}"),
        '\u{2068}' => out.push_str("\\u{2068}"),
        '\u{2069}' => out.push_str("\\u{2069}"),
        _ => out.push(ch),
    }
}

fn push_slashes(out: &mut String, begins: bool) -> Result<(), AllocError>
    ensures { OnOk result (string_bytes out.new ≡ string_bytes out.old ++ (if begins then codes "// " else [])) }
{
    if begins {
        out.push_str("// ")?;
    }
    Ok(())
}

#[tactic(auto, using(crate::proofs::Parts::assoc))]
fn push_lines(out: &mut String, text: &[char]) -> Result<(), AllocError>
    ensures { OnOk result (string_bytes out.new ≡ string_bytes out.old ++ commented true text.now) }
{
    let mut left = text;
    let mut begins = true;
    while let Some((first, rest)) = left.split_first() {
        push_slashes(out, begins)?;
        push_in_comment(out, *first)?;
        begins = *first == '\n';
        left = rest;
    }
    Ok(())
}

fn push_doc_start(out: &mut String, begins: bool, ch: char) -> Result<(), AllocError>
    ensures { OnOk result (string_bytes out.new ≡ string_bytes out.old ++ doc_start begins ch) }
{
    if !begins {
        return Ok(());
    }
    if ch == '\n' {
        return out.push_str("///");
    }
    out.push_str("/// ")
}

fn push_doc_end(out: &mut String, begins: bool) -> Result<(), AllocError>
    ensures { OnOk result (string_bytes out.new ≡ string_bytes out.old ++ doc_end begins) }
{
    if begins {
        return Ok(());
    }
    out.push_str("\n")
}

#[tactic(auto, using(crate::proofs::Parts::assoc))]
fn push_doc_lines(out: &mut String, text: &[char]) -> Result<(), AllocError>
    ensures { OnOk result (string_bytes out.new ≡ string_bytes out.old ++ documented true text.now) }
{
    let mut left = text;
    let mut begins = true;
    while let Some((first, rest)) = left.split_first() {
        push_doc_start(out, begins, *first)?;
        push_in_comment(out, *first)?;
        begins = *first == '\n';
        left = rest;
    }
    push_doc_end(out, begins)?;
    Ok(())
}

/// Appends the text with two slashes and a space before each of its lines. A carriage return and the nine characters that turn the direction of what follows
/// (Unicode Standard Annex 9) are escaped, as rustc refuses them in comments. Fails where memory runs out.
pub fn push_comment(out: &mut String, alloc: Global, text: &str) -> Result<(), AllocError>
    ensures { OnOk result (string_bytes out.new ≡ string_bytes out.old ++ commented true (chars text.now)) }
{
    let characters = characters_of(alloc, text)?;
    push_lines(out, &characters)
}

/// Appends the text as a doc comment: three slashes before each of its lines, and a space behind them where something stands on the line. What `push_comment` escapes is
/// escaped. Nothing is appended of no text. Fails where memory runs out.
pub fn push_doc_comment(out: &mut String, alloc: Global, text: &str) -> Result<(), AllocError>
    ensures { OnOk result (string_bytes out.new ≡ string_bytes out.old ++ documented true (chars text.now)) }
{
    let characters = characters_of(alloc, text)?;
    push_doc_lines(out, &characters)
}
