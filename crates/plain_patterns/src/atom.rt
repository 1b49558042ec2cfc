//! What a pattern asks of one character, and how it is written for `regex`.
ghost use Rattle.std.specs.Prelude.{◌≡◌, ◌++◌, OnOk, string_bytes};

use crate::table::{Name, sign, spelling};
use std::alloc::AllocError;

/// A set of characters that a pattern names: by `.`, by a backslash and a letter, or by `\p` and a property of Unicode.
#[derive(Clone, Copy)]
pub enum Set {
    Dot,
    Digit,
    NoDigit,
    Space,
    NoSpace,
    Word,
    NoWord,
    /// What has the property with this name, or where the flag is set all else.
    Property(bool, Name),
}

/// One character, or a set that has a name.
#[derive(Clone, Copy)]
pub enum Atom {
    Character(char),
    Named(Set),
}

/// What stands in a class: an atom, the characters between two, both included, or two atoms and the hyphen between them.
#[derive(Clone, Copy)]
pub enum Member {
    Single(Atom),
    Range(char, char),
    Beside(Atom, Atom),
}

ghost use Rattle.plain_patterns.specs.Plain.{atom_bytes, member_bytes, property_bytes, set_bytes, verbatim};

/// Writes a character that stands for itself.
pub fn write_character(out: &mut String, character: char) -> Result<(), AllocError>
    ensures { OnOk result (string_bytes out.new ≡ string_bytes out.old ++ verbatim character) }
{
    if character.is_ascii_punctuation() && !(character == '<' || character == '>') {
        out.push('\\')?;
        out.push(character)?;
        return Ok(());
    }
    out.push(character)?;
    Ok(())
}

/// Writes a property, or all that hasn't it.
fn write_property(out: &mut String, negated: bool, name: Name) -> Result<(), AllocError>
    ensures { OnOk result (string_bytes out.new ≡ string_bytes out.old ++ property_bytes negated name) }
{
    out.push_str(if negated { r"\P{" } else { r"\p{" })?;
    out.push_str(sign(name.property))?;
    out.push_str(spelling(name))?;
    out.push('}')?;
    Ok(())
}

/// Writes a set.
pub fn write_set(out: &mut String, set: Set) -> Result<(), AllocError>
    ensures { OnOk result (string_bytes out.new ≡ string_bytes out.old ++ set_bytes set) }
{
    match set {
        Set::Dot => out.push_str(r"[^\n\r\x{2028}\x{2029}]")?,
        Set::Digit => out.push_str("[0-9]")?,
        Set::NoDigit => out.push_str("[^0-9]")?,
        Set::Space => out.push_str(
            r"[\t-\r \x{A0}\x{1680}\x{2000}-\x{200A}\x{2028}\x{2029}\x{202F}\x{205F}\x{3000}\x{FEFF}]",
        )?,
        Set::NoSpace => out.push_str(
            r"[^\t-\r \x{A0}\x{1680}\x{2000}-\x{200A}\x{2028}\x{2029}\x{202F}\x{205F}\x{3000}\x{FEFF}]",
        )?,
        Set::Word => out.push_str("[0-9A-Za-z_]")?,
        Set::NoWord => out.push_str("[^0-9A-Za-z_]")?,
        Set::Property(negated, name) => write_property(out, negated, name)?,
    }
    Ok(())
}

/// Writes an atom.
pub fn write_atom(out: &mut String, atom: Atom) -> Result<(), AllocError>
    ensures { OnOk result (string_bytes out.new ≡ string_bytes out.old ++ atom_bytes atom) }
{
    match atom {
        Atom::Character(character) => write_character(out, character)?,
        Atom::Named(set) => write_set(out, set)?,
    }
    Ok(())
}

/// Writes a member of a class.
pub fn write_member(out: &mut String, member: Member) -> Result<(), AllocError>
    ensures { OnOk result (string_bytes out.new ≡ string_bytes out.old ++ member_bytes member) }
{
    match member {
        Member::Single(atom) => write_atom(out, atom)?,
        Member::Range(low, high) => {
            write_character(out, low)?;
            out.push('-')?;
            write_character(out, high)?;
        }
        Member::Beside(low, high) => {
            write_atom(out, low)?;
            out.push_str(r"\-")?;
            write_atom(out, high)?;
        }
    }
    Ok(())
}
