//! Properties of Unicode that a pattern names.
ghost use Rattle.std.specs.Prelude.{◌≡◌, ◌≤◌, ◌==◌, bytes_eq, length, position, IfSome, option_map};
ghost use Rattle.std.specs.Option.{option_or};
ghost use Rattle.plain_patterns.specs.Plain.{len_before, named as named_by, property as property_of, property_braced, property_before};
ghost use Rattle.plain_patterns.specs.Properties.{name_in, names, property_named, script_named, value_named};
ghost use Rattle.plain_patterns.specs.declared.table.Property.TheVariants.{Binary, GeneralCategory};

use crate::atom::{Atom, Set};
use crate::class::begins;
use crate::table::{Name, Property, Table, names_of};

/// Whether the text is spelled like the name.
fn spells(name: &str, text: &[char]) -> bool
    ensures { result ≡ bytes_eq name.now text.now }
{
    are_spelled(name.as_bytes(), text)
}

fn are_spelled(bytes: &[u8], text: &[char]) -> bool
    ensures { result ≡ bytes_eq bytes.now text.now }
{
    let mut left = text;
    for byte in bytes {
        match left.split_first() {
            Some((first, rest)) if *first as u32 == *byte as u32 => left = rest,
            _ => return false,
        }
    }
    left.is_empty()
}

fn place_among(names: &[&str], text: &[char]) -> Option<usize>
    ensures { result ≡ position (λ n. bytes_eq n.now text.now) names.now }
{
    names.iter().position(|name| spells(name, text))
}

/// The place of the text among the names of a table.
fn place_in(table: Table, text: &[char]) -> Option<usize>
    ensures { result ≡ position (λ n. bytes_eq n text.now) (names table) }
{
    place_among(names_of(table), text)
}

fn name_in(property: Property, table: Table, text: &[char]) -> Option<Name>
    ensures { result ≡ name_in property table text.now }
{
    let place = place_in(table, text)?;
    Some(Name {
        property,
        table,
        place,
    })
}

fn script_named(property: Property, text: &[char]) -> Option<Name>
    ensures { result ≡ script_named property text.now }
{
    match name_in(property, Table::ScriptCodes, text) {
        Some(name) => Some(name),
        None => name_in(property, Table::ScriptNames, text),
    }
}

/// The value of a property, or the property without values, that is named so.
fn value_named(property: Property, text: &[char]) -> Option<Name>
    ensures { result ≡ value_named property text.now }
{
    match property {
        Property::GeneralCategory => name_in(Property::GeneralCategory, Table::Categories, text),
        Property::Script => script_named(Property::Script, text),
        Property::ScriptExtensions => script_named(Property::ScriptExtensions, text),
        Property::Binary => name_in(Property::Binary, Table::BinaryNames, text),
    }
}

/// The property with this name, of those that have values.
fn property_named(text: &[char]) -> Option<Property>
    ensures { result ≡ property_named text.now }
{
    if spells("General_Category", text) || spells("gc", text) {
        return Some(Property::GeneralCategory);
    }
    if spells("Script", text) || spells("sc", text) {
        return Some(Property::Script);
    }
    if spells("Script_Extensions", text) || spells("scx", text) {
        return Some(Property::ScriptExtensions);
    }
    None
}

fn first_at(sign: char, text: &[char]) -> Option<usize>
    ensures { result ≡ position (λ c. c == sign) text.now }
{
    text.iter().position(|character| *character == sign)
}

/// How many characters stand before the first such sign, or all.
#[tactic(auto, using(crate::proofs::Digits::position_else_length))]
fn len_before(sign: char, text: &[char]) -> usize
    ensures value { result ≡ len_before sign text.now }
    ensures within { result ≤ length text.now }
{
    first_at(sign, text).unwrap_or(text.len())
}

/// The general category, or else the property without values, that is named so.
fn named_alone(text: &[char]) -> Option<Name>
    ensures { result ≡ option_or (value_named GeneralCategory text.now) (value_named Binary text.now) }
{
    match value_named(Property::GeneralCategory, text) {
        Some(name) => Some(name),
        None => value_named(Property::Binary, text),
    }
}

/// What is named between the braces.
fn named(text: &[char]) -> Option<Name>
    ensures { result ≡ named_by text.now }
{
    let count = len_before('=', text);
    if !begins(&text[count..], '=') {
        return named_alone(text);
    }
    let property = property_named(&text[..count])?;
    value_named(property, &text[count + 1..])
}

fn property_before<'a>(negated: bool, name: &[char], rest: &'a [char]) -> Option<(Atom, &'a [char])>
    ensures value { option_map (λ p. (p.0, p.1.now)) result ≡ property_before negated (named_by name.now) rest.now }
    ensures shorter { IfSome result (λ p. length p.1.now ≤ length rest.now) }
{
    let name = named(name)?;
    Some((Atom::Named(Set::Property(negated, name)), rest))
}

/// The property up to the brace that closes its name.
fn property_braced(negated: bool, text: &[char]) -> Option<(Atom, &[char])>
    ensures value { option_map (λ p. (p.0, p.1.now)) result ≡ property_braced negated text.now }
    ensures shorter { IfSome result (λ p. length p.1.now ≤ length text.now) }
{
    let count = len_before('}', text);
    if !begins(&text[count..], '}') {
        return None;
    }
    property_before(negated, &text[..count], &text[count + 1..])
}

#[tactic(auto, unfolding(crate::specs::Plain::property))]
/// The property that is named in braces behind `p` or `P`.
pub fn property(negated: bool, text: &[char]) -> Option<(Atom, &[char])>
    ensures value { option_map (λ p. (p.0, p.1.now)) result ≡ property_of negated text.now }
    ensures shorter { IfSome result (λ p. length p.1.now ≤ length text.now) }
{
    if !begins(text, '{') {
        return None;
    }
    property_braced(negated, &text[1..])
}
