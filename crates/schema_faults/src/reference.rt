//! References, and where they lead.

ghost use Rattle.std.specs.Prelude.{◌≡◌, ◌++◌, ℕ, List, IfOk, filter, not, option_map, Some, None, if◌then◌else◌, false, codes, string_bytes, encode_utf8};
ghost use Rattle.serde_json.specs.View.{view};
ghost use Rattle.json_value.specs.View.{value_of};
ghost use Rattle.schema_defs.specs.Admits.{definition_name as definition_name_of, first_of, without_prefix};
ghost use Rattle.schema_defs.specs.Location.{after_tilde, unescaped as unescaped_text};
ghost use Rattle.schema_faults.specs.Table.{left_after};
ghost use Rattle.schema_faults.specs.Faults.{defines as defines_name, first, leads as leads_to, references_in};

use crate::members::{defines, member};
use serde_json::Value;
use std::alloc::{AllocError, Global};

/// The text of the schema's reference, where it names neither the root nor a definition of the document.
pub(crate) fn bad_reference<'v>(
    alloc: Global,
    document: &Value,
    schema: &'v Value,
) -> Result<Option<&'v str>, AllocError>
    ensures { IfOk result (λ o. option_map (λ t. t.now) o ≡ first (filter (λ q. not (leads_to (value_of (view document.now)) q)) (references_in (value_of (view schema.now))))) }
{
    match reference(schema) {
        Some(text) => unless_leading(alloc, document, text),
        None => Ok(None),
    }
}

fn unless_leading<'v>(
    alloc: Global,
    document: &Value,
    text: &'v str,
) -> Result<Option<&'v str>, AllocError>
    ensures { IfOk result (λ o. option_map (λ t. t.now) o ≡ (if leads_to (value_of (view document.now)) text.now then None else Some text.now)) }
{
    if leads(alloc, document, text)? {
        Ok(None)
    } else {
        Ok(Some(text))
    }
}

fn reference(schema: &Value) -> Option<&str>
    ensures { option_map (λ t. t.now) result ≡ first (references_in (value_of (view schema.now))) }
{
    match schema {
        Value::Object(members) => match member(members, "$ref") {
            Some(Value::String(text)) => Some(text.as_str()),
            _ => None,
        },
        _ => None,
    }
}

/// Whether the reference names the root or a definition of the document.
pub(crate) fn leads(alloc: Global, document: &Value, text: &str) -> Result<bool, AllocError>
    ensures { IfOk result (λ b. b ≡ leads_to (value_of (view document.now)) text.now) }
{
    if text == "#" {
        return Ok(true);
    }
    match definition_name(alloc, text)? {
        Some(name) => Ok(has_definition(document, &name)),
        None => Ok(false),
    }
}

fn has_definition(document: &Value, name: &str) -> bool
    ensures { result ≡ defines_name (value_of (view document.now)) name.now }
{
    match document {
        Value::Object(members) => {
            defines(members, "$defs", name) || defines(members, "definitions", name)
        }
        _ => false,
    }
}

// The name in `#/definitions/name` or `#/$defs/name`.
fn definition_name(alloc: Global, text: &str) -> Result<Option<String>, AllocError>
    ensures { IfOk result (λ o. option_map string_bytes o ≡ definition_name_of text.now) }
{
    match escaped_name(text) {
        Some(name) => Ok(Some(unescaped(alloc, name)?)),
        None => Ok(None),
    }
}

fn escaped_name(text: &str) -> Option<&str>
    ensures { option_map (λ t. t.now) result ≡ first_of (without_prefix (codes "#/definitions/") text.now) (without_prefix (codes "#/$defs/") text.now) }
{
    match without(text, "#/definitions/") {
        Some(name) => Some(name),
        None => without(text, "#/$defs/"),
    }
}

fn without<'t>(text: &'t str, prefix: &str) -> Option<&'t str>
    ensures { option_map (λ t. t.now) result ≡ without_prefix prefix.now text.now }
{
    text.strip_prefix(prefix)
}

// `~1` is `/`, `~0` is `~`, and any other character is itself.
fn unescaped(alloc: Global, text: &str) -> Result<String, AllocError>
    ensures { IfOk result (λ s. string_bytes s ≡ unescaped_text text.now) }
{
    let mut name = String::new(alloc);
    let mut pending = false;
    for c in text.chars() {
        pending = push_unescaped(&mut name, pending, c)?;
    }
    if pending {
        name.push('~')?;
    }
    Ok(name)
}

// Writes a character, where `pending` says that a `~` stands before it that isn't written yet; answers whether it is one.
fn push_unescaped(name: &mut String, pending: bool, c: char) -> Result<bool, AllocError>
    ensures { IfOk result (λ b. (rest : List ℕ) → string_bytes name.old ++ left_after pending (encode_utf8 c ++ rest) ≡ string_bytes name.new ++ left_after b rest) }
{
    if pending {
        push_after_tilde(name, c)
    } else {
        push_plain(name, c)
    }
}

fn push_plain(name: &mut String, c: char) -> Result<bool, AllocError>
    ensures { IfOk result (λ b. (rest : List ℕ) → string_bytes name.old ++ unescaped_text (encode_utf8 c ++ rest) ≡ string_bytes name.new ++ left_after b rest) }
{
    if c == '~' {
        return Ok(true);
    }
    name.push(c)?;
    Ok(false)
}

fn push_after_tilde(name: &mut String, c: char) -> Result<bool, AllocError>
    ensures { IfOk result (λ b. (rest : List ℕ) → string_bytes name.old ++ after_tilde (encode_utf8 c ++ rest) ≡ string_bytes name.new ++ left_after b rest) }
{
    match c {
        '0' => name.push('~')?,
        '1' => name.push('/')?,
        '~' => {
            name.push('~')?;
            return Ok(true);
        }
        _ => {
            name.push('~')?;
            name.push(c)?;
        }
    }
    Ok(false)
}
