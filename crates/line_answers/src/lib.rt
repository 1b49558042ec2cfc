//! The answers to the lines of a stream, as text: `line`, the line's number, counted from 0, what is said of it, and a line feed.
#![tactic(auto)]

ghost use Rattle.std.specs.Prelude.{◌≡◌, ◌++◌, ◌∷◌, [], IfOk, string_bytes, codes, decimal, false};
ghost use Rattle.serde_json.specs.Written.{has_float};
ghost use Rattle.serde_json.specs.View.{view};
ghost use Rattle.line_answers.specs.Answers.{answer_line, long, not_json, wide, taken, refused, place_text};

use schema_tree::{Location, json_string};
use serde_json::Value;
use std::alloc::{AllocError, Global};

/// The answer to a line that is too long: `long`.
pub fn long_line(alloc: Global, index: u64) -> Result<String, AllocError>
    ensures { IfOk result (λ s. string_bytes s ≡ answer_line index long) }
{
    line_of(alloc, index, " long")
}

/// The answer to a line that isn't JSON: `not-json`.
pub fn not_json_line(alloc: Global, index: u64) -> Result<String, AllocError>
    ensures { IfOk result (λ s. string_bytes s ≡ answer_line index not_json) }
{
    line_of(alloc, index, " not-json")
}

/// The answer to a value with a number that isn't an i64: `number`, and its place.
pub fn number_line(alloc: Global, index: u64, path: &Location) -> Result<String, AllocError>
    ensures { IfOk result (λ s. string_bytes s ≡ answer_line index (wide path.now)) }
{
    place_line(alloc, index, " number ", path)
}

/// The answer to a value that is taken: `taken`, and the value as it is written back.
pub fn taken_line(alloc: Global, index: u64, written: &Value) -> Result<String, AllocError>
    requires { has_float (view written.now) ≡ false }
    ensures { IfOk result (λ s. string_bytes s ≡ answer_line index (taken (view written.now))) }
{
    let mut said = String::from_str(alloc, " taken ")?;
    said.push_str(&written.to_string(alloc)?)?;
    line_of(alloc, index, &said)
}

/// The answer to a value that is refused: `refused`, and the place where reading stops.
pub fn refused_line(alloc: Global, index: u64, path: &Location) -> Result<String, AllocError>
    ensures { IfOk result (λ s. string_bytes s ≡ answer_line index (refused path.now)) }
{
    place_line(alloc, index, " refused ", path)
}

// What is said of a place, and the place as a JSON string.
fn place_line(alloc: Global, index: u64, said: &str, path: &Location) -> Result<String, AllocError>
    ensures { IfOk result (λ s. string_bytes s ≡ codes "line " ++ decimal index ++ (said.now ++ place_text path.now) ++ 10 ∷ []) }
{
    let mut text = String::from_str(alloc, said)?;
    let place = path.text(alloc)?;
    text.push_str(&json_string(alloc, &place)?)?;
    line_of(alloc, index, &text)
}

// `line`, the number, what is said of it, and a line feed.
fn line_of(alloc: Global, index: u64, said: &str) -> Result<String, AllocError>
    ensures { IfOk result (λ s. string_bytes s ≡ codes "line " ++ decimal index ++ said.now ++ 10 ∷ []) }
{
    let number = index.to_string(alloc)?;
    let mut line = String::from_str(alloc, "line ")?;
    line.push_str(&number)?;
    line.push_str(said)?;
    line.push_str("\n")?;
    Ok(line)
}
