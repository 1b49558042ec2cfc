//! Keywords of texts, and the keywords of one kind of value that hold no schema.
ghost use Rattle.std.specs.Prelude.{◌≡◌, ◌≤◌, IfOk, IsErrOf, option_map, string_bytes};
ghost use Rattle.schema_defs.specs.Faults.{Rises};
ghost use Rattle.schema_defs.specs.Layer.{if_given, has_any as has_any_in, text_format_agrees, texts_agree as texts_say};
ghost use Rattle.json_value.specs.View.{kept_view};
ghost use Rattle.schema_types.specs.View.{numbers_view, object_view, properties_view, texts_view};
ghost use Rattle.schema_admission.specs.Judging.{kind_agrees as kind_says, number_agrees as number_says, plain_part, text_length};

use crate::plain::{all_of, is_listed, number_has_format, numbers_agree, types_agree};
use schema_texts::{count_characters, format_named, has_each, is_within};
use schema_tree::{Format, TextFault, Texts};
use schema_types::{NumberValidation, Schema, SchemaObject, StringValidation, is_constant};
use serde_json::Value;
use std::collections::BTreeMap;

fn has_length(rules: &StringValidation, text: &str) -> bool
    ensures { result ≡ text_length text.now (texts_view rules.now) }
{
    is_within(rules.min_length, rules.max_length, count_characters(text))
}

fn text_follows<T: Texts>(
    texts: &mut T,
    rules: &Option<StringValidation>,
    text: &str,
) -> Result<bool, TextFault>
    ensures answer { IfOk result (λ b. b ≡ if_given (texts_say (T.relations texts.old) text.now) (option_map texts_view rules.now)) }
    ensures keeps { T.relations texts.new ≡ T.relations texts.old }
    ensures failed { IsErrOf result TextFault.Failed → Rises (T.faults texts.old) (T.faults texts.new) }
    ensures counts { T.faults texts.old ≤ T.faults texts.new }
{
    match rules {
        Some(rules) => {
            let has_patterns = has_each(&rules.patterns, text, texts)?;
            Ok(has_length(rules, text) && has_patterns)
        }
        None => Ok(true),
    }
}

fn text_has_format<T: Texts>(
    texts: &mut T,
    format: &Option<String>,
    text: &str,
) -> Result<bool, TextFault>
    ensures answer { IfOk result (λ b. b ≡ if_given (text_format_agrees (T.relations texts.old) text.now) (option_map string_bytes format.now)) }
    ensures keeps { T.relations texts.new ≡ T.relations texts.old }
    ensures failed { IsErrOf result TextFault.Failed → Rises (T.faults texts.old) (T.faults texts.new) }
    ensures counts { T.faults texts.old ≤ T.faults texts.new }
{
    let Some(name) = format else {
        return Ok(true);
    };
    match format_named(name) {
        Some(format) => {
            let answer = texts.has_format(format, text)?;
            Ok(answer)
        }
        None => Ok(true),
    }
}

/// Whether any of the names of patterns is matched.
pub fn has_any<T: Texts>(
    texts: &mut T,
    patterns: &BTreeMap<String, Schema>,
    name: &str,
) -> Result<bool, TextFault>
    ensures answer { IfOk result (λ b. b ≡ has_any_in (λ q. (T.relations texts.old).matches q name.now) (properties_view patterns.now.entries)) }
    ensures keeps { T.relations texts.new ≡ T.relations texts.old }
    ensures failed { IsErrOf result TextFault.Failed → Rises (T.faults texts.old) (T.faults texts.new) }
    ensures counts { T.faults texts.old ≤ T.faults texts.new }
{
    for (pattern, _) in patterns.iter() {
        if texts.has_pattern(pattern, name)? {
            return Ok(true);
        }
    }
    Ok(false)
}

fn number_agrees(numbers: &Option<NumberValidation>, format: &Option<String>, number: i128) -> bool
    ensures { result ≡ number_says number (option_map numbers_view numbers.now) (option_map string_bytes format.now) }
{
    let has_format = match format {
        Some(format) => number_has_format(format, number),
        None => true,
    };
    numbers_agree(numbers, number) && has_format
}

// The keywords of numbers at a number, of texts at a text, and the format.
fn kind_agrees<T: Texts>(
    texts: &mut T,
    numbers: &Option<NumberValidation>,
    rules: &Option<StringValidation>,
    format: &Option<String>,
    value: &Value,
) -> Result<bool, TextFault>
    ensures answer { IfOk result (λ b. b ≡ kind_says (T.relations texts.old) (option_map numbers_view numbers.now) (option_map texts_view rules.now) (option_map string_bytes format.now) (kept_view value.now)) }
    ensures keeps { T.relations texts.new ≡ T.relations texts.old }
    ensures failed { IsErrOf result TextFault.Failed → Rises (T.faults texts.old) (T.faults texts.new) }
    ensures counts { T.faults texts.old ≤ T.faults texts.new }
{
    match value {
        Value::Number(number) => match number.as_i128() {
            Some(number) => Ok(number_agrees(numbers, format, number)),
            None => Ok(true),
        },
        Value::String(text) => {
            let follows = text_follows(texts, rules, text)?;
            let has_format = text_has_format(texts, format, text)?;
            Ok(follows && has_format)
        }
        _ => Ok(true),
    }
}

/// The keywords of an object that hold no schema.
pub fn plain_agrees<T: Texts>(
    texts: &mut T,
    object: &SchemaObject,
    value: &Value,
) -> Result<bool, TextFault>
    ensures answer { IfOk result (λ b. b ≡ plain_part (T.relations texts.old) (kept_view value.now) (object_view object.now)) }
    ensures keeps { T.relations texts.new ≡ T.relations texts.old }
    ensures failed { IsErrOf result TextFault.Failed → Rises (T.faults texts.old) (T.faults texts.new) }
    ensures counts { T.faults texts.old ≤ T.faults texts.new }
{
    let types = types_agree(&object.types, value);
    let listed = is_listed(&object.enum_values, value);
    let constant = is_constant(&object.const_value, value);
    let kind = kind_agrees(texts, &object.number, &object.string, &object.format, value)?;
    Ok(all_of(types, listed, constant, kind))
}
